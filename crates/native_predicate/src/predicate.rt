//! A predicate on values.

ghost use Rattle.std.specs.Prelude.{◌≡◌, ◌<◌, ℕ, Bool, List, length};
ghost use Rattle.attr_value.specs.Values.{Value};
ghost use Rattle.attr_value.specs.Ids.{at};

use attr_uniquer::Uniquer;
use attr_value::ValueId;

/// A property of values, under a name.
pub trait NativePredicate: Drop {
    /// The bytes of its name.
    ghost title: { Self → List ℕ };

    /// Whether a value has the property.
    ghost property: { Self → Value → Bool };

    /// Its name. It takes no memory.
    fn name(&self) -> &str
        ensures { result.now ≡ title self.now };

    /// Whether a value has the property. It takes no memory.
    fn holds(&self, u: &Uniquer, v: ValueId) -> bool
        requires { v.0 < length u.now }
        ensures { result ≡ property self.now (at u.now v.0) };
}
