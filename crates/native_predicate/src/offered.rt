//! The predicates that come with the program.

ghost use Rattle.std.specs.Prelude.{◌≡◌};
ghost use Rattle.std.specs.List.{list_all};
ghost use Rattle.native_predicate.specs.Meanings.{is_known};

use crate::predicate::NativePredicate;
use attr_uniquer::Uniquer;
use attr_value::{Dim, Head, IntKind, ValueId};

/// `is_type`, which holds of every type.
#[derive(Drop)]
pub struct IsType;

impl IsType {
    /// The predicate. It takes no memory.
    pub fn new() -> IsType {
        IsType
    }
}

impl NativePredicate for IsType {
    ghost use Rattle.std.specs.Prelude.{codes};
    ghost use Rattle.native_predicate.specs.Meanings.{is_type};

    ghost title = { λ it. codes "is_type" };

    ghost property = { λ it. is_type };

    fn name(&self) -> &str {
        "is_type"
    }

    fn holds(&self, u: &Uniquer, v: ValueId) -> bool {
        let (head, _) = u.view(v);
        head.is_type()
    }
}

/// `is_float`, which holds of float types.
#[derive(Drop)]
pub struct IsFloat;

impl IsFloat {
    /// The predicate. It takes no memory.
    pub fn new() -> IsFloat {
        IsFloat
    }
}

impl NativePredicate for IsFloat {
    ghost use Rattle.std.specs.Prelude.{codes};
    ghost use Rattle.native_predicate.specs.Meanings.{is_float};

    ghost title = { λ it. codes "is_float" };

    ghost property = { λ it. is_float };

    fn name(&self) -> &str {
        "is_float"
    }

    fn holds(&self, u: &Uniquer, v: ValueId) -> bool {
        let (head, _) = u.view(v);
        matches!(head, Head::Float(_))
    }
}

/// `is_signless`, which holds of signless integer types.
#[derive(Drop)]
pub struct IsSignless;

impl IsSignless {
    /// The predicate. It takes no memory.
    pub fn new() -> IsSignless {
        IsSignless
    }
}

impl NativePredicate for IsSignless {
    ghost use Rattle.std.specs.Prelude.{codes};
    ghost use Rattle.native_predicate.specs.Meanings.{is_signless};

    ghost title = { λ it. codes "is_signless" };

    ghost property = { λ it. is_signless };

    fn name(&self) -> &str {
        "is_signless"
    }

    fn holds(&self, u: &Uniquer, v: ValueId) -> bool {
        let (head, _) = u.view(v);
        matches!(head, Head::Int(IntKind::Signless(_)))
    }
}

/// `is_positive`, which holds of numbers whose kept number is greater than 0.
#[derive(Drop)]
pub struct IsPositive;

impl IsPositive {
    /// The predicate. It takes no memory.
    pub fn new() -> IsPositive {
        IsPositive
    }
}

impl NativePredicate for IsPositive {
    ghost use Rattle.std.specs.Prelude.{codes};
    ghost use Rattle.native_predicate.specs.Meanings.{is_positive};

    ghost title = { λ it. codes "is_positive" };

    ghost property = { λ it. is_positive };

    fn name(&self) -> &str {
        "is_positive"
    }

    fn holds(&self, u: &Uniquer, v: ValueId) -> bool {
        match u.view(v) {
            (Head::Number { n, .. }, _) => *n > 0,
            _ => false,
        }
    }
}

/// `is_nonempty`, which holds of strings of at least one byte.
#[derive(Drop)]
pub struct IsNonempty;

impl IsNonempty {
    /// The predicate. It takes no memory.
    pub fn new() -> IsNonempty {
        IsNonempty
    }
}

impl NativePredicate for IsNonempty {
    ghost use Rattle.std.specs.Prelude.{codes};
    ghost use Rattle.native_predicate.specs.Meanings.{is_nonempty};

    ghost title = { λ it. codes "is_nonempty" };

    ghost property = { λ it. is_nonempty };

    fn name(&self) -> &str {
        "is_nonempty"
    }

    fn holds(&self, u: &Uniquer, v: ValueId) -> bool {
        match u.view(v) {
            (Head::Str(text), _) => !text.bytes().is_empty(),
            _ => false,
        }
    }
}

/// `is_static`, which holds of shaped types without an unknown dimension.
#[derive(Drop)]
pub struct IsStatic;

impl IsStatic {
    /// The predicate. It takes no memory.
    pub fn new() -> IsStatic {
        IsStatic
    }
}

impl NativePredicate for IsStatic {
    ghost use Rattle.std.specs.Prelude.{codes};
    ghost use Rattle.native_predicate.specs.Meanings.{is_static};

    ghost title = { λ it. codes "is_static" };

    ghost property = { λ it. is_static };

    fn name(&self) -> &str {
        "is_static"
    }

    fn holds(&self, u: &Uniquer, v: ValueId) -> bool {
        match u.view(v) {
            (Head::Shaped { dims, .. }, _) => are_known(dims.as_slice()),
            _ => false,
        }
    }
}

/// Whether no dimension is unknown.
fn are_known(dims: &[Dim]) -> bool
    ensures { result ≡ list_all is_known dims.now }
{
    dims.iter().all(|dim| matches!(dim, Dim::Known(_)))
}
