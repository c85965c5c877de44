//! The rule that a value keeps to, whatever dialects define.

ghost use Rattle.std.specs.Prelude.{◌↔◌, length, IsTrue};
ghost use Rattle.std.specs.List.{AllByRecursion};
ghost use Rattle.attr_value.specs.Heads.{IsType, is_made_of_types, OwnRule};
ghost use Rattle.attr_value.specs.Ids.{kids_at, AreKnown};
ghost use Rattle.attr_value.specs.Values.{list_of};

use crate::uniquer::Uniquer;
use attr_value::{Head, ValueId};

impl Uniquer {
    /// Whether a value of this head and these kids keeps to its head's rule. The value itself need
    /// not be in the table. It takes no memory.
    pub fn keeps_own_rule(&self, head: &Head, kids: &[ValueId]) -> bool
        requires { AreKnown (length self.now) kids.now }
        ensures { IsTrue result ↔ OwnRule head.now (list_of (kids_at self.now kids.now)) }
    {
        if !head.kids_ok(kids.len()) {
            return false;
        }
        if !kids_are_right(self, head, kids) {
            return false;
        }
        head.is_right()
    }
}

/// Whether the kids are types where the head asks for it.
fn kids_are_right(u: &Uniquer, head: &Head, kids: &[ValueId]) -> bool
    requires { AreKnown (length u.now) kids.now }
    ensures { IsTrue result ↔ (IsTrue (is_made_of_types head.now)
        → AllByRecursion IsType (list_of (kids_at u.now kids.now))) }
{
    if !head.is_made_of_types() {
        return true;
    }
    are_types(u, kids)
}

/// Whether each of some values is a type.
fn are_types(u: &Uniquer, ids: &[ValueId]) -> bool
    requires { AreKnown (length u.now) ids.now }
    ensures { IsTrue result ↔ AllByRecursion IsType (list_of (kids_at u.now ids.now)) }
{
    for id in ids {
        let (head, _) = u.view(*id);
        if !head.is_type() {
            return false;
        }
    }
    true
}
