//! The values that an operation asks of the variables of its definition's body.

ghost use Rattle.std.specs.Prelude.{◌≡◌, ◌<◌, ◌≤◌, length, true, None};
ghost use Rattle.std.specs.List.{AllByRecursion};
ghost use Rattle.attr_value.specs.Ids.{at};
ghost use Rattle.dialect_defs.specs.Assignments.{Has};
ghost use Rattle.constraint_solver.specs.Roots.{AreKnownIds};

use arrayvec::ArrayVec;
use attr_uniquer::Uniquer;
use attr_value::ValueId;
use dialect_defs::{VARIABLE_LIMIT, VarId};

/// For each variable of a body the value that is asked of it, if one is. The values are those of a
/// table.
#[derive(Drop)]
pub(crate) struct Wanted<'u> {
    pub(crate) u: &'u Uniquer,
    pub(crate) slots: ArrayVec<Option<ValueId>, VARIABLE_LIMIT>,
    pub(crate) ghost known: { AreKnownIds (length u.now) slots.items },
}

impl<'u> Wanted<'u> {
    ghost use Rattle.op_verifier.specs.Asked.{Asked};

    /// Nothing is asked of so many variables.
    pub(crate) fn new(u: &'u Uniquer, count: usize) -> Wanted<'u>
        requires { count ≤ VARIABLE_LIMIT }
        ensures table { result.u.now ≡ u.now }
        ensures size { length result.slots.items ≡ count }
        ensures none { AllByRecursion (λ slot. slot ≡ None) result.slots.items }
    {
        let mut slots = ArrayVec::new();
        for _ in 0..count {
            slots.push(None);
        }
        Wanted { u, slots }
    }

    /// Asks a value of a variable. Whether no other was asked of it before.
    pub(crate) fn ask(&mut self, var: VarId, id: ValueId) -> bool
        requires var { var.0 < length self.old.slots.items }
        requires id { id.0 < length self.old.u.now }
        ensures { Asked self.old self.new result
            (λ a. Has a var (at self.old.u.now id.0)) }
    {
        match self.slots[var.0] {
            None => {
                self.slots[var.0] = Some(id);
                true
            }
            Some(other) => self.u.same(other, id),
        }
    }
}
