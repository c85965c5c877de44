//! Giving values to variables.

ghost use Rattle.std.specs.Prelude.{◌≡◌, ℕ, ◌<◌, ◌≤◌, length, None, false, slice_index_or};
ghost use Rattle.std.specs.List.{AllByRecursion};
ghost use Rattle.attr_value.specs.Ids.{at, kids_at, AreKnown};
ghost use Rattle.attr_value.specs.Values.{list_of};
ghost use Rattle.dialect_defs.specs.Assignments.{Has, HaveEach};
ghost use Rattle.dialect_defs.specs.Bodies.{AreBelow};
ghost use Rattle.dialect_defs.specs.Goodness.{vars_of};
ghost use Rattle.constraint_solver.specs.Roots.{HasRoots, AreKnownIds};
ghost use Rattle.constraint_solver.specs.Search.{Forces};

use attr_uniquer::Uniquer;
use attr_value::ValueId;
use dialect_defs::{Entry, VARIABLE_LIMIT, VarId};

/// The ids of the values that variables have so far.
#[derive(Clone, Copy, Drop)]
pub struct Slots {
    pub ids: [Option<ValueId>; VARIABLE_LIMIT],
}

/// No variable has a value.
pub fn empty_slots() -> Slots
    ensures { (v : ℕ) → slice_index_or result.ids v None ≡ None }
{
    Slots {
        ids: [None; VARIABLE_LIMIT],
    }
}

/// Gives a variable below `n` a value, unless it has another.
pub fn assign(u: &Uniquer, n: usize, slots: &mut Slots, var: VarId, id: ValueId) -> bool
    requires slots { AreKnownIds (length u.now) slots.old.ids }
    requires id { id.0 < length u.now }
    requires below { var.0 < n }
    requires within { n ≤ VARIABLE_LIMIT }
    ensures { Forces n u.now slots.old.ids slots.new.ids result
        (λ a. Has a var (at u.now id.0)) }
{
    match slots.ids[var.0] {
        None => {
            slots.ids[var.0] = Some(id);
            true
        }
        Some(other) => u.same(other, id),
    }
}

/// Gives each variable of a list the same value, unless one has another.
pub fn assign_all(u: &Uniquer, n: usize, slots: &mut Slots, vars: &[VarId], id: ValueId) -> bool
    requires slots { AreKnownIds (length u.now) slots.old.ids }
    requires id { id.0 < length u.now }
    requires below { AreBelow n vars.now }
    requires within { n ≤ VARIABLE_LIMIT }
    ensures { Forces n u.now slots.old.ids slots.new.ids result
        (λ a. AllByRecursion (λ v. Has a v (at u.now id.0)) vars.now) }
{
    for var in vars {
        if !assign(u, n, slots, *var, id) {
            return false;
        }
    }
    true
}

/// Gives each variable of a list the value at its place, unless one has another.
pub fn assign_each(
    u: &Uniquer,
    n: usize,
    slots: &mut Slots,
    vars: &[VarId],
    kids: &[ValueId],
) -> bool
    requires slots { AreKnownIds (length u.now) slots.old.ids }
    requires kids { AreKnown (length u.now) kids.now }
    requires lengths { length vars.now ≡ length kids.now }
    requires below { AreBelow n vars.now }
    requires within { n ≤ VARIABLE_LIMIT }
    ensures { Forces n u.now slots.old.ids slots.new.ids result
        (λ a. HaveEach a vars.now (list_of (kids_at u.now kids.now))) }
{
    for (i, var) in vars.iter().enumerate() {
        if !assign(u, n, slots, *var, kids[i]) {
            return false;
        }
    }
    true
}

/// Gives the variable of each parameter the value at its place, unless one has another.
pub fn assign_params(
    u: &Uniquer,
    n: usize,
    slots: &mut Slots,
    params: &[Entry],
    kids: &[ValueId],
) -> bool
    requires slots { AreKnownIds (length u.now) slots.old.ids }
    requires kids { AreKnown (length u.now) kids.now }
    requires lengths { length params.now ≡ length kids.now }
    requires below { AreBelow n (vars_of params.now) }
    requires within { n ≤ VARIABLE_LIMIT }
    ensures { Forces n u.now slots.old.ids slots.new.ids result
        (λ a. HaveEach a (vars_of params.now) (list_of (kids_at u.now kids.now))) }
{
    for (i, param) in params.iter().enumerate() {
        if !assign(u, n, slots, param.var, kids[i]) {
            return false;
        }
    }
    true
}

/// Gives each root's variable the root's value, unless one has another.
pub fn assign_roots(u: &Uniquer, n: usize, slots: &mut Slots, roots: &[(VarId, ValueId)]) -> bool
    requires slots { AreKnownIds (length u.now) slots.old.ids }
    requires vars { AllByRecursion (λ root. root.0.0 < n) roots.now }
    requires ids { AllByRecursion (λ root. root.1.0 < length u.now) roots.now }
    requires within { n ≤ VARIABLE_LIMIT }
    ensures { Forces n u.now slots.old.ids slots.new.ids result
        (HasRoots u.now roots.now) }
{
    for root in roots {
        if !assign(u, n, slots, root.0, root.1) {
            return false;
        }
    }
    true
}
