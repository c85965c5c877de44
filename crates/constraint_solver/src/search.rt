//! The search for an assignment.

ghost use Rattle.std.specs.Prelude.{◌≡◌, ◌<◌, ◌≤◌, Some, length, slice_get, IsTrue, IfSome};
ghost use Rattle.std.specs.Prelude.{IfNone, false};
ghost use Rattle.dialect_defs.specs.Assignments.{MeetsBody};
ghost use Rattle.dialect_defs.specs.Bodies.{IsSoundBody};
ghost use Rattle.native_predicate.specs.Lists.{tests, count};
ghost use Rattle.constraint_solver.specs.Roots.{HasRoots, AreRoots, assigned, AreKnownIds};
ghost use Rattle.constraint_solver.specs.Search.{MeetsBelow, Refuted, Solved};

use crate::assign::{Slots, assign, assign_roots, empty_slots};
use crate::assignment::Assignment;
use crate::force::force;
use attr_uniquer::Uniquer;
use attr_value::ValueId;
use dialect_defs::{Body, Constraint, VARIABLE_LIMIT, VarId};
use native_predicate::Natives;

/// The constraint of a variable.
fn constraint_at(body: &Body, v: usize) -> &Constraint
    requires { v < length body.now.vars }
    ensures { slice_get body.now.vars v ≡ Some result.now }
{
    &body.vars.as_slice()[v]
}

/// Gives more variables below `n` values, so that each of them that has one keeps to its
/// constraint.
///
/// Variables are settled from the last to the first: what the constraint of one asks of others, it
/// asks of earlier ones. Only `any_of` leaves a choice, and each member is tried in turn.
pub fn solve_below(u: &Uniquer, natives: &Natives, body: &Body, n: usize, slots: &mut Slots) -> bool
    requires body { IsSoundBody (length u.now) (count natives.now) body.now }
    requires slots { AreKnownIds (length u.now) slots.old.ids }
    requires within { n ≤ length body.now.vars }
    ensures solved { IsTrue result → Solved n u.now (tests property natives.now) body.now
        (assigned u.now slots.old.ids) (assigned u.now slots.new.ids) }
    ensures known { IsTrue result → AreKnownIds (length u.now) slots.new.ids }
    ensures len { IsTrue result → length slots.new.ids ≡ VARIABLE_LIMIT }
    ensures refuted { result ≡ false → Refuted (assigned u.now slots.old.ids)
        (MeetsBelow n u.now (tests property natives.now) body.now) }
{
    if n == 0 {
        return true;
    }
    let v = n - 1;
    let Some(id) = slots.ids[v] else {
        return solve_below(u, natives, body, v, slots);
    };
    match constraint_at(body, v) {
        Constraint::AnyOf(members) => {
            for member in members.as_slice() {
                let mut trial = *slots;
                if !assign(u, v, &mut trial, *member, id) {
                    continue;
                }
                if solve_below(u, natives, body, v, &mut trial) {
                    *slots = trial;
                    return true;
                }
            }
            false
        }
        constraint => {
            if !force(u, natives, v, slots, constraint, id) {
                return false;
            }
            solve_below(u, natives, body, v, slots)
        }
    }
}

/// An assignment that meets a body and has some roots. `None` exactly where no assignment of any
/// values meets it and has them. It takes no memory.
pub fn solve(
    u: &Uniquer,
    natives: &Natives,
    body: &Body,
    roots: &[(VarId, ValueId)],
) -> Option<Assignment>
    requires body { IsSoundBody (length u.now) (count natives.now) body.now }
    requires roots { AreRoots (length u.now) body.now roots.now }
    ensures meets { IfSome result (λ a.
        MeetsBody u.now (tests property natives.now) body.now (assigned u.now a)) }
    ensures roots { IfSome result (λ a. HasRoots u.now roots.now (assigned u.now a)) }
    ensures known { IfSome result (λ a. AreKnownIds (length u.now) a) }
    ensures none { IfNone result ((a : _) → MeetsBody u.now (tests property natives.now) body.now a
        → HasRoots u.now roots.now a → ⊥) }
{
    let n = body.vars.as_slice().len();
    let mut slots = empty_slots();
    if !assign_roots(u, n, &mut slots, roots) {
        return None;
    }
    if solve_below(u, natives, body, n, &mut slots) {
        Some(Assignment::of_first(&slots.ids, n))
    } else {
        None
    }
}
