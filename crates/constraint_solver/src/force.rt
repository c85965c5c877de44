//! What a constraint without a choice forces.

ghost use Rattle.std.specs.Prelude.{◌≡◌, ◌<◌, ◌≤◌, ◌↔◌, length, IsTrue, false};
ghost use Rattle.attr_value.specs.declared.head.Head.TheVariants.{Dialect};
ghost use Rattle.attr_value.specs.Ids.{at};
ghost use Rattle.dialect_defs.specs.declared.body.Constraint.TheVariants.{Parametric};
ghost use Rattle.dialect_defs.specs.Assignments.{IsOfRef, Keeps};
ghost use Rattle.dialect_defs.specs.Bodies.{AreBelow, IsSoundAt};
ghost use Rattle.native_predicate.specs.Lists.{tests, count};
ghost use Rattle.constraint_solver.specs.Roots.{AreKnownIds};
ghost use Rattle.constraint_solver.specs.Search.{Forces, IsDirect};

use crate::assign::{Slots, assign_all, assign_each};
use attr_uniquer::Uniquer;
use attr_value::{Head, Text, ValueId, is_base};
use dialect_defs::{BaseRef, Constraint, VARIABLE_LIMIT, VarId};
use native_predicate::Natives;

/// Whether a head is that of the dialect's type or attribute of this name.
fn is_named(head: &Head, is_type: bool, name: &Text) -> bool
    ensures { IsTrue result ↔ (head.now ≡ Dialect is_type name.now) }
{
    match head {
        Head::Dialect {
            is_type: kind,
            name: own,
        } => *kind == is_type && own == name,
        _ => false,
    }
}

/// Whether a value is of the kind that a definition names.
fn is_of_ref(u: &Uniquer, base: &BaseRef, id: ValueId) -> bool
    requires { id.0 < length u.now }
    ensures { IsTrue result ↔ IsOfRef base.now (at u.now id.0) }
{
    let (head, _) = u.view(id);
    match base {
        BaseRef::Builtin(kind) => is_base(head, *kind),
        BaseRef::Defined { is_type, name } => is_named(head, *is_type, name),
    }
}

/// Gives each part the parameter at its place, where the value is of this name and has as many.
fn force_parts(
    u: &Uniquer,
    natives: &Natives,
    n: usize,
    slots: &mut Slots,
    is_type: bool,
    name: &Text,
    parts: &[VarId],
    id: ValueId,
) -> bool
    requires below { AreBelow n parts.now }
    requires slots { AreKnownIds (length u.now) slots.old.ids }
    requires id { id.0 < length u.now }
    requires within { n ≤ VARIABLE_LIMIT }
    ensures { Forces n u.now slots.old.ids slots.new.ids result
        (λ a. Keeps u.now (tests property natives.now) a
        (Parametric is_type name.now parts.now) (at u.now id.0)) }
{
    let (head, kids) = u.view(id);
    if !is_named(head, is_type, name) {
        return false;
    }
    if parts.len() != kids.len() {
        return false;
    }
    assign_each(u, n, slots, parts, kids)
}

/// Gives the variables that a constraint names the values that it forces, where its own variable
/// has the value of this id.
pub fn force(
    u: &Uniquer,
    natives: &Natives,
    n: usize,
    slots: &mut Slots,
    constraint: &Constraint,
    id: ValueId,
) -> bool
    requires direct { IsDirect constraint.now }
    requires sound { IsSoundAt (length u.now) (count natives.now) n constraint.now }
    requires slots { AreKnownIds (length u.now) slots.old.ids }
    requires id { id.0 < length u.now }
    requires within { n ≤ VARIABLE_LIMIT }
    ensures { Forces n u.now slots.old.ids slots.new.ids result
        (λ a. Keeps u.now (tests property natives.now) a constraint.now (at u.now id.0)) }
{
    match constraint {
        Constraint::Is(wanted) => u.same(id, *wanted),
        Constraint::Any => true,
        Constraint::Base(base) => is_of_ref(u, base, id),
        Constraint::Parametric {
            is_type,
            name,
            parts,
        } => {
            let parts = parts.as_slice();
            force_parts(u, natives, n, slots, *is_type, name, parts, id)
        }
        Constraint::AllOf(members) => assign_all(u, n, slots, members.as_slice(), id),
        Constraint::Native(i) => natives.holds(*i, u, id),
        Constraint::AnyOf(_) => unreachable!(),
    }
}
