//! A test of what the rule on hidden types asks for.

ghost use Rattle.std.specs.Prelude.{◌≡◌, ◌<◌, ◌↔◌, ℕ, Some, length, slice_get, IsTrue};
ghost use Rattle.std.specs.List.{AllByRecursion};
ghost use Rattle.dialect_defs.specs.Bodies.{AreBelow};
ghost use Rattle.dialect_defs.specs.declared.body.Constraint.{Constraint};
ghost use Rattle.type_infer.specs.Determined.{named_in};
ghost use Rattle.type_infer.specs.Rule.{HasOrderedBody};

use constraint_solver::are_below;
use dialect_defs::{AttrEntry, Constraint, Entry, OpDef, VARIABLE_LIMIT};

/// Whether each entry names one of the first `n` variables.
fn are_entries_below(n: usize, entries: &[Entry]) -> bool
    ensures { IsTrue result ↔ AllByRecursion (λ e. e.var.0 < n) entries.now }
{
    for entry in entries {
        if entry.var.0 >= n {
            return false;
        }
    }
    true
}

/// The same of attributes.
fn are_attrs_below(n: usize, entries: &[AttrEntry]) -> bool
    ensures { IsTrue result ↔ AllByRecursion (λ e. e.var.0 < n) entries.now }
{
    for entry in entries {
        if entry.var.0 >= n {
            return false;
        }
    }
    true
}

/// Whether a constraint gives values to some of the first `n` variables alone.
fn names_below(n: usize, constraint: &Constraint) -> bool
    ensures { IsTrue result ↔ AreBelow n (named_in constraint.now) }
{
    match constraint {
        Constraint::Parametric { parts, .. } => are_below(n, parts.as_slice()),
        Constraint::AllOf(members) => are_below(n, members.as_slice()),
        _ => true,
    }
}

/// Whether each of some constraints gives values to earlier variables alone.
fn are_ordered(vars: &[Constraint]) -> bool
    ensures { IsTrue result ↔ ((v : ℕ) (c : Constraint) → slice_get vars.now v ≡ Some c
        → AreBelow v (named_in c)) }
{
    for (v, constraint) in vars.iter().enumerate() {
        if !names_below(v, constraint) {
            return false;
        }
    }
    true
}

/// Whether [`first_untold`](crate::first_untold) takes a definition: its body has at most
/// `VARIABLE_LIMIT` variables, each of which gives values to earlier ones alone, and its entries
/// are variables of the body. It takes no memory.
pub fn has_ordered_body(op: &OpDef) -> bool
    ensures { IsTrue result ↔ HasOrderedBody op.now }
{
    let vars = op.body.vars.as_slice();
    if vars.len() > VARIABLE_LIMIT {
        return false;
    }
    if !are_ordered(vars) {
        return false;
    }
    if !are_entries_below(vars.len(), op.operands.as_slice()) {
        return false;
    }
    if !are_entries_below(vars.len(), op.results.as_slice()) {
        return false;
    }
    are_attrs_below(vars.len(), op.attrs.as_slice())
}
