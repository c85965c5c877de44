//! Tests of what the search asks for.

ghost use Rattle.std.specs.Prelude.{◌≡◌, ◌↔◌, ℕ, IsTrue, Some, slice_get};
ghost use Rattle.dialect_defs.specs.declared.body.Constraint.{Constraint as Kind};
ghost use Rattle.dialect_defs.specs.declared.body.Constraint.TheVariants.{Any};
ghost use Rattle.dialect_defs.specs.declared.entry.Entry.{Entry as Param};
ghost use Rattle.dialect_defs.specs.Bodies.{AreBelow, IsSoundAt, IsSoundBody};
ghost use Rattle.dialect_defs.specs.Goodness.{vars_of};
ghost use Rattle.constraint_solver.specs.Definitions.{HasSoundBody, IsUnconstrained, IsSoundDef};
ghost use Rattle.constraint_solver.specs.Definitions.{AreSoundDefs};
ghost use Rattle.constraint_solver.specs.Roots.{AreRoots};

use attr_value::ValueId;
use dialect_defs::{Body, Constraint, Entry, TypeDef, VARIABLE_LIMIT, VarId};

/// Whether each variable has a number below `n`. It takes no memory.
pub fn are_below(n: usize, vars: &[VarId]) -> bool
    ensures { IsTrue result ↔ AreBelow n vars.now }
{
    for var in vars {
        if var.0 >= n {
            return false;
        }
    }
    true
}

/// Whether a constraint may be that of the variable `v`.
fn is_sound_at(len: usize, count: usize, v: usize, constraint: &Constraint) -> bool
    ensures { IsTrue result ↔ IsSoundAt len count v constraint.now }
{
    match constraint {
        Constraint::Is(id) => id.0 < len,
        Constraint::Any => true,
        Constraint::Base(_) => true,
        Constraint::Parametric { parts, .. } => are_below(v, parts.as_slice()),
        Constraint::AnyOf(members) => are_below(v, members.as_slice()),
        Constraint::AllOf(members) => are_below(v, members.as_slice()),
        Constraint::Native(i) => *i < count,
    }
}

/// Whether `solve` takes a body, over a table of `len` values and with `count` predicates: it has
/// at most [`VARIABLE_LIMIT`] variables, each of them names earlier ones alone, and the values and
/// predicates that it names are there. It takes no memory.
pub fn is_sound_body(body: &Body, len: usize, count: usize) -> bool
    ensures { IsTrue result ↔ IsSoundBody len count body.now }
{
    let vars = body.vars.as_slice();
    if vars.len() > VARIABLE_LIMIT {
        return false;
    }
    for (v, constraint) in vars.iter().enumerate() {
        if !is_sound_at(len, count, v, constraint) {
            return false;
        }
    }
    true
}

/// Whether `solve` takes some roots of a body, over a table of `len` values: they name variables of
/// the body, and values that are there. It takes no memory.
pub fn are_roots(roots: &[(VarId, ValueId)], body: &Body, len: usize) -> bool
    ensures { IsTrue result ↔ AreRoots len body.now roots.now }
{
    let vars = body.vars.as_slice().len();
    for root in roots {
        if root.0.0 >= vars || root.1.0 >= len {
            return false;
        }
    }
    true
}

/// Whether the variable of each parameter has a number below `n`.
fn are_params_below(n: usize, params: &[Entry]) -> bool
    ensures { IsTrue result ↔ AreBelow n (vars_of params.now) }
{
    for param in params {
        if param.var.0 >= n {
            return false;
        }
    }
    true
}

/// Whether a definition's body is sound, and the parameters' variables are in it.
fn has_sound_body(d: &TypeDef, len: usize, count: usize) -> bool
    ensures { IsTrue result ↔ HasSoundBody len count d.now }
{
    if !is_sound_body(&d.body, len, count) {
        return false;
    }
    are_params_below(d.body.vars.as_slice().len(), d.params.as_slice())
}

/// Whether each parameter is the variable of its own number.
fn are_own(params: &[Entry]) -> bool
    ensures { IsTrue result ↔ ((i : ℕ) (param : Param) → slice_get params.now i ≡ Some param
        → param.var.0 ≡ i) }
{
    for (i, param) in params.iter().enumerate() {
        if param.var.0 != i {
            return false;
        }
    }
    true
}

/// Whether no variable keeps to anything.
fn are_free(vars: &[Constraint]) -> bool
    ensures { IsTrue result ↔ ((v : ℕ) (c : Kind) → slice_get vars.now v ≡ Some c → c ≡ Any) }
{
    for constraint in vars {
        let Constraint::Any = constraint else {
            return false;
        };
    }
    true
}

/// Whether any values are parameters of a definition, as many as it has: each parameter is a
/// variable of its own, in order, and none keeps to anything. There may be more than
/// [`VARIABLE_LIMIT`]. It takes no memory.
pub fn is_unconstrained(d: &TypeDef) -> bool
    ensures { IsTrue result ↔ IsUnconstrained d.now }
{
    let vars = d.body.vars.as_slice();
    let params = d.params.as_slice();
    vars.len() == params.len() && are_free(vars) && are_own(params)
}

/// Whether `is_instance_of` takes a definition, over a table of `len` values and with `count`
/// predicates: its body is sound, and the parameters' variables are in it; or it is unconstrained.
/// It takes no memory.
pub fn is_sound_def(d: &TypeDef, len: usize, count: usize) -> bool
    ensures { IsTrue result ↔ IsSoundDef len count d.now }
{
    has_sound_body(d, len, count) || is_unconstrained(d)
}

/// Whether `good_head` and `is_instance` take some definitions, over a table of `len` values and
/// with `count` predicates: `is_instance_of` takes each. It takes no memory.
pub fn are_sound_defs(types: &[TypeDef], len: usize, count: usize) -> bool
    ensures { IsTrue result ↔ AreSoundDefs len count types.now }
{
    for d in types {
        if !is_sound_def(d, len, count) {
            return false;
        }
    }
    true
}
