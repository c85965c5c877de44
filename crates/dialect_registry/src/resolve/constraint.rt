//! The constraints of a body.

ghost use Rattle.std.specs.Prelude.{◌≡◌, [], Err, IfOk, bytes_eq, position};
ghost use Rattle.constraint_solver.specs.Definitions.{AreSoundDefs};
ghost use Rattle.constraint_solver.specs.Grown.{Extends};
ghost use Rattle.native_predicate.specs.Lists.{count, names, tests};
ghost use Rattle.dialect_registry.specs.Resolved as spec;
ghost use Rattle.dialect_registry.specs.Resolved.{HasConstant, IsBody, IsConstraint, IsMeaningless};
ghost use Rattle.dialect_registry.specs.Resolving.{constraints_of, HaveBad, IsBad};
ghost use Rattle.dialect_registry.specs.Scopes.{Finds};
ghost use Rattle.dialect_registry.specs.Targets.{World, target};

use crate::resolve::ResolveStop;
use crate::resolve::entries::variables;
use crate::resolve::names::BodyNames;
use crate::statement::find;
use crate::targets::Targets;
use attr_uniquer::Uniquer;
use attr_value::{List, Text, ValueId, base_named};
use dialect_defs::{BaseRef, Body, Constraint};
use generic_syntax::{NameCst, ValueCst};
use irdl_ops::{RawExpr, RawRef};
use native_predicate::Natives;
use std::alloc::{AllocError, Global};
use value_meaning::{Aliases, Definitions, ValueStop, value_in};

/// What definitions are resolved by.
#[derive(Clone, Copy)]
pub struct Env<'a, 'b> {
    pub alloc: Global,
    pub targets: &'a Targets<'b>,
    pub natives: &'a Natives,
    /// The types and attributes whose bodies ask nothing, by which constants are read.
    pub shapes: &'a Definitions,
}

/// The full name of a definition: that of its dialect, a dot and its own.
pub fn full_name(alloc: Global, dialect: &[u8], name: &[u8]) -> Result<Text, AllocError>
    ensures { IfOk result (λ text. text ≡ spec.full_name dialect.now name.now) }
{
    let mut bytes = Vec::new(alloc);
    bytes.extend_from_slice(dialect)?;
    bytes.extend_from_slice(b".")?;
    bytes.extend_from_slice(name)?;
    Text::from_vec(alloc, bytes)
}

/// The full name of what a reference in a dialect names.
fn full_name_of(alloc: Global, own: &[u8], reference: &RawRef) -> Result<Text, AllocError>
    ensures { IfOk result (λ text. text ≡ spec.full_name_of own.now reference.now) }
{
    let name = reference.name.bytes();
    match &reference.dialect {
        Some(dialect) => full_name(alloc, dialect.bytes(), name),
        None => full_name(alloc, own, name),
    }
}

/// The id of the value that a constant means.
fn constant(env: &Env, u: &mut Uniquer, cst: &ValueCst) -> Result<ValueId, ResolveStop>
    requires shapes { AreSoundDefs 0 (count env.now.natives.now) env.now.shapes.now }
    ensures later { Extends u.old u.new }
    ensures ok { IfOk result (HasConstant (tests property env.now.natives.now)
        env.now.shapes.now u.new cst.now) }
    ensures bad { result ≡ Err ResolveStop.BadConstant →
        IsMeaningless [] (tests property env.now.natives.now) env.now.shapes.now cst.now }
{
    let aliases = Aliases::new(env.alloc);
    match value_in(env.alloc, u, env.shapes, env.natives, cst, &aliases) {
        Ok(id) => Ok(id),
        Err(ValueStop::Refused(_)) => Err(ResolveStop::BadConstant),
        Err(ValueStop::OutOfMemory) => Err(ResolveStop::OutOfMemory),
    }
}

/// The constraint that the predicate of this name is true.
fn native(natives: &Natives, name: &[u8]) -> Constraint
    ensures { result ≡ spec.native_by
        (position (λ own. bytes_eq own name.now) (names title natives.now)) }
{
    match natives.find(name) {
        Some(place) => Constraint::Native(place),
        None => Constraint::Any,
    }
}

/// The constraint that a head is of the kind of this name.
fn built_in(name: &[u8]) -> Constraint
    ensures { spec.IsBuiltIn name.now result }
{
    match base_named(name) {
        Some(base) => Constraint::Base(BaseRef::Builtin(base)),
        None => Constraint::Any,
    }
}

/// The constraint that a value is of what a reference names.
fn defined(env: &Env, own: &[u8], reference: &RawRef) -> Result<Constraint, AllocError>
    ensures { IfOk result (λ c. (w : World) → Finds w.dialects env.now.targets.now →
        c ≡ spec.base_by own.now reference.now (target w own.now reference.now)) }
{
    let Some(found) = find(env.targets, own, reference) else {
        return Ok(Constraint::Any);
    };
    Ok(Constraint::Base(BaseRef::Defined {
        is_type: found.is_type,
        name: full_name_of(env.alloc, own, reference)?,
    }))
}

/// The constraint that a value is of what a reference names, over the values of these variables.
fn parametric(
    env: &Env,
    known: &BodyNames,
    own: &[u8],
    reference: &RawRef,
    parts: &[NameCst],
) -> Result<Constraint, AllocError>
    ensures { IfOk result (λ c. (w : World) → Finds w.dialects env.now.targets.now →
        c ≡ spec.parametric_by own.now reference.now
        (spec.variables (constraints_of known.now) parts.now) (target w own.now reference.now)) }
{
    let Some(found) = find(env.targets, own, reference) else {
        return Ok(Constraint::Any);
    };
    Ok(Constraint::Parametric {
        is_type: found.is_type,
        name: full_name_of(env.alloc, own, reference)?,
        parts: variables(env.alloc, known, parts)?,
    })
}

/// A constraint of a body in this dialect.
fn constraint(
    env: &Env,
    u: &mut Uniquer,
    known: &BodyNames,
    own: &[u8],
    expr: &RawExpr,
) -> Result<Constraint, ResolveStop>
    requires shapes { AreSoundDefs 0 (count env.now.natives.now) env.now.shapes.now }
    ensures later { Extends u.old u.new }
    ensures ok { IfOk result (λ c. (w : World) → Finds w.dialects env.now.targets.now →
        w.natives ≡ names title env.now.natives.now →
        IsConstraint w (tests property env.now.natives.now) env.now.shapes.now u.new own.now
        (constraints_of known.now) expr.now c) }
    ensures bad { result ≡ Err ResolveStop.BadConstant →
        IsBad (tests property env.now.natives.now) env.now.shapes.now expr.now }
{
    match expr {
        RawExpr::Is(cst) => Ok(Constraint::Is(constant(env, u, cst)?)),
        RawExpr::Any => Ok(Constraint::Any),
        RawExpr::Pred(name) => Ok(native(env.natives, name.text.bytes())),
        RawExpr::BaseName(name) => Ok(built_in(name.text.bytes())),
        RawExpr::BaseRef(target) => Ok(defined(env, own, target)?),
        RawExpr::Parametric { target, parts } => {
            Ok(parametric(env, known, own, target, parts.as_slice())?)
        }
        RawExpr::AnyOf(members) => {
            Ok(Constraint::AnyOf(variables(env.alloc, known, members.as_slice())?))
        }
        RawExpr::AllOf(members) => {
            Ok(Constraint::AllOf(variables(env.alloc, known, members.as_slice())?))
        }
    }
}

/// The constraints of a body in this dialect.
pub fn body(env: &Env, u: &mut Uniquer, known: &BodyNames, own: &[u8]) -> Result<Body, ResolveStop>
    requires shapes { AreSoundDefs 0 (count env.now.natives.now) env.now.shapes.now }
    ensures later { Extends u.old u.new }
    ensures ok { IfOk result (λ body. (w : World) → Finds w.dialects env.now.targets.now →
        w.natives ≡ names title env.now.natives.now →
        IsBody w (tests property env.now.natives.now) env.now.shapes.now u.new own.now
        (constraints_of known.now) body) }
    ensures bad { result ≡ Err ResolveStop.BadConstant →
        HaveBad (tests property env.now.natives.now) env.now.shapes.now
        (constraints_of known.now) }
{
    let mut vars = List::new(env.alloc);
    for named in &known.constraints {
        vars.push(constraint(env, u, known, own, named.expr)?)?;
    }
    vars.trim();
    Ok(Body { vars })
}
