//! The judgement of constants and of format strings.

ghost use Rattle.std.specs.Prelude.{◌≡◌, length, List, IfOk, IfSome};
ghost use Rattle.attr_value.specs.Values.{Value};
ghost use Rattle.constraint_solver.specs.Definitions.{AreSoundDefs};
ghost use Rattle.constraint_solver.specs.Grown.{Extends};
ghost use Rattle.first_fault.specs.Firsts.{IsFirst};
ghost use Rattle.native_predicate.specs.Lists.{count, tests};
ghost use Rattle.dialect_registry.specs.ConstantFaults as spec;
ghost use Rattle.dialect_registry.specs.ConstantFaults.{IsFaultIn, IsFaultOfFile};
ghost use Rattle.dialect_registry.specs.ConstantFaults.{IsConstantFault, IsExprConstantFault};
ghost use Rattle.irdl_ops.specs.declared.raw.RawExpr.TheVariants.{Is};
ghost use Rattle.dialect_registry.specs.DefFaults.{IsFirstIn};
ghost use Rattle.dialect_registry.specs.Parts.{Among};

use crate::code::{DefCode, fault_if};
use crate::judging::or_in_file;
use crate::refusal::FileFault;
use attr_uniquer::Uniquer;
use first_fault::{Fault, earlier};
use generic_syntax::ValueCst;
use irdl_ops::{RawDef, RawDefs, RawDialect, RawExpr, RawStatement, StatementKind};
use native_predicate::Natives;
use std::alloc::{AllocError, Global};
use value_meaning::{Aliases, Definitions, ValueStop, value_in};

/// What constants are judged by.
#[derive(Clone, Copy)]
pub struct Ground<'a> {
    pub alloc: Global,
    pub natives: &'a Natives,
    pub types: &'a Definitions,
}

/// The first fault of the constants of some files, by file and then by place, with these types and
/// attributes; `None` exactly where each has a good value. Values are interned.
pub fn judge_constants(
    ground: &Ground,
    u: &mut Uniquer,
    files: &[RawDefs],
) -> Result<Option<FileFault>, AllocError>
    requires types { AreSoundDefs (length u.old) (count ground.now.natives.now)
        ground.now.types.now }
    ensures later { Extends u.old u.new }
    ensures first { IfOk result (λ first. (values : List Value) → Extends values u.old →
        AreSoundDefs (length values) (count ground.now.natives.now) ground.now.types.now →
        IsFirstIn (IsFaultIn (IsConstantFault values (tests property ground.now.natives.now)
        ground.now.types.now) files.now) first) }
{
    let mut first = None;
    for (number, file) in files.iter().enumerate() {
        let fault = judge_file(ground, u, file)?;
        first = or_in_file(first, number, fault);
    }
    Ok(first)
}

fn judge_file(ground: &Ground, u: &mut Uniquer, file: &RawDefs) -> Result<Option<Fault>, AllocError>
    requires types { AreSoundDefs (length u.old) (count ground.now.natives.now)
        ground.now.types.now }
    ensures later { Extends u.old u.new }
    ensures first { IfOk result (λ first. (values : List Value) → Extends values u.old →
        AreSoundDefs (length values) (count ground.now.natives.now) ground.now.types.now →
        IsFirst (IsFaultOfFile (IsConstantFault values (tests property ground.now.natives.now)
        ground.now.types.now) file.now) first) }
{
    let mut first = None;
    for dialect in file.dialects.as_slice() {
        first = earlier(first, judge_dialect(ground, u, dialect)?);
    }
    Ok(first)
}

fn judge_dialect(
    ground: &Ground,
    u: &mut Uniquer,
    dialect: &RawDialect,
) -> Result<Option<Fault>, AllocError>
    requires types { AreSoundDefs (length u.old) (count ground.now.natives.now)
        ground.now.types.now }
    ensures later { Extends u.old u.new }
    ensures first { IfOk result (λ first. (values : List Value) → Extends values u.old →
        AreSoundDefs (length values) (count ground.now.natives.now) ground.now.types.now →
        IsFirst (Among (λ def. Among (λ s. IsConstantFault values
        (tests property ground.now.natives.now) ground.now.types.now s.kind) def.statements)
        dialect.now.defs) first) }
{
    let mut first = None;
    for def in dialect.defs.as_slice() {
        first = earlier(first, judge_def(ground, u, def)?);
    }
    Ok(first)
}

fn judge_def(ground: &Ground, u: &mut Uniquer, def: &RawDef) -> Result<Option<Fault>, AllocError>
    requires types { AreSoundDefs (length u.old) (count ground.now.natives.now)
        ground.now.types.now }
    ensures later { Extends u.old u.new }
    ensures first { IfOk result (λ first. (values : List Value) → Extends values u.old →
        AreSoundDefs (length values) (count ground.now.natives.now) ground.now.types.now →
        IsFirst (Among (λ s. IsConstantFault values (tests property ground.now.natives.now)
        ground.now.types.now s.kind) def.now.statements) first) }
{
    let mut first = None;
    for statement in def.statements.as_slice() {
        first = earlier(first, judge_statement(ground, u, &statement.kind)?);
    }
    Ok(first)
}

fn judge_statement(
    ground: &Ground,
    u: &mut Uniquer,
    kind: &StatementKind,
) -> Result<Option<Fault>, AllocError>
    requires types { AreSoundDefs (length u.old) (count ground.now.natives.now)
        ground.now.types.now }
    ensures later { Extends u.old u.new }
    ensures first { IfOk result (λ first. (values : List Value) → Extends values u.old →
        AreSoundDefs (length values) (count ground.now.natives.now) ground.now.types.now →
        IsFirst (IsConstantFault values (tests property ground.now.natives.now)
        ground.now.types.now kind.now) first) }
{
    match kind {
        StatementKind::Constraint { expr, .. } => judge_expr(ground, u, expr),
        _ => Ok(None),
    }
}

fn judge_expr(ground: &Ground, u: &mut Uniquer, expr: &RawExpr) -> Result<Option<Fault>, AllocError>
    requires types { AreSoundDefs (length u.old) (count ground.now.natives.now)
        ground.now.types.now }
    ensures later { Extends u.old u.new }
    ensures first { IfOk result (λ first. (values : List Value) → Extends values u.old →
        AreSoundDefs (length values) (count ground.now.natives.now) ground.now.types.now →
        IsFirst (IsExprConstantFault values (tests property ground.now.natives.now)
        ground.now.types.now expr.now) first) }
{
    match expr {
        RawExpr::Is(cst) => judge_constant(ground, u, cst),
        _ => Ok(None),
    }
}

/// The fault of a constant, which has no good value.
fn judge_constant(
    ground: &Ground,
    u: &mut Uniquer,
    cst: &ValueCst,
) -> Result<Option<Fault>, AllocError>
    requires types { AreSoundDefs (length u.old) (count ground.now.natives.now)
        ground.now.types.now }
    ensures later { Extends u.old u.new }
    ensures first { IfOk result (λ first. (values : List Value) → Extends values u.old →
        AreSoundDefs (length values) (count ground.now.natives.now) ground.now.types.now →
        IsFirst (IsExprConstantFault values (tests property ground.now.natives.now)
        ground.now.types.now (Is cst.now)) first) }
{
    let aliases = Aliases::new(ground.alloc);
    match value_in(ground.alloc, u, ground.types, ground.natives, cst, &aliases) {
        Ok(_) => Ok(None),
        Err(ValueStop::Refused(_)) => Ok(fault_if(true, cst.place, DefCode::ConstantBad)),
        Err(ValueStop::OutOfMemory) => Err(AllocError),
    }
}
