//! The judgement of statements by themselves.

ghost use Rattle.std.specs.Prelude.{◌≡◌, ◌⊎◌};
ghost use Rattle.dialect_registry.specs.Codes.{Breaks};
ghost use Rattle.dialect_registry.specs.DefFaults.{IsAttrFault, IsStatementFault};
ghost use Rattle.dialect_registry.specs.References.{IsExprFault};
ghost use Rattle.dialect_registry.specs.References.{IsMiscounted, IsUnknown};
ghost use Rattle.dialect_registry.specs.Parts.{Among};
ghost use Rattle.dialect_registry.specs.Scopes.{Finds};
ghost use Rattle.dialect_registry.specs.Targets.{World, target};
ghost use Rattle.first_fault.specs.Firsts.{IsFirst};
ghost use Rattle.native_predicate.specs.Lists.{names};

use crate::code::{DefCode, fault_if};
use crate::limits::judge_entries;
use crate::name_shapes::is_reserved_attr;
use crate::targets::{Target, Targets};
use attr_value::base_named;
use first_fault::{Fault, earlier};
use irdl_ops::{RawAttr, RawExpr, RawRef, RawStatement, StatementKind};
use native_predicate::Natives;

/// The first fault of the statements of a body, each by itself, in this dialect.
pub fn judge_statements(
    targets: &Targets,
    natives: &Natives,
    own: &[u8],
    statements: &[RawStatement],
) -> Option<Fault>
    ensures { (w : World) → Finds w.dialects targets.now → w.natives ≡ names title natives.now →
        IsFirst (Among (λ s. IsStatementFault w own.now s.kind) statements.now) result }
{
    let mut first = None;
    for statement in statements {
        first = earlier(
            first,
            judge_statement(targets, natives, own, &statement.kind),
        );
    }
    first
}

fn judge_statement(
    targets: &Targets,
    natives: &Natives,
    own: &[u8],
    kind: &StatementKind,
) -> Option<Fault>
    ensures { (w : World) → Finds w.dialects targets.now → w.natives ≡ names title natives.now →
        IsFirst (IsStatementFault w own.now kind.now) result }
{
    match kind {
        StatementKind::Constraint { expr, .. } => judge_expr(targets, natives, own, expr),
        StatementKind::Operands(entries) => judge_entries(entries.as_slice()),
        StatementKind::Results(entries) => judge_entries(entries.as_slice()),
        StatementKind::Attributes(attrs) => judge_attrs(attrs.as_slice()),
        _ => None,
    }
}

/// The fault of what a constraint refers to.
fn judge_expr(targets: &Targets, natives: &Natives, own: &[u8], expr: &RawExpr) -> Option<Fault>
    ensures { (w : World) → Finds w.dialects targets.now → w.natives ≡ names title natives.now →
        IsFirst (IsExprFault w own.now expr.now) result }
{
    match expr {
        RawExpr::Pred(name) => fault_if(
            natives.find(name.text.bytes()).is_none(),
            name.place,
            DefCode::PredicateUnknown,
        ),
        RawExpr::BaseName(name) => fault_if(
            base_named(name.text.bytes()).is_none(),
            name.place,
            DefCode::BaseUnknown,
        ),
        RawExpr::BaseRef(target) => fault_if(
            find(targets, own, target).is_none(),
            target.place,
            DefCode::RefUnknown,
        ),
        RawExpr::Parametric { target, parts } => judge_parts(targets, own, target, parts.len()),
        _ => None,
    }
}

/// What a reference in a dialect names.
pub fn find(targets: &Targets, own: &[u8], reference: &RawRef) -> Option<Target>
    ensures { (w : World) → Finds w.dialects targets.now → result ≡ target w own.now reference.now }
{
    match &reference.dialect {
        Some(dialect) => targets.find(dialect.bytes(), reference.name.bytes()),
        None => targets.find(own, reference.name.bytes()),
    }
}

/// The fault of a reference with so many parts.
fn judge_parts(targets: &Targets, own: &[u8], reference: &RawRef, parts: usize) -> Option<Fault>
    ensures { (w : World) → Finds w.dialects targets.now → IsFirst
        (λ f. Breaks (IsUnknown w own.now reference.now) reference.now.place DefCode.RefUnknown f
        ⊎ Breaks (IsMiscounted w own.now reference.now parts) reference.now.place
        DefCode.ParamCount f) result }
{
    match find(targets, own, reference) {
        Some(target) => fault_if(
            target.parameters != parts,
            reference.place,
            DefCode::ParamCount,
        ),
        None => fault_if(true, reference.place, DefCode::RefUnknown),
    }
}

/// The first of some attributes that has a reserved name.
fn judge_attrs(attrs: &[RawAttr]) -> Option<Fault>
    ensures { IsFirst (Among IsAttrFault attrs.now) result }
{
    let mut first = None;
    for attr in attrs {
        first = earlier(first, judge_attr(attr));
    }
    first
}

fn judge_attr(attr: &RawAttr) -> Option<Fault>
    ensures { IsFirst (IsAttrFault attr.now) result }
{
    fault_if(
        is_reserved_attr(attr.name.text.bytes()),
        attr.name.place,
        DefCode::ReservedName,
    )
}
