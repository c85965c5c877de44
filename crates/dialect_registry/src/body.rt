//! The judgement of the names in a body.

ghost use Rattle.std.specs.Prelude.{◌≡◌, ◌<◌, ◌⊎◌, ◌++◌, ◌∷◌, [], IfOk, OnOk, map, option_map};
ghost use Rattle.std.specs.List.{flat_map};
ghost use Rattle.dialect_registry.specs.Codes.{Breaks};
ghost use Rattle.dialect_registry.specs.NameFaults as spec;
ghost use Rattle.dialect_registry.specs.NameFaults.{IsFaultIn, choices};
ghost use Rattle.dialect_registry.specs.Scopes.{Sees};
ghost use Rattle.first_fault.specs.Firsts.{IsFirst};

use crate::code::{DefCode, fault_if};
use crate::limits::CHOICE_LIMIT;
use crate::scope::{Scope, ValueSort};
use attr_value::List;
use first_fault::{Fault, earlier};
use generic_syntax::NameCst;
use irdl_ops::{RawAttr, RawDef, RawEntry, RawExpr, RawStatement, StatementKind};
use std::alloc::{AllocError, Global};

/// The first fault of the names and the choices of a body.
pub fn judge_body(alloc: Global, def: &RawDef) -> Result<Option<Fault>, AllocError>
    ensures { IfOk result (IsFirst (λ f. IsFaultIn (spec.marks_of_body def.now) f
        ⊎ Breaks (CHOICE_LIMIT < choices (spec.marks_of_body def.now)) def.now.place
        DefCode.ChoiceLimit f)) }
{
    let mut scope = Scope::new(alloc);
    for statement in def.statements.as_slice() {
        see_statement(&mut scope, statement)?;
    }
    let many = fault_if(
        scope.choices > CHOICE_LIMIT,
        def.place,
        DefCode::ChoiceLimit,
    );
    Ok(earlier(scope.first, many))
}

/// Sees what a statement says of names.
fn see_statement<'a>(scope: &mut Scope<'a>, statement: &'a RawStatement) -> Result<(), AllocError>
    ensures { OnOk result (Sees (spec.marks_of_statement statement.now) scope.old scope.new) }
{
    see_word(scope, statement)?;
    see_kind(scope, &statement.kind)
}

/// Sees the word of a statement that stands once in a body.
fn see_word<'a>(scope: &mut Scope<'a>, statement: &RawStatement) -> Result<(), AllocError>
    ensures { OnOk result (Sees (spec.beginning statement.now.place
        (spec.word_of statement.now.kind)) scope.old scope.new) }
{
    match word_of(&statement.kind) {
        Some(word) => scope.begin(statement.place, word),
        None => Ok(()),
    }
}

/// The word of a statement that stands once in a body.
fn word_of(kind: &StatementKind) -> Option<&'static [u8]>
    ensures { option_map (λ w. w.now) result ≡ spec.word_of kind.now }
{
    match kind {
        StatementKind::Constraint { .. } => None,
        StatementKind::Region { .. } => None,
        StatementKind::Parameters(_) => Some(b"irdl.parameters"),
        StatementKind::Operands(_) => Some(b"irdl.operands"),
        StatementKind::Results(_) => Some(b"irdl.results"),
        StatementKind::Attributes(_) => Some(b"irdl.attributes"),
        StatementKind::Regions(_) => Some(b"irdl.regions"),
        StatementKind::Successors(_) => Some(b"irdl_opt.successors"),
        StatementKind::Terminator => Some(b"irdl_opt.terminator"),
        StatementKind::Format(_) => Some(b"irdl_opt.format"),
    }
}

/// Sees what a statement says of names of values and entries.
fn see_kind<'a>(scope: &mut Scope<'a>, kind: &'a StatementKind) -> Result<(), AllocError>
    ensures { OnOk result (Sees (spec.marks_of_kind kind.now) scope.old scope.new) }
{
    match kind {
        StatementKind::Constraint { name, expr } => see_constraint(scope, name, expr),
        StatementKind::Region { name, args, .. } => see_region(scope, name, args),
        StatementKind::Parameters(entries) => {
            see_entries(scope, ValueSort::Constraint, entries.as_slice())
        }
        StatementKind::Operands(entries) => {
            see_entries(scope, ValueSort::Constraint, entries.as_slice())
        }
        StatementKind::Results(entries) => {
            see_entries(scope, ValueSort::Constraint, entries.as_slice())
        }
        StatementKind::Attributes(attrs) => see_attrs(scope, attrs.as_slice()),
        StatementKind::Regions(entries) => {
            see_entries(scope, ValueSort::Region, entries.as_slice())
        }
        StatementKind::Successors(names) => see_successors(scope, names.as_slice()),
        StatementKind::Terminator => Ok(()),
        StatementKind::Format(_) => Ok(()),
    }
}

/// Sees what a constraint says of names.
fn see_constraint<'a>(
    scope: &mut Scope<'a>,
    name: &'a NameCst,
    expr: &RawExpr,
) -> Result<(), AllocError>
    ensures { OnOk result (Sees (spec.uses_in expr.now ++ spec.defines ValueSort.Constraint
        name.now.place name.now.name (spec.choices_of expr.now) ∷ []) scope.old scope.new) }
{
    see_expr(scope, expr);
    scope.define(
        ValueSort::Constraint,
        name.place,
        name.name.bytes(),
        choices_of(expr),
    )
}

/// Sees what a region says of names.
fn see_region<'a>(
    scope: &mut Scope<'a>,
    name: &'a NameCst,
    args: &Option<List<NameCst>>,
) -> Result<(), AllocError>
    ensures { OnOk result (Sees (spec.uses_by args.now ++ spec.defines ValueSort.Region
        name.now.place name.now.name 1 ∷ []) scope.old scope.new) }
{
    see_args(scope, args);
    scope.define(ValueSort::Region, name.place, name.name.bytes(), 1)
}

/// In how many ways a constraint lets one choose.
fn choices_of(expr: &RawExpr) -> usize
    ensures { result ≡ spec.choices_of expr.now }
{
    match expr {
        RawExpr::AnyOf(members) => members.len(),
        _ => 1,
    }
}

/// Sees which names a constraint uses.
fn see_expr(scope: &mut Scope<'_>, expr: &RawExpr)
    ensures { Sees (spec.uses_in expr.now) scope.old scope.new }
{
    match expr {
        RawExpr::Parametric { parts, .. } => see_uses(scope, parts.as_slice()),
        RawExpr::AnyOf(members) => see_uses(scope, members.as_slice()),
        RawExpr::AllOf(members) => see_uses(scope, members.as_slice()),
        _ => {}
    }
}

/// Sees which names the arguments of a region use.
fn see_args(scope: &mut Scope<'_>, args: &Option<List<NameCst>>)
    ensures { Sees (spec.uses_by args.now) scope.old scope.new }
{
    match args {
        Some(names) => see_uses(scope, names.as_slice()),
        None => {}
    }
}

/// Sees that names of constraints are used.
fn see_uses(scope: &mut Scope<'_>, names: &[NameCst])
    ensures { Sees (spec.uses_of names.now) scope.old scope.new }
{
    for name in names {
        scope.use_name(ValueSort::Constraint, name.place, name.name.bytes());
    }
}

/// Sees what entries say of names.
fn see_entries<'a>(
    scope: &mut Scope<'a>,
    sort: ValueSort,
    entries: &'a [RawEntry],
) -> Result<(), AllocError>
    ensures { OnOk result (Sees (flat_map (spec.marks_of_entry sort) entries.now)
        scope.old scope.new) }
{
    for entry in entries {
        see_entry(scope, sort, entry)?;
    }
    Ok(())
}

/// Sees what an entry says of names.
fn see_entry<'a>(
    scope: &mut Scope<'a>,
    sort: ValueSort,
    entry: &'a RawEntry,
) -> Result<(), AllocError>
    ensures { OnOk result (Sees (spec.marks_of_entry sort entry.now) scope.old scope.new) }
{
    see_label(scope, &entry.name)?;
    scope.use_name(sort, entry.var.place, entry.var.name.bytes());
    Ok(())
}

/// Sees the name of an entry, where it has one.
fn see_label<'a>(scope: &mut Scope<'a>, name: &'a Option<NameCst>) -> Result<(), AllocError>
    ensures { OnOk result (Sees (spec.label_of name.now) scope.old scope.new) }
{
    match name {
        Some(name) => scope.label(name.place, name.name.bytes()),
        None => Ok(()),
    }
}

/// Sees what entries of attributes say of names.
fn see_attrs<'a>(scope: &mut Scope<'a>, attrs: &'a [RawAttr]) -> Result<(), AllocError>
    ensures { OnOk result (Sees (flat_map spec.marks_of_attr attrs.now) scope.old scope.new) }
{
    for attr in attrs {
        see_attr(scope, attr)?;
    }
    Ok(())
}

/// Sees what an entry of attributes says of names.
fn see_attr<'a>(scope: &mut Scope<'a>, attr: &'a RawAttr) -> Result<(), AllocError>
    ensures { OnOk result (Sees (spec.marks_of_attr attr.now) scope.old scope.new) }
{
    scope.label(attr.name.place, attr.name.text.bytes())?;
    scope.use_name(ValueSort::Constraint, attr.var.place, attr.var.name.bytes());
    Ok(())
}

/// Sees the names of successors.
fn see_successors<'a>(scope: &mut Scope<'a>, names: &'a [NameCst]) -> Result<(), AllocError>
    ensures { OnOk result (Sees (map (λ n. spec.labels n.place n.name) names.now)
        scope.old scope.new) }
{
    for name in names {
        scope.label(name.place, name.name.bytes())?;
    }
    Ok(())
}
