//! What a body lists first of each kind.

ghost use Rattle.std.specs.Prelude.{◌≡◌, option_map};
ghost use Rattle.dialect_registry.specs.Resolved as spec;
ghost use Rattle.dialect_registry.specs.FormatFaults as format;
ghost use Rattle.dialect_registry.specs.Targets as target;

use generic_syntax::NameCst;
use irdl_ops::{RawAttr, RawEntry, RawStatement, RawText, StatementKind};

/// The parameters.
pub fn parameters_in(statements: &[RawStatement]) -> &[RawEntry]
    ensures { result.now ≡ target.parameters_in statements.now }
{
    for statement in statements {
        if let StatementKind::Parameters(entries) = &statement.kind {
            return entries.as_slice();
        }
    }
    &[]
}

/// The operands.
pub fn operands_in(statements: &[RawStatement]) -> &[RawEntry]
    ensures { result.now ≡ spec.operands_in statements.now }
{
    for statement in statements {
        if let StatementKind::Operands(entries) = &statement.kind {
            return entries.as_slice();
        }
    }
    &[]
}

/// The results.
pub fn results_in(statements: &[RawStatement]) -> &[RawEntry]
    ensures { result.now ≡ spec.results_in statements.now }
{
    for statement in statements {
        if let StatementKind::Results(entries) = &statement.kind {
            return entries.as_slice();
        }
    }
    &[]
}

/// The attributes.
pub fn attrs_in(statements: &[RawStatement]) -> &[RawAttr]
    ensures { result.now ≡ spec.attrs_in statements.now }
{
    for statement in statements {
        if let StatementKind::Attributes(attrs) = &statement.kind {
            return attrs.as_slice();
        }
    }
    &[]
}

/// The regions.
pub fn regions_in(statements: &[RawStatement]) -> &[RawEntry]
    ensures { result.now ≡ spec.regions_in statements.now }
{
    for statement in statements {
        if let StatementKind::Regions(entries) = &statement.kind {
            return entries.as_slice();
        }
    }
    &[]
}

/// The successors.
pub fn successors_in(statements: &[RawStatement]) -> &[NameCst]
    ensures { result.now ≡ spec.successors_in statements.now }
{
    for statement in statements {
        if let StatementKind::Successors(names) = &statement.kind {
            return names.as_slice();
        }
    }
    &[]
}

/// Whether a statement says that the operation is a terminator.
fn ends_block(kind: &StatementKind) -> bool
    ensures { result ≡ spec.ends_block kind.now }
{
    matches!(kind, StatementKind::Terminator)
}

/// Whether the operation is declared a terminator.
pub fn is_terminator(statements: &[RawStatement]) -> bool
    ensures { result ≡ spec.is_terminator statements.now }
{
    statements
        .iter()
        .any(|statement| ends_block(&statement.kind))
}

/// The format string.
pub fn format_in(statements: &[RawStatement]) -> Option<&RawText>
    ensures { option_map (λ text. text.now) result ≡ format.format_in statements.now }
{
    for statement in statements {
        if let StatementKind::Format(text) = &statement.kind {
            return Some(text);
        }
    }
    None
}
