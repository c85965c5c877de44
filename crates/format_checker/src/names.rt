//! What is known of the entries that an element shows.

ghost use Rattle.std.specs.Prelude.{◌≡◌};
ghost use Rattle.format_checker.specs.Columns as spec;
ghost use Rattle.format_checker.specs.Columns.{form_of};

use dialect_defs::{Arity, ElementKind, Entry, OpDef, TypeArg};

/// The arity of an entry; that of a single one where there is none.
pub fn arity_at(entries: &[Entry], number: usize) -> Arity
    ensures { result ≡ spec.arity_at entries.now number }
{
    match entries.get(number) {
        Some(entry) => entry.arity,
        None => Arity::Single,
    }
}

/// Whether some entry is single.
fn has_single(entries: &[Entry]) -> bool
    ensures { result ≡ spec.has_single entries.now }
{
    entries.iter().any(|entry| is_single(entry.arity))
}

pub fn is_single(arity: Arity) -> bool
    ensures { result ≡ spec.is_single arity }
{
    match arity {
        Arity::Single => true,
        Arity::Optional => false,
        Arity::Variadic => false,
    }
}

/// Whether the attribute may be missing.
pub fn is_optional(op: &OpDef, number: usize) -> bool
    ensures { result ≡ spec.is_optional op.now number }
{
    match op.attrs.get(number) {
        Some(entry) => entry.optional,
        None => false,
    }
}

/// Whether the attribute is always the unit value.
fn is_unit(op: &OpDef, number: usize) -> bool
    ensures { result ≡ spec.is_unit op.now number }
{
    match op.attrs.get(number) {
        Some(entry) => entry.unit,
        None => false,
    }
}

/// Whether an element shows an attribute that is always the unit value.
pub fn shows_unit(op: &OpDef, kind: &ElementKind) -> bool
    ensures { result ≡ spec.shows_unit op.now (form_of kind.now) }
{
    match kind {
        ElementKind::Attr(number) => is_unit(op, *number),
        _ => false,
    }
}

/// Whether a list of types may be empty.
fn no_type(op: &OpDef, shown: &TypeArg) -> bool
    ensures { result ≡ spec.no_type op.now shown.now }
{
    match shown {
        TypeArg::Operand(number) => !is_single(arity_at(op.operands.as_slice(), *number)),
        TypeArg::Result(number) => !is_single(arity_at(op.results.as_slice(), *number)),
        TypeArg::AllOperands => !has_single(op.operands.as_slice()),
        TypeArg::AllResults => !has_single(op.results.as_slice()),
    }
}

/// Whether the piece of an element by itself may be empty.
pub fn column_empty(op: &OpDef, kind: &ElementKind) -> bool
    ensures { result ≡ spec.column_empty op.now (form_of kind.now) }
{
    match kind {
        ElementKind::Word(_) => false,
        ElementKind::Punct(_) => false,
        ElementKind::Space => true,
        ElementKind::Newline => true,
        ElementKind::Empty => true,
        ElementKind::Operand(number) => !is_single(arity_at(op.operands.as_slice(), *number)),
        ElementKind::Attr(number) => is_optional(op, *number),
        ElementKind::Region(_) => false,
        ElementKind::Successor(_) => false,
        ElementKind::SymbolName(number) => is_optional(op, *number),
        ElementKind::IntText { attr, .. } => is_optional(op, *attr),
        ElementKind::Types(shown) => no_type(op, shown),
        ElementKind::Functional { .. } => false,
        ElementKind::Dict => true,
        ElementKind::DictKeyword => true,
        ElementKind::Group { .. } => true,
    }
}

/// Whether an element of a branch may be empty, where it is the anchor or where it isn't.
pub fn counts_empty(op: &OpDef, anchor: bool, kind: &ElementKind) -> bool
    ensures { result ≡ spec.counts_empty op.now anchor (form_of kind.now) }
{
    if anchor {
        shows_unit(op, kind)
    } else {
        column_empty(op, kind)
    }
}

/// Whether the place is that of the anchor.
pub fn is_anchor(anchor: Option<usize>, place: usize) -> bool
    ensures { result ≡ spec.is_anchor anchor place }
{
    match anchor {
        Some(anchor) => place == anchor,
        None => false,
    }
}
