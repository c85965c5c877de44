//! Groups and the marks of anchors.

ghost use Rattle.std.specs.Prelude.{◌≡◌, count_by};
ghost use Rattle.format_checker.specs.Columns.{form_of};
ghost use Rattle.format_checker.specs.Anchors as spec;
ghost use Rattle.format_checker.specs.Named.{is_marked, raw_form_of};

use crate::columns::branch_empty;
use crate::names::{arity_at, is_optional, is_single};
use dialect_defs::{Element, ElementKind, OpDef, RawElement, RawKind, TypeArg};

fn types_may_anchor(op: &OpDef, types: &TypeArg) -> bool
    ensures { result ≡ spec.types_may_anchor op.now types.now }
{
    match types {
        TypeArg::Operand(number) => !is_single(arity_at(op.operands.as_slice(), *number)),
        TypeArg::Result(number) => !is_single(arity_at(op.results.as_slice(), *number)),
        TypeArg::AllOperands => false,
        TypeArg::AllResults => false,
    }
}

/// Whether an element may be the anchor of a group.
fn may_anchor(op: &OpDef, kind: &ElementKind) -> bool
    ensures { result ≡ spec.may_anchor op.now (form_of kind.now) }
{
    match kind {
        ElementKind::Operand(number) => !is_single(arity_at(op.operands.as_slice(), *number)),
        ElementKind::Attr(number) => is_optional(op, *number),
        ElementKind::SymbolName(number) => is_optional(op, *number),
        ElementKind::IntText { attr, .. } => is_optional(op, *attr),
        ElementKind::Types(types) => types_may_anchor(op, types),
        _ => false,
    }
}

/// Whether an element is a literal or white space.
fn is_literal(kind: &ElementKind) -> bool
    ensures { result ≡ spec.is_literal (form_of kind.now) }
{
    matches!(
        kind,
        ElementKind::Word(_)
            | ElementKind::Punct(_)
            | ElementKind::Space
            | ElementKind::Newline
            | ElementKind::Empty
    )
}

/// Whether an element may stand in a group.
fn may_stand(op: &OpDef, kind: &ElementKind) -> bool
    ensures { result ≡ spec.may_stand op.now (form_of kind.now) }
{
    is_literal(kind) || may_anchor(op, kind)
}

/// Whether an element of a branch isn't right, where a mark stands behind it or doesn't.
fn is_bad_item(op: &OpDef, in_first: bool, marked: bool, kind: &ElementKind) -> bool
    ensures { result ≡ spec.is_bad_item op.now in_first marked (form_of kind.now) }
{
    !may_stand(op, kind) || (marked && !(in_first && may_anchor(op, kind)))
}

fn fault_if(broken: bool, at: u32) -> Option<u32>
    ensures { result ≡ spec.fault_if broken at }
{
    if broken { Some(at) } else { None }
}

fn item_fault(op: &OpDef, in_first: bool, raw: &RawElement, item: &Element) -> Option<u32>
    ensures { result ≡ spec.item_fault op.now in_first raw.now item.now }
{
    fault_if(is_bad_item(op, in_first, raw.anchor, &item.kind), raw.at)
}

/// The first element of a branch that isn't right.
fn items_fault(op: &OpDef, in_first: bool, raw: &[RawElement], items: &[Element]) -> Option<u32>
    ensures { result ≡ spec.items_fault op.now in_first raw.now items.now }
{
    let mut at = 0;
    while at < raw.len() && at < items.len() {
        if let Some(fault) = item_fault(op, in_first, &raw[at], &items[at]) {
            return Some(fault);
        }
        at += 1;
    }
    None
}

/// How many marks stand in a branch.
fn marks(raw: &[RawElement]) -> usize
    ensures { result ≡ count_by is_marked raw.now }
{
    let mut count = 0;
    let mut at = 0;
    while at < raw.len() {
        if raw[at].anchor {
            count += 1;
        }
        at += 1;
    }
    count
}

/// Whether a group isn't right as a whole.
fn is_bad_group(
    op: &OpDef,
    marked: bool,
    raw: &[RawElement],
    first: &[Element],
    anchor: usize,
) -> bool
    ensures { result ≡ spec.is_bad_group op.now marked raw.now first.now anchor }
{
    marked || (marks(raw) != 1 || branch_empty(op, Some(anchor), first))
}

fn element_fault(op: &OpDef, raw: &RawElement, element: &Element) -> Option<u32>
    ensures { result ≡ spec.element_fault op.now raw.now element.now }
{
    match &raw.kind {
        RawKind::Group {
            first: raw_first,
            otherwise: raw_otherwise,
        } => match &element.kind {
            ElementKind::Group {
                first,
                otherwise,
                anchor,
            } => {
                let raw_first = raw_first.as_slice();
                let first = first.as_slice();
                let whole = is_bad_group(op, raw.anchor, raw_first, first, *anchor);
                fault_if(whole, raw.at)
                    .or(items_fault(op, true, raw_first, first))
                    .or(items_fault(op, false, raw_otherwise.as_slice(), otherwise.as_slice()))
            }
            _ => fault_if(raw.anchor, raw.at),
        },
        _ => fault_if(raw.anchor, raw.at),
    }
}

/// The place of the first element or group that isn't right.
pub fn first_group_fault(op: &OpDef, raw: &[RawElement], elements: &[Element]) -> Option<u32>
    ensures { result ≡ spec.first_group_fault op.now raw.now elements.now }
{
    let mut at = 0;
    while at < raw.len() && at < elements.len() {
        if let Some(fault) = element_fault(op, &raw[at], &elements[at]) {
            return Some(fault);
        }
        at += 1;
    }
    None
}
