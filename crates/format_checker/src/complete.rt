//! What a format has to show.

ghost use Rattle.std.specs.Prelude.{◌≡◌, ◌<◌, ◌↔◌, ℕ, true, false, not, IsTrue, Some, None, length};
ghost use Rattle.std.specs.Prelude.{count_by};
ghost use Rattle.dialect_defs.specs.Segments as segments;
ghost use Rattle.format_checker.specs.Columns.{arity_at, form_of};
ghost use Rattle.format_checker.specs.Columns as columns;
ghost use Rattle.format_checker.specs.Shown as spec;
ghost use Rattle.format_checker.specs.Tables.{Saw, flag};

use crate::names::is_single;
use crate::shown::{Flags, Shown};
use crate::stop::EntryRef;
use dialect_defs::{Element, ElementKind, Entry, OpDef, TypeArg};

/// Whether two or more entries aren't single.
fn needs_sizes(entries: &[Entry]) -> bool
    ensures { result ≡ segments.needs_sizes entries.now }
{
    let mut count: usize = 0;
    let mut at = 0;
    while at < entries.len() {
        if !is_single(entries[at].arity) {
            count += 1;
        }
        at += 1;
    }
    count > 1
}

/// Whether each entry that isn't single is in the set.
fn has_flexible(entries: &[Entry], types: &Flags) -> bool
    ensures { IsTrue result ↔ ((i : ℕ) → i < length entries.now →
        columns.is_single (arity_at entries.now i) ≡ false → flag types.now i ≡ true) }
{
    let mut at = 0;
    while at < entries.len() {
        if !is_single(entries[at].arity) && !types.has(at) {
            return false;
        }
        at += 1;
    }
    true
}

fn is_all_results(types: &TypeArg) -> bool
    ensures { result ≡ spec.is_all_results types.now }
{
    matches!(types, TypeArg::AllResults)
}

/// Whether an element that is no group shows the types of all results.
fn shows_all_results(kind: &ElementKind) -> bool
    ensures { result ≡ spec.shows_all_results (form_of kind.now) }
{
    match kind {
        ElementKind::Types(types) => is_all_results(types),
        ElementKind::Functional { inputs, outputs } => {
            is_all_results(inputs) || is_all_results(outputs)
        }
        _ => false,
    }
}

fn items_show_results(items: &[Element]) -> bool
    ensures { result ≡ spec.items_show_results items.now }
{
    items.iter().any(|item| shows_all_results(&item.kind))
}

fn form_shows_results(kind: &ElementKind) -> bool
    ensures { result ≡ spec.form_shows_results (form_of kind.now) }
{
    match kind {
        ElementKind::Group {
            first,
            otherwise,
            ..
        } => items_show_results(first.as_slice()) || items_show_results(otherwise.as_slice()),
        kind => shows_all_results(kind),
    }
}

/// Whether some element shows the types of all results.
fn results_are_shown(elements: &[Element]) -> bool
    ensures { result ≡ spec.results_are_shown elements.now }
{
    elements
        .iter()
        .any(|element| form_shows_results(&element.kind))
}

/// Whether the types of all results are shown though their sizes would have to be given.
fn hides_sizes(op: &OpDef, elements: &[Element]) -> bool
    ensures { IsTrue result ↔ ((spec.results_are_shown elements.now ≡ true)
        × (segments.needs_sizes op.now.results ≡ true)) }
{
    results_are_shown(elements) && needs_sizes(op.results.as_slice())
}

/// Whether all that has to be shown is.
pub fn shows_all(op: &OpDef, elements: &[Element], shown: &Shown) -> bool
    requires saw { Saw (spec.showings op.now elements.now) shown.now }
    ensures { IsTrue result ↔ spec.ShowsAll op.now elements.now }
{
    if !shown.operands.has_all(op.operands.len()) {
        return false;
    }
    if !shown.regions.has_all(op.regions.len()) {
        return false;
    }
    if !shown.successors.has_all(op.successors.len()) {
        return false;
    }
    if !shown.dict {
        return false;
    }
    if !has_flexible(op.results.as_slice(), &shown.result_types) {
        return false;
    }
    !hides_sizes(op, elements)
}

/// The first entry without a type, operands before results.
pub fn first_untyped(op: &OpDef, elements: &[Element], shown: &Shown) -> Option<EntryRef>
    requires saw { Saw (spec.showings op.now elements.now) shown.now }
    ensures none { result ≡ None → spec.AllTyped op.now elements.now }
    ensures some { (entry : _) → result ≡ Some entry
        → spec.FirstUntyped op.now elements.now entry }
{
    if let Some(number) = shown.operand_types.first_other(op.operands.len()) {
        return Some(EntryRef::Operand(number));
    }
    if let Some(number) = shown.result_types.first_other(op.results.len()) {
        return Some(EntryRef::Result(number));
    }
    None
}
