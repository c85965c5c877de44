//! Where one token doesn't decide in a format.

ghost use Rattle.std.specs.Prelude.{◌≡◌, ◌&&◌, ◌++◌, [], IfOk, None, OnOk, if◌then◌else◌};
ghost use Rattle.format_checker.specs.Clashes as spec;
ghost use Rattle.format_checker.specs.Columns as columns;
ghost use Rattle.format_checker.specs.Columns.{form_of, kind_of};
ghost use Rattle.format_checker.specs.Decided as decided;
ghost use Rattle.format_checker.specs.Meeting as meeting;
ghost use Rattle.format_checker.specs.Shown.{at_of};
ghost use Rattle.std.specs.Option.{option_or};

use crate::columns::{
    branch_empty, branch_starts, counts_open, counts_starts, element_starts, may_be_empty,
    push_word,
};
use crate::look::Look;
use crate::meeting::first_meeting;
use crate::names::{counts_empty, is_anchor};
use attr_value::List;
use dialect_defs::{Element, ElementKind, OpDef};
use ir_lexer::Class;
use std::alloc::{AllocError, Global};

/// A look that meets another, and the place of its element.
#[derive(Drop)]
pub struct Clash {
    pub at: u32,
    pub look: Look,
}

fn clash_at(at: u32, look: Option<Look>) -> Option<Clash>
    ensures { result ≡ spec.clash_at at look }
{
    match look {
        Some(look) => Some(Clash { at, look }),
        None => None,
    }
}

fn sooner(first: Option<Clash>, later: Option<Clash>) -> Option<Clash>
    ensures { result ≡ option_or first later }
{
    match first {
        Some(clash) => Some(clash),
        None => later,
    }
}

// ---- what comes next

/// The looks with which another operation begins; none behind a terminator.
fn next_operation(alloc: Global, terminator: bool) -> Result<List<Look>, AllocError>
    ensures { IfOk result (λ looks. looks ≡ decided.next_operation terminator) }
{
    let mut looks = List::new(alloc);
    if !terminator {
        looks.push(Look::Value)?;
        looks.push(Look::Str)?;
        looks.push(Look::Dotted)?;
        push_word(alloc, b"module", &mut looks)?;
    }
    Ok(looks)
}

/// The looks that follow an operation.
fn follow(alloc: Global, terminator: bool) -> Result<List<Look>, AllocError>
    ensures { IfOk result (λ looks. looks ≡ decided.follow terminator) }
{
    let mut looks = next_operation(alloc, terminator)?;
    looks.push(Look::Block)?;
    looks.push(Look::Punct(Class::RBrace))?;
    looks.push(Look::End)?;
    Ok(looks)
}

/// Makes the looks behind an element of a branch those before it.
fn step_item(
    alloc: Global,
    op: &OpDef,
    anchor: bool,
    kind: &ElementKind,
    near: &mut List<Look>,
) -> Result<(), AllocError>
    ensures { OnOk result (near.new ≡
        (if columns.counts_empty op.now anchor (form_of kind.now) then near.old else [])
        ++ columns.counts_starts op.now anchor (form_of kind.now)) }
{
    if !counts_empty(op, anchor, kind) {
        *near = List::new(alloc);
    }
    counts_starts(alloc, op, anchor, kind, near)
}

/// Makes the looks behind an element of a format those before it.
fn step_element(
    alloc: Global,
    op: &OpDef,
    element: &Element,
    next: &mut List<Look>,
) -> Result<(), AllocError>
    ensures { OnOk result (next.new ≡
        (if columns.may_be_empty op.now (kind_of element.now) then next.old else [])
        ++ columns.starts op.now (kind_of element.now)) }
{
    if !may_be_empty(op, element) {
        *next = List::new(alloc);
    }
    element_starts(alloc, op, &element.kind, next)
}

fn both(a: bool, b: bool) -> bool
    ensures { result ≡ (a && b) }
{
    a && b
}

/// The looks behind a branch, where all elements before them may be empty.
fn reached(all_empty: bool, behind: &[Look]) -> &[Look]
    ensures { result.now ≡ (if all_empty then behind.now else []) }
{
    if all_empty { behind } else { &behind[..0] }
}

// ---- elements

fn open_clash(
    alloc: Global,
    op: &OpDef,
    anchor: bool,
    kind: &ElementKind,
    near: &[Look],
    far: &[Look],
) -> Result<Option<Look>, AllocError>
    ensures { IfOk result (λ look. look ≡ meeting.first_meeting
        (columns.counts_open op.now anchor (form_of kind.now)) (near.now ++ far.now)) }
{
    let mut own = List::new(alloc);
    counts_open(op, anchor, kind, &mut own)?;
    first_meeting(alloc, own.as_slice(), near, far)
}

fn start_clash(
    alloc: Global,
    op: &OpDef,
    anchor: bool,
    kind: &ElementKind,
    near: &[Look],
    far: &[Look],
) -> Result<Option<Look>, AllocError>
    ensures { IfOk result (λ look. look ≡ (if columns.counts_empty op.now anchor (form_of kind.now)
        then meeting.first_meeting (columns.counts_starts op.now anchor (form_of kind.now))
        (near.now ++ far.now) else None)) }
{
    if !counts_empty(op, anchor, kind) {
        return Ok(None);
    }
    let mut own = List::new(alloc);
    counts_starts(alloc, op, anchor, kind, &mut own)?;
    first_meeting(alloc, own.as_slice(), near, far)
}

/// The look of an element that is no group.
fn item_clash(
    alloc: Global,
    op: &OpDef,
    anchor: bool,
    kind: &ElementKind,
    near: &[Look],
    far: &[Look],
) -> Result<Option<Look>, AllocError>
    ensures { IfOk result (λ look. look ≡
        spec.item_clash op.now anchor (form_of kind.now) (near.now ++ far.now)) }
{
    match open_clash(alloc, op, anchor, kind, near, far)? {
        Some(look) => Ok(Some(look)),
        None => start_clash(alloc, op, anchor, kind, near, far),
    }
}

/// The first of a branch, before the looks that come behind its group.
fn branch_clash(
    alloc: Global,
    op: &OpDef,
    anchor: Option<usize>,
    items: &[Element],
    behind: &[Look],
) -> Result<Option<Clash>, AllocError>
    ensures { IfOk result (λ clash. clash ≡
        spec.branch_clash op.now anchor 0 items.now behind.now) }
{
    let mut near = List::new(alloc);
    let mut all_empty = true;
    let mut found = None;
    let mut at = items.len();
    while at > 0 {
        let item = &items[at - 1];
        let is_anchor = is_anchor(anchor, at - 1);
        let far = reached(all_empty, behind);
        let look = item_clash(alloc, op, is_anchor, &item.kind, near.as_slice(), far)?;
        found = sooner(clash_at(item.at, look), found);
        step_item(alloc, op, is_anchor, &item.kind, &mut near)?;
        all_empty = both(counts_empty(op, is_anchor, &item.kind), all_empty);
        at -= 1;
    }
    Ok(found)
}

/// The look of a group as a whole.
fn group_clash(
    alloc: Global,
    op: &OpDef,
    first: &[Element],
    otherwise: &[Element],
    anchor: usize,
    next: &[Look],
) -> Result<Option<Look>, AllocError>
    ensures { IfOk result (λ look. look ≡
        spec.group_clash op.now first.now otherwise.now anchor next.now) }
{
    let mut own = List::new(alloc);
    branch_starts(alloc, op, Some(anchor), first, &mut own)?;
    let mut other = List::new(alloc);
    branch_starts(alloc, op, None, otherwise, &mut other)?;
    match first_meeting(alloc, own.as_slice(), &[], other.as_slice())? {
        Some(look) => Ok(Some(look)),
        None if branch_empty(op, None, otherwise) => {
            first_meeting(alloc, own.as_slice(), &[], next)
        }
        None => Ok(None),
    }
}

fn element_clash(
    alloc: Global,
    op: &OpDef,
    element: &Element,
    next: &[Look],
) -> Result<Option<Clash>, AllocError>
    ensures { IfOk result (λ clash. clash ≡
        spec.form_clash op.now (at_of element.now) (kind_of element.now) next.now) }
{
    match &element.kind {
        ElementKind::Group {
            first,
            otherwise,
            anchor,
        } => {
            let first = first.as_slice();
            let otherwise = otherwise.as_slice();
            let whole = group_clash(alloc, op, first, otherwise, *anchor, next)?;
            let in_first = branch_clash(alloc, op, Some(*anchor), first, next)?;
            let in_other = branch_clash(alloc, op, None, otherwise, next)?;
            Ok(sooner(clash_at(element.at, whole), sooner(in_first, in_other)))
        }
        kind => {
            let look = item_clash(alloc, op, false, kind, &[], next)?;
            Ok(clash_at(element.at, look))
        }
    }
}

/// The first place of a format where one token doesn't decide.
pub fn first_clash(
    alloc: Global,
    op: &OpDef,
    elements: &[Element],
) -> Result<Option<Clash>, AllocError>
    ensures { IfOk result (λ clash. clash ≡
        spec.first_clash op.now elements.now (decided.follow op.now.terminator)) }
{
    let mut next = follow(alloc, op.terminator)?;
    let mut found = None;
    let mut at = elements.len();
    while at > 0 {
        let element = &elements[at - 1];
        let clash = element_clash(alloc, op, element, next.as_slice())?;
        found = sooner(clash, found);
        step_element(alloc, op, element, &mut next)?;
        at -= 1;
    }
    Ok(found)
}
