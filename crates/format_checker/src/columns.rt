//! The looks of elements.

ghost use Rattle.std.specs.Prelude.{◌≡◌, ◌+◌, ◌≤◌, [], ◌∷◌, ◌++◌, length, drop, nat_le};
ghost use Rattle.std.specs.Prelude.{IfOk, OnOk, None, if◌then◌else◌};
ghost use Rattle.format_checker.specs.Columns as spec;
ghost use Rattle.format_checker.specs.Columns.{form_of, kind_of};

use crate::look::Look;
use crate::names::{arity_at, column_empty, counts_empty, is_anchor, shows_unit};
use attr_value::{List, Text};
use dialect_defs::{Arity, Element, ElementKind, OpDef, TypeArg};
use ir_lexer::Class;
use std::alloc::{AllocError, Global};

/// Whether an element may have an empty piece. It takes no memory.
///
/// An element that is handed in by itself is no anchor; of a group the anchor counts inside.
pub fn may_be_empty(op: &OpDef, element: &Element) -> bool
    ensures { result ≡ spec.may_be_empty op.now (kind_of element.now) }
{
    match &element.kind {
        ElementKind::Group { otherwise, .. } => branch_empty(op, None, otherwise.as_slice()),
        kind => column_empty(op, kind),
    }
}

/// The looks with which a piece of an element begins that isn't empty.
pub fn starts(alloc: Global, op: &OpDef, element: &Element) -> Result<List<Look>, AllocError>
    ensures { IfOk result (λ looks. looks ≡ spec.starts op.now (kind_of element.now)) }
{
    let mut found = List::new(alloc);
    element_starts(alloc, op, &element.kind, &mut found)?;
    Ok(found)
}

/// The looks that go on with a piece of an element.
pub fn continues(alloc: Global, op: &OpDef, element: &Element) -> Result<List<Look>, AllocError>
    ensures { IfOk result (λ looks. looks ≡ spec.continues op.now (kind_of element.now)) }
{
    let mut found = List::new(alloc);
    element_open(op, &element.kind, &mut found)?;
    Ok(found)
}

pub fn element_starts(
    alloc: Global,
    op: &OpDef,
    kind: &ElementKind,
    found: &mut List<Look>,
) -> Result<(), AllocError>
    ensures { OnOk result (found.new ≡ found.old ++ spec.starts op.now (form_of kind.now)) }
{
    match kind {
        ElementKind::Group {
            first,
            otherwise,
            anchor,
        } => {
            branch_starts(alloc, op, Some(*anchor), first.as_slice(), found)?;
            branch_starts(alloc, op, None, otherwise.as_slice(), found)
        }
        kind => column_starts(alloc, kind, found),
    }
}

fn element_open(op: &OpDef, kind: &ElementKind, found: &mut List<Look>) -> Result<(), AllocError>
    ensures { OnOk result (found.new ≡ found.old ++ spec.continues op.now (form_of kind.now)) }
{
    match kind {
        ElementKind::Group {
            first,
            otherwise,
            anchor,
        } => {
            branch_open(op, Some(*anchor), first.as_slice(), found)?;
            branch_open(op, None, otherwise.as_slice(), found)
        }
        kind => column_open(op, kind, found),
    }
}

// ---- branches

/// Whether all elements of a branch may be empty.
pub fn branch_empty(op: &OpDef, anchor: Option<usize>, items: &[Element]) -> bool
    ensures { result ≡ spec.branch_empty op.now anchor 0 items.now }
{
    empty_from(op, anchor, items) == 0
}

/// The place from which on all elements of a branch may be empty.
fn empty_from(op: &OpDef, anchor: Option<usize>, items: &[Element]) -> usize
    ensures within { result ≤ length items.now }
    ensures empty { (k : _) → k ≤ length items.now
        → spec.branch_empty op.now anchor k (drop k items.now) ≡ nat_le result k }
{
    let mut at = items.len();
    while at > 0 {
        let kind = &items[at - 1].kind;
        if !counts_empty(op, is_anchor(anchor, at - 1), kind) {
            return at;
        }
        at -= 1;
    }
    0
}

pub fn branch_starts(
    alloc: Global,
    op: &OpDef,
    anchor: Option<usize>,
    items: &[Element],
    found: &mut List<Look>,
) -> Result<(), AllocError>
    ensures { OnOk result (found.new ≡ found.old ++ spec.branch_starts op.now anchor 0 items.now) }
{
    let mut at = 0;
    while at < items.len() {
        let kind = &items[at].kind;
        let is_anchor = is_anchor(anchor, at);
        counts_starts(alloc, op, is_anchor, kind, found)?;
        if !counts_empty(op, is_anchor, kind) {
            return Ok(());
        }
        at += 1;
    }
    Ok(())
}

fn branch_open(
    op: &OpDef,
    anchor: Option<usize>,
    items: &[Element],
    found: &mut List<Look>,
) -> Result<(), AllocError>
    ensures { OnOk result (found.new ≡ found.old ++ spec.branch_open op.now anchor 0 items.now) }
{
    let empty = empty_from(op, anchor, items);
    let mut at = 0;
    while at < items.len() {
        let is_open = empty <= at + 1;
        open_if(is_open, op, is_anchor(anchor, at), &items[at].kind, found)?;
        at += 1;
    }
    Ok(())
}

pub fn counts_starts(
    alloc: Global,
    op: &OpDef,
    anchor: bool,
    kind: &ElementKind,
    found: &mut List<Look>,
) -> Result<(), AllocError>
    ensures { OnOk result
        (found.new ≡ found.old ++ spec.counts_starts op.now anchor (form_of kind.now)) }
{
    if is_spelled(op, anchor, kind) {
        column_starts(alloc, kind, found)?;
    }
    Ok(())
}

pub fn counts_open(
    op: &OpDef,
    anchor: bool,
    kind: &ElementKind,
    found: &mut List<Look>,
) -> Result<(), AllocError>
    ensures { OnOk result
        (found.new ≡ found.old ++ spec.counts_open op.now anchor (form_of kind.now)) }
{
    if is_spelled(op, anchor, kind) {
        column_open(op, kind, found)?;
    }
    Ok(())
}

/// What goes on with an element of a branch, where nothing stands behind it that isn't empty.
fn open_if(
    is_open: bool,
    op: &OpDef,
    anchor: bool,
    kind: &ElementKind,
    found: &mut List<Look>,
) -> Result<(), AllocError>
    ensures { OnOk result (found.new ≡ found.old
        ++ (if is_open then spec.counts_open op.now anchor (form_of kind.now) else [])) }
{
    if is_open {
        counts_open(op, anchor, kind, found)?;
    }
    Ok(())
}

/// Whether anything is spelled of an element: not of an anchor that is always the unit value.
fn is_spelled(op: &OpDef, anchor: bool, kind: &ElementKind) -> bool
    ensures { result ≡ spec.is_spelled op.now anchor (form_of kind.now) }
{
    !anchor || !shows_unit(op, kind)
}

// ---- single elements

fn column_starts(
    alloc: Global,
    kind: &ElementKind,
    found: &mut List<Look>,
) -> Result<(), AllocError>
    ensures { OnOk result (found.new ≡ found.old ++ spec.column_starts (form_of kind.now)) }
{
    match kind {
        ElementKind::Word(word) => push_word(alloc, word.bytes(), found),
        ElementKind::Punct(class) => found.push(Look::Punct(*class)),
        ElementKind::Space => Ok(()),
        ElementKind::Newline => Ok(()),
        ElementKind::Empty => Ok(()),
        ElementKind::Operand(_) => found.push(Look::Value),
        ElementKind::Attr(_) => attr_looks(alloc, found),
        ElementKind::Region(_) => found.push(Look::Punct(Class::LBrace)),
        ElementKind::Successor(_) => found.push(Look::Block),
        ElementKind::SymbolName(_) => found.push(Look::Symbol),
        ElementKind::IntText { .. } => number_looks(found),
        ElementKind::Types(_) => type_looks(alloc, found),
        ElementKind::Functional { .. } => found.push(Look::Punct(Class::LParen)),
        ElementKind::Dict => found.push(Look::Punct(Class::LBrace)),
        ElementKind::DictKeyword => push_word(alloc, b"attributes", found),
        ElementKind::Group { .. } => Ok(()),
    }
}

fn column_open(op: &OpDef, kind: &ElementKind, found: &mut List<Look>) -> Result<(), AllocError>
    ensures { OnOk result (found.new ≡ found.old ++ spec.column_open op.now (form_of kind.now)) }
{
    match kind {
        ElementKind::Word(_) => Ok(()),
        ElementKind::Punct(_) => Ok(()),
        ElementKind::Space => Ok(()),
        ElementKind::Newline => Ok(()),
        ElementKind::Empty => Ok(()),
        ElementKind::Operand(number) => comma_of(arity_at(op.operands.as_slice(), *number), found),
        ElementKind::Attr(_) => attr_opens(found),
        ElementKind::Region(_) => Ok(()),
        ElementKind::Successor(_) => Ok(()),
        ElementKind::SymbolName(_) => Ok(()),
        ElementKind::IntText { .. } => Ok(()),
        ElementKind::Types(shown) => type_opens(op, shown, found),
        ElementKind::Functional { .. } => found.push(Look::Punct(Class::Less)),
        ElementKind::Dict => Ok(()),
        ElementKind::DictKeyword => Ok(()),
        ElementKind::Group { .. } => Ok(()),
    }
}

fn comma_of(arity: Arity, found: &mut List<Look>) -> Result<(), AllocError>
    ensures { OnOk result (found.new ≡ found.old ++ spec.comma_of arity) }
{
    match arity {
        Arity::Single => Ok(()),
        Arity::Optional => Ok(()),
        Arity::Variadic => found.push(Look::Punct(Class::Comma)),
    }
}

fn comma_of_types(op: &OpDef, shown: &TypeArg, found: &mut List<Look>) -> Result<(), AllocError>
    ensures { OnOk result (found.new ≡ found.old ++ spec.comma_of_types op.now shown.now) }
{
    match shown {
        TypeArg::Operand(number) => comma_of(arity_at(op.operands.as_slice(), *number), found),
        TypeArg::Result(number) => comma_of(arity_at(op.results.as_slice(), *number), found),
        TypeArg::AllOperands => found.push(Look::Punct(Class::Comma)),
        TypeArg::AllResults => found.push(Look::Punct(Class::Comma)),
    }
}

fn type_opens(op: &OpDef, shown: &TypeArg, found: &mut List<Look>) -> Result<(), AllocError>
    ensures { OnOk result (found.new ≡ found.old ++ spec.type_opens op.now shown.now) }
{
    found.push(Look::Punct(Class::Less))?;
    comma_of_types(op, shown, found)?;
    Ok(())
}

fn attr_opens(found: &mut List<Look>) -> Result<(), AllocError>
    ensures { OnOk result (found.new ≡ found.old ++ spec.attr_opens) }
{
    found.push(Look::Punct(Class::Less))?;
    found.push(Look::Punct(Class::Colon))?;
    found.push(Look::Punct(Class::ColonColon))?;
    Ok(())
}

fn number_looks(found: &mut List<Look>) -> Result<(), AllocError>
    ensures { OnOk result (found.new ≡ found.old ++ spec.number_looks) }
{
    found.push(Look::Punct(Class::Minus))?;
    found.push(Look::Integer)?;
    Ok(())
}

// ---- looks of values

pub fn push_word(alloc: Global, word: &[u8], found: &mut List<Look>) -> Result<(), AllocError>
    ensures { OnOk result (found.new ≡ found.old ++ Look.Word word.now ∷ []) }
{
    found.push(Look::Word(Text::from_slice(alloc, word)?))?;
    Ok(())
}

fn attr_looks(alloc: Global, found: &mut List<Look>) -> Result<(), AllocError>
    ensures { OnOk result (found.new ≡ found.old ++ spec.attr_looks) }
{
    type_looks(alloc, found)?;
    found.push(Look::Punct(Class::LBrace))?;
    found.push(Look::Punct(Class::LSquare))?;
    found.push(Look::Punct(Class::Minus))?;
    found.push(Look::Symbol)?;
    found.push(Look::AttrName)?;
    found.push(Look::Integer)?;
    found.push(Look::Str)?;
    attr_words(alloc, found)?;
    Ok(())
}

fn attr_words(alloc: Global, found: &mut List<Look>) -> Result<(), AllocError>
    ensures { OnOk result (found.new ≡ found.old ++ spec.words spec.attr_words) }
{
    push_word(alloc, b"true", found)?;
    push_word(alloc, b"false", found)?;
    push_word(alloc, b"unit", found)?;
    push_word(alloc, b"array", found)?;
    Ok(())
}

fn type_looks(alloc: Global, found: &mut List<Look>) -> Result<(), AllocError>
    ensures { OnOk result (found.new ≡ found.old ++ spec.type_looks) }
{
    found.push(Look::Punct(Class::LParen))?;
    found.push(Look::TypeName)?;
    found.push(Look::IntWord)?;
    plain_words(alloc, found)?;
    former_words(alloc, found)?;
    Ok(())
}

fn plain_words(alloc: Global, found: &mut List<Look>) -> Result<(), AllocError>
    ensures { OnOk result (found.new ≡ found.old ++ spec.words spec.plain_words) }
{
    push_word(alloc, b"index", found)?;
    push_word(alloc, b"none", found)?;
    push_word(alloc, b"bf16", found)?;
    push_word(alloc, b"f16", found)?;
    push_word(alloc, b"tf32", found)?;
    push_word(alloc, b"f32", found)?;
    push_word(alloc, b"f64", found)?;
    push_word(alloc, b"f80", found)?;
    push_word(alloc, b"f128", found)?;
    Ok(())
}

fn former_words(alloc: Global, found: &mut List<Look>) -> Result<(), AllocError>
    ensures { OnOk result (found.new ≡ found.old ++ spec.words spec.former_words) }
{
    push_word(alloc, b"tuple", found)?;
    push_word(alloc, b"vector", found)?;
    push_word(alloc, b"tensor", found)?;
    push_word(alloc, b"memref", found)?;
    push_word(alloc, b"complex", found)?;
    Ok(())
}
