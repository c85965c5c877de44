//! Values, each by its head and its kids. What stands in a value nests one less deep than it.

ghost use Rattle.std.specs.Prelude.{◌≡◌, ◌<◌, ◌≤◌, ◌++◌, [], ◌∷◌, length, map, true, false};
ghost use Rattle.std.specs.List.{AllByRecursion, zip};
ghost use Rattle.attr_value.specs.Heads.{IsDim};
ghost use Rattle.attr_value.specs.Ids.{at, kids_at};
ghost use Rattle.text_layout.specs.Apart.{is_empty};
ghost use Rattle.text_layout.specs.Lines as line;
ghost use Rattle.derived_printer.specs.Parts.{CanPrint, enclosed_marks, entry_of};
ghost use Rattle.derived_printer.specs.Prints.{Prints};
ghost use Rattle.derived_printer.specs.Spellable.{Spellable, NodeIsSpellable};
ghost use Rattle.derived_printer.specs.Spelling as spec;
ghost use Rattle.derived_printer.specs.ValueMarks as mark;

use crate::leaf::{dense, is_unit, symbol};
use crate::token::{
    dims, float_text, int_type, key, name, separate, shape_text, sign, string, typed_number, word,
};
use attr_uniquer::Uniquer;
use attr_value::{Dim, Head, ShapeKind, Text, ValueId};
use ir_lexer::Class;
use irdl_bytes::Sink;
use std::alloc::Global;
use text_layout::{Layout, PrintError};

/// Lays the canonical text of a value down, the tokens `value_marks` of `specs/ValueMarks.antt`.
///
/// The value is one that can be spelled: it and all in it keep to the rules of their heads, names
/// of dialects' values are bare ids with a dot, and it nests at most 64 deep. Behind an error that
/// the layout answered before, the same one is answered, and nothing is written.
///
/// `WriteFault`, `OutputLimit` and `OutOfMemory` come as from the layout, and `OutOfMemory` also
/// where a text can't be made: those that aren't there as they are spelled are made in a buffer,
/// which all of them share.
pub fn print_value<S: Sink>(
    alloc: Global,
    u: &Uniquer,
    id: ValueId,
    layout: &mut Layout<'_, S>,
) -> Result<(), PrintError>
    requires known { id.0 < length u.now }
    requires spellable { Spellable (at u.now id.0) }
    ensures { Prints S.written S.faults layout.old (mark.value_marks (at u.now id.0))
        result layout.new }
{
    let mut text = Vec::new(alloc);
    value(u, id, layout, &mut text)
}

/// A value.
#[cycle(values)]
pub fn value<S: Sink>(
    u: &Uniquer,
    id: ValueId,
    layout: &mut Layout<'_, S>,
    text: &mut Vec<u8>,
) -> Result<(), PrintError>
    requires { CanPrint u.now (id ∷ []) }
    ensures { Prints S.written S.faults layout.old (mark.value_marks (at u.now id.0))
        result layout.new }
{
    let (head, kids) = u.view(id);
    node(u, head, kids, layout, text)
}

/// A value by its head and its kids.
#[cycle(values)]
fn node<S: Sink>(
    u: &Uniquer,
    head: &Head,
    kids: &[ValueId],
    layout: &mut Layout<'_, S>,
    text: &mut Vec<u8>,
) -> Result<(), PrintError>
    requires head { NodeIsSpellable head.now (kids_at u.now kids.now) }
    requires kids { CanPrint u.now kids.now }
    ensures { Prints S.written S.faults layout.old
        (mark.head_marks head.now (mark.kid_marks (kids_at u.now kids.now)))
        result layout.new }
{
    match head {
        Head::Int(kind) => int_type(layout, text, *kind),
        Head::NoneType => word(layout, b"none"),
        Head::Float(kind) => word(layout, float_text(*kind)),
        Head::Function { inputs } => function(u, *inputs, kids, layout, text),
        Head::Tuple => worded(u, b"tuple", kids, layout, text),
        Head::Complex => worded(u, b"complex", kids, layout, text),
        Head::Shaped { kind, dims } => shaped(u, *kind, dims.as_slice(), kids, layout, text),
        Head::Number { kind, n } => typed_number(layout, text, *kind, *n),
        Head::Str(bytes) => string(layout, text, bytes.bytes()),
        Head::Unit => word(layout, b"unit"),
        Head::Array => enclosed(u, (Class::LSquare, Class::RSquare), kids, layout, text),
        Head::Dict { keys } => dict(u, keys.as_slice(), kids, layout, text),
        Head::Symbol { parts } => symbol(layout, text, parts.as_slice()),
        Head::Dense { width, items } => dense(layout, text, *width, items.as_slice()),
        Head::Dialect { is_type, name } => {
            dialect(u, *is_type, name.bytes(), kids, layout, text)
        }
    }
}

// ---- kids in brackets

/// Values with commas between them.
#[cycle(values)]
pub fn commas<S: Sink>(
    u: &Uniquer,
    kids: &[ValueId],
    layout: &mut Layout<'_, S>,
    text: &mut Vec<u8>,
) -> Result<(), PrintError>
    requires { CanPrint u.now kids.now }
    ensures { Prints S.written S.faults layout.old
        (mark.commas (mark.marks_of (mark.kid_marks (kids_at u.now kids.now))))
        result layout.new }
{
    for (i, kid) in kids.iter().enumerate() {
        separate(layout, Class::Comma, i)?;
        value(u, *kid, layout, text)?;
    }
    Ok(())
}

/// Values between two signs.
#[cycle(values)]
pub fn enclosed<S: Sink>(
    u: &Uniquer,
    signs: (Class, Class),
    kids: &[ValueId],
    layout: &mut Layout<'_, S>,
    text: &mut Vec<u8>,
) -> Result<(), PrintError>
    requires kids { CanPrint u.now kids.now }
    requires opening { is_empty (mark.sign_text signs.0) ≡ false }
    requires closing { is_empty (mark.sign_text signs.1) ≡ false }
    ensures { Prints S.written S.faults layout.old
        (enclosed_marks signs.0 signs.1 (mark.kid_marks (kids_at u.now kids.now)))
        result layout.new }
{
    let (opening, closing) = signs;
    sign(layout, opening)?;
    commas(u, kids, layout, text)?;
    sign(layout, closing)
}

/// A word, and values in `<` and `>`.
#[cycle(values)]
fn worded<S: Sink>(
    u: &Uniquer,
    name: &[u8],
    kids: &[ValueId],
    layout: &mut Layout<'_, S>,
    text: &mut Vec<u8>,
) -> Result<(), PrintError>
    requires kids { CanPrint u.now kids.now }
    requires name { spec.is_bare name.now ≡ true }
    ensures { Prints S.written S.faults layout.old
        (mark.a_word name.now ++ mark.in_angles (mark.commas (mark.marks_of
        (mark.kid_marks (kids_at u.now kids.now)))))
        result layout.new }
{
    word(layout, name)?;
    enclosed(u, (Class::Less, Class::Greater), kids, layout, text)
}

/// A function type, whose first kids, so many, are its inputs.
#[cycle(values)]
fn function<S: Sink>(
    u: &Uniquer,
    inputs: usize,
    kids: &[ValueId],
    layout: &mut Layout<'_, S>,
    text: &mut Vec<u8>,
) -> Result<(), PrintError>
    requires kids { CanPrint u.now kids.now }
    requires within { inputs ≤ length kids.now }
    ensures { Prints S.written S.faults layout.old
        (mark.function_marks inputs (mark.kid_marks (kids_at u.now kids.now)))
        result layout.new }
{
    let ins = &kids[..inputs];
    let outs = &kids[inputs..];
    enclosed(u, (Class::LParen, Class::RParen), ins, layout, text)?;
    sign(layout, Class::Arrow)?;
    enclosed(u, (Class::LParen, Class::RParen), outs, layout, text)
}

/// A shaped type of this kind, with these dimensions.
#[cycle(values)]
fn shaped<S: Sink>(
    u: &Uniquer,
    kind: ShapeKind,
    sizes: &[Dim],
    kids: &[ValueId],
    layout: &mut Layout<'_, S>,
    text: &mut Vec<u8>,
) -> Result<(), PrintError>
    requires kids { CanPrint u.now kids.now }
    requires dims { AllByRecursion (IsDim kind) sizes.now }
    ensures { Prints S.written S.faults layout.old
        (mark.shaped_marks kind sizes.now (mark.kid_marks (kids_at u.now kids.now)))
        result layout.new }
{
    word(layout, shape_text(kind))?;
    sign(layout, Class::Less)?;
    dims(layout, text, kind, sizes)?;
    commas(u, kids, layout, text)?;
    sign(layout, Class::Greater)
}

/// A dialect's type or attribute, of this name. Without parameters it is the name alone.
#[cycle(values)]
fn dialect<S: Sink>(
    u: &Uniquer,
    is_type: bool,
    full_name: &[u8],
    kids: &[ValueId],
    layout: &mut Layout<'_, S>,
    text: &mut Vec<u8>,
) -> Result<(), PrintError>
    requires kids { CanPrint u.now kids.now }
    requires name { spec.is_bare full_name.now ≡ true }
    ensures { Prints S.written S.faults layout.old
        (mark.dialect_marks is_type full_name.now (mark.kid_marks (kids_at u.now kids.now)))
        result layout.new }
{
    name(layout, text, is_type, full_name)?;
    if kids.is_empty() {
        return Ok(());
    }
    enclosed(u, (Class::Less, Class::Greater), kids, layout, text)
}

// ---- dictionaries

/// An entry of a dictionary. The unit attribute is left out.
#[cycle(values)]
fn entry<S: Sink>(
    u: &Uniquer,
    name: &[u8],
    id: ValueId,
    layout: &mut Layout<'_, S>,
    text: &mut Vec<u8>,
) -> Result<(), PrintError>
    requires { CanPrint u.now (id ∷ []) }
    ensures { Prints S.written S.faults layout.old
        (mark.entry_marks (entry_of name.now (at u.now id.0))) result layout.new }
{
    key(layout, text, name)?;
    if is_unit(u, id) {
        return Ok(());
    }
    sign(layout, Class::Equal)?;
    value(u, id, layout, text)
}

/// The entries of a dictionary, with commas between them.
#[cycle(values)]
fn entries<S: Sink>(
    u: &Uniquer,
    keys: &[Text],
    kids: &[ValueId],
    layout: &mut Layout<'_, S>,
    text: &mut Vec<u8>,
) -> Result<(), PrintError>
    requires kids { CanPrint u.now kids.now }
    requires count { length kids.now ≡ length keys.now }
    ensures { Prints S.written S.faults layout.old
        (mark.commas (map mark.entry_marks
        (zip keys.now (mark.kid_marks (kids_at u.now kids.now)))))
        result layout.new }
{
    for (i, name) in keys.iter().enumerate() {
        separate(layout, Class::Comma, i)?;
        entry(u, name.bytes(), kids[i], layout, text)?;
    }
    Ok(())
}

/// A dictionary.
#[cycle(values)]
pub fn dict<S: Sink>(
    u: &Uniquer,
    keys: &[Text],
    kids: &[ValueId],
    layout: &mut Layout<'_, S>,
    text: &mut Vec<u8>,
) -> Result<(), PrintError>
    requires kids { CanPrint u.now kids.now }
    requires count { length kids.now ≡ length keys.now }
    ensures { Prints S.written S.faults layout.old
        (mark.in_braces (mark.commas (map mark.entry_marks
        (zip keys.now (mark.kid_marks (kids_at u.now kids.now))))))
        result layout.new }
{
    sign(layout, Class::LBrace)?;
    entries(u, keys, kids, layout, text)?;
    sign(layout, Class::RBrace)
}
