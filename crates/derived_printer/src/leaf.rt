//! Values that hold no value: the unit attribute, symbols and dense arrays.

ghost use Rattle.std.specs.Prelude.{◌≡◌, ◌<◌, length, map};
ghost use Rattle.attr_value.specs.Ids.{at};
ghost use Rattle.derived_printer.specs.Prints.{Prints};
ghost use Rattle.derived_printer.specs.ReadBack as read;
ghost use Rattle.derived_printer.specs.ValueMarks as mark;

use crate::token::{int_type, number, part, separate, sign, truth, word};
use attr_uniquer::Uniquer;
use attr_value::{Head, IntKind, Text, ValueId};
use ir_lexer::Class;
use irdl_bytes::Sink;
use text_layout::{Layout, PrintError};

/// Whether a value is the unit attribute.
pub fn is_unit(u: &Uniquer, id: ValueId) -> bool
    requires { id.0 < length u.now }
    ensures { result ≡ mark.is_unit_head (at u.now id.0).head }
{
    let (head, _) = u.view(id);
    match head {
        Head::Unit => true,
        _ => false,
    }
}

/// Whether a value is a function type.
pub fn is_function(u: &Uniquer, id: ValueId) -> bool
    requires { id.0 < length u.now }
    ensures { result ≡ read.is_function (at u.now id.0).head }
{
    let (head, _) = u.view(id);
    match head {
        Head::Function { .. } => true,
        _ => false,
    }
}

/// Lays a symbol down, by its parts.
pub fn symbol<S: Sink>(
    layout: &mut Layout<'_, S>,
    text: &mut Vec<u8>,
    parts: &[Text],
) -> Result<(), PrintError>
    ensures { Prints S.written S.faults layout.old (mark.symbol_marks parts.now)
        result layout.new }
{
    for (i, name) in parts.iter().enumerate() {
        separate(layout, Class::ColonColon, i)?;
        part(layout, text, name.bytes())?;
    }
    Ok(())
}

/// Lays an item of a dense array down.
fn item<S: Sink>(layout: &mut Layout<'_, S>, width: u32, n: &i64) -> Result<(), PrintError>
    ensures { Prints S.written S.faults layout.old (mark.item_marks width n.now)
        result layout.new }
{
    if width == 1 {
        return truth(layout, i128::from(*n));
    }
    number(layout, i128::from(*n))
}

/// Lays the items of a dense array down, with commas between them.
fn items<S: Sink>(layout: &mut Layout<'_, S>, width: u32, items: &[i64]) -> Result<(), PrintError>
    ensures { Prints S.written S.faults layout.old
        (mark.commas (map (mark.item_marks width) items.now)) result layout.new }
{
    for (i, n) in items.iter().enumerate() {
        separate(layout, Class::Comma, i)?;
        item(layout, width, n)?;
    }
    Ok(())
}

/// Lays a `:` and the items of a dense array down, if there are any.
fn items_behind<S: Sink>(
    layout: &mut Layout<'_, S>,
    width: u32,
    numbers: &[i64],
) -> Result<(), PrintError>
    ensures { Prints S.written S.faults layout.old (mark.items_behind width numbers.now)
        result layout.new }
{
    if numbers.is_empty() {
        return Ok(());
    }
    sign(layout, Class::Colon)?;
    items(layout, width, numbers)
}

/// Lays a dense array down.
pub fn dense<S: Sink>(
    layout: &mut Layout<'_, S>,
    text: &mut Vec<u8>,
    width: u32,
    numbers: &[i64],
) -> Result<(), PrintError>
    ensures { Prints S.written S.faults layout.old (mark.dense_marks width numbers.now)
        result layout.new }
{
    word(layout, b"array")?;
    sign(layout, Class::Less)?;
    int_type(layout, text, IntKind::Signless(width))?;
    items_behind(layout, width, numbers)?;
    sign(layout, Class::Greater)
}
