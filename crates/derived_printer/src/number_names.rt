//! Names that are numbers: those of SSA values and of blocks.

ghost use Rattle.std.specs.Prelude.{◌<◌, ◌+◌, ◌^◌, ◌∷◌, map};
ghost use Rattle.derived_printer.specs.ModuleMarks as canon;
ghost use Rattle.derived_printer.specs.Prints.{Prints};
ghost use Rattle.derived_printer.specs.ValueMarks as mark;

use crate::spell::{add_block, add_value};
use crate::token::{separate, sign};
use ir_lexer::Class;
use irdl_bytes::Sink;
use text_layout::{Layout, PrintError};

/// Lays the name of a value down.
pub fn value_name<S: Sink>(
    layout: &mut Layout<'_, S>,
    text: &mut Vec<u8>,
    n: usize,
) -> Result<(), PrintError>
    ensures { Prints S.written S.faults layout.old (canon.value_name n) result layout.new }
{
    text.clear();
    match add_value(text, n) {
        Ok(()) => layout.token(Class::ValueName, text.as_slice()),
        Err(_) => Err(layout.out_of_memory()),
    }
}

/// Lays the name of a block down.
pub fn block_name<S: Sink>(
    layout: &mut Layout<'_, S>,
    text: &mut Vec<u8>,
    k: usize,
) -> Result<(), PrintError>
    ensures { Prints S.written S.faults layout.old (canon.block_name k) result layout.new }
{
    text.clear();
    match add_block(text, k) {
        Ok(()) => layout.token(Class::BlockName, text.as_slice()),
        Err(_) => Err(layout.out_of_memory()),
    }
}

/// Lays names of values down, with commas between them.
fn value_names<S: Sink>(
    layout: &mut Layout<'_, S>,
    text: &mut Vec<u8>,
    numbers: &[usize],
) -> Result<(), PrintError>
    ensures { Prints S.written S.faults layout.old
        (mark.commas (map canon.value_name numbers.now)) result layout.new }
{
    for (i, n) in numbers.iter().enumerate() {
        separate(layout, Class::Comma, i)?;
        value_name(layout, text, *n)?;
    }
    Ok(())
}

/// Lays operands down.
pub fn operands<S: Sink>(
    layout: &mut Layout<'_, S>,
    text: &mut Vec<u8>,
    numbers: &[usize],
) -> Result<(), PrintError>
    ensures { Prints S.written S.faults layout.old
        (mark.in_parens (mark.commas (map canon.value_name numbers.now))) result layout.new }
{
    sign(layout, Class::LParen)?;
    value_names(layout, text, numbers)?;
    sign(layout, Class::RParen)
}

/// Lays names of blocks down, with commas between them.
fn block_names<S: Sink>(
    layout: &mut Layout<'_, S>,
    text: &mut Vec<u8>,
    numbers: &[usize],
) -> Result<(), PrintError>
    ensures { Prints S.written S.faults layout.old
        (mark.commas (map canon.block_name numbers.now)) result layout.new }
{
    for (i, k) in numbers.iter().enumerate() {
        separate(layout, Class::Comma, i)?;
        block_name(layout, text, *k)?;
    }
    Ok(())
}

/// Lays successors down, if there are some.
pub fn successors<S: Sink>(
    layout: &mut Layout<'_, S>,
    text: &mut Vec<u8>,
    numbers: &[usize],
) -> Result<(), PrintError>
    ensures { Prints S.written S.faults layout.old
        (mark.unless_empty numbers.now
        (mark.in_squares (mark.commas (map canon.block_name numbers.now))))
        result layout.new }
{
    if numbers.is_empty() {
        return Ok(());
    }
    sign(layout, Class::LSquare)?;
    block_names(layout, text, numbers)?;
    sign(layout, Class::RSquare)
}

/// Lays the names of so many values down, which have numbers from the first on.
fn names_from<S: Sink>(
    layout: &mut Layout<'_, S>,
    text: &mut Vec<u8>,
    first: usize,
    count: usize,
) -> Result<(), PrintError>
    requires { first + count < 2 ^ 64 }
    ensures { Prints S.written S.faults layout.old
        (mark.commas (map canon.value_name (canon.count_from first count)))
        result layout.new }
{
    for i in 0..count {
        separate(layout, Class::Comma, i)?;
        value_name(layout, text, first + i)?;
    }
    Ok(())
}

/// Lays names for so many results down, if there are some, and `=`.
pub fn results<S: Sink>(
    layout: &mut Layout<'_, S>,
    text: &mut Vec<u8>,
    first: usize,
    count: usize,
) -> Result<(), PrintError>
    requires { first + count < 2 ^ 64 }
    ensures { Prints S.written S.faults layout.old (canon.results_marks first count)
        result layout.new }
{
    if count == 0 {
        return Ok(());
    }
    names_from(layout, text, first, count)?;
    sign(layout, Class::Equal)
}
