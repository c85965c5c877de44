//! The labels of blocks.

ghost use Rattle.std.specs.Prelude.{◌≡◌, ℕ, ◌<◌, ◌≤◌, ◌+◌, length, map};
ghost use Rattle.ir_store.specs.Modules.{types_in};
ghost use Rattle.ir_store.specs.Numbering.{blocks_in};
ghost use Rattle.derived_printer.specs.ModuleMarks as canon;
ghost use Rattle.derived_printer.specs.ModuleParts as part;
ghost use Rattle.derived_printer.specs.Printable.{IsPrintable};
ghost use Rattle.derived_printer.specs.Prints.{Prints};
ghost use Rattle.derived_printer.specs.ValueMarks as mark;

use crate::number_names::{block_name, value_name};
use crate::stored::{Stored, value_type};
use crate::token::{new_line, separate, sign};
use ir_lexer::Class;
use ir_store::{BlockId, Store};
use irdl_bytes::Sink;
use text_layout::{Layout, PrintError};

/// Lays an argument of a block down, with its type.
fn argument<S: Sink>(
    m: &Stored<'_>,
    n: usize,
    layout: &mut Layout<'_, S>,
    text: &mut Vec<u8>,
) -> Result<(), PrintError>
    requires printable { IsPrintable m.now.defs.now m.now.u.now m.now.store.now }
    requires known { n < length (types_in m.now.store.now) }
    ensures { Prints S.written S.faults layout.old
        (part.argument_at (part.all_types m.now.form m.now.defs.now m.now.u.now m.now.store.now) n)
        result layout.new }
{
    value_name(layout, text, n)?;
    sign(layout, Class::Colon)?;
    value_type(m, n, layout, text)
}

/// Lays so many arguments down, with commas between them, from a number on.
fn argument_list<S: Sink>(
    m: &Stored<'_>,
    first: usize,
    count: usize,
    layout: &mut Layout<'_, S>,
    text: &mut Vec<u8>,
) -> Result<(), PrintError>
    requires printable { IsPrintable m.now.defs.now m.now.u.now m.now.store.now }
    requires known { (i : ℕ) → i < count → first + i < length (types_in m.now.store.now) }
    ensures { Prints S.written S.faults layout.old
        (mark.commas (map (part.argument_at
        (part.all_types m.now.form m.now.defs.now m.now.u.now m.now.store.now))
        (canon.count_from first count))) result layout.new }
{
    // For the proof: numbers of values have room in a `usize`.
    let _values = m.store.values();
    for i in 0..count {
        separate(layout, Class::Comma, i)?;
        argument(m, first + i, layout, text)?;
    }
    Ok(())
}

/// Lays so many arguments down in parentheses, if there are some, from a number on.
fn arguments<S: Sink>(
    m: &Stored<'_>,
    first: usize,
    count: usize,
    layout: &mut Layout<'_, S>,
    text: &mut Vec<u8>,
) -> Result<(), PrintError>
    requires printable { IsPrintable m.now.defs.now m.now.u.now m.now.store.now }
    requires known { (i : ℕ) → i < count → first + i < length (types_in m.now.store.now) }
    ensures { Prints S.written S.faults layout.old
        (part.arguments_from (part.all_types m.now.form m.now.defs.now m.now.u.now m.now.store.now)
        first count) result layout.new }
{
    if count == 0 {
        return Ok(());
    }
    sign(layout, Class::LParen)?;
    argument_list(m, first, count, layout, text)?;
    sign(layout, Class::RParen)
}

/// Whether a block has a label, by its place in its region.
fn has_label(store: &Store, place: usize, id: BlockId) -> bool
    requires { id.0 < length (blocks_in store.now) }
    ensures { result ≡ canon.has_label place (part.block_here store.now id).args
        (part.block_here store.now id).ops }
{
    if place != 0 {
        return true;
    }
    let (_, count) = store.args_of(id);
    if count != 0 {
        return true;
    }
    store.ops_of(id).is_empty()
}

/// Lays a label down, on a line of its own, by its numbers.
fn label_line<S: Sink>(
    m: &Stored<'_>,
    indent: u32,
    place: usize,
    args: (usize, usize),
    layout: &mut Layout<'_, S>,
    text: &mut Vec<u8>,
) -> Result<(), PrintError>
    requires printable { IsPrintable m.now.defs.now m.now.u.now m.now.store.now }
    requires known { (i : ℕ) → i < args.1 → args.0 + i < length (types_in m.now.store.now) }
    requires room { indent ≤ 128 }
    ensures { Prints S.written S.faults layout.old
        (part.label_of (part.all_types m.now.form m.now.defs.now m.now.u.now m.now.store.now)
        indent place args.0 args.1) result layout.new }
{
    let (first, count) = args;
    new_line(layout, indent)?;
    block_name(layout, text, place)?;
    arguments(m, first, count, layout, text)?;
    sign(layout, Class::Colon)
}

/// Lays the label of a block down, on a line of its own.
fn written_label<S: Sink>(
    m: &Stored<'_>,
    indent: u32,
    place: usize,
    id: BlockId,
    layout: &mut Layout<'_, S>,
    text: &mut Vec<u8>,
) -> Result<(), PrintError>
    requires printable { IsPrintable m.now.defs.now m.now.u.now m.now.store.now }
    requires known { id.0 < length (blocks_in m.now.store.now) }
    requires room { indent ≤ 128 }
    ensures { Prints S.written S.faults layout.old
        (canon.label_marks indent (part.block_here m.now.store.now id).at.values place
        (map (part.value_of_id m.now.u.now) (part.block_here m.now.store.now id).args))
        result layout.new }
{
    let args = m.store.args_of(id);
    label_line(m, indent, place, args, layout, text)
}

/// Lays the label of a block down, if it has one.
pub fn label<S: Sink>(
    m: &Stored<'_>,
    indent: u32,
    place: usize,
    id: BlockId,
    layout: &mut Layout<'_, S>,
    text: &mut Vec<u8>,
) -> Result<(), PrintError>
    requires printable { IsPrintable m.now.defs.now m.now.u.now m.now.store.now }
    requires known { id.0 < length (blocks_in m.now.store.now) }
    requires room { indent ≤ 128 }
    ensures { Prints S.written S.faults layout.old
        (part.label_marks_at m.now.form m.now.defs.now m.now.u.now m.now.store.now indent place id)
        result layout.new }
{
    if has_label(m.store, place, id) {
        return written_label(m, indent, place, id, layout, text);
    }
    Ok(())
}
