//! A module: its operations, their regions, and the blocks of these.

ghost use Rattle.std.specs.Prelude.{map};
ghost use Rattle.std.specs.List.{AllByRecursion};
ghost use Rattle.derived_printer.specs.ModuleMarks as canon;
ghost use Rattle.derived_printer.specs.ModuleParts as part;
ghost use Rattle.derived_printer.specs.ModuleParts.{OpIsThere, RegionIsThere, BlockIsThere};
ghost use Rattle.derived_printer.specs.Printable.{IsPrintable};
ghost use Rattle.derived_printer.specs.Prints.{Prints};
ghost use Rattle.derived_printer.specs.ValueMarks as mark;

use crate::form::Form;
use crate::labels::label;
use crate::stored::{Stored, generic_back, generic_front, operation_results};
use crate::token::{new_line, separate, sign};
use attr_uniquer::Uniquer;
use dialect_defs::OpDef;
use ir_lexer::Class;
use ir_store::{BlockId, OpId, RegionId, Store};
use irdl_bytes::Sink;
use std::alloc::Global;
use text_layout::{Layout, PrintError};

/// Lays the canonical text of a module down, the marks `module_marks` of `specs/ModuleMarks.antt`.
///
/// The module is one that can be printed: each operation names one of the definitions, operands are
/// values of the module, types and the values of attributes can be spelled, and regions nest at
/// most [`REGION_LIMIT`](crate::REGION_LIMIT) deep. Behind an error that the layout answered
/// before, the same one is answered, and nothing is written.
///
/// `WriteFault`, `OutputLimit` and `OutOfMemory` come as from the layout, and `OutOfMemory` also
/// where a text can't be made: names, numbers and strings are made in one buffer.
pub fn print<S: Sink>(
    alloc: Global,
    defs: &[OpDef],
    u: &Uniquer,
    store: &Store,
    form: Form,
    layout: &mut Layout<'_, S>,
) -> Result<(), PrintError>
    requires { IsPrintable defs.now u.now store.now }
    ensures { Prints S.written S.faults layout.old
        (canon.module_marks (canon.form_marks form defs.now)
        (canon.seen_module defs.now u.now store.now)) result layout.new }
{
    let mut text = Vec::new(alloc);
    let m = Stored {
        form,
        defs,
        u,
        store,
    };
    operations(&m, 0, store.top(), layout, &mut text)
}

/// Operations at an indent.
#[cycle(modules)]
fn operations<S: Sink>(
    m: &Stored<'_>,
    indent: u32,
    ids: &[OpId],
    layout: &mut Layout<'_, S>,
    text: &mut Vec<u8>,
) -> Result<(), PrintError>
    requires printable { IsPrintable m.now.defs.now m.now.u.now m.now.store.now }
    requires there { AllByRecursion (OpIsThere m.now.store.now indent) ids.now }
    ensures { Prints S.written S.faults layout.old
        (part.ops_marks_of m.now.form m.now.defs.now m.now.u.now m.now.store.now indent ids.now)
        result layout.new }
{
    for id in ids {
        operation(m, indent, *id, layout, text)?;
    }
    Ok(())
}

/// An operation, on a line of its own.
#[cycle(modules)]
fn operation<S: Sink>(
    m: &Stored<'_>,
    indent: u32,
    id: OpId,
    layout: &mut Layout<'_, S>,
    text: &mut Vec<u8>,
) -> Result<(), PrintError>
    requires printable { IsPrintable m.now.defs.now m.now.u.now m.now.store.now }
    requires there { OpIsThere m.now.store.now indent id }
    ensures { Prints S.written S.faults layout.old
        (part.op_marks_at m.now.form m.now.defs.now m.now.u.now m.now.store.now indent id)
        result layout.new }
{
    new_line(layout, indent)?;
    operation_results(m, id, layout, text)?;
    match m.form {
        Form::Generic => generic(m, indent, id, layout, text),
    }
}

/// An operation in generic form, but for its results.
#[cycle(modules)]
fn generic<S: Sink>(
    m: &Stored<'_>,
    indent: u32,
    id: OpId,
    layout: &mut Layout<'_, S>,
    text: &mut Vec<u8>,
) -> Result<(), PrintError>
    requires printable { IsPrintable m.now.defs.now m.now.u.now m.now.store.now }
    requires there { OpIsThere m.now.store.now indent id }
    ensures { Prints S.written S.faults layout.old
        (canon.generic_marks
        (part.view_at m.now.form m.now.defs.now m.now.u.now m.now.store.now indent id))
        result layout.new }
{
    generic_front(m, id, layout, text)?;
    regions(m, indent, m.store.regions_of(id), layout, text)?;
    generic_back(m, id, layout, text)
}

/// The regions of an operation in parentheses, if there are some.
#[cycle(modules)]
fn regions<S: Sink>(
    m: &Stored<'_>,
    indent: u32,
    ids: &[RegionId],
    layout: &mut Layout<'_, S>,
    text: &mut Vec<u8>,
) -> Result<(), PrintError>
    requires printable { IsPrintable m.now.defs.now m.now.u.now m.now.store.now }
    requires there { AllByRecursion (RegionIsThere m.now.store.now indent) ids.now }
    ensures { Prints S.written S.faults layout.old
        (part.list_marks (map
        (part.region_marks_at m.now.form m.now.defs.now m.now.u.now m.now.store.now indent)
        ids.now)) result layout.new }
{
    if ids.is_empty() {
        return Ok(());
    }
    sign(layout, Class::LParen)?;
    region_list(m, indent, ids, layout, text)?;
    sign(layout, Class::RParen)
}

/// Regions with commas between them.
#[cycle(modules)]
fn region_list<S: Sink>(
    m: &Stored<'_>,
    indent: u32,
    ids: &[RegionId],
    layout: &mut Layout<'_, S>,
    text: &mut Vec<u8>,
) -> Result<(), PrintError>
    requires printable { IsPrintable m.now.defs.now m.now.u.now m.now.store.now }
    requires there { AllByRecursion (RegionIsThere m.now.store.now indent) ids.now }
    ensures { Prints S.written S.faults layout.old
        (mark.commas (map
        (part.region_marks_at m.now.form m.now.defs.now m.now.u.now m.now.store.now indent)
        ids.now)) result layout.new }
{
    for (i, id) in ids.iter().enumerate() {
        separate(layout, Class::Comma, i)?;
        region(m, indent, *id, layout, text)?;
    }
    Ok(())
}

/// A region, between its braces.
#[cycle(modules)]
fn region<S: Sink>(
    m: &Stored<'_>,
    indent: u32,
    id: RegionId,
    layout: &mut Layout<'_, S>,
    text: &mut Vec<u8>,
) -> Result<(), PrintError>
    requires printable { IsPrintable m.now.defs.now m.now.u.now m.now.store.now }
    requires there { RegionIsThere m.now.store.now indent id }
    ensures { Prints S.written S.faults layout.old
        (part.region_marks_at m.now.form m.now.defs.now m.now.u.now m.now.store.now indent id)
        result layout.new }
{
    sign(layout, Class::LBrace)?;
    blocks(m, indent, m.store.blocks_of(id), layout, text)?;
    new_line(layout, indent)?;
    sign(layout, Class::RBrace)
}

/// The blocks of a region.
#[cycle(modules)]
fn blocks<S: Sink>(
    m: &Stored<'_>,
    indent: u32,
    ids: &[BlockId],
    layout: &mut Layout<'_, S>,
    text: &mut Vec<u8>,
) -> Result<(), PrintError>
    requires printable { IsPrintable m.now.defs.now m.now.u.now m.now.store.now }
    requires there { AllByRecursion (BlockIsThere m.now.store.now indent) ids.now }
    ensures { Prints S.written S.faults layout.old
        (part.blocks_marks_of m.now.form m.now.defs.now m.now.u.now m.now.store.now indent 0
        ids.now) result layout.new }
{
    for (i, id) in ids.iter().enumerate() {
        block(m, indent, i, *id, layout, text)?;
    }
    Ok(())
}

/// A block, by its place in its region: its label, if it has one, and its operations.
#[cycle(modules)]
fn block<S: Sink>(
    m: &Stored<'_>,
    indent: u32,
    place: usize,
    id: BlockId,
    layout: &mut Layout<'_, S>,
    text: &mut Vec<u8>,
) -> Result<(), PrintError>
    requires printable { IsPrintable m.now.defs.now m.now.u.now m.now.store.now }
    requires there { BlockIsThere m.now.store.now indent id }
    ensures { Prints S.written S.faults layout.old
        (part.block_marks_at m.now.form m.now.defs.now m.now.u.now m.now.store.now indent place id)
        result layout.new }
{
    label(m, indent, place, id, layout, text)?;
    operations(m, indent + 2, m.store.ops_of(id), layout, text)
}
