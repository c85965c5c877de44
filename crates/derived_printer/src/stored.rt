//! What is printed of a stored module without a look at its nesting: types, attributes, and
//! the front and the back of an operation.

ghost use Rattle.std.specs.Prelude.{◌≡◌, ◌<◌, length, map, slice_get, Some};
ghost use Rattle.std.specs.List.{AllByRecursion, zip};
ghost use Rattle.attr_value.specs.Ids.{at};
ghost use Rattle.ir_store.specs.Modules.{types_in};
ghost use Rattle.ir_store.specs.Numbering.{ops_in};
ghost use Rattle.derived_printer.specs.ModuleMarks as canon;
ghost use Rattle.derived_printer.specs.ModuleParts as part;
ghost use Rattle.derived_printer.specs.Parts.{CanPrint};
ghost use Rattle.derived_printer.specs.Printable.{IsPrintable};
ghost use Rattle.derived_printer.specs.Prints.{Prints};
ghost use Rattle.derived_printer.specs.ValueMarks as mark;

use crate::form::Form;
use crate::leaf::is_function;
use crate::number_names::{operands, results, successors};
use crate::token::{separate, sign, string};
use crate::value::{commas, dict, enclosed, value};
use attr_uniquer::Uniquer;
use attr_value::{Text, ValueId};
use dialect_defs::OpDef;
use ir_lexer::Class;
use ir_store::{OpId, Store};
use irdl_bytes::Sink;
use text_layout::{Layout, PrintError};

/// A stored module, with the tables that its numbers and ids are of, and the form that is asked.
#[derive(Clone, Copy)]
pub struct Stored<'a> {
    pub form: Form,
    pub defs: &'a [OpDef],
    pub u: &'a Uniquer,
    pub store: &'a Store,
}

// ---- types and attributes

/// The type of a value of the module.
fn type_of(store: &Store, n: usize) -> ValueId
    ensures { result ≡ part.type_in store.now n }
{
    store.type_of(n).unwrap_or(ValueId(0))
}

/// Lays the type of a value of the module down.
pub fn value_type<S: Sink>(
    m: &Stored<'_>,
    n: usize,
    layout: &mut Layout<'_, S>,
    text: &mut Vec<u8>,
) -> Result<(), PrintError>
    requires printable { IsPrintable m.now.defs.now m.now.u.now m.now.store.now }
    requires known { n < length (types_in m.now.store.now) }
    ensures { Prints S.written S.faults layout.old
        (mark.value_marks (at (part.all_types m.now.form m.now.defs.now m.now.u.now m.now.store.now)
        n)) result layout.new }
{
    value(m.u, type_of(m.store, n), layout, text)
}

/// Lays the types of values of the module down, with commas between them.
fn value_types<S: Sink>(
    m: &Stored<'_>,
    numbers: &[usize],
    layout: &mut Layout<'_, S>,
    text: &mut Vec<u8>,
) -> Result<(), PrintError>
    requires printable { IsPrintable m.now.defs.now m.now.u.now m.now.store.now }
    requires known { AllByRecursion (λ n. n < length (types_in m.now.store.now)) numbers.now }
    ensures { Prints S.written S.faults layout.old
        (mark.commas (map mark.value_marks (map (at
        (part.all_types m.now.form m.now.defs.now m.now.u.now m.now.store.now)) numbers.now)))
        result layout.new }
{
    for (i, n) in numbers.iter().enumerate() {
        separate(layout, Class::Comma, i)?;
        value_type(m, *n, layout, text)?;
    }
    Ok(())
}

/// Lays the types of operands down, in parentheses.
fn operand_types<S: Sink>(
    m: &Stored<'_>,
    numbers: &[usize],
    layout: &mut Layout<'_, S>,
    text: &mut Vec<u8>,
) -> Result<(), PrintError>
    requires printable { IsPrintable m.now.defs.now m.now.u.now m.now.store.now }
    requires known { AllByRecursion (λ n. n < length (types_in m.now.store.now)) numbers.now }
    ensures { Prints S.written S.faults layout.old
        (canon.type_list_marks (map (at
        (part.all_types m.now.form m.now.defs.now m.now.u.now m.now.store.now)) numbers.now))
        result layout.new }
{
    sign(layout, Class::LParen)?;
    value_types(m, numbers, layout, text)?;
    sign(layout, Class::RParen)
}

/// Whether result types stand without parentheses.
fn stands_bare(u: &Uniquer, types: &[ValueId]) -> bool
    requires { CanPrint u.now types.now }
    ensures { result ≡ canon.stands_bare (map (part.value_of_id u.now) types.now) }
{
    if types.len() != 1 {
        return false;
    }
    !is_function(u, types[0])
}

/// Lays the result types of an operation down.
fn result_types<S: Sink>(
    u: &Uniquer,
    types: &[ValueId],
    layout: &mut Layout<'_, S>,
    text: &mut Vec<u8>,
) -> Result<(), PrintError>
    requires { CanPrint u.now types.now }
    ensures { Prints S.written S.faults layout.old
        (canon.outs_marks (map (part.value_of_id u.now) types.now)) result layout.new }
{
    if stands_bare(u, types) {
        return commas(u, types, layout, text);
    }
    enclosed(u, (Class::LParen, Class::RParen), types, layout, text)
}

/// Lays the attributes of an operation down, if there are some.
fn attributes<S: Sink>(
    u: &Uniquer,
    keys: &[Text],
    values: &[ValueId],
    layout: &mut Layout<'_, S>,
    text: &mut Vec<u8>,
) -> Result<(), PrintError>
    requires values { CanPrint u.now values.now }
    requires count { length values.now ≡ length keys.now }
    ensures { Prints S.written S.faults layout.old
        (part.attrs_marks (zip keys.now (map (part.value_of_id u.now) values.now)))
        result layout.new }
{
    if keys.is_empty() {
        return Ok(());
    }
    dict(u, keys, values, layout, text)
}

// ---- an operation

/// Lays the names of an operation's results down, if there are some, and `=`.
pub fn operation_results<S: Sink>(
    m: &Stored<'_>,
    id: OpId,
    layout: &mut Layout<'_, S>,
    text: &mut Vec<u8>,
) -> Result<(), PrintError>
    requires known { id.0 < length (ops_in m.now.store.now) }
    ensures { Prints S.written S.faults layout.old
        (canon.results_marks (part.op_here m.now.store.now id).at.values
        (length (part.op_here m.now.store.now id).head.results)) result layout.new }
{
    let first = m.store.first_result(id);
    let count = m.store.op(id).results.len();
    // For the proof: numbers of values have room in a `usize`.
    let _values = m.store.values();
    results(layout, text, first, count)
}

/// The definition of a number.
fn definition_at(defs: &[OpDef], i: usize) -> &OpDef
    requires { i < length defs.now }
    ensures { slice_get defs.now i ≡ Some result.now }
{
    &defs[i]
}

/// Lays a name, operands and successors down.
fn front<S: Sink>(
    name: &[u8],
    numbers: &[usize],
    blocks: &[usize],
    layout: &mut Layout<'_, S>,
    text: &mut Vec<u8>,
) -> Result<(), PrintError>
    ensures { Prints S.written S.faults layout.old
        (part.front_of name.now numbers.now blocks.now) result layout.new }
{
    string(layout, text, name)?;
    operands(layout, text, numbers)?;
    successors(layout, text, blocks)
}

/// Lays what stands before the regions of an operation in generic form: the name, the operands and
/// the successors.
pub fn generic_front<S: Sink>(
    m: &Stored<'_>,
    id: OpId,
    layout: &mut Layout<'_, S>,
    text: &mut Vec<u8>,
) -> Result<(), PrintError>
    requires printable { IsPrintable m.now.defs.now m.now.u.now m.now.store.now }
    requires known { id.0 < length (ops_in m.now.store.now) }
    ensures { Prints S.written S.faults layout.old
        (part.front_marks (part.head_seen m.now.form m.now.defs.now m.now.u.now m.now.store.now id))
        result layout.new }
{
    let row = m.store.op(id);
    let def = definition_at(m.defs, row.def);
    let name = def.name.bytes();
    front(
        name,
        row.operands.as_slice(),
        row.successors.as_slice(),
        layout,
        text,
    )
}

/// Lays attributes and the type of an operation down.
fn back<S: Sink>(
    m: &Stored<'_>,
    keys: &[Text],
    values: &[ValueId],
    numbers: &[usize],
    results: &[ValueId],
    layout: &mut Layout<'_, S>,
    text: &mut Vec<u8>,
) -> Result<(), PrintError>
    requires printable { IsPrintable m.now.defs.now m.now.u.now m.now.store.now }
    requires values { CanPrint m.now.u.now values.now }
    requires count { length values.now ≡ length keys.now }
    requires known { AllByRecursion (λ n. n < length (types_in m.now.store.now)) numbers.now }
    requires results { CanPrint m.now.u.now results.now }
    ensures { Prints S.written S.faults layout.old
        (part.back_of (part.all_types m.now.form m.now.defs.now m.now.u.now m.now.store.now)
        (zip keys.now (map (part.value_of_id m.now.u.now) values.now)) numbers.now
        (map (part.value_of_id m.now.u.now) results.now)) result layout.new }
{
    attributes(m.u, keys, values, layout, text)?;
    sign(layout, Class::Colon)?;
    operand_types(m, numbers, layout, text)?;
    sign(layout, Class::Arrow)?;
    result_types(m.u, results, layout, text)
}

/// Lays what stands behind the regions of an operation in generic form: the attributes, and the
/// types of operands and results.
pub fn generic_back<S: Sink>(
    m: &Stored<'_>,
    id: OpId,
    layout: &mut Layout<'_, S>,
    text: &mut Vec<u8>,
) -> Result<(), PrintError>
    requires printable { IsPrintable m.now.defs.now m.now.u.now m.now.store.now }
    requires known { id.0 < length (ops_in m.now.store.now) }
    ensures { Prints S.written S.faults layout.old
        (part.back_marks (part.all_types m.now.form m.now.defs.now m.now.u.now m.now.store.now)
        (part.head_seen m.now.form m.now.defs.now m.now.u.now m.now.store.now id))
        result layout.new }
{
    let row = m.store.op(id);
    let keys = row.keys.as_slice();
    let values = row.values.as_slice();
    back(
        m,
        keys,
        values,
        row.operands.as_slice(),
        row.results.as_slice(),
        layout,
        text,
    )
}
