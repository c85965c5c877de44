//! A module and its canonical text, which was written by hand.

ghost use Rattle.std.specs.Prelude.{ℕ, ◌<◌, length, drop, IfOk, IsTrue};
ghost use Rattle.std.specs.List.{AllByRecursion};
ghost use Rattle.std.specs.Option.{ForSome};
ghost use Rattle.attr_value.specs.Ids.{at};
ghost use Rattle.derived_printer.specs.Printable.{CanBeSpelled, IsPrintable, OpIsPrintable};
ghost use Rattle.derived_printer.specs.Spellable.{NodeIsSpellable, AreSpellable};
ghost use Rattle.ir_store.specs.Modules.{types_in};
ghost use Rattle.ir_store.specs.Named.{op_at, AttrsAreRight};
ghost use Rattle.ir_store.specs.Numbering.{ops_in};
ghost use Rattle.ir_store.specs.Store.{head_of};

use super::{are_spellable, keep};
use crate::{Form, REGION_LIMIT, print};
use attr_uniquer::Uniquer;
use attr_value::{DEPTH_LIMIT, Head, IntKind, List, Text, ValueId};
use dialect_defs::{Body, OpDef};
use ir_store::{OpId, OpRow, Store};
use irdl_bytes::MemSink;
use smallvec::SmallVec;
use std::alloc::{AllocError, Global};
use std::test::Fail;
use text_layout::Layout;

// ---- whether a module can be printed

// Whether a value can be spelled, where all values of the table can, their depth apart.
fn can_be_spelled(u: &Uniquer, id: ValueId) -> bool
    requires nodes { (i : ℕ) → i < length u.now →
        NodeIsSpellable (at u.now i).head (at u.now i).kids }
    requires kids { (i : ℕ) → i < length u.now → AreSpellable (at u.now i).kids }
    ensures { IsTrue result → CanBeSpelled u.now id }
{
    id.0 < u.len() && u.depth(id) <= DEPTH_LIMIT
}

// Whether these values can be.
fn can_all_be_spelled(u: &Uniquer, ids: &[ValueId]) -> bool
    requires nodes { (i : ℕ) → i < length u.now →
        NodeIsSpellable (at u.now i).head (at u.now i).kids }
    requires kids { (i : ℕ) → i < length u.now → AreSpellable (at u.now i).kids }
    ensures { IsTrue result → AllByRecursion (CanBeSpelled u.now) ids.now }
{
    match ids {
        [] => true,
        [first, rest @ ..] => can_be_spelled(u, *first) && can_all_be_spelled(u, rest),
    }
}

// Whether these are numbers of a module's values.
fn are_values(count: usize, numbers: &[usize]) -> bool
    ensures { IsTrue result → AllByRecursion (λ n. n < count) numbers.now }
{
    match numbers {
        [] => true,
        [first, rest @ ..] => *first < count && are_values(count, rest),
    }
}

// Whether the types of all values can be spelled, from one on.
fn are_types_spellable(u: &Uniquer, store: &Store, from: usize) -> bool
    requires nodes { (i : ℕ) → i < length u.now →
        NodeIsSpellable (at u.now i).head (at u.now i).kids }
    requires kids { (i : ℕ) → i < length u.now → AreSpellable (at u.now i).kids }
    ensures { IsTrue result →
        AllByRecursion (CanBeSpelled u.now) (drop from (types_in store.now)) }
{
    if from >= store.values() {
        return true;
    }
    match store.type_of(from) {
        Some(ty) => can_be_spelled(u, ty) && are_types_spellable(u, store, from + 1),
        None => false,
    }
}

// Whether an operation can be printed, where so many definitions are there.
fn is_op_printable(count: usize, u: &Uniquer, store: &Store, op: OpId) -> bool
    requires nodes { (i : ℕ) → i < length u.now →
        NodeIsSpellable (at u.now i).head (at u.now i).kids }
    requires kids { (i : ℕ) → i < length u.now → AreSpellable (at u.now i).kids }
    requires known { op.0 < length (ops_in store.now) }
    ensures { ForSome (op_at store.now op) (λ x. IsTrue result →
        OpIsPrintable count (length (types_in store.now)) u.now x.head) }
{
    let row = store.op(op);
    row.def < count
        && are_values(store.values(), row.operands.as_slice())
        && can_all_be_spelled(u, row.values.as_slice())
}

// Whether all operations can be, from one on.
fn are_ops_printable(count: usize, u: &Uniquer, store: &Store, from: usize) -> bool
    requires nodes { (i : ℕ) → i < length u.now →
        NodeIsSpellable (at u.now i).head (at u.now i).kids }
    requires kids { (i : ℕ) → i < length u.now → AreSpellable (at u.now i).kids }
    ensures { IsTrue result → AllByRecursion
        (λ x. OpIsPrintable count (length (types_in store.now)) u.now x.head)
        (drop from (ops_in store.now)) }
{
    if from >= store.op_count() {
        return true;
    }
    is_op_printable(count, u, store, OpId(from)) && are_ops_printable(count, u, store, from + 1)
}

// Whether a module of a few operations can be printed.
fn is_printable(defs: &[OpDef], u: &Uniquer, store: &Store) -> bool
    ensures { IsTrue result → IsPrintable defs.now u.now store.now }
{
    if !are_spellable(u) {
        return false;
    }
    if !are_types_spellable(u, store, 0) {
        return false;
    }
    if !are_ops_printable(defs.len(), u, store, 0) {
        return false;
    }
    store.op_count() <= REGION_LIMIT
}

// ---- the module

// A definition of which the name alone is told.
fn definition(alloc: Global, name: &[u8]) -> Result<OpDef, AllocError> {
    Ok(OpDef {
        name: Text::from_slice(alloc, name)?,
        body: Body {
            vars: List::new(alloc),
        },
        operands: List::new(alloc),
        results: List::new(alloc),
        attrs: List::new(alloc),
        regions: List::new(alloc),
        successors: List::new(alloc),
        terminator: false,
        format: None,
    })
}

// An operation without attributes.
fn plain_row(
    alloc: Global,
    def: usize,
    operands: &[usize],
    results: &[ValueId],
) -> Result<OpRow, AllocError>
    ensures { IfOk result (λ row. AttrsAreRight (head_of row)) }
{
    Ok(OpRow {
        def,
        place: 0,
        operands: SmallVec::from_slice(alloc, operands)?,
        results: SmallVec::from_slice(alloc, results)?,
        successors: SmallVec::new(alloc),
        keys: List::new(alloc),
        values: List::new(alloc),
    })
}

// An operation of one result, with one attribute.
fn row_with(
    alloc: Global,
    def: usize,
    ty: ValueId,
    key: &[u8],
    value: ValueId,
) -> Result<OpRow, AllocError>
    ensures { IfOk result (λ row. AttrsAreRight (head_of row)) }
{
    let mut keys = List::new(alloc);
    keys.push(Text::from_slice(alloc, key)?)?;
    let mut values = List::new(alloc);
    values.push(value)?;
    Ok(OpRow {
        def,
        place: 0,
        operands: SmallVec::new(alloc),
        results: SmallVec::from_slice(alloc, &[ty])?,
        successors: SmallVec::new(alloc),
        keys,
        values,
    })
}

// An operation with a result and an attribute, and one with a region, whose block has an argument.
fn module(alloc: Global, ty: ValueId, value: ValueId) -> Result<Store, AllocError> {
    let mut store = Store::new(alloc);
    store.add_op(None, row_with(alloc, 0, ty, b"a", value)?)?;
    let op = store.add_op(None, plain_row(alloc, 1, &[0], &[])?)?;
    let region = store.add_region(op)?;
    let block = store.add_block(region, &[ty])?;
    store.add_op(Some(block), plain_row(alloc, 2, &[1, 0], &[])?)?;
    Ok(store)
}

const TEXT: &str = "%0 = \"d.one\"() {a = 1 : i32} : () -> i32
\"d.loop\"(%0) ({
^bb0(%1: i32):
  \"d.end\"(%1, %0) : (i32, i32) -> ()
}) : (i32) -> ()
";

#[test]
fn a_module_has_this_text(rt: HostRuntime) -> Result<(), Fail> {
    let alloc = rt.alloc();
    let mut u = Uniquer::new(alloc);
    let kind = IntKind::Signless(32);
    let ty = keep(&rt, &mut u, Head::Int(kind), &[])?;
    let value = keep(&rt, &mut u, Head::Number { kind, n: 1 }, &[])?;
    let mut defs = Vec::new(alloc);
    defs.push(definition(alloc, b"d.one")?)?;
    defs.push(definition(alloc, b"d.loop")?)?;
    defs.push(definition(alloc, b"d.end")?)?;
    let store = module(alloc, ty, value)?;
    let printable = is_printable(&defs, &u, &store);
    assert!(rt; printable);
    let mut sink = MemSink::new(alloc, 200)?;
    let mut layout = Layout::new(alloc, &mut sink);
    print(alloc, &defs, &u, &store, Form::Generic, &mut layout)?;
    layout.end()?;
    assert_eq!(rt; sink.bytes(), TEXT.as_bytes());
    Ok(())
}
