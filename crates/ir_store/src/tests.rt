//! Modules that are built by calls, and read back part by part.
//!
//! Ids and value numbers follow from the order of the text alone, and were counted by hand.

ghost use Rattle.std.specs.Prelude.{◌≡◌, IfOk, OnOk};
ghost use Rattle.attr_value.specs.declared.head.ValueId.{ValueId as TypeId};
ghost use Rattle.ir_store.specs.Modules.{Regions, Blocks};
ghost use Rattle.ir_store.specs.Numbering.{Numbers};
ghost use Rattle.ir_store.specs.Named.{AreOps, AreRegions, AreBlocks, AttrsAreRight};
ghost use Rattle.ir_store.specs.Growth.{in_block, in_op, in_region, IsOpen};
ghost use Rattle.ir_store.specs.Growth.{added, to_block, to_op, to_region};
ghost use Rattle.ir_store.specs.Store.{OpName, Module, head_of};

use super::*;
use attr_value::{List, Text, ValueId};
use smallvec::SmallVec;
use std::alloc::{AllocError, Global};
use std::fmt::Write;
use std::process::Abort;
use std::test::Fail;

/// An operation without attributes, with results of these types.
fn row(alloc: Global, results: &[ValueId]) -> Result<OpRow, AllocError>
    ensures { IfOk result (λ row. AttrsAreRight (head_of row)) }
{
    Ok(OpRow {
        def: 0,
        place: 0,
        operands: SmallVec::new(alloc),
        results: SmallVec::from_slice(alloc, results)?,
        successors: SmallVec::new(alloc),
        keys: List::new(alloc),
        values: List::new(alloc),
    })
}

/// Puts two operations into a block. The first has a result and two regions, and its first region
/// has two blocks, in which the same stands again, so deep; the second is empty.
#[cycle(grow)]
fn grow(
    alloc: Global,
    store: &mut Store,
    block: Option<BlockId>,
    depth: usize,
) -> Result<(), AllocError>
    requires { IsOpen store.old (in_block block) }
    ensures { OnOk result ((os : Module) × (store.new ≡ added store.old (to_block block os))) }
{
    let op = store.add_op(block, row(alloc, &[ValueId(depth)])?)?;
    grow_regions(alloc, store, op, depth)?;
    store.add_op(block, row(alloc, &[])?)?;
    Ok(())
}

/// Puts the two regions into an operation.
#[cycle(grow)]
fn grow_regions(alloc: Global, store: &mut Store, op: OpId, depth: usize) -> Result<(), AllocError>
    requires { IsOpen store.old (in_op op) }
    ensures { OnOk result
        ((rs : Regions OpName TypeId) × (store.new ≡ added store.old (to_op op rs))) }
{
    let region = store.add_region(op)?;
    grow_block(alloc, store, region, &[ValueId(8), ValueId(9)], depth)?;
    grow_block(alloc, store, region, &[], depth)?;
    store.add_region(op)?;
    Ok(())
}

/// Puts a block into a region.
#[cycle(grow)]
fn grow_block(
    alloc: Global,
    store: &mut Store,
    region: RegionId,
    args: &[ValueId],
    depth: usize,
) -> Result<(), AllocError>
    requires { IsOpen store.old (in_region region) }
    ensures { OnOk result
        ((bs : Blocks OpName TypeId) × (store.new ≡ added store.old (to_region region bs))) }
{
    let block = store.add_block(region, args)?;
    if depth > 0 {
        grow(alloc, store, Some(block), depth - 1)?;
    }
    Ok(())
}

/// Writes operations with the numbers of their results, and what stands in them.
#[cycle(show)]
fn show_ops(store: &Store, ids: &[OpId], left: usize, out: &mut String) -> Result<(), AllocError>
    requires { (c : Numbers) × (os : Module) × AreOps store.now c ids.now os }
{
    if left == 0 {
        return Ok(());
    }
    for id in ids {
        let first = store.first_result(*id);
        let count = store.op(*id).results.len();
        write!(out, "o{}({first}+{count})", id.0)?;
        show_regions(store, store.regions_of(*id), left - 1, out)?;
    }
    Ok(())
}

#[cycle(show)]
fn show_regions(
    store: &Store,
    ids: &[RegionId],
    left: usize,
    out: &mut String,
) -> Result<(), AllocError>
    requires { (c : Numbers) × (rs : Regions OpName TypeId) × AreRegions store.now c ids.now rs }
{
    for id in ids {
        write!(out, "r{}[", id.0)?;
        show_blocks(store, store.blocks_of(*id), left, out)?;
        out.push_str("]")?;
    }
    Ok(())
}

#[cycle(show)]
fn show_blocks(
    store: &Store,
    ids: &[BlockId],
    left: usize,
    out: &mut String,
) -> Result<(), AllocError>
    requires { (c : Numbers) × (bs : Blocks OpName TypeId) × AreBlocks store.now c ids.now bs }
{
    for id in ids {
        let (first, count) = store.args_of(*id);
        write!(out, "b{}({first}+{count}){{", id.0)?;
        show_ops(store, store.ops_of(*id), left, out)?;
        out.push_str("}")?;
    }
    Ok(())
}

/// How deep, what is read back, and the types of all values.
type Row = (usize, &'static str, &'static [usize]);

const ROWS: &[Row] = &[
    (0, "o0(0+1)r0[b0(1+2){}b1(3+0){}]r1[]o1(3+0)", &[0, 8, 9]),
    (
        1,
        "o0(0+1)r0[b0(1+2){o1(3+1)r1[b1(4+2){}b2(6+0){}]r2[]o2(6+0)}\
         b3(6+0){o3(6+1)r3[b4(7+2){}b5(9+0){}]r4[]o4(9+0)}]r5[]o5(9+0)",
        &[1, 8, 9, 0, 8, 9, 0, 8, 9],
    ),
];

#[test]
fn parts_are_read_back_in_order(rt: HostRuntime) -> Result<(), Fail> {
    let alloc = rt.alloc();
    for (depth, text, types) in ROWS {
        let mut store = Store::new(alloc);
        grow(alloc, &mut store, None, *depth)?;
        let mut shown = String::new(alloc);
        show_ops(&store, store.top(), 9, &mut shown)?;
        assert_eq!(rt; shown.as_str(), *text);
        assert_eq!(rt; store.values(), types.len());
        for i in 0..types.len() {
            assert_eq!(rt; store.type_of(i), Some(ValueId(types[i])));
        }
        assert_eq!(rt; store.type_of(types.len()), None);
    }
    Ok(())
}

#[test]
fn rows_are_lent_as_they_were_handed_in(rt: HostRuntime) -> Result<(), Fail> {
    let alloc = rt.alloc();
    let mut store = Store::new(alloc);
    assert_eq!(rt; store.op_count(), 0);
    let mut keys = List::new(alloc);
    keys.push(Text::from_slice(alloc, b"a")?)?;
    keys.push(Text::from_slice(alloc, b"b")?)?;
    let mut values = List::new(alloc);
    values.push(ValueId(5))?;
    values.push(ValueId(4))?;
    let handed = OpRow {
        def: 3,
        place: 17,
        operands: SmallVec::from_slice(alloc, &[2, 0])?,
        results: SmallVec::from_slice(alloc, &[ValueId(6), ValueId(6), ValueId(7)])?,
        successors: SmallVec::from_slice(alloc, &[1])?,
        keys,
        values,
    };
    let id = store.add_op(None, handed)?;
    assert_eq!(rt; id, OpId(0));
    assert_eq!(rt; store.op_count(), 1);
    let lent = store.op(id);
    assert_eq!(rt; (lent.def, lent.place), (3, 17));
    assert_eq!(rt; lent.operands.as_slice(), [2, 0].as_slice());
    assert_eq!(rt;
        lent.results.as_slice(),
        [ValueId(6), ValueId(6), ValueId(7)].as_slice()
    );
    assert_eq!(rt; lent.successors.as_slice(), [1].as_slice());
    assert_eq!(rt; lent.values.as_slice(), [ValueId(5), ValueId(4)].as_slice());
    let names = lent.keys.as_slice();
    assert_eq!(rt; names.len(), 2);
    assert_eq!(rt; names[0].bytes(), b"a".as_slice());
    assert_eq!(rt; names[1].bytes(), b"b".as_slice());
    Ok(())
}
