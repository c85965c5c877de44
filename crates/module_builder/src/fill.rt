//! A walk over the tree of a module that adds its operations to a store.
//!
//! Rows are taken one after the other, in the order in which operations stand in the text. So are
//! the types of the arguments of an operation's blocks.

ghost use Rattle.std.specs.Prelude.{OnOk};
ghost use Rattle.std.specs.Slice.Iter.{iter_rest};
ghost use Rattle.std.specs.Vec.Iter.{into_iter_items};
ghost use Rattle.generic_syntax.specs.declared.module_cst.FormCst.{out-FormCst};
ghost use Rattle.ir_store.specs.Growth.{IsOpen, in_block, in_op, in_region};
ghost use Rattle.module_builder.specs.Filled.{Await, AwaitArgs};
ghost use Rattle.module_builder.specs.Filled.{OpsFilled, RegionsFilled, BlocksFilled};
ghost use Rattle.module_builder.specs.Fit.{blocks_under};
ghost use Rattle.module_faults.specs.Standings.{ops_standings, regions_standings};
ghost use Rattle.module_faults.specs.Standings.{blocks_standings, regions_in_form};

use crate::row::{Row, next_args, next_row};
use attr_value::{List, ValueId};
use generic_syntax::{BlockCst, FormCst, OpCst, RegionCst};
use ir_store::{BlockId, OpId, RegionId, Store};
use std::alloc::{AllocError, Global};
use std::{slice, vec};

/// Adds operations to a block, or to the top level, with what stands in them.
#[cycle(filling)]
pub(crate) fn fill_ops(
    store: &mut Store,
    block: Option<BlockId>,
    ops: &[OpCst],
    rows: &mut vec::IntoIter<Row, Global>,
) -> Result<(), AllocError>
    requires open { IsOpen store.old (in_block block) }
    requires rows { Await (λ n. ops_standings n ops.now) (into_iter_items rows.old) }
    ensures { OnOk result (OpsFilled store.old store.new block ops.now
        (into_iter_items rows.old) (into_iter_items rows.new)) }
{
    for op in ops {
        let Row { row, args } = next_row(rows);
        let id = store.add_op(block, row)?;
        fill_form(store, id, &op.form, &mut args.iter(), rows)?;
    }
    Ok(())
}

/// Adds the regions of a generic form.
#[cycle(filling)]
fn fill_form(
    store: &mut Store,
    op: OpId,
    form: &FormCst,
    args: &mut slice::Iter<'_, List<ValueId>>,
    rows: &mut vec::IntoIter<Row, Global>,
) -> Result<(), AllocError>
    requires open { IsOpen store.old (in_op op) }
    requires args { AwaitArgs (blocks_under (regions_in_form (out-FormCst form.now)))
        (iter_rest args.old) }
    requires rows { Await (λ n. regions_standings n (regions_in_form (out-FormCst form.now)))
        (into_iter_items rows.old) }
    ensures { OnOk result (RegionsFilled store.old store.new op
        (regions_in_form (out-FormCst form.now)) (iter_rest args.old) (iter_rest args.new)
        (into_iter_items rows.old) (into_iter_items rows.new)) }
{
    match form {
        FormCst::Generic(g) => fill_regions(store, op, g.regions.as_slice(), args, rows),
        FormCst::Custom(_) => Ok(()),
    }
}

#[cycle(filling)]
fn fill_regions(
    store: &mut Store,
    op: OpId,
    regions: &[RegionCst],
    args: &mut slice::Iter<'_, List<ValueId>>,
    rows: &mut vec::IntoIter<Row, Global>,
) -> Result<(), AllocError>
    requires open { IsOpen store.old (in_op op) }
    requires args { AwaitArgs (blocks_under regions.now) (iter_rest args.old) }
    requires rows { Await (λ n. regions_standings n regions.now) (into_iter_items rows.old) }
    ensures { OnOk result (RegionsFilled store.old store.new op regions.now
        (iter_rest args.old) (iter_rest args.new)
        (into_iter_items rows.old) (into_iter_items rows.new)) }
{
    for region in regions {
        let id = store.add_region(op)?;
        fill_blocks(store, id, region.blocks.as_slice(), args, rows)?;
    }
    Ok(())
}

#[cycle(filling)]
fn fill_blocks(
    store: &mut Store,
    region: RegionId,
    blocks: &[BlockCst],
    args: &mut slice::Iter<'_, List<ValueId>>,
    rows: &mut vec::IntoIter<Row, Global>,
) -> Result<(), AllocError>
    requires open { IsOpen store.old (in_region region) }
    requires args { AwaitArgs blocks.now (iter_rest args.old) }
    requires rows { Await (λ n. blocks_standings n blocks.now) (into_iter_items rows.old) }
    ensures { OnOk result (BlocksFilled store.old store.new region blocks.now
        (iter_rest args.old) (iter_rest args.new)
        (into_iter_items rows.old) (into_iter_items rows.new)) }
{
    for block in blocks {
        let types = next_args(args);
        let id = store.add_block(region, types.as_slice())?;
        fill_ops(store, Some(id), block.ops.as_slice(), rows)?;
    }
    Ok(())
}
