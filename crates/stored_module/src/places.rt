//! The operations of a store have keys of bytes, and regions of few enough blocks.

ghost use Rattle.std.specs.Prelude.{◌<◌, length};
ghost use Rattle.std.specs.List.{AllByRecursion};
ghost use Rattle.std.specs.Option.{ForSome};
ghost use Rattle.ir_store.specs.Named.{op_at};
ghost use Rattle.ir_store.specs.Numbering.{ops_in, regions_in};
ghost use Rattle.stored_module.specs.Held.{HasFewBlocks, IsHeld};

use crate::texts::texts_have_bytes;
use ir_store::{OpId, RegionId, Store};

/// The blocks of a region are numbered by 64 bits.
fn blocks_are_few(store: &Store, region: RegionId)
    requires { region.0 < length (regions_in store.now) }
    ensures { HasFewBlocks store.now region }
{
    let _count = store.blocks_of(region).len();
}

/// So are those of each of these regions.
fn regions_have_few_blocks(store: &Store, regions: &[RegionId])
    requires { AllByRecursion (λ id. id.0 < length (regions_in store.now)) regions.now }
    ensures { AllByRecursion (HasFewBlocks store.now) regions.now }
{
    for region in regions {
        blocks_are_few(store, *region);
    }
}

/// An operation is as a program holds it.
fn op_is_held(store: &Store, op: OpId)
    requires { op.0 < length (ops_in store.now) }
    ensures { ForSome (op_at store.now op) IsHeld }
{
    texts_have_bytes(store.op(op).keys.as_slice());
    regions_have_few_blocks(store, store.regions_of(op));
}

/// Each operation is.
pub fn ops_are_held(store: &Store)
    ensures { AllByRecursion IsHeld (ops_in store.now) }
{
    for i in 0..store.op_count() {
        op_is_held(store, OpId(i));
    }
}
