//! A small module as a program holds it.
ghost use Rattle.ir_store.specs.Growth.{in_block, in_op, in_region, IsOpen};
ghost use Rattle.ir_store.specs.Named.{AttrsAreRight};
ghost use Rattle.ir_store.specs.Store.{head_of};

use super::*;
use attr_uniquer::Uniquer;
use attr_value::{Head, List, Text};
use ir_store::{OpRow, Store};
use smallvec::SmallVec;
use std::alloc::{AllocError, Global};
use std::test::Fail;

/// An operation without operands, results and attributes.
fn plain_op(alloc: Global) -> OpRow
    ensures { AttrsAreRight (head_of result) }
{
    OpRow {
        def: 0,
        place: 0,
        operands: SmallVec::new(alloc),
        results: SmallVec::new(alloc),
        successors: SmallVec::new(alloc),
        keys: List::new(alloc),
        values: List::new(alloc),
    }
}

/// An operation with a region of one block.
fn one_block(alloc: Global) -> Result<Store, AllocError> {
    let mut store = Store::new(alloc);
    let op = store.add_op(None, plain_op(alloc))?;
    let region = store.add_region(op)?;
    store.add_block(region, &[])?;
    Ok(store)
}

/// A string and a reference to a symbol.
fn two_values(alloc: Global) -> Result<Uniquer, AllocError> {
    let mut u = Uniquer::new(alloc);
    let bytes = Text::from_slice(alloc, &[0, 255])?;
    u.intern(Head::Str(bytes), &[])?;
    let mut parts = List::new(alloc);
    parts.push(Text::from_slice(alloc, b"main")?)?;
    u.intern(Head::Symbol { parts }, &[])?;
    Ok(u)
}

#[test]
fn a_small_module_is_storable(rt: HostRuntime) -> Result<(), Fail> {
    let u = two_values(rt.alloc())?;
    let store = one_block(rt.alloc())?;
    module_is_storable(&u, &store);
    Ok(())
}
