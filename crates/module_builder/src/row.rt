//! Rows that are added to a store, and given away one after the other.

ghost use Rattle.std.specs.Prelude.{◌≡◌, ◌<◌, ◌∷◌, length};
ghost use Rattle.std.specs.Slice.Iter.{iter_rest};
ghost use Rattle.std.specs.Vec.Iter.{into_iter_items};

use attr_value::{List, ValueId};
use ir_store::OpRow;
use std::alloc::Global;
use std::{slice, vec};

/// An operation that is to be added.
#[derive(Drop)]
pub struct Row {
    pub row: OpRow,
    /// The types of the arguments of each block of its regions, in the order of the text.
    pub args: List<List<ValueId>>,
}

/// The next row. It takes no memory.
pub(crate) fn next_row(rows: &mut vec::IntoIter<Row, Global>) -> Row
    requires { 0 < length (into_iter_items rows.old) }
    ensures { into_iter_items rows.old ≡ result ∷ into_iter_items rows.new }
{
    match rows.next() {
        Some(row) => row,
        None => unreachable!(),
    }
}

/// The types of the arguments of the next block. It takes no memory.
pub(crate) fn next_args<'a>(args: &mut slice::Iter<'a, List<ValueId>>) -> &'a List<ValueId>
    requires { 0 < length (iter_rest args.old) }
    ensures { iter_rest args.old ≡ result.now ∷ iter_rest args.new }
{
    match args.next() {
        Some(types) => types,
        None => unreachable!(),
    }
}
