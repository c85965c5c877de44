//! An operation as its definition sees it, in a module or before it stands in one.

use crate::operands::Types;
use attr_value::{List, Text, ValueId};
use ir_store::{OpId, Store};

/// The regions of an operation.
#[derive(Clone, Copy, Drop)]
pub enum OpRegions<'a> {
    /// How many blocks each region has, and the types of the arguments of all blocks, in order.
    Listed {
        counts: &'a [usize],
        args: &'a [List<ValueId>],
    },
    /// Those of an operation of a module.
    Stored(&'a Store, OpId),
}

/// The parts of an operation that its definition speaks of. Types and attributes are ids of a table
/// of values.
#[derive(Clone, Copy, Drop)]
pub struct OpView<'a> {
    pub operands: Types<'a>,
    pub results: &'a [ValueId],
    /// The keys of its attributes, strictly ascending by bytes.
    pub keys: &'a [Text],
    /// The values of its attributes, in the order of the keys.
    pub values: &'a [ValueId],
    /// How many successors it has.
    pub successors: usize,
    pub regions: OpRegions<'a>,
}
