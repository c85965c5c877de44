//! What the tree of an operation without faults says, in ids.

use attr_value::{List, Text, ValueId};
use smallvec::SmallVec;

/// What the tree of an operation says, with types and attributes as ids of a table of values. The
/// operation itself hasn't its operands and successors yet, since names tell them.
#[derive(Drop)]
pub struct OpIds {
    /// The place of its definition among all operations.
    pub def: usize,
    /// The types of its operands, in order.
    pub operands: SmallVec<ValueId, 4>,
    /// The types of its results, in order.
    pub results: SmallVec<ValueId, 2>,
    /// The keys of its attributes, ascending.
    pub keys: List<Text>,
    /// The value of each key's attribute.
    pub values: List<ValueId>,
    /// The types of the arguments of each block of its regions, in the order of the text.
    pub args: List<List<ValueId>>,
}
