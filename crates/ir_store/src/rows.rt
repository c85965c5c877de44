//! Ids, and the rows that are handed in and lent.

use attr_value::{List, Text, ValueId};
use smallvec::SmallVec;

/// An operation of a module, by its number. Operations count from 0 in text order, which is the
/// order of the calls that add them.
#[derive(Clone, Copy, Debug, PartialEq, Eq, Drop)]
pub struct OpId(pub usize);

/// A region of a module, by its number. Regions count from 0 in text order.
#[derive(Clone, Copy, Debug, PartialEq, Eq, Drop)]
pub struct RegionId(pub usize);

/// A block of a module, by its number. Blocks count from 0 in text order, over the whole module.
#[derive(Clone, Copy, Debug, PartialEq, Eq, Drop)]
pub struct BlockId(pub usize);

/// An operation without its regions.
#[derive(Drop)]
pub struct OpRow {
    /// The place of its definition in the list of all operations' definitions.
    pub def: usize,
    /// Where it stands in its text, in bytes from 0.
    pub place: u32,
    /// Numbers of values, counted from 0 over the whole module in order of definition. They may
    /// come later in the text.
    pub operands: SmallVec<usize, 4>,
    /// The types of its results.
    pub results: SmallVec<ValueId, 2>,
    /// Numbers of blocks, counted from 0 in the region in which the operation stands.
    pub successors: SmallVec<usize, 2>,
    /// The names of its attributes, strictly ascending by bytes.
    pub keys: List<Text>,
    /// The values of its attributes, in the order of the keys.
    pub values: List<ValueId>,
}
