//! What a definition says of the parts of an operation, a type or an attribute.

use crate::body::VarId;
use attr_value::{List, Text};

/// The most entries that the operands or the results of an operation may have.
pub const ENTRY_LIMIT: usize = 32;

/// How many values an entry stands for.
#[derive(Clone, Copy, Debug, PartialEq, Eq)]
pub enum Arity {
    /// One value.
    Single,
    /// None or one.
    Optional,
    /// Any number.
    Variadic,
}

/// Some operands, results or parameters, each of which is the value of the variable.
#[derive(Drop)]
pub struct Entry {
    pub name: Option<Text>,
    pub arity: Arity,
    pub var: VarId,
}

/// An attribute by its key, which is the value of the variable.
#[derive(Drop)]
pub struct AttrEntry {
    pub name: Text,
    /// Whether it may be missing.
    pub optional: bool,
    /// Whether the variable's constraint is to be the unit attribute.
    pub unit: bool,
    pub var: VarId,
}

/// A region.
#[derive(Drop)]
pub struct RegionEntry {
    pub name: Option<Text>,
    /// The arguments of the first block, where they are declared.
    pub args: Option<List<VarId>>,
    /// The number of blocks, where it is declared.
    pub size: Option<u32>,
}
