//! The definitions of operations, types and attributes.

use crate::body::Body;
use crate::entry::{AttrEntry, Entry, RegionEntry};
use crate::format::Format;
use attr_value::{List, Text};

/// An operation. Its variables are those of its body.
#[derive(Drop)]
pub struct OpDef {
    /// The dialect's name, a dot and the operation's own.
    pub name: Text,
    pub body: Body,
    pub operands: List<Entry>,
    pub results: List<Entry>,
    pub attrs: List<AttrEntry>,
    pub regions: List<RegionEntry>,
    /// The names of the successors.
    pub successors: List<Text>,
    /// Whether it stands last in its block.
    pub terminator: bool,
    /// How it is written, where it has a form of its own.
    pub format: Option<Format>,
}

/// A type, or an attribute.
#[derive(Drop)]
pub struct TypeDef {
    pub is_type: bool,
    /// The dialect's name, a dot and the type's own.
    pub name: Text,
    pub body: Body,
    /// The parameters, each of arity `Single`.
    pub params: List<Entry>,
}
