//! A format: how an operation is written, with names as places.
//!
//! A number in an element is a place in a list of the operation, from 0.

use attr_value::{IntKind, List, Text};
use ir_lexer::Class;

/// The format of an operation.
#[derive(Drop)]
pub struct Format {
    pub elements: List<Element>,
}

/// An element of a format. The place is its first byte in the format text.
#[cycle(format)]
#[derive(Drop)]
pub struct Element {
    pub at: u32,
    pub kind: ElementKind,
}

/// Whose types are shown.
#[derive(Drop)]
pub enum TypeArg {
    /// Those of the operand entry of this number.
    Operand(usize),
    /// Those of the result entry of this number.
    Result(usize),
    /// Those of all operands.
    AllOperands,
    /// Those of all results.
    AllResults,
}

/// What an element shows.
#[cycle(format)]
#[derive(Drop)]
pub enum ElementKind {
    /// The word.
    Word(Text),
    /// The sign.
    Punct(Class),
    /// A space.
    Space,
    /// A line feed.
    Newline,
    /// No space.
    Empty,
    /// The operands of this entry.
    Operand(usize),
    /// The attribute of this entry.
    Attr(usize),
    /// The region of this entry.
    Region(usize),
    /// The successor of this number.
    Successor(usize),
    /// The attribute of this entry, a string, as a name with `@`.
    SymbolName(usize),
    /// The attribute of this entry, a number of this kind, without its type.
    IntText {
        attr: usize,
        kind: IntKind,
    },
    /// Types, with commas between them.
    Types(TypeArg),
    /// A function type of both.
    Functional {
        inputs: TypeArg,
        outputs: TypeArg,
    },
    /// The attributes that have no element of their own, in braces.
    Dict,
    /// The same behind `attributes`.
    DictKeyword,
    /// The first branch where its anchor is there, else the other one.
    Group {
        first: List<Element>,
        otherwise: List<Element>,
        /// The place of the anchor in the first branch.
        anchor: usize,
    },
}
