//! A format text as it is written: its elements, with names that aren't looked up yet.
//!
//! A place is a byte of the format text, from 0.

use attr_value::{IntKind, List, Text};
use ir_lexer::Class;

/// A variable, `$x`, without its sign. The place is that of the sign.
#[derive(Drop)]
pub struct RawName {
    pub at: u32,
    pub name: Text,
}

/// What a directive speaks of.
#[derive(Drop)]
pub enum RawArg {
    /// `$x`
    Variable(RawName),
    /// `operands`, and where the word stands.
    AllOperands(u32),
    /// `results`, and where the word stands.
    AllResults(u32),
}

/// An element of a format.
#[cycle(raw_format)]
#[derive(Drop)]
pub struct RawElement {
    pub at: u32,
    /// Whether `^` follows it.
    pub anchor: bool,
    pub kind: RawKind,
}

/// What an element says. What stands in back-quotes is a literal.
#[cycle(raw_format)]
#[derive(Drop)]
pub enum RawKind {
    /// A literal that is a word.
    Word(Text),
    /// A literal that is a sign.
    Punct(Class),
    /// A literal that is a space.
    Space,
    /// A literal that is a line feed.
    Newline,
    /// The empty literal.
    Empty,
    /// `$x`, without its sign.
    Variable(Text),
    /// `qualified($x)`. With a type, `qualified(type($x))`, it is as that type.
    Qualified(RawName),
    /// `symbol($x)`
    SymbolName(RawName),
    /// `int($x, i64)`
    IntText {
        variable: RawName,
        kind: IntKind,
    },
    /// `type($x)`
    Types(RawArg),
    /// `functional-type(operands, results)`
    Functional {
        inputs: RawArg,
        outputs: RawArg,
    },
    /// `attr-dict`
    Dict,
    /// `attr-dict-with-keyword`
    DictKeyword,
    /// `(..)?` or `(..):(..)?`. A branch that is missing is empty.
    Group {
        first: List<RawElement>,
        otherwise: List<RawElement>,
    },
}
