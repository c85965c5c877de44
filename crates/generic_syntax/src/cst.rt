//! Trees of values, and of the names that stand beside them.
//!
//! A place is a byte from 0, that of the first token.

use attr_value::{List, ShapeKind, Text};
use sqlite_items::Boxed;

/// A value as it is written: a type or an attribute.
#[cycle(cst)]
#[derive(Drop)]
pub struct ValueCst {
    pub place: u32,
    pub node: ValueNode,
}

/// The form of a value.
#[cycle(cst)]
#[derive(Drop)]
pub enum ValueNode {
    /// `i32`, `index`, `f32`, `none`, `true`, `unit`.
    Word(Text),
    /// `!a`, a name without a dot; without the sign.
    TypeAlias(Text),
    /// `#a`, a name without a dot; without the sign.
    AttrAlias(Text),
    /// `!d.t<..>` or `#d.a<..>`, without the sign.
    Dialect {
        is_type: bool,
        name: Text,
        args: List<ValueCst>,
    },
    /// `(i32) -> i64`.
    Function {
        inputs: List<ValueCst>,
        outputs: List<ValueCst>,
    },
    /// `tuple<..>`.
    Tuple(List<ValueCst>),
    /// `tensor<4x?xf32>`. An unknown dimension is an empty text.
    Shaped {
        kind: ShapeKind,
        dims: List<Text>,
        element: Boxed<ValueCst>,
    },
    /// `complex<f32>`.
    Complex(Boxed<ValueCst>),
    /// `-3 : i8`.
    Number {
        negative: bool,
        digits: Text,
        ty: Option<Boxed<ValueCst>>,
    },
    /// The bytes of a string.
    Str(Text),
    /// `[..]`.
    Array(List<ValueCst>),
    /// `{..}`.
    Dict(List<EntryCst>),
    /// `@a::@b`, each part without its sign.
    Symbol(List<Text>),
    /// `array<i32: 1, 2>`.
    Dense {
        width: u32,
        items: List<ItemCst>,
    },
}

/// An entry of a dictionary. Without a value it has the unit attribute.
#[cycle(cst)]
#[derive(Drop)]
pub struct EntryCst {
    pub place: u32,
    pub key: Text,
    pub value: Option<ValueCst>,
}

/// An item of a dense array: a number, `true` or `false`.
#[derive(Drop)]
pub struct ItemCst {
    pub place: u32,
    pub negative: bool,
    pub spelling: Text,
}

/// A name, without its sign.
#[derive(Drop)]
pub struct NameCst {
    pub place: u32,
    pub name: Text,
}
