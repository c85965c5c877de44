//! The heads of values.

ghost use Rattle.std.specs.Prelude.{◌≡◌, ◌↔◌, IsTrue};
ghost use Rattle.attr_value.specs.Heads as spec;
ghost use Rattle.attr_value.specs.Heads.{is_type_head, MayHaveKids};

use crate::kind::{Dim, FloatKind, IntKind, ShapeKind};
use crate::{List, Text};

/// How deep a value may nest. A value without kids has the depth 1.
pub const DEPTH_LIMIT: usize = 64;

/// The number of a value in the table that keeps it. Ids count from 0.
#[derive(Clone, Copy, Debug, Default, PartialEq, Eq, Hash, Drop)]
pub struct ValueId(pub usize);

/// What a value is, apart from the values that stand in it, which are its kids.
#[derive(Debug, PartialEq, Eq, Hash, Drop)]
pub enum Head {
    /// An integer type.
    Int(IntKind),
    /// The type `none`.
    NoneType,
    /// A float type.
    Float(FloatKind),
    /// A function type. The first kids, so many, are its inputs, and the others its results.
    Function { inputs: usize },
    /// A tuple type of the kids.
    Tuple,
    /// A shaped type, whose one kid is its element type.
    Shaped { kind: ShapeKind, dims: List<Dim> },
    /// A complex type, whose one kid is its element type.
    Complex,
    /// A number of an integer type, as it is kept: [`residue`](crate::residue) says which that is.
    Number { kind: IntKind, n: i128 },
    /// A string of any bytes.
    Str(Text),
    /// The unit attribute.
    Unit,
    /// An array of the kids.
    Array,
    /// A dictionary. The keys ascend by bytes, and each has the kid at its place.
    Dict { keys: List<Text> },
    /// A reference to a symbol, by the names on the way to it.
    Symbol { parts: List<Text> },
    /// A dense array of integers of one width in bits, as they are kept.
    Dense { width: u32, items: List<i64> },
    /// A type or an attribute of a dialect, by the dialect's name, a dot and its own. The kids are
    /// its parameters.
    Dialect { is_type: bool, name: Text },
}

impl Head {
    /// Whether a value with this head is a type. The others are attributes. It takes no memory.
    pub fn is_type(&self) -> bool
        ensures { result ≡ is_type_head self.now }
    {
        match self {
            Head::Int(_)
            | Head::NoneType
            | Head::Float(_)
            | Head::Function { .. }
            | Head::Tuple
            | Head::Shaped { .. }
            | Head::Complex => true,
            Head::Dialect { is_type, .. } => *is_type,
            Head::Number { .. }
            | Head::Str(_)
            | Head::Unit
            | Head::Array
            | Head::Dict { .. }
            | Head::Symbol { .. }
            | Head::Dense { .. } => false,
        }
    }

    /// Whether the kids of a value with this head are types. It takes no memory.
    pub fn is_made_of_types(&self) -> bool
        ensures { result ≡ spec.is_made_of_types self.now }
    {
        match self {
            Head::Function { .. } | Head::Tuple | Head::Shaped { .. } | Head::Complex => true,
            _ => false,
        }
    }

    /// Whether a value with this head may have `n` kids. It takes no memory.
    pub fn kids_ok(&self, n: usize) -> bool
        ensures { IsTrue result ↔ MayHaveKids self.now n }
    {
        match self {
            Head::Shaped { .. } | Head::Complex => n == 1,
            Head::Function { inputs } => *inputs <= n,
            Head::Dict { keys } => keys.len() == n,
            Head::Tuple | Head::Array | Head::Dialect { .. } => true,
            Head::Int(_)
            | Head::NoneType
            | Head::Float(_)
            | Head::Number { .. }
            | Head::Str(_)
            | Head::Unit
            | Head::Symbol { .. }
            | Head::Dense { .. } => n == 0,
        }
    }
}
