//! The kinds of types that have a word, a width or a shape.

/// The greatest width of an integer type, in bits.
pub const WIDTH_LIMIT: u32 = 16_777_215;

/// A kind of integer type. Those with a width have it in bits.
#[derive(Clone, Copy, Debug, PartialEq, Eq, Hash, Drop)]
pub enum IntKind {
    /// `index`, the type of sizes and places.
    Index,
    /// `i32` and the like, whose numbers have no sign of their own.
    Signless(u32),
    /// `si32` and the like.
    Signed(u32),
    /// `ui32` and the like.
    Unsigned(u32),
}

/// A float type.
#[derive(Clone, Copy, Debug, PartialEq, Eq, Hash, Drop)]
pub enum FloatKind {
    /// `bf16`.
    Bf16,
    /// `f16`.
    F16,
    /// `tf32`.
    Tf32,
    /// `f32`.
    F32,
    /// `f64`.
    F64,
    /// `f80`.
    F80,
    /// `f128`.
    F128,
}

/// A kind of shaped type: elements of one type, in dimensions.
#[derive(Clone, Copy, Debug, PartialEq, Eq, Hash, Drop)]
pub enum ShapeKind {
    /// `vector<..>`.
    Vector,
    /// `tensor<..>`.
    Tensor,
    /// `memref<..>`.
    Memref,
}

/// A dimension of a shaped type.
#[derive(Clone, Copy, Debug, PartialEq, Eq, Hash, Drop)]
pub enum Dim {
    /// So many elements.
    Known(u64),
    /// `?`, a number of elements that the type doesn't say.
    Unknown,
}
