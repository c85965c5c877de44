//! The rule that a head keeps to by itself.
//!
//! What a head asks of the kids beside it is for the table of values to judge. Begin at
//! `Head::is_right`.

ghost use Rattle.std.specs.Prelude.{◌≡◌, ◌↔◌, IsTrue};
ghost use Rattle.std.specs.List.{AllByRecursion};
ghost use Rattle.attr_value.specs.declared.kind.IntKind.TheVariants.{Signless};
ghost use Rattle.attr_value.specs.Heads.{text_lt, IsTypeWidth, IsIntType, IsDim, IsDenseWidth};
ghost use Rattle.attr_value.specs.Heads.{Ascend, HeadIsRight};
ghost use Rattle.attr_value.specs.Numbers.{IsKept};

use crate::head::Head;
use crate::kind::{Dim, IntKind, ShapeKind, WIDTH_LIMIT};
use crate::number::is_kept;
use crate::text::Text;

impl Head {
    /// Whether the widths, kept numbers, dimensions, keys and parts of the head are right. It takes
    /// no memory.
    pub fn is_right(&self) -> bool
        ensures { IsTrue result ↔ HeadIsRight self.now }
    {
        match self {
            Head::Int(kind) => is_int_type(*kind),
            Head::Shaped { kind, dims } => are_dims(*kind, dims.as_slice()),
            Head::Number { kind, n } => is_kept(*kind, *n),
            Head::Dict { keys } => ascend(keys.as_slice()),
            Head::Symbol { parts } => !parts.is_empty(),
            Head::Dense { width, items } => {
                is_dense_width(*width) && are_kept(*width, items.as_slice())
            }
            _ => true,
        }
    }
}

/// Whether an integer type may be of this kind.
fn is_int_type(kind: IntKind) -> bool
    ensures { IsTrue result ↔ IsIntType kind }
{
    match kind {
        IntKind::Index => true,
        IntKind::Signless(width) => is_type_width(width),
        IntKind::Signed(width) => is_type_width(width),
        IntKind::Unsigned(width) => is_type_width(width),
    }
}

/// Whether an integer type may have this width.
fn is_type_width(width: u32) -> bool
    ensures { IsTrue result ↔ IsTypeWidth width }
{
    1 <= width && width <= WIDTH_LIMIT
}

/// Whether a shape of this kind may have each of these dimensions.
fn are_dims(kind: ShapeKind, dims: &[Dim]) -> bool
    ensures { IsTrue result ↔ AllByRecursion (IsDim kind) dims.now }
{
    for dim in dims {
        if !is_dim(kind, *dim) {
            return false;
        }
    }
    true
}

/// Whether a shape of this kind may have a dimension.
fn is_dim(kind: ShapeKind, dim: Dim) -> bool
    ensures { IsTrue result ↔ IsDim kind dim }
{
    match (kind, dim) {
        (_, Dim::Known(n)) => 1 <= n && n < 1 << 63,
        (ShapeKind::Vector, Dim::Unknown) => false,
        (_, Dim::Unknown) => true,
    }
}

/// Whether each text stands before the next.
fn ascend(texts: &[Text]) -> bool
    ensures { IsTrue result ↔ Ascend texts.now }
{
    for i in 1..texts.len() {
        if !stands_before(&texts[i - 1], &texts[i]) {
            return false;
        }
    }
    true
}

/// Whether a text stands before another by the order of bytes.
fn stands_before(a: &Text, b: &Text) -> bool
    ensures { result ≡ text_lt a.now b.now }
{
    a.bytes() < b.bytes()
}

/// Whether the items of a dense array may have this width.
fn is_dense_width(width: u32) -> bool
    ensures { IsTrue result ↔ IsDenseWidth width }
{
    width == 1 || width == 8 || width == 16 || width == 32 || width == 64
}

/// Whether each number may be kept as an item of this width.
fn are_kept(width: u32, items: &[i64]) -> bool
    ensures { IsTrue result ↔ AllByRecursion (IsKept (Signless width)) items.now }
{
    for item in items {
        if !is_kept(IntKind::Signless(width), i128::from(*item)) {
            return false;
        }
    }
    true
}
