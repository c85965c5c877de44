//! The dimensions of shaped types.

ghost use Rattle.std.specs.Prelude.{◌≡◌, [], map, IfOk};
ghost use Rattle.value_meaning.specs.Spelled.{all_some};
ghost use Rattle.value_meaning.specs.Spelled as spec;

use crate::digits::decimal;
use attr_value::{Dim, List, ShapeKind, Text};
use std::alloc::{AllocError, Global};

/// The dimensions of a shape of this kind, of their digits; an empty text is an unknown one. `None`
/// where one isn't right. The digits may be many.
pub fn dims_of(
    alloc: Global,
    kind: ShapeKind,
    dims: &[Text],
) -> Result<Option<List<Dim>>, AllocError>
    ensures { IfOk result (λ r. r ≡ all_some (map (spec.dim_of kind) dims.now)) }
{
    let mut right = List::new(alloc);
    for text in dims {
        let Some(dim) = dim_of(kind, text) else {
            return Ok(None);
        };
        right.push(dim)?;
    }
    Ok(Some(right))
}

/// A dimension, where a shape of this kind may have it.
fn dim_of(kind: ShapeKind, text: &Text) -> Option<Dim>
    ensures { result ≡ spec.dim_of kind text.now }
{
    let digits = text.bytes();
    if digits.is_empty() {
        return unknown(kind);
    }
    let n = decimal(digits);
    if n == 0 || n >= 1 << 63 {
        return None;
    }
    Some(Dim::Known(n as u64))
}

/// The unknown dimension, where a shape of this kind may have it.
fn unknown(kind: ShapeKind) -> Option<Dim>
    ensures { result ≡ spec.dim_of kind [] }
{
    match kind {
        ShapeKind::Vector => None,
        ShapeKind::Tensor | ShapeKind::Memref => Some(Dim::Unknown),
    }
}
