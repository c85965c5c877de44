//! The numbers of integer types.

ghost use Rattle.std.specs.Prelude.{◌≡◌, ◌↔◌, ◌-◌, ◌*ℤ◌, pos, IsTrue, IfSome, IfNone};
ghost use Rattle.attr_value.specs.Numbers as spec;
ghost use Rattle.attr_value.specs.Numbers.{IsNumberWidth, HasNumbers, IsInRange, IsKept};
ghost use Rattle.attr_value.specs.Numbers.{lowest, limit, power, kept};

use crate::kind::IntKind;

/// The greatest width, in bits, of an integer type that numbers may have.
pub const NUMBER_WIDTH_LIMIT: u32 = 64;

/// The numbers from `lowest` on that are less than `limit`.
#[derive(Drop)]
struct Range {
    lowest: i128,
    limit: i128,
}

/// Half the count of numbers of a width; `None` where no number has the width.
fn half_of(width: u32) -> Option<i128>
    ensures some { IfSome result
        (λ half. IsNumberWidth width × (half ≡ power (width - 1))) }
    ensures doubled { IfSome result (λ half. (pos 2 *ℤ half) ≡ power width) }
    ensures none { IfNone result (¬ IsNumberWidth width) }
{
    if width == 0 || width > NUMBER_WIDTH_LIMIT {
        return None;
    }
    Some(i128::from(1u64 << (width - 1)))
}

/// The numbers that may be written at a kind; `None` where none may.
fn range_of(kind: IntKind) -> Option<Range>
    ensures some { IfSome result
        (λ r. HasNumbers kind × (r.lowest ≡ lowest kind) × (r.limit ≡ limit kind)) }
    ensures none { IfNone result (¬ HasNumbers kind) }
{
    match kind {
        IntKind::Index => Some(Range {
            lowest: -(1 << 63),
            limit: 1 << 63,
        }),
        IntKind::Signless(width) => {
            let half = half_of(width)?;
            Some(Range {
                lowest: -half,
                limit: 2 * half,
            })
        }
        IntKind::Signed(width) => {
            let half = half_of(width)?;
            Some(Range {
                lowest: -half,
                limit: half,
            })
        }
        IntKind::Unsigned(width) => {
            let half = half_of(width)?;
            Some(Range {
                lowest: 0,
                limit: 2 * half,
            })
        }
    }
}

/// The number that is kept of one that is written at a kind of integer type: a signless number of
/// the upper half stands for a negative one, and any other for itself.
///
/// `None` exactly where the kind's width isn't from 1 to [`NUMBER_WIDTH_LIMIT`], or the number is
/// out of its range. It takes no memory.
pub fn residue(kind: IntKind, n: i128) -> Option<i128>
    ensures some { IfSome result (λ r. HasNumbers kind × IsInRange kind n × (r ≡ kept kind n)) }
    ensures none { IfNone result (HasNumbers kind → IsInRange kind n → ⊥) }
{
    let range = range_of(kind)?;
    if n < range.lowest || n >= range.limit {
        return None;
    }
    match kind {
        IntKind::Signless(_) if n >= -range.lowest => Some(n - range.limit),
        _ => Some(n),
    }
}

/// The kind in whose range the numbers lie that are kept at a kind.
fn kept_kind(kind: IntKind) -> IntKind
    ensures { result ≡ spec.kept_kind kind }
{
    match kind {
        IntKind::Signless(width) => IntKind::Signed(width),
        _ => kind,
    }
}

/// Whether a number is one that is kept at a kind.
pub fn is_kept(kind: IntKind, n: i128) -> bool
    ensures { IsTrue result ↔ IsKept kind n }
{
    residue(kept_kind(kind), n).is_some()
}
