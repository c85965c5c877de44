//! Numbers, as they are kept.

ghost use Rattle.std.specs.Prelude.{◌≡◌, ◌≤◌, pos, neg_ℤ, if◌then◌else◌};
ghost use Rattle.value_meaning.specs.Spelled as spec;

use crate::digits::{TOO_GREAT, number_in};
use attr_value::{Head, IntKind, Text, residue};

/// The number that is kept of digits with a minus or without one, at a kind of integer type; `None`
/// where it may not be written there. The digits may be many, and it takes no memory.
pub fn kept_number(kind: IntKind, negative: bool, digits: &Text) -> Option<i128>
    ensures { result ≡ spec.residue kind (spec.signed_number negative digits.now) }
{
    let n = number_in(digits.bytes());
    residue(kind, signed(negative, n))
}

/// A number with its minus, or without one.
fn signed(negative: bool, n: u128) -> i128
    requires { n ≤ TOO_GREAT }
    ensures { result ≡ if negative then neg_ℤ (pos n) else pos n }
{
    let n = n as i128;
    if negative { -n } else { n }
}

/// The kind of an integer type; `None` of any other head. It takes no memory.
pub fn kind_of(head: &Head) -> Option<IntKind>
    ensures { result ≡ spec.kind_of_head head.now }
{
    match head {
        Head::Int(kind) => Some(*kind),
        _ => None,
    }
}
