//! A fault, and the earlier of two.

ghost use Rattle.std.specs.Prelude.{◌≡◌};
ghost use Rattle.first_fault.specs.Firsts.{comes_before, earlier_of};

/// A rule that is broken at a place.
#[derive(Clone, Copy, Debug, PartialEq, Eq)]
pub struct Fault {
    /// Where the token stands at which the rule is broken, in bytes from 0.
    pub place: u32,
    /// The number of the rule, as a refusal shows it.
    pub code: u32,
}

/// The fault that comes first of two that may be missing: by place, and at one place by number.
pub fn earlier(a: Option<Fault>, b: Option<Fault>) -> Option<Fault>
    ensures { result ≡ earlier_of a b }
{
    match (a, b) {
        (None, _) => b,
        (_, None) => a,
        (Some(first), Some(second)) => { if comes_first(second, first) { b } else { a } }
    }
}

/// Whether a fault comes before another.
fn comes_first(a: Fault, b: Fault) -> bool
    ensures { result ≡ comes_before a b }
{
    a.place < b.place || (a.place == b.place && a.code < b.code)
}
