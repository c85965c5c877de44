//! Numbers behind value names, whose digits may be many.

ghost use Rattle.std.specs.Prelude.{◌≡◌};
ghost use Rattle.grammar.specs.Looks.{all_digits};
ghost use Rattle.module_names.specs.Numbers as spec;

/// The greatest number of a use that is told from greater ones.
pub const GREATEST: u64 = 0xFFFF_FFFF;

/// How many values a pack has at most.
pub const PACK_LIMIT: u32 = 16_777_216;

/// The number that decimal digits spell, or [`GREATEST`] where it is no less.
pub fn number_in(digits: &[u8]) -> u32
    ensures { result ≡ spec.number_in digits.now }
{
    let mut n: u64 = 0;
    for digit in digits {
        n = (n * 10 + u64::from(digit.saturating_sub(b'0'))).min(GREATEST);
    }
    n as u32
}

/// The size of a pack that digits spell. It is `None` where it is wrong: 0, past [`PACK_LIMIT`], or
/// not in decimal.
pub fn pack_size(digits: &[u8]) -> Option<u32>
    ensures { result ≡ spec.pack_size digits.now }
{
    if !are_decimal(digits) {
        return None;
    }
    let size = number_in(digits);
    if size == 0 {
        return None;
    }
    if size > PACK_LIMIT {
        return None;
    }
    Some(size)
}

fn are_decimal(digits: &[u8]) -> bool
    ensures { result ≡ all_digits digits.now }
{
    for digit in digits {
        if !digit.is_ascii_digit() {
            return false;
        }
    }
    true
}
