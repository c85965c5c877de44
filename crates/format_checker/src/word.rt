//! Words that name an integer type.

ghost use Rattle.std.specs.Prelude.{◌≡◌};
ghost use Rattle.grammar.specs.Looks as spec;

use attr_value::WIDTH_LIMIT;

/// Whether a word is `iN`, `siN` or `uiN` with N from 1 to [`WIDTH_LIMIT`], without a leading zero.
pub fn is_integer_word(word: &[u8]) -> bool
    ensures { result ≡ spec.is_integer_word word.now }
{
    is_width_after(word, b"i") || is_width_after(word, b"si") || is_width_after(word, b"ui")
}

/// Whether the word is the prefix and then a width.
fn is_width_after(word: &[u8], prefix: &[u8]) -> bool
    ensures { result ≡ spec.is_width_after prefix.now word.now }
{
    match word.strip_prefix(prefix) {
        Some(width) => is_width(width),
        None => false,
    }
}

/// Whether the digits spell a number from 1 to the greatest width, without a leading zero.
fn is_width(digits: &[u8]) -> bool
    ensures { result ≡ spec.is_width digits.now }
{
    match digits {
        [] | [b'0', ..] => false,
        _ => spells_width(digits),
    }
}

/// Whether all are digits, of a number that is no greater than the greatest width.
fn spells_width(digits: &[u8]) -> bool
    ensures { result ≡ spec.spells_width 0 digits.now }
{
    let mut width: u32 = 0;
    for digit in digits {
        if !digit.is_ascii_digit() {
            return false;
        }
        width = width * 10 + (*digit - b'0') as u32;
        if width > WIDTH_LIMIT {
            return false;
        }
    }
    true
}

/// Whether a dot stands in a text.
pub fn has_dot(text: &[u8]) -> bool
    ensures { result ≡ spec.has_dot text.now }
{
    for byte in text {
        if *byte == b'.' {
            return true;
        }
    }
    false
}
