//! Digits of any number. What is too great for every use is cut down, so that nothing overflows.

ghost use Rattle.std.specs.Prelude.{◌≡◌, min};
ghost use Rattle.grammar.specs.Looks as look;

use ir_lexer::hexadecimal_value;

/// The least number that no integer type has, with a minus or without one.
pub const TOO_GREAT: u128 = 1 << 64;

/// The number of digits, decimal or hexadecimal behind `0x`, or [`TOO_GREAT`] where it is no less.
pub fn number_in(digits: &[u8]) -> u128
    ensures { result ≡ min (look.number_in digits.now) TOO_GREAT }
{
    match digits {
        [_, b'x', digits @ ..] => hexadecimal(digits),
        _ => decimal(digits),
    }
}

/// The number of decimal digits, or [`TOO_GREAT`] where it is no less.
pub fn decimal(digits: &[u8]) -> u128
    ensures { result ≡ min (look.decimal 0 digits.now) TOO_GREAT }
{
    let mut n = 0;
    for digit in digits {
        n = (n * 10 + u128::from(digit.saturating_sub(b'0'))).min(TOO_GREAT);
    }
    n
}

/// The number of hexadecimal digits, or [`TOO_GREAT`] where it is no less.
fn hexadecimal(digits: &[u8]) -> u128
    ensures { result ≡ min (look.hexadecimal 0 digits.now) TOO_GREAT }
{
    let mut n = 0;
    for digit in digits {
        n = (n * 16 + u128::from(hexadecimal_value(*digit))).min(TOO_GREAT);
    }
    n
}
