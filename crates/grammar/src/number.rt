//! Numbers of 32 bits.

ghost use Rattle.std.specs.Prelude.{◌<◌, ◌^◌};
ghost use Rattle.std.specs.Option.{SomeIff};
ghost use Rattle.grammar.specs.Looks as spec;

use ir_lexer::hexadecimal_value;

/// The number of digits, decimal or hexadecimal behind `0x`, where it has 32 bits.
pub fn number_in(digits: &[u8]) -> Option<u32>
    ensures { SomeIff result (spec.number_in digits.now < 2 ^ 32) (spec.number_in digits.now) }
{
    match digits {
        [_, b'x', digits @ ..] => hexadecimal(digits),
        _ => decimal(digits),
    }
}

/// The number of decimal digits, where it has 32 bits.
fn decimal(digits: &[u8]) -> Option<u32>
    ensures { SomeIff result (spec.decimal 0 digits.now < 2 ^ 32) (spec.decimal 0 digits.now) }
{
    let mut n: u32 = 0;
    for digit in digits {
        let value = u32::from(digit.saturating_sub(b'0'));
        n = n.checked_mul(10)?.checked_add(value)?;
    }
    Some(n)
}

/// The number of hexadecimal digits, where it has 32 bits.
fn hexadecimal(digits: &[u8]) -> Option<u32>
    ensures { SomeIff result (spec.hexadecimal 0 digits.now < 2 ^ 32)
        (spec.hexadecimal 0 digits.now) }
{
    let mut n: u32 = 0;
    for digit in digits {
        let value = u32::from(hexadecimal_value(*digit));
        n = n.checked_mul(16)?.checked_add(value)?;
    }
    Some(n)
}
