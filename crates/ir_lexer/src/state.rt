//! A step of the table. Only these functions see the table, and all else sees what they return.

ghost use Rattle.std.specs.Prelude.{◌≡◌, ◌<◌};
ghost use Rattle.ir_lexer.specs.Scan as spec;

use crate::class::Class;
use crate::table::{COLUMN, COLUMNS, FIRST_WHOLE, STATES, STEP, WHOLE};

/// The state behind a state and a byte.
#[inline(always)]
pub fn step(state: u8, byte: u8) -> u8
    requires { state < STATES }
    ensures value { result ≡ spec.step state byte }
    ensures within { result < STATES }
{
    STEP[state as usize][column(byte) as usize]
}

/// Whether what was read is a whole spelling.
#[inline(always)]
pub fn is_whole(state: u8) -> bool
    ensures { result ≡ spec.is_whole state }
{
    state >= FIRST_WHOLE
}

/// The class that is spelled in a whole state, and `Bad` in another one.
pub fn class_at(state: u8) -> Class
    requires { state < STATES }
    ensures { result ≡ spec.class_at state }
{
    WHOLE[state as usize]
}

#[inline(always)]
fn column(byte: u8) -> u8
    ensures value { result ≡ spec.column byte }
    ensures within { result < COLUMNS }
{
    COLUMN[byte as usize]
}
