//! Texts that are made in a buffer: strings, symbols, names and dimensions. Each function puts one
//! behind what the buffer has.

ghost use Rattle.std.specs.Prelude.{◌≡◌, ◌<◌, ◌++◌, true, OnOk, decimal};
ghost use Rattle.derived_printer.specs.Spelling as spec;

use attr_value::{Dim, IntKind};
use itoa::Buffer;
use std::alloc::AllocError;

/// Whether a string shows a byte as it is.
fn is_shown(byte: u8) -> bool
    ensures { result ≡ spec.is_shown byte }
{
    (b' ' <= byte && byte <= b'~') && !(byte == b'"' || byte == b'\\')
}

/// A hexadecimal digit, in upper case.
fn hex_digit(digit: u8) -> u8
    requires { digit < 16 }
    ensures { result ≡ spec.hex_digit digit }
{
    if digit < 10 {
        digit + b'0'
    } else {
        digit - 10 + b'A'
    }
}

/// Adds a byte as a string shows it.
fn add_byte(text: &mut Vec<u8>, byte: u8) -> Result<(), AllocError>
    ensures { OnOk result (text.new.items ≡ text.old.items ++ spec.escaped_byte byte) }
{
    if is_shown(byte) {
        text.push(byte)?;
        return Ok(());
    }
    if byte == b'\\' {
        return text.extend_from_slice(b"\\\\");
    }
    let escape = [b'\\', hex_digit(byte / 16), hex_digit(byte % 16)];
    text.extend_from_slice(&escape)
}

/// Adds bytes as a string shows them.
fn add_bytes(text: &mut Vec<u8>, bytes: &[u8]) -> Result<(), AllocError>
    ensures { OnOk result (text.new.items ≡ text.old.items ++ spec.escaped bytes.now) }
{
    for byte in bytes {
        add_byte(text, *byte)?;
    }
    Ok(())
}

/// Adds a string of these bytes, in its quotes.
#[tactic(auto, unfolding(crate::specs::Spelling::string_text))]
pub fn add_string(text: &mut Vec<u8>, bytes: &[u8]) -> Result<(), AllocError>
    ensures { OnOk result (text.new.items ≡ text.old.items ++ spec.string_text bytes.now) }
{
    text.push(b'"')?;
    add_bytes(text, bytes)?;
    text.push(b'"')?;
    Ok(())
}

/// Whether a byte may begin a bare id.
fn is_bare_start(byte: u8) -> bool
    ensures { result ≡ spec.is_bare_start byte }
{
    (b'A' <= byte && byte <= b'Z') || ((b'a' <= byte && byte <= b'z') || byte == b'_')
}

/// Whether a byte may stand in a bare id.
fn is_bare_byte(byte: u8) -> bool
    ensures { result ≡ spec.is_bare_byte byte }
{
    is_bare_start(byte) || ((b'0' <= byte && byte <= b'9') || (byte == b'$' || byte == b'.'))
}

/// Whether all bytes may stand in a bare id.
fn goes_on_bare(bytes: &[u8]) -> bool
    ensures { result ≡ spec.goes_on_bare bytes.now }
{
    for byte in bytes {
        if !is_bare_byte(*byte) {
            return false;
        }
    }
    true
}

/// Whether bytes are a bare id.
pub fn is_bare(bytes: &[u8]) -> bool
    ensures { result ≡ spec.is_bare bytes.now }
{
    match bytes {
        [] => false,
        [first, rest @ ..] => is_bare_start(*first) && goes_on_bare(rest),
    }
}

/// Adds the symbol of a name.
#[tactic(auto, unfolding(crate::specs::Spelling::symbol_text))]
pub fn add_symbol(text: &mut Vec<u8>, name: &[u8]) -> Result<(), AllocError>
    ensures { OnOk result (text.new.items ≡ text.old.items ++ spec.symbol_text name.now) }
{
    text.push(b'@')?;
    if is_bare(name) {
        return text.extend_from_slice(name);
    }
    add_string(text, name)
}

/// Adds the name of a dialect's type or attribute, behind its sign.
pub fn add_name(text: &mut Vec<u8>, is_type: bool, name: &[u8]) -> Result<(), AllocError>
    ensures { OnOk result (text.new.items ≡ text.old.items ++ spec.name_text is_type name.now) }
{
    text.push(if is_type { b'!' } else { b'#' })?;
    text.extend_from_slice(name)
}

/// Adds a prefix and a width.
#[tactic(auto, using(crate::proofs::Spelled::widths))]
fn add_width(text: &mut Vec<u8>, prefix: &[u8], width: u32) -> Result<(), AllocError>
    ensures bare { spec.goes_on_bare (decimal width) ≡ true }
    ensures text { OnOk result (text.new.items ≡ text.old.items ++ (prefix.now ++ decimal width)) }
{
    let mut digits = Buffer::new();
    text.extend_from_slice(prefix)?;
    text.extend_from_slice(digits.format(width).as_bytes())
}

/// Adds the name of an integer type.
#[tactic(auto, unfolding(crate::specs::Spelling::int_text))]
pub fn add_int(text: &mut Vec<u8>, kind: IntKind) -> Result<(), AllocError>
    ensures bare { spec.is_bare (spec.int_text kind) ≡ true }
    ensures text { OnOk result (text.new.items ≡ text.old.items ++ spec.int_text kind) }
{
    match kind {
        IntKind::Index => text.extend_from_slice(b"index"),
        IntKind::Signless(width) => add_width(text, b"i", width),
        IntKind::Signed(width) => add_width(text, b"si", width),
        IntKind::Unsigned(width) => add_width(text, b"ui", width),
    }
}

/// Adds a dimension, with the `x` behind it.
fn add_dim(text: &mut Vec<u8>, dim: Dim) -> Result<(), AllocError>
    ensures { OnOk result (text.new.items ≡ text.old.items ++ spec.dim_text dim) }
{
    let Dim::Known(n) = dim else {
        return text.extend_from_slice(b"?x");
    };
    let mut digits = Buffer::new();
    text.extend_from_slice(digits.format(n).as_bytes())?;
    text.extend_from_slice(b"x")
}

/// Adds dimensions, one behind another.
#[tactic(auto, unfolding(crate::specs::Spelling::dims_text))]
pub fn add_dims(text: &mut Vec<u8>, dims: &[Dim]) -> Result<(), AllocError>
    ensures { OnOk result (text.new.items ≡ text.old.items ++ spec.dims_text dims.now) }
{
    for dim in dims {
        add_dim(text, *dim)?;
    }
    Ok(())
}

/// Adds a prefix and a number.
fn add_number(text: &mut Vec<u8>, prefix: &[u8], n: usize) -> Result<(), AllocError>
    ensures { OnOk result (text.new.items ≡ text.old.items ++ (prefix.now ++ decimal n)) }
{
    let mut digits = Buffer::new();
    text.extend_from_slice(prefix)?;
    text.extend_from_slice(digits.format(n).as_bytes())
}

/// Adds the name of an SSA value.
#[tactic(auto, unfolding(crate::specs::Spelling::value_text))]
pub fn add_value(text: &mut Vec<u8>, n: usize) -> Result<(), AllocError>
    ensures { OnOk result (text.new.items ≡ text.old.items ++ spec.value_text n) }
{
    add_number(text, b"%", n)
}

/// Adds the name of a block.
#[tactic(auto, unfolding(crate::specs::Spelling::block_text))]
pub fn add_block(text: &mut Vec<u8>, n: usize) -> Result<(), AllocError>
    ensures { OnOk result (text.new.items ≡ text.old.items ++ spec.block_text n) }
{
    add_number(text, b"^bb", n)
}
