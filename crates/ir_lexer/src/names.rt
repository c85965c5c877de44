//! The bytes that a spelling stands for: those of a string, and the name behind a sign.

ghost use Rattle.std.specs.Prelude.{◌≡◌, ◌+◌, ◌<◌, ◌≤◌, ◌∷◌, length, drop, IfOk};
ghost use Rattle.ir_lexer.specs.Names as spec;

use std::alloc::{AllocError, Global};

/// The bytes that a string stands for, of its spelling with the quotes. They need not be UTF-8.
pub fn literal_bytes(alloc: Global, spelling: &[u8]) -> Result<Vec<u8>, AllocError>
    ensures { IfOk result (λ bytes. bytes.items ≡ spec.literal_bytes spelling.now) }
{
    if spelling.len() < 2 {
        return Ok(Vec::new(alloc));
    }
    items_bytes(alloc, &spelling[1..spelling.len() - 1])
}

/// The name that stands behind the sign of `%x`, `^x`, `@x`, `!x` or `#x`, of the spelling with the
/// sign. A name may also be a number, and that of `@"..."` is the bytes of the string.
pub fn name_bytes(alloc: Global, spelling: &[u8]) -> Result<Vec<u8>, AllocError>
    ensures { IfOk result (λ name. name.items ≡ spec.name_bytes spelling.now) }
{
    if spelling.is_empty() {
        return Ok(Vec::new(alloc));
    }
    let name = &spelling[1..];
    if spelling.len() > 1 && spelling[1] == b'"' {
        literal_bytes(alloc, name)
    } else {
        Vec::from_slice(alloc, name)
    }
}

/// The byte of an item, and the length of the item's spelling.
#[derive(Clone, Copy, Debug)]
struct Item {
    byte: u8,
    len: usize,
}

/// The bytes of a row of items.
fn items_bytes(alloc: Global, items: &[u8]) -> Result<Vec<u8>, AllocError>
    ensures { IfOk result (λ bytes. bytes.items ≡ spec.items_bytes items.now) }
{
    if !items.contains(&b'\\') {
        return Vec::from_slice(alloc, items);
    }
    let mut bytes = Vec::with_capacity(alloc, items.len())?;
    let mut at = 0;
    while at < items.len() {
        let item = item_at(items, at);
        bytes.push(item.byte)?;
        at += item.len;
    }
    Ok(bytes)
}

/// The item at a place. An escape that the text cuts off ends with it.
fn item_at(items: &[u8], at: usize) -> Item
    requires { at < length items.now }
    ensures value { let rest = spec.items_bytes (drop (at + result.len) items.now) in
        spec.items_bytes (drop at items.now) ≡ result.byte ∷ rest }
    ensures within { (0 < result.len) × (at + result.len ≤ length items.now) }
{
    let byte = items[at];
    let behind = items.len() - at - 1;
    if byte != b'\\' || behind == 0 {
        return Item { byte, len: 1 };
    }
    let escape = items[at + 1];
    if is_short_escape(escape) || behind == 1 {
        return Item {
            byte: short_escape(escape),
            len: 2,
        };
    }
    Item {
        byte: hexadecimal_value(escape) * 16 + hexadecimal_value(items[at + 2]),
        len: 3,
    }
}

/// Whether a byte makes an escape without digits.
fn is_short_escape(byte: u8) -> bool
    ensures { result ≡ spec.is_short_escape byte }
{
    byte == b'n' || byte == b't' || byte == b'"' || byte == b'\\'
}

/// The byte that an escape without digits stands for.
fn short_escape(byte: u8) -> u8
    ensures { result ≡ spec.short_escape byte }
{
    match byte {
        b'n' => b'\n',
        b't' => b'\t',
        _ => byte,
    }
}

/// The number of a hexadecimal digit, in either case, and 0 of any other byte.
pub fn hexadecimal_value(digit: u8) -> u8
    ensures value { result ≡ spec.hexadecimal_value digit }
    ensures within { result < 16 }
{
    match digit {
        b'0'..=b'9' => digit - b'0',
        b'A'..=b'F' => digit - b'A' + 10,
        b'a'..=b'f' => digit - b'a' + 10,
        _ => 0,
    }
}
