//! The token at the front of a text.

ghost use Rattle.std.specs.Prelude.{◌≡◌, ◌+◌, ◌≤◌, ◌<◌, ◌^◌, length};
ghost use Rattle.format_reader.specs.Scan as spec;
ghost use Rattle.format_reader.specs.Spelling as spelling;

use crate::byte::{begins_id, id_len, inside_len, name_len, sign};
use crate::word::{is_content, word_class};
use ir_lexer::Class;

/// A class, and the length of its spelling.
#[derive(Clone, Copy, Debug)]
pub struct Found {
    pub class: Class,
    pub len: usize,
}

/// The token at the front of a text that begins with no blank.
pub fn front(text: &[u8]) -> Found
    requires { length text.now < 2 ^ 32 }
    ensures value { (result.class, result.len) ≡ spec.front text.now }
    ensures within { result.len ≤ length text.now }
{
    if text.is_empty() {
        return Found {
            class: Class::End,
            len: 0,
        };
    }
    let first = text[0];
    if first == b'$' {
        return variable_front(&text[1..]);
    }
    if first == b'`' {
        return literal_front(&text[1..]);
    }
    if begins_id(first) {
        return word_front(text);
    }
    sign_front(first)
}

/// A byte that begins no token.
fn bad() -> Found
    ensures { result ≡ record { class = Class.Bad; len = 1 } }
{
    Found {
        class: Class::Bad,
        len: 1,
    }
}

/// The token of a `$`, with what stands behind it.
fn variable_front(rest: &[u8]) -> Found
    requires { length rest.now < 2 ^ 32 }
    ensures value { (result.class, result.len) ≡ spec.variable_front rest.now }
    ensures within { result.len ≤ length rest.now + 1 }
{
    let len = name_len(rest);
    if len == 0 {
        return bad();
    }
    Found {
        class: Class::ValueName,
        len: len + 1,
    }
}

/// The token of a back-quote, with what stands behind it.
fn literal_front(rest: &[u8]) -> Found
    requires { length rest.now < 2 ^ 32 }
    ensures value { (result.class, result.len) ≡ spec.literal_front rest.now }
    ensures within { result.len ≤ length rest.now + 1 }
{
    let len = inside_len(rest);
    if len < rest.len() && is_content(&rest[..len]) {
        return Found {
            class: Class::Str,
            len: len + 2,
        };
    }
    bad()
}

/// How long the keyword with a dash is with which a text begins.
fn keyword_len(text: &[u8]) -> usize
    ensures value { result ≡ spec.keyword_len text.now }
    ensures within { result ≤ length text.now }
{
    if text.starts_with(b"attr-dict-with-keyword") {
        22
    } else if text.starts_with(b"functional-type") {
        15
    } else if text.starts_with(b"attr-dict") {
        9
    } else {
        0
    }
}

/// The word at the front of a text that begins with one.
fn word_front(text: &[u8]) -> Found
    requires short { length text.now < 2 ^ 32 }
    requires some { 0 < length text.now }
    ensures value { (result.class, result.len) ≡ spec.word_front text.now }
    ensures within { result.len ≤ length text.now }
{
    let id = 1 + id_len(&text[1..]);
    let len = id.max(keyword_len(text));
    Found {
        class: word_class(&text[..len]),
        len,
    }
}

/// The token of a byte that begins nothing longer.
fn sign_front(byte: u8) -> Found
    ensures { result ≡ record { class = spec.sign_or_bad (spelling.sign byte); len = 1 } }
{
    match sign(byte) {
        Some(class) => Found { class, len: 1 },
        None => bad(),
    }
}
