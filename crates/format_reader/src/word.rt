//! Words and literals by their bytes.

ghost use Rattle.std.specs.Prelude.{◌≡◌, IfOk, Option, Some, None};
ghost use Rattle.std.specs.List.{list_all};
ghost use Rattle.format_reader.specs.Elements.{kind_or_index};
ghost use Rattle.format_reader.specs.Spelling as spec;

use crate::byte::{begins_id, id_len, literal_sign};
use attr_value::{IntKind, Text};
use dialect_defs::RawKind;
use ir_lexer::Class;
use std::alloc::{AllocError, Global};

/// Whether a bare id may go on with all bytes.
fn all_go_on(text: &[u8]) -> bool
    ensures { result ≡ list_all spec.goes_on_id text.now }
{
    id_len(text) == text.len()
}

/// Whether a text is a bare id, as a literal may be.
pub fn is_bare_id(text: &[u8]) -> bool
    ensures { result ≡ spec.is_bare_id text.now }
{
    if text.is_empty() {
        return false;
    }
    begins_id(text[0]) && all_go_on(&text[1..])
}

/// What a literal of one byte stands for, which is no word.
fn byte_mark(byte: u8) -> Option<RawKind>
    ensures { result ≡ spec.byte_mark byte }
{
    match byte {
        b' ' => Some(RawKind::Space),
        b'\n' => Some(RawKind::Newline),
        _ => match literal_sign(byte) {
            Some(class) => Some(RawKind::Punct(class)),
            None => None,
        },
    }
}

/// What a literal of two bytes stands for, which is no word.
fn pair_mark(first: u8, second: u8) -> Option<RawKind>
    ensures { result ≡ spec.pair_mark first second }
{
    if first == b'\\' && second == b'n' {
        Some(RawKind::Newline)
    } else if first == b'-' && second == b'>' {
        Some(RawKind::Punct(Class::Arrow))
    } else {
        None
    }
}

/// What a literal stands for that is no word.
fn mark(text: &[u8]) -> Option<RawKind>
    ensures { result ≡ spec.mark text.now }
{
    match text {
        [] => Some(RawKind::Empty),
        [byte] => byte_mark(*byte),
        [first, second] => pair_mark(*first, *second),
        _ => None,
    }
}

/// Whether a text may stand between back-quotes.
pub fn is_content(text: &[u8]) -> bool
    ensures { result ≡ spec.is_content text.now }
{
    is_bare_id(text) || mark(text).is_some()
}

/// What a literal stands for, by what stands between its back-quotes.
pub fn literal_kind(alloc: Global, text: &[u8]) -> Result<RawKind, AllocError>
    ensures { IfOk result (λ kind. kind ≡ spec.literal_kind text.now) }
{
    if is_bare_id(text) {
        return Ok(RawKind::Word(Text::from_slice(alloc, text)?));
    }
    match mark(text) {
        Some(kind) => Ok(kind),
        None => Ok(RawKind::Empty),
    }
}

/// A width that numbers may have.
fn narrow(width: u32) -> Option<u32>
    ensures { result ≡ spec.narrow width }
{
    if 1 <= width && width <= 64 {
        Some(width)
    } else {
        None
    }
}

/// The width that one or two digits spell, without a leading zero.
fn narrow_width(digits: &[u8]) -> Option<u32>
    ensures { result ≡ spec.narrow_width digits.now }
{
    match digits {
        [b'0'..=b'9'] => narrow((digits[0] - b'0') as u32),
        [b'1'..=b'9', b'0'..=b'9'] => {
            narrow((digits[0] - b'0') as u32 * 10 + (digits[1] - b'0') as u32)
        }
        _ => None,
    }
}

/// The kind of numbers that a word names: `index`, or an integer type of 1 to 64 bits.
fn number_kind(word: &[u8]) -> Option<IntKind>
    ensures { result ≡ spec.number_kind word.now }
{
    if word == b"index".as_slice() {
        return Some(IntKind::Index);
    }
    if let Some(digits) = word.strip_prefix(b"i") {
        return narrow_width(digits).map(IntKind::Signless);
    }
    if let Some(digits) = word.strip_prefix(b"si") {
        return narrow_width(digits).map(IntKind::Signed);
    }
    if let Some(digits) = word.strip_prefix(b"ui") {
        return narrow_width(digits).map(IntKind::Unsigned);
    }
    None
}

/// The kind of numbers that a word names, and `index` where it names none.
pub fn named_kind(word: &[u8]) -> IntKind
    ensures { result ≡ kind_or_index (spec.number_kind word.now) }
{
    match number_kind(word) {
        Some(kind) => kind,
        None => IntKind::Index,
    }
}

/// The class of a word.
pub fn word_class(word: &[u8]) -> Class
    ensures { result ≡ spec.word_class word.now }
{
    if number_kind(word).is_some() {
        Class::TypeName
    } else {
        Class::Word
    }
}
