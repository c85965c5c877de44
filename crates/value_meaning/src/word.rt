//! Words that are a type or an attribute by themselves.

ghost use Rattle.std.specs.Prelude.{◌≡◌, Some, None, bytes_eq, cond};
ghost use Rattle.grammar.specs.Looks as look;
ghost use Rattle.value_meaning.specs.Spelled as spec;
ghost use Rattle.value_meaning.specs.Spelled.{int_kind_of, looked_up, words};
ghost use Rattle.attr_value.specs.declared.head.Head.TheVariants as h;
ghost use Rattle.attr_value.specs.declared.kind.IntKind.TheVariants.{Signless};

use attr_value::{FloatKind, Head, IntKind, Text, WIDTH_LIMIT};

/// The head that a word spells; `None` where the word isn't known. It takes no memory.
pub fn head_of_word(word: &Text) -> Option<Head>
    ensures { result ≡ spec.word_head word.now }
{
    let word = word.bytes();
    match int_kind(word) {
        Some(kind) => Some(Head::Int(kind)),
        None => head_of_plain(word),
    }
}

/// The kind of an integer type by its name, `iN`, `siN` or `uiN`; `None` of other words.
fn int_kind(word: &[u8]) -> Option<IntKind>
    ensures { result ≡ cond (look.is_integer_word word.now) (Some (int_kind_of word.now)) None }
{
    match word {
        [b'i', digits @ ..] => width(digits).map(IntKind::Signless),
        [b's', b'i', digits @ ..] => width(digits).map(IntKind::Signed),
        [b'u', b'i', digits @ ..] => width(digits).map(IntKind::Unsigned),
        _ => None,
    }
}

/// The width that digits spell: from 1 to [`WIDTH_LIMIT`], without a leading zero.
fn width(digits: &[u8]) -> Option<u32>
    ensures { result ≡ cond (look.is_width digits.now) (Some (look.decimal 0 digits.now)) None }
{
    match digits {
        [] | [b'0', ..] => None,
        _ => short_decimal(digits),
    }
}

/// The number that decimal digits spell, where it is no greater than [`WIDTH_LIMIT`].
fn short_decimal(digits: &[u8]) -> Option<u32>
    ensures { result ≡
        cond (look.spells_width 0 digits.now) (Some (look.decimal 0 digits.now)) None }
{
    let mut width: u32 = 0;
    for digit in digits {
        if !digit.is_ascii_digit() {
            return None;
        }
        width = width * 10 + u32::from(*digit - b'0');
        if width > WIDTH_LIMIT {
            return None;
        }
    }
    Some(width)
}

/// The head of a word that names no integer type with a width.
fn head_of_plain(word: &[u8]) -> Option<Head>
    ensures { result ≡ looked_up words word.now }
{
    if is(word, b"index") {
        Some(Head::Int(IntKind::Index))
    } else if is(word, b"none") {
        Some(Head::NoneType)
    } else if is(word, b"bf16") {
        Some(Head::Float(FloatKind::Bf16))
    } else if is(word, b"f16") {
        Some(Head::Float(FloatKind::F16))
    } else if is(word, b"tf32") {
        Some(Head::Float(FloatKind::Tf32))
    } else if is(word, b"f32") {
        Some(Head::Float(FloatKind::F32))
    } else if is(word, b"f64") {
        Some(Head::Float(FloatKind::F64))
    } else if is(word, b"f80") {
        Some(Head::Float(FloatKind::F80))
    } else if is(word, b"f128") {
        Some(Head::Float(FloatKind::F128))
    } else if is(word, b"true") {
        Some(truth(-1))
    } else if is(word, b"false") {
        Some(truth(0))
    } else if is(word, b"unit") {
        Some(Head::Unit)
    } else {
        None
    }
}

/// Whether a word is another.
fn is(word: &[u8], other: &[u8]) -> bool
    ensures { result ≡ bytes_eq other.now word.now }
{
    other == word
}

/// A truth value, as the number of `i1` that is kept.
fn truth(n: i128) -> Head
    ensures { result ≡ h.Number (Signless 1) n }
{
    Head::Number {
        kind: IntKind::Signless(1),
        n,
    }
}
