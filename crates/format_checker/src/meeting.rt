//! Looks that meet, and which of them is told.

ghost use Rattle.std.specs.Prelude.{◌≡◌, ◌+◌, ◌++◌, ◌<◌, IfOk, drop, length, slice_get};
ghost use Rattle.attr_value.specs.Heads.{text_lt};
ghost use Rattle.grammar.specs.Looks as grammar;
ghost use Rattle.ir_lexer.specs.Classes as classes;
ghost use Rattle.format_checker.specs.Fits.{demand};
ghost use Rattle.format_checker.specs.Meeting as spec;

use crate::look::Look;
use crate::word::{has_dot, is_integer_word};
use attr_value::Text;
use ir_lexer::Class;
use std::alloc::{AllocError, Global};

/// The class of the tokens that pass a look.
fn class_of(look: &Look) -> Class
    ensures { result ≡ grammar.class_of (demand look.now) }
{
    match look {
        Look::Punct(class) => *class,
        Look::Value => Class::ValueName,
        Look::Block => Class::BlockName,
        Look::Symbol => Class::SymbolName,
        Look::TypeName => Class::TypeName,
        Look::AttrName => Class::AttrName,
        Look::Integer => Class::Integer,
        Look::Str => Class::Str,
        Look::IntWord => Class::Word,
        Look::Dotted => Class::Word,
        Look::End => Class::End,
        Look::Word(_) => Class::Word,
    }
}

/// Whether a word passes a look, as far as its bytes go.
fn text_fits(look: &Look, word: &[u8]) -> bool
    ensures { result ≡ grammar.text_fits (demand look.now) word.now }
{
    match look {
        Look::Word(own) => word == own.bytes(),
        Look::IntWord => is_integer_word(word),
        Look::Dotted => has_dot(word),
        _ => true,
    }
}

/// Whether one text may pass both.
fn texts_meet(p: &Look, q: &Look) -> bool
    ensures { result ≡ grammar.texts_meet (demand p.now) (demand q.now) }
{
    match p {
        Look::Word(word) => text_fits(q, word.bytes()),
        Look::IntWord => match q {
            Look::Word(word) => text_fits(p, word.bytes()),
            Look::Dotted => false,
            _ => true,
        },
        Look::Dotted => match q {
            Look::Word(word) => text_fits(p, word.bytes()),
            Look::IntWord => false,
            _ => true,
        },
        _ => match q {
            Look::Word(word) => text_fits(p, word.bytes()),
            _ => true,
        },
    }
}

fn same_class(a: Class, b: Class) -> bool
    ensures { result ≡ classes.same_class a b }
{
    a == b
}

/// Whether one token may pass both.
fn meets(p: &Look, q: &Look) -> bool
    ensures { result ≡ spec.meets p.now q.now }
{
    same_class(class_of(p), class_of(q)) && texts_meet(p, q)
}

/// Whether a look meets one of these.
fn meets_some(look: &Look, others: &[Look]) -> bool
    ensures { result ≡ spec.meets_some look.now others.now }
{
    others.iter().any(|other| meets(look, other))
}

/// Whether a look meets one of two lists.
fn meets_either(look: &Look, near: &[Look], far: &[Look]) -> bool
    ensures { result ≡ spec.meets_some look.now (near.now ++ far.now) }
{
    meets_some(look, near) || meets_some(look, far)
}

// ---- the order of looks

fn sign_rank(class: Class) -> u8
    ensures { result ≡ spec.sign_rank class }
{
    match class {
        Class::Colon => 0,
        Class::ColonColon => 1,
        Class::Comma => 2,
        Class::Equal => 3,
        Class::Less => 4,
        Class::Greater => 5,
        Class::LParen => 6,
        Class::RParen => 7,
        Class::LBrace => 8,
        Class::RBrace => 9,
        Class::LSquare => 10,
        Class::RSquare => 11,
        Class::Arrow => 12,
        Class::Minus => 13,
        Class::Question => 14,
        Class::Plus => 15,
        Class::Star => 16,
        _ => 17,
    }
}

fn rank(look: &Look) -> u8
    ensures { result ≡ spec.rank look.now }
{
    match look {
        Look::Punct(class) => sign_rank(*class),
        Look::Value => 18,
        Look::Block => 19,
        Look::Symbol => 20,
        Look::TypeName => 21,
        Look::AttrName => 22,
        Look::Integer => 23,
        Look::Str => 24,
        Look::IntWord => 25,
        Look::Dotted => 26,
        Look::End => 27,
        Look::Word(_) => 28,
    }
}

fn stands_before(a: &[u8], b: &[u8]) -> bool
    ensures { result ≡ text_lt a.now b.now }
{
    a < b
}

/// Whether both are words, of which the first comes before the second by its bytes.
fn words_ascend(p: &Look, q: &Look) -> bool
    ensures { result ≡ spec.words_ascend p.now q.now }
{
    match p {
        Look::Word(v) => match q {
            Look::Word(w) => stands_before(v.bytes(), w.bytes()),
            _ => false,
        },
        _ => false,
    }
}

/// Whether a look comes before another.
fn precedes(p: &Look, q: &Look) -> bool
    ensures { result ≡ spec.precedes p.now q.now }
{
    rank(p) < rank(q) || words_ascend(p, q)
}

// ---- which look is told

/// The place of the first look that meets one of the others, from a place on, where that from the
/// next one on is the best.
fn best_from(own: &[Look], near: &[Look], far: &[Look], at: usize, best: usize) -> usize
    requires inside { at < length own.now }
    ensures { slice_get own.now best ≡
        spec.first_meeting (drop (at + 1) own.now) (near.now ++ far.now)
        → slice_get own.now result ≡ spec.first_meeting (drop at own.now) (near.now ++ far.now) }
{
    let look = &own[at];
    if !meets_either(look, near, far) {
        return best;
    }
    match own.get(best) {
        Some(other) => { if precedes(other, look) { best } else { at } }
        None => at,
    }
}

/// The place of the first look of the own that meets one of the others, in the order of looks; the
/// length where none does.
fn place_of_meeting(own: &[Look], near: &[Look], far: &[Look]) -> usize
    ensures { slice_get own.now result ≡ spec.first_meeting own.now (near.now ++ far.now) }
{
    let mut best = own.len();
    let mut at = own.len();
    while at > 0 {
        best = best_from(own, near, far, at - 1, best);
        at -= 1;
    }
    best
}

fn copy(alloc: Global, look: &Look) -> Result<Look, AllocError>
    ensures { IfOk result (λ copied. copied ≡ look.now) }
{
    match look {
        Look::Punct(class) => Ok(Look::Punct(*class)),
        Look::Value => Ok(Look::Value),
        Look::Block => Ok(Look::Block),
        Look::Symbol => Ok(Look::Symbol),
        Look::TypeName => Ok(Look::TypeName),
        Look::AttrName => Ok(Look::AttrName),
        Look::Integer => Ok(Look::Integer),
        Look::Str => Ok(Look::Str),
        Look::IntWord => Ok(Look::IntWord),
        Look::Dotted => Ok(Look::Dotted),
        Look::End => Ok(Look::End),
        Look::Word(word) => Ok(Look::Word(Text::from_slice(alloc, word.bytes())?)),
    }
}

/// The first look of the own that meets one of the others.
pub fn first_meeting(
    alloc: Global,
    own: &[Look],
    near: &[Look],
    far: &[Look],
) -> Result<Option<Look>, AllocError>
    ensures { IfOk result (λ look. look ≡ spec.first_meeting own.now (near.now ++ far.now)) }
{
    match own.get(place_of_meeting(own, near, far)) {
        Some(look) => Ok(Some(copy(alloc, look)?)),
        None => Ok(None),
    }
}
