//! The rules for what stands between two tokens of a line.

ghost use Rattle.std.specs.Prelude.{◌≡◌, ◌≢◌, ◌≤◌, ◌&&◌, IfOk, OnOk, length, take};
ghost use Rattle.ir_lexer.specs.declared.class.Class.TheVariants as c;
ghost use Rattle.ir_lexer.specs.declared.lexer.TheConstants.{TEXT_LIMIT};
ghost use Rattle.ir_lexer.specs.Spelling.{Text, Spells};
ghost use Rattle.grammar.specs.Looks as looks;
ghost use Rattle.text_layout.specs.Lines as spec;
ghost use Rattle.text_layout.specs.PageInside.{row_of};

use crate::gap::Gap;
use grammar::is_integer_type;
use ir_lexer::{Class, SliceTokens, class_of};
use std::alloc::AllocError;

/// The classes of the first and the last token of a line.
#[derive(Clone, Copy)]
pub struct Ends {
    pub first: Class,
    pub last: Class,
}

fn no_space_behind(a: Class) -> bool
    ensures { result ≡ spec.no_space_behind a }
{
    matches!(
        a,
        Class::LParen
            | Class::LSquare
            | Class::Less
            | Class::LBrace
            | Class::ColonColon
            | Class::Minus
            | Class::Dims
    )
}

fn no_space_before(b: Class) -> bool
    ensures { result ≡ spec.no_space_before b }
{
    matches!(
        b,
        Class::RParen
            | Class::RSquare
            | Class::Greater
            | Class::RBrace
            | Class::Comma
            | Class::ColonColon
    )
}

fn no_space_between(a: Class, b: Class) -> bool
    ensures { result ≡ spec.no_space_between a b }
{
    match b {
        Class::LParen => matches!(a, Class::Str | Class::SymbolName | Class::BlockName),
        Class::Less => matches!(a, Class::Word | Class::TypeName | Class::AttrName),
        _ => false,
    }
}

/// Whether a token is the name of an integer type.
fn is_integer_word(class: Class, text: &[u8]) -> bool
    requires spelled { Spells class text.now }
    requires short { length text.now ≤ TEXT_LIMIT }
    ensures { result ≡ (spec.is_word class && looks.is_integer_word text.now) }
{
    match class {
        Class::Word => is_integer_type(&SliceTokens::new(text)),
        _ => false,
    }
}

/// Whether nothing stands between the last token of a line and one of the class `b`, by the classes
/// alone.
pub fn is_tight(ends: Ends, text: &[u8], b: Class) -> bool
    requires spelled { Spells ends.last text.now }
    requires short { length text.now ≤ TEXT_LIMIT }
    ensures { result ≡ spec.is_tight ends.first ends.last text.now b }
{
    no_space_behind(ends.last)
        || no_space_before(b)
        || no_space_between(ends.last, b)
        || is_tight_colon(ends, text, b)
}

/// Whether `b` is a `:` before which nothing stands.
fn is_tight_colon(ends: Ends, text: &[u8], b: Class) -> bool
    requires spelled { Spells ends.last text.now }
    requires short { length text.now ≤ TEXT_LIMIT }
    ensures { result ≡ spec.is_tight_colon ends.first ends.last text.now b }
{
    matches!(b, Class::Colon)
        && !matches!(ends.last, Class::Colon)
        && (is_integer_word(ends.last, text) || matches!(ends.first, Class::BlockName))
}

/// The class of the first token of the line on which a token of this class stands.
pub fn first_of(gap: Gap, ends: Option<Ends>, class: Class) -> Class
    ensures { (t : Text) → result ≡ spec.first_of gap (row_of ends t) class }
{
    match (gap, ends) {
        (_, None) | (Gap::Newline, _) => class,
        (_, Some(ends)) => ends.first,
    }
}

/// The bytes of a text that decide whether a spelling before it goes on.
fn first_three(text: &[u8]) -> &[u8]
    ensures { result.now ≡ take 3 text.now }
{
    &text[..text.len().min(3)]
}

/// Whether the first token of two spellings put together is the first. They are put together in
/// `joined`, as far as it takes to decide it.
pub fn stays_apart(
    joined: &mut Vec<u8>,
    last: Class,
    a: &[u8],
    b: &[u8],
) -> Result<bool, AllocError>
    requires spelled { Spells last a.now }
    requires others { last ≢ Class.Dims }
    ensures { IfOk result (λ apart. apart ≡ spec.stays_apart a.now b.now) }
{
    let front = first_three(b);
    joined.clear();
    joined.extend_from_slice(a)?;
    for byte in front {
        joined.push(*byte).map_err(|_| AllocError)?;
        if let Some(_) = class_of(joined) {
            return Ok(false);
        }
    }
    Ok(true)
}
