//! What stands behind the name of a rule in a report.

ghost use Rattle.std.specs.Prelude.{◌≡◌, ◌++◌, decimal, IfOk, OnOk};
ghost use Rattle.dialect_registry.specs.Details as spec;

use crate::code::DefCode;
use crate::refusal::DefRefusal;
use format_checker::{EntryRef, Look};
use ir_lexer::Class;
use itoa::Buffer;
use std::alloc::{AllocError, Global};

/// What is told of a refusal by this rule behind its name: where in a format text it is, and what
/// meets what there, or the entry whose type isn't shown.
pub fn detail(alloc: Global, code: DefCode, refusal: &DefRefusal) -> Result<Vec<u8>, AllocError>
    ensures { IfOk result (λ text. text.items ≡ spec.detail code refusal.now) }
{
    let mut text = Vec::new(alloc);
    match code {
        DefCode::FormatSyntax
        | DefCode::FormatUnknown
        | DefCode::FormatMissing
        | DefCode::FormatRepeated
        | DefCode::FormatGroup => add_byte(&mut text, refusal.at)?,
        DefCode::FormatAmbiguous => {
            add_byte(&mut text, refusal.at)?;
            add_look(&mut text, &refusal.look)?
        }
        DefCode::FormatNoType => add_entry(&mut text, &refusal.entry)?,
        _ => {}
    }
    Ok(text)
}

/// Adds a title and a number.
fn add_number(text: &mut Vec<u8>, title: &[u8], number: usize) -> Result<(), AllocError>
    ensures { OnOk result (text.new.items ≡ text.old.items ++ (title.now ++ decimal number)) }
{
    let mut digits = Buffer::new();
    text.extend_from_slice(title)?;
    text.extend_from_slice(digits.format(number).as_bytes())
}

/// Adds the byte of a format text.
fn add_byte(text: &mut Vec<u8>, at: u32) -> Result<(), AllocError>
    ensures { OnOk result (text.new.items ≡ text.old.items ++ spec.byte_detail at) }
{
    add_number(text, b" at ", at as usize)
}

/// Adds a look that meets another, where it is told.
fn add_look(text: &mut Vec<u8>, look: &Option<Look>) -> Result<(), AllocError>
    ensures { OnOk result (text.new.items ≡ text.old.items ++ spec.look_detail look.now) }
{
    match look {
        Some(look) => {
            text.extend_from_slice(b" on ")?;
            text.extend_from_slice(look_text(look))
        }
        None => Ok(()),
    }
}

/// Adds an entry, where it is told.
fn add_entry(text: &mut Vec<u8>, entry: &Option<EntryRef>) -> Result<(), AllocError>
    ensures { OnOk result (text.new.items ≡ text.old.items ++ spec.entry_detail entry.now) }
{
    match entry {
        Some(EntryRef::Operand(number)) => add_number(text, b" of operand ", *number),
        Some(EntryRef::Result(number)) => add_number(text, b" of result ", *number),
        None => Ok(()),
    }
}

/// A sign as it is written. Other classes are no signs.
fn sign_text(class: Class) -> &'static [u8]
    ensures { result.now ≡ spec.sign_text class }
{
    match class {
        Class::Colon => b":",
        Class::ColonColon => b"::",
        Class::Comma => b",",
        Class::Equal => b"=",
        Class::Less => b"<",
        Class::Greater => b">",
        Class::LParen => b"(",
        Class::RParen => b")",
        Class::LBrace => b"{",
        Class::RBrace => b"}",
        Class::LSquare => b"[",
        Class::RSquare => b"]",
        Class::Arrow => b"->",
        Class::Minus => b"-",
        Class::Question => b"?",
        Class::Plus => b"+",
        Class::Star => b"*",
        _ => b"",
    }
}

/// A look as it is printed.
fn look_text(look: &Look) -> &[u8]
    ensures { result.now ≡ spec.look_text look.now }
{
    match look {
        Look::Punct(class) => sign_text(*class),
        Look::Value => b"value",
        Look::Block => b"block",
        Look::Symbol => b"symbol",
        Look::TypeName => b"typename",
        Look::AttrName => b"attrname",
        Look::Integer => b"integer",
        Look::Str => b"string",
        Look::IntWord => b"intword",
        Look::Dotted => b"dotted",
        Look::End => b"end",
        Look::Word(word) => word.bytes(),
    }
}
