//! The readers of what stands in values and holds no value: signs, items, symbols, dimensions and
//! keys. Each function reads the rule of its name; only a key asks how deep values may nest.

ghost use Rattle.std.specs.Prelude.{◌≡◌, ℕ, [], IfOk};
ghost use Rattle.grammar.specs.Ran.{Reads};
ghost use Rattle.generic_syntax.specs.Nested.{values_within};
ghost use Rattle.generic_syntax.specs.Values as spec;
ghost use Rattle.generic_syntax.specs.Dims.{known};

use crate::cst::{ItemCst, ValueNode};
use crate::token::{
    is_dense_width, is_truth, read_sign_name, read_string, read_text, too_deep, width_of,
};
use attr_value::{List, Text};
use grammar::{SyntaxStop, expect, expect_word, is_class, refused};
use ir_lexer::{Class, TokenSource};
use std::alloc::{AllocError, Global};

pub fn sign<T: TokenSource>(t: &mut T) -> Result<bool, SyntaxStop>
    ensures { (n : ℕ) → Reads (values_within n) spec.sign (T.state t.old) result (T.state t.new) }
{
    if !is_class(t, Class::Minus) {
        return Ok(false);
    }
    expect(t, Class::Minus)?;
    Ok(true)
}

pub fn item<T: TokenSource>(alloc: Global, t: &mut T) -> Result<ItemCst, SyntaxStop>
    ensures { (n : ℕ) → Reads (values_within n) spec.item (T.state t.old) result (T.state t.new) }
{
    let place = t.place();
    if is_truth(t) {
        let word = read_text(alloc, t, Class::Word)?;
        return Ok(ItemCst {
            place,
            negative: false,
            spelling: word,
        });
    }
    let negative = sign(t)?;
    let spelling = read_text(alloc, t, Class::Integer)?;
    Ok(ItemCst {
        place,
        negative,
        spelling,
    })
}

fn items<T: TokenSource>(alloc: Global, t: &mut T) -> Result<List<ItemCst>, SyntaxStop>
    ensures { (n : ℕ) → Reads (values_within n) (spec.list1 spec.item)
        (T.state t.old) result (T.state t.new) }
{
    let mut found = List::new(alloc);
    found.push(item(alloc, t)?)?;
    'each: while is_class(t, Class::Comma) {
        expect(t, Class::Comma)?;
        found.push(item(alloc, t)?)?;
    }
    found.trim();
    Ok(found)
}

fn items_behind<T: TokenSource>(alloc: Global, t: &mut T) -> Result<List<ItemCst>, SyntaxStop>
    ensures { (n : ℕ) → Reads (values_within n) spec.items_behind
        (T.state t.old) result (T.state t.new) }
{
    if !is_class(t, Class::Colon) {
        return Ok(List::new(alloc));
    }
    expect(t, Class::Colon)?;
    let found = items(alloc, t)?;
    Ok(found)
}

pub fn dense<T: TokenSource>(alloc: Global, t: &mut T) -> Result<ValueNode, SyntaxStop>
    ensures { (n : ℕ) → Reads (values_within n) spec.dense (T.state t.old) result (T.state t.new) }
{
    expect_word(t, b"array")?;
    expect(t, Class::Less)?;
    let width = width(t)?;
    let items = items_behind(alloc, t)?;
    expect(t, Class::Greater)?;
    Ok(ValueNode::Dense { width, items })
}

fn width<T: TokenSource>(t: &mut T) -> Result<u32, SyntaxStop>
    ensures { (n : ℕ) → Reads (values_within n) spec.width (T.state t.old) result (T.state t.new) }
{
    if !is_dense_width(t) {
        return Err(refused(t));
    }
    let width = width_of(t.text());
    expect(t, Class::Word)?;
    Ok(width)
}

pub fn symbol<T: TokenSource>(alloc: Global, t: &mut T) -> Result<ValueNode, SyntaxStop>
    ensures { (n : ℕ) → Reads (values_within n) spec.symbol (T.state t.old) result (T.state t.new) }
{
    let mut parts = List::new(alloc);
    parts.push(read_sign_name(alloc, t, Class::SymbolName)?)?;
    'each: while is_class(t, Class::ColonColon) {
        expect(t, Class::ColonColon)?;
        parts.push(read_sign_name(alloc, t, Class::SymbolName)?)?;
    }
    parts.trim();
    Ok(ValueNode::Symbol(parts))
}

pub fn dims<T: TokenSource>(alloc: Global, t: &mut T) -> Result<List<Text>, SyntaxStop>
    ensures { (n : ℕ) → Reads (values_within n) spec.dims (T.state t.old) result (T.state t.new) }
{
    if !is_class(t, Class::Dims) {
        return Ok(List::new(alloc));
    }
    let found = split_dims(alloc, t.text())?;
    expect(t, Class::Dims)?;
    Ok(found)
}

/// The dimensions that a token of them spells.
fn split_dims(alloc: Global, text: &[u8]) -> Result<List<Text>, AllocError>
    ensures { IfOk result (λ found. found ≡ spec.dims_from [] text.now) }
{
    let mut found = List::new(alloc);
    let mut from = 0;
    let mut at = 0;
    while at < text.len() {
        at += 1;
        if text[at - 1] == b'x' {
            found.push(dim(alloc, &text[from..at - 1])?)?;
            from = at;
        }
    }
    found.trim();
    Ok(found)
}

/// One dimension, without its `x`. An unknown one is an empty text.
fn dim(alloc: Global, spelling: &[u8]) -> Result<Text, AllocError>
    ensures { IfOk result (λ dim. dim ≡ known spelling.now) }
{
    if !spelling.contains(&b'?') {
        return Text::from_slice(alloc, spelling);
    }
    let mut digits = Vec::new(alloc);
    'each: for byte in spelling {
        if *byte != b'?' {
            digits.push(*byte)?;
        }
    }
    Text::from_vec(alloc, digits)
}

/// A key, with which the unit value begins where no `=` follows.
pub fn key<T: TokenSource>(alloc: Global, t: &mut T, room: u32) -> Result<Text, SyntaxStop>
    ensures { Reads (values_within room) spec.key (T.state t.old) result (T.state t.new) }
{
    if is_class(t, Class::Word) {
        if room == 0 {
            return Err(too_deep(t));
        }
        return read_text(alloc, t, Class::Word);
    }
    if !is_class(t, Class::Str) {
        return Err(refused(t));
    }
    if room == 0 {
        return Err(too_deep(t));
    }
    read_string(alloc, t)
}
