//! The readers of elements that are no group.

ghost use Rattle.std.specs.Prelude.{◌≡◌, ◌-◌, drop, length, take};
ghost use Rattle.grammar.specs.Rules.{◌>>◌};
ghost use Rattle.format_reader.specs.Elements as spec;
ghost use Rattle.format_reader.specs.Ran.{HasToken, Reads, begins, now_of};
ghost use Rattle.format_reader.specs.Spelling.{content_of};

use crate::step::{expect, expect_word, is_class, is_word};
use crate::stop::FormatAt;
use crate::tokens::FormatTokens;
use crate::word::{literal_kind, named_kind};
use attr_value::{IntKind, Text};
use dialect_defs::{RawArg, RawElement, RawKind, RawName};
use ir_lexer::Class;
use std::alloc::Global;

// ---- items

/// Whether an item begins with the present token.
pub fn begins_item(t: &FormatTokens<'_>) -> bool
    ensures test { result ≡ begins spec.item (now_of t.now) }
    ensures some { HasToken t.now }
{
    is_class(t, Class::Str) || begins_shown(t)
}

fn begins_shown(t: &FormatTokens<'_>) -> bool
    ensures test { result ≡ begins spec.shown (now_of t.now) }
    ensures some { HasToken t.now }
{
    is_class(t, Class::ValueName) || begins_directive(t)
}

fn begins_directive(t: &FormatTokens<'_>) -> bool
    ensures test { result ≡ begins spec.directive (now_of t.now) }
    ensures some { HasToken t.now }
{
    begins_dictionary(t) || begins_types(t) || begins_attribute(t)
}

fn begins_dictionary(t: &FormatTokens<'_>) -> bool
    ensures test { result ≡ begins spec.dictionary (now_of t.now) }
    ensures some { HasToken t.now }
{
    is_word(t, b"attr-dict") || is_word(t, b"attr-dict-with-keyword")
}

fn begins_types(t: &FormatTokens<'_>) -> bool
    ensures test { result ≡ begins spec.of_types (now_of t.now) }
    ensures some { HasToken t.now }
{
    is_word(t, b"type") || is_word(t, b"functional-type")
}

fn begins_attribute(t: &FormatTokens<'_>) -> bool
    ensures test { result ≡ begins spec.of_attribute (now_of t.now) }
    ensures some { HasToken t.now }
{
    is_word(t, b"symbol") || is_word(t, b"int") || is_word(t, b"qualified")
}

pub fn item(alloc: Global, t: &mut FormatTokens<'_>) -> Result<RawElement, FormatAt>
    ensures { Reads spec.item t.old result t.new }
{
    if is_class(t, Class::Str) {
        return literal(alloc, t);
    }
    marked(alloc, t)
}

fn literal(alloc: Global, t: &mut FormatTokens<'_>) -> Result<RawElement, FormatAt>
    ensures { Reads spec.literal t.old result t.new }
{
    let at = t.place();
    let kind = literal_kind(alloc, content(t.text()))?;
    expect(t, Class::Str)?;
    Ok(RawElement {
        at,
        anchor: false,
        kind,
    })
}

/// What stands between the back-quotes of a literal.
fn content(text: &[u8]) -> &[u8]
    ensures { result.now ≡ content_of text.now }
{
    match text {
        [_, content @ .., _] => content,
        _ => &[],
    }
}

fn marked(alloc: Global, t: &mut FormatTokens<'_>) -> Result<RawElement, FormatAt>
    ensures { Reads spec.marked t.old result t.new }
{
    let at = t.place();
    let kind = shown(alloc, t)?;
    let anchor = anchor(t)?;
    Ok(RawElement { at, anchor, kind })
}

fn anchor(t: &mut FormatTokens<'_>) -> Result<bool, FormatAt>
    ensures { Reads spec.anchor t.old result t.new }
{
    if !is_class(t, Class::BlockName) {
        return Ok(false);
    }
    expect(t, Class::BlockName)?;
    Ok(true)
}

fn shown(alloc: Global, t: &mut FormatTokens<'_>) -> Result<RawKind, FormatAt>
    ensures { Reads spec.shown t.old result t.new }
{
    if is_class(t, Class::ValueName) {
        return bare(alloc, t);
    }
    directive(alloc, t)
}

fn bare(alloc: Global, t: &mut FormatTokens<'_>) -> Result<RawKind, FormatAt>
    ensures { Reads spec.bare t.old result t.new }
{
    let variable = variable(alloc, t)?;
    Ok(RawKind::Variable(variable.name))
}

// ---- directives

fn directive(alloc: Global, t: &mut FormatTokens<'_>) -> Result<RawKind, FormatAt>
    ensures { Reads spec.directive t.old result t.new }
{
    if begins_dictionary(t) {
        return dictionary(t);
    }
    if begins_types(t) {
        return of_types(alloc, t);
    }
    of_attribute(alloc, t)
}

fn dictionary(t: &mut FormatTokens<'_>) -> Result<RawKind, FormatAt>
    ensures { Reads spec.dictionary t.old result t.new }
{
    if is_word(t, b"attr-dict") {
        expect_word(t, b"attr-dict")?;
        return Ok(RawKind::Dict);
    }
    expect_word(t, b"attr-dict-with-keyword")?;
    Ok(RawKind::DictKeyword)
}

fn of_types(alloc: Global, t: &mut FormatTokens<'_>) -> Result<RawKind, FormatAt>
    ensures { Reads spec.of_types t.old result t.new }
{
    if is_word(t, b"type") {
        return types(alloc, t);
    }
    functional(alloc, t)
}

fn of_attribute(alloc: Global, t: &mut FormatTokens<'_>) -> Result<RawKind, FormatAt>
    ensures { Reads spec.of_attribute t.old result t.new }
{
    if is_word(t, b"symbol") {
        return symbol(alloc, t);
    }
    if is_word(t, b"int") {
        return int_text(alloc, t);
    }
    qualified(alloc, t)
}

fn types(alloc: Global, t: &mut FormatTokens<'_>) -> Result<RawKind, FormatAt>
    ensures { Reads spec.types t.old result t.new }
{
    expect_word(t, b"type")?;
    expect(t, Class::LParen)?;
    let shown = argument(alloc, t)?;
    expect(t, Class::RParen)?;
    Ok(RawKind::Types(shown))
}

fn functional(alloc: Global, t: &mut FormatTokens<'_>) -> Result<RawKind, FormatAt>
    ensures { Reads spec.functional t.old result t.new }
{
    expect_word(t, b"functional-type")?;
    expect(t, Class::LParen)?;
    let inputs = argument(alloc, t)?;
    expect(t, Class::Comma)?;
    let outputs = argument(alloc, t)?;
    expect(t, Class::RParen)?;
    Ok(RawKind::Functional { inputs, outputs })
}

fn symbol(alloc: Global, t: &mut FormatTokens<'_>) -> Result<RawKind, FormatAt>
    ensures { Reads spec.symbol t.old result t.new }
{
    expect_word(t, b"symbol")?;
    expect(t, Class::LParen)?;
    let variable = variable(alloc, t)?;
    expect(t, Class::RParen)?;
    Ok(RawKind::SymbolName(variable))
}

fn int_text(alloc: Global, t: &mut FormatTokens<'_>) -> Result<RawKind, FormatAt>
    ensures { Reads spec.int_text t.old result t.new }
{
    expect_word(t, b"int")?;
    expect(t, Class::LParen)?;
    let variable = variable(alloc, t)?;
    expect(t, Class::Comma)?;
    let kind = number(t)?;
    expect(t, Class::RParen)?;
    Ok(RawKind::IntText { variable, kind })
}

fn qualified(alloc: Global, t: &mut FormatTokens<'_>) -> Result<RawKind, FormatAt>
    ensures { Reads spec.qualified t.old result t.new }
{
    expect_word(t, b"qualified")?;
    expect(t, Class::LParen)?;
    let kind = in_full(alloc, t)?;
    expect(t, Class::RParen)?;
    Ok(kind)
}

fn in_full(alloc: Global, t: &mut FormatTokens<'_>) -> Result<RawKind, FormatAt>
    ensures { Reads spec.in_full t.old result t.new }
{
    if !is_class(t, Class::ValueName) {
        return types(alloc, t);
    }
    let variable = variable(alloc, t)?;
    Ok(RawKind::Qualified(variable))
}

// ---- what directives speak of

fn variable(alloc: Global, t: &mut FormatTokens<'_>) -> Result<RawName, FormatAt>
    ensures { Reads spec.variable t.old result t.new }
{
    let at = t.place();
    let name = Text::from_slice(alloc, unsigned(t.text()))?;
    expect(t, Class::ValueName)?;
    Ok(RawName { at, name })
}

/// A variable without its sign.
fn unsigned(text: &[u8]) -> &[u8]
    ensures { result.now ≡ drop 1 text.now }
{
    match text {
        [_, name @ ..] => name,
        [] => &[],
    }
}

fn number(t: &mut FormatTokens<'_>) -> Result<IntKind, FormatAt>
    ensures { Reads spec.number t.old result t.new }
{
    let kind = named_kind(t.text());
    expect(t, Class::TypeName)?;
    Ok(kind)
}

fn argument(alloc: Global, t: &mut FormatTokens<'_>) -> Result<RawArg, FormatAt>
    ensures { Reads spec.argument t.old result t.new }
{
    if is_class(t, Class::ValueName) {
        let variable = variable(alloc, t)?;
        return Ok(RawArg::Variable(variable));
    }
    if is_word(t, b"operands") {
        return all_operands(t);
    }
    all_results(t)
}

fn all_operands(t: &mut FormatTokens<'_>) -> Result<RawArg, FormatAt>
    ensures { Reads spec.all_operands t.old result t.new }
{
    let at = t.place();
    expect_word(t, b"operands")?;
    Ok(RawArg::AllOperands(at))
}

fn all_results(t: &mut FormatTokens<'_>) -> Result<RawArg, FormatAt>
    ensures { Reads spec.all_results t.old result t.new }
{
    let at = t.place();
    expect_word(t, b"results")?;
    Ok(RawArg::AllResults(at))
}
