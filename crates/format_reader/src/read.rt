//! The reader of format texts: elements here, what they show in the file below. Each function reads
//! the rule of its name.

mod elements;

ghost use Rattle.std.specs.Prelude.{◌≡◌, ◌≤◌, ◌⊎◌, IfOk, Ok, Err, length};
ghost use Rattle.ir_lexer.specs.declared.lexer.TheConstants.{TEXT_LIMIT};
ghost use Rattle.grammar.specs.Rules.{many};
ghost use Rattle.format_reader.specs.Elements.{item};
ghost use Rattle.format_reader.specs.Formats as spec;
ghost use Rattle.format_reader.specs.Formats.{IsFormat, IsRefusedAt};
ghost use Rattle.format_reader.specs.Ran.{HasToken, Reads, ReadsWhole, begins, now_of};

use crate::step::{expect, expect_end, is_class};
use crate::stop::FormatAt;
use crate::tokens::FormatTokens;
use attr_value::List;
use dialect_defs::{RawElement, RawKind};
use elements::{begins_item, item};
use ir_lexer::{Class, TEXT_LIMIT};
use std::alloc::Global;

/// Reads a format text.
///
/// A text is accepted exactly where the grammar of format texts derives its tokens, and its
/// elements are those that the grammar gives them. Any other is refused at the first byte of the first token
/// that goes on in no format text.
pub fn read_format(alloc: Global, text: &[u8]) -> Result<List<RawElement>, FormatAt>
    requires short { length text.now ≤ TEXT_LIMIT }
    ensures ok { IfOk result (IsFormat text.now) }
    ensures accepts { (elements : _) → IsFormat text.now elements
        → (result ≡ Ok elements) ⊎ (result ≡ Err FormatAt.OutOfMemory) }
    ensures refused { (place : _) → result ≡ Err (FormatAt.At place) → IsRefusedAt text.now place }
{
    let mut t = FormatTokens::new(text);
    whole_format(alloc, &mut t)
}

fn whole_format(alloc: Global, t: &mut FormatTokens<'_>) -> Result<List<RawElement>, FormatAt>
    ensures { ReadsWhole spec.format t.old result }
{
    let elements = format(alloc, t)?;
    expect_end(t)?;
    Ok(elements)
}

fn format(alloc: Global, t: &mut FormatTokens<'_>) -> Result<List<RawElement>, FormatAt>
    ensures { Reads spec.format t.old result t.new }
{
    let mut found = List::new(alloc);
    'each: while begins_element(t) {
        found.push(element(alloc, t)?)?;
    }
    found.trim();
    Ok(found)
}

/// Whether an element begins with the present token.
fn begins_element(t: &FormatTokens<'_>) -> bool
    ensures test { result ≡ begins spec.element (now_of t.now) }
    ensures some { HasToken t.now }
{
    is_class(t, Class::LParen) || begins_item(t)
}

fn element(alloc: Global, t: &mut FormatTokens<'_>) -> Result<RawElement, FormatAt>
    ensures { Reads spec.element t.old result t.new }
{
    if is_class(t, Class::LParen) {
        return group(alloc, t);
    }
    item(alloc, t)
}

fn group(alloc: Global, t: &mut FormatTokens<'_>) -> Result<RawElement, FormatAt>
    ensures { Reads spec.group t.old result t.new }
{
    let at = t.place();
    let first = branch_items(alloc, t)?;
    let otherwise = otherwise(alloc, t)?;
    expect(t, Class::Question)?;
    Ok(RawElement {
        at,
        anchor: false,
        kind: RawKind::Group { first, otherwise },
    })
}

fn branch_items(alloc: Global, t: &mut FormatTokens<'_>) -> Result<List<RawElement>, FormatAt>
    ensures { Reads spec.branch t.old result t.new }
{
    expect(t, Class::LParen)?;
    let items = items(alloc, t)?;
    expect(t, Class::RParen)?;
    Ok(items)
}

fn otherwise(alloc: Global, t: &mut FormatTokens<'_>) -> Result<List<RawElement>, FormatAt>
    ensures { Reads spec.otherwise t.old result t.new }
{
    if !is_class(t, Class::Colon) {
        return Ok(List::new(alloc));
    }
    expect(t, Class::Colon)?;
    branch_items(alloc, t)
}

fn items(alloc: Global, t: &mut FormatTokens<'_>) -> Result<List<RawElement>, FormatAt>
    ensures { Reads (many item) t.old result t.new }
{
    let mut found = List::new(alloc);
    'each: while begins_item(t) {
        found.push(item(alloc, t)?)?;
    }
    found.trim();
    Ok(found)
}
