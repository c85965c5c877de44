//! What rows come to.

ghost use Rattle.value_rows.specs.Desks.{IsSound, IsPrintable};

use crate::desk::{Desk, Stop};
use crate::row::Row;
use anyhow::{Result, bail};
use attr_value::{Text, ValueId};
use generic_syntax::{SyntaxCode, SyntaxStop};
use std::alloc::Global;
use value_meaning::{Definitions, ValueStop};

/// Tries a row, and says whether it differs from what is wanted. What differs is printed.
pub fn differs(rt: &HostRuntime, types: &Definitions, desk: &mut Desk, row: Row<'_>) -> Result<bool>
    requires { IsSound types.now desk.old }
    ensures { IsSound types.now desk.new }
{
    match row {
        Row::Value { text, wanted } => {
            let got = of_text(rt.alloc(), types, desk, text)?;
            told(rt, text, wanted, &got)
        }
        Row::Alias {
            is_type,
            name,
            text,
        } => {
            let got = of_alias(rt.alloc(), types, desk, is_type, name, text)?;
            told(rt, text, "", &got)
        }
    }
}

/// Whether a row came to something else. Then it is printed.
fn told(rt: &HostRuntime, title: &str, wanted: &str, got: &[u8]) -> Result<bool> {
    if got == wanted.as_bytes() {
        return Ok(false);
    }
    println!(rt; "differs: {title}")?;
    println!(rt; "  expected {wanted}")?;
    println!(rt; "  got      {}", got.escape_ascii())?;
    Ok(true)
}

/// What a text comes to: the canonical text of its value, or where and why it is refused.
fn of_text(alloc: Global, types: &Definitions, desk: &mut Desk, text: &str) -> Result<Vec<u8>>
    requires { IsSound types.now desk.old }
    ensures { IsSound types.now desk.new }
{
    match desk.value_of(alloc, types, text.as_bytes()) {
        Ok(id) => of_value(alloc, types, desk, id),
        Err(stop) => of_stop(alloc, stop),
    }
}

/// The canonical text of a value, and a note behind it where it isn't read as the value.
fn of_value(alloc: Global, types: &Definitions, desk: &mut Desk, id: ValueId) -> Result<Vec<u8>>
    requires sound { IsSound types.now desk.old }
    requires printable { IsPrintable desk.old id }
    ensures { IsSound types.now desk.new }
{
    let mut text = desk.text_of(alloc, id)?;
    let _ = text.pop();
    match desk.value_of(alloc, types, &text) {
        Ok(again) if again == id => {}
        _ => text.extend_from_slice(b", which is read as another value")?,
    }
    Ok(text)
}

/// What an alias comes to: nothing where it is known from now on, or where and why its text is
/// refused.
fn of_alias(
    alloc: Global,
    types: &Definitions,
    desk: &mut Desk,
    is_type: bool,
    name: &str,
    text: &str,
) -> Result<Vec<u8>>
    requires { IsSound types.now desk.old }
    ensures { IsSound types.now desk.new }
{
    let name = Text::from_slice(alloc, name.as_bytes())?;
    match desk.define(alloc, types, is_type, name, text.as_bytes()) {
        Ok(()) => Ok(Vec::new(alloc)),
        Err(stop) => of_stop(alloc, stop),
    }
}

/// Where and why a text is refused.
fn of_stop(alloc: Global, stop: Stop) -> Result<Vec<u8>> {
    match stop {
        Stop::TooLong => bail!("a text is too long"),
        Stop::Text(SyntaxStop::At { place, code }) => {
            let rule = match code {
                SyntaxCode::Syntax => "Syntax",
                SyntaxCode::Float => "Float",
                SyntaxCode::Bad => "Bad",
                SyntaxCode::Nesting => "Nesting",
            };
            Ok(format!(in alloc; "! {place} {rule}")?.into_bytes())
        }
        Stop::Value(ValueStop::Refused(fault)) => {
            Ok(format!(in alloc; "! {} M{}", fault.place, fault.code)?.into_bytes())
        }
        Stop::Text(SyntaxStop::Failed) => bail!("a slice of bytes failed"),
        Stop::Text(SyntaxStop::OutOfMemory) | Stop::Value(ValueStop::OutOfMemory) => {
            bail!("out of memory")
        }
    }
}
