//! Texts: their tokens, and these laid out again.

ghost use Rattle.std.specs.Prelude.{◌≤◌, length};

use ir_lexer::{Class, SliceTokens, TokenSource};
use irdl_bytes::MemSink;
use std::alloc::{AllocError, Global};
use text_layout::{Layout, PrintError};

/// The most bytes of a text.
const TEXT_LIMIT: usize = 16_777_216;

/// The text of one operation, a line each time.
fn operations(alloc: Global, count: u32) -> Result<Vec<u8>, AllocError> {
    let mut text = Vec::new(alloc);
    for _ in 0..count {
        text.extend_from_slice(b"%0 = cmath.make : !cmath.complex<f32>\n")?;
    }
    Ok(text)
}

/// How many tokens a text has.
fn count_tokens(src: &[u8]) -> usize
    requires { length src.now ≤ TEXT_LIMIT }
{
    let mut tokens = SliceTokens::new(src);
    let mut count = 0;
    for n in 0..TEXT_LIMIT {
        count = n;
        if tokens.class() == Class::End || tokens.advance().is_err() {
            break;
        }
    }
    count
}

/// The tokens of so many operations.
pub(crate) fn lex_operations(alloc: Global, count: u32) -> Result<usize, AllocError> {
    let text = operations(alloc, count)?;
    let src = text.as_slice();
    if src.len() > TEXT_LIMIT {
        return Ok(0);
    }
    Ok(count_tokens(src))
}

/// Lays the present token down, which begins a line where it is a value's name. Whether there is
/// one.
fn lay_token(
    layout: &mut Layout<'_, MemSink>,
    tokens: &SliceTokens<'_>,
) -> Result<bool, PrintError> {
    match tokens.class() {
        Class::End | Class::Bad => return Ok(false),
        Class::ValueName => layout.break_line(0)?,
        _ => {}
    }
    layout.token(tokens.class(), tokens.text())?;
    Ok(true)
}

/// Lays the tokens of a text out again.
fn lay_out(alloc: Global, src: &[u8], sink: &mut MemSink) -> Result<(), PrintError>
    requires { length src.now ≤ TEXT_LIMIT }
{
    let mut tokens = SliceTokens::new(src);
    let mut layout = Layout::new(alloc, sink);
    for _ in 0..TEXT_LIMIT {
        if !lay_token(&mut layout, &tokens)? || tokens.advance().is_err() {
            break;
        }
    }
    layout.end()
}

/// The bytes of the layout of so many operations, read by the lexer first.
pub(crate) fn lay_operations(alloc: Global, count: u32) -> Result<usize, AllocError> {
    let text = operations(alloc, count)?;
    let src = text.as_slice();
    let mut sink = MemSink::new(alloc, TEXT_LIMIT)?;
    if src.len() > TEXT_LIMIT {
        return Ok(0);
    }
    match lay_out(alloc, src, &mut sink) {
        Err(PrintError::OutOfMemory) => Err(AllocError),
        Err(_) => Ok(0),
        Ok(()) => Ok(sink.bytes().len()),
    }
}
