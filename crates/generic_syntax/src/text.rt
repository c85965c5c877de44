//! The texts that spellings stand for. What has no escape is copied once.

ghost use Rattle.std.specs.Prelude.{◌≡◌, IfOk};
ghost use Rattle.ir_lexer.specs.Names as spec;

use attr_value::Text;
use ir_lexer::{literal_bytes, name_bytes};
use std::alloc::{AllocError, Global};

/// The name that a spelling with a sign stands for.
pub fn name_text(alloc: Global, spelling: &[u8]) -> Result<Text, AllocError>
    ensures { IfOk result (λ name. name ≡ spec.name_bytes spelling.now) }
{
    if spelling.len() < 2 || spelling[1] == b'"' {
        return Text::from_vec(alloc, name_bytes(alloc, spelling)?);
    }
    Text::from_slice(alloc, &spelling[1..])
}

/// The bytes that a string stands for.
pub fn string_text(alloc: Global, spelling: &[u8]) -> Result<Text, AllocError>
    ensures { IfOk result (λ text. text ≡ spec.literal_bytes spelling.now) }
{
    if spelling.len() < 2 {
        return Text::from_vec(alloc, literal_bytes(alloc, spelling)?);
    }
    let items = &spelling[1..spelling.len() - 1];
    if items.contains(&b'\\') {
        return Text::from_vec(alloc, literal_bytes(alloc, spelling)?);
    }
    Text::from_slice(alloc, items)
}
