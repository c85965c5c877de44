//! The readers of the pieces that grammars above take whole.
//!
//! Values in a piece may nest `room` deep, [`ROOM`] where it stands directly in an operation, an
//! alias or a statement. A value deeper than that is refused, at the token that begins it.

ghost use Rattle.std.specs.Prelude.{ℕ};
ghost use Rattle.grammar.specs.Ran.{Reads};
ghost use Rattle.generic_syntax.specs.Nested.{values_within};
ghost use Rattle.generic_syntax.specs.Pieces.{
  piece,
  one_type,
  one_attr,
  some_types,
  results,
  dictionary,
  an_item,
};

use crate::cst::{EntryCst, ItemCst, ValueCst};
use crate::leaf::item;
use crate::parse::TOO_DEEP;
use crate::token::ValueSort;
use crate::value::{entries, outs, types, value};
use attr_value::List;
use grammar::SyntaxStop;
use ir_lexer::TokenSource;
use std::alloc::Global;

/// How deep values may nest in what stands directly in an operation, an alias or a statement.
pub const ROOM: u32 = TOO_DEEP - 1;

/// Reads one type, such as `i8`.
pub fn read_type<T: TokenSource>(
    alloc: Global,
    t: &mut T,
    room: u32,
) -> Result<ValueCst, SyntaxStop>
    ensures { Reads (values_within room) (piece one_type) (T.state t.old) result (T.state t.new) }
{
    value(alloc, t, room, ValueSort::AnyType)
}

/// Reads one attribute, which may be a type, such as `5` or `i8`.
pub fn read_attribute<T: TokenSource>(
    alloc: Global,
    t: &mut T,
    room: u32,
) -> Result<ValueCst, SyntaxStop>
    ensures { Reads (values_within room) (piece one_attr) (T.state t.old) result (T.state t.new) }
{
    value(alloc, t, room, ValueSort::Attribute)
}

/// Reads types in parentheses with commas between them, such as `(i8, i1)` or `()`.
pub fn read_types<T: TokenSource>(
    alloc: Global,
    t: &mut T,
    room: u32,
) -> Result<List<ValueCst>, SyntaxStop>
    ensures { Reads (values_within room) (piece some_types) (T.state t.old) result (T.state t.new) }
{
    types(alloc, t, room)
}

/// Reads the results of a function: types in parentheses, or one that doesn't begin with one.
pub fn read_results<T: TokenSource>(
    alloc: Global,
    t: &mut T,
    room: u32,
) -> Result<List<ValueCst>, SyntaxStop>
    ensures { Reads (values_within room) (piece results) (T.state t.old) result (T.state t.new) }
{
    outs(alloc, t, room)
}

/// Reads entries in braces with commas between them, such as `{a = 1, b}` or `{}`.
pub fn read_dictionary<T: TokenSource>(
    alloc: Global,
    t: &mut T,
    room: u32,
) -> Result<List<EntryCst>, SyntaxStop>
    ensures { Reads (values_within room) (piece dictionary) (T.state t.old) result (T.state t.new) }
{
    entries(alloc, t, room)
}

/// Reads a number without a type, `true` or `false`. No value stands in it.
pub fn read_item<T: TokenSource>(alloc: Global, t: &mut T) -> Result<ItemCst, SyntaxStop>
    ensures { (n : ℕ) → Reads (values_within n) (piece an_item)
        (T.state t.old) result (T.state t.new) }
{
    item(alloc, t)
}
