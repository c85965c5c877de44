//! The readers of values that may hold others. Each function reads the rule of its name.
//!
//! Values that stand in the one that is read may nest `room` deep; one deeper is refused, at the
//! token that begins it.

mod attribute_forms;
mod lists;
mod type_forms;

ghost use Rattle.grammar.specs.Ran.{Reads};
ghost use Rattle.generic_syntax.specs.Sorts.{sort_of};
ghost use Rattle.generic_syntax.specs.Nested.{values_within};
ghost use Rattle.generic_syntax.specs.Values as spec;

use crate::cst::{ValueCst, ValueNode};
use crate::token::{ValueSort, begins, too_deep};
use attribute_forms::any_node;
pub use attribute_forms::entries;
use grammar::{SyntaxStop, refused};
use ir_lexer::TokenSource;
use std::alloc::Global;
pub use type_forms::{outs, types};
use type_forms::{plain_node, type_node};

/// Reads a value that stands in another.
#[cycle(values)]
pub fn value<T: TokenSource>(
    alloc: Global,
    t: &mut T,
    room: u32,
    sort: ValueSort,
) -> Result<ValueCst, SyntaxStop>
    ensures { Reads (values_within room) (spec.inner (sort_of sort))
        (T.state t.old) result (T.state t.new) }
{
    if room > 0 {
        let place = t.place();
        let node = node(alloc, t, room - 1, sort)?;
        return Ok(ValueCst { place, node });
    }
    if begins(t, sort) {
        return Err(too_deep(t));
    }
    Err(refused(t))
}

/// It is called and not copied into `value`, so that what is read is moved whole.
#[inline(never)]
#[cycle(values)]
fn node<T: TokenSource>(
    alloc: Global,
    t: &mut T,
    room: u32,
    sort: ValueSort,
) -> Result<ValueNode, SyntaxStop>
    ensures { Reads (values_within room) (spec.forms (sort_of sort))
        (T.state t.old) result (T.state t.new) }
{
    match sort {
        ValueSort::AnyType => type_node(alloc, t, room),
        ValueSort::PlainType => plain_node(alloc, t, room),
        ValueSort::Attribute => any_node(alloc, t, room),
    }
}
