//! The readers of lists, of values and of entries.

ghost use Rattle.grammar.specs.Ran.{Reads};
ghost use Rattle.grammar.specs.Rules.{list};
ghost use Rattle.generic_syntax.specs.Sorts.{sort_of};
ghost use Rattle.generic_syntax.specs.Nested.{values_within};
ghost use Rattle.generic_syntax.specs.Values as spec;

use crate::cst::{EntryCst, ValueCst};
use crate::token::{ValueSort, begins, begins_entry};
use crate::value::attribute_forms::entry;
use crate::value::value;
use attr_value::List;
use grammar::{SyntaxStop, expect, is_class};
use ir_lexer::{Class, TokenSource};
use std::alloc::Global;

#[cycle(values)]
pub fn values<T: TokenSource>(
    alloc: Global,
    t: &mut T,
    room: u32,
    sort: ValueSort,
) -> Result<List<ValueCst>, SyntaxStop>
    ensures { Reads (values_within room) (list (spec.inner (sort_of sort)))
        (T.state t.old) result (T.state t.new) }
{
    if !begins(t, sort) {
        return Ok(List::new(alloc));
    }
    some_values(alloc, t, room, sort)
}

#[cycle(values)]
fn some_values<T: TokenSource>(
    alloc: Global,
    t: &mut T,
    room: u32,
    sort: ValueSort,
) -> Result<List<ValueCst>, SyntaxStop>
    ensures { Reads (values_within room) (spec.list1 (spec.inner (sort_of sort)))
        (T.state t.old) result (T.state t.new) }
{
    let mut found = List::new(alloc);
    found.push(value(alloc, t, room, sort)?)?;
    'each: while is_class(t, Class::Comma) {
        expect(t, Class::Comma)?;
        found.push(value(alloc, t, room, sort)?)?;
    }
    found.trim();
    Ok(found)
}

#[cycle(values)]
pub fn entry_list<T: TokenSource>(
    alloc: Global,
    t: &mut T,
    room: u32,
) -> Result<List<EntryCst>, SyntaxStop>
    ensures { Reads (values_within room) (list spec.entry) (T.state t.old) result (T.state t.new) }
{
    if !begins_entry(t) {
        return Ok(List::new(alloc));
    }
    some_entries(alloc, t, room)
}

#[cycle(values)]
fn some_entries<T: TokenSource>(
    alloc: Global,
    t: &mut T,
    room: u32,
) -> Result<List<EntryCst>, SyntaxStop>
    ensures { Reads (values_within room) (spec.list1 spec.entry)
        (T.state t.old) result (T.state t.new) }
{
    let mut found = List::new(alloc);
    found.push(entry(alloc, t, room)?)?;
    'each: while is_class(t, Class::Comma) {
        expect(t, Class::Comma)?;
        found.push(entry(alloc, t, room)?)?;
    }
    found.trim();
    Ok(found)
}
