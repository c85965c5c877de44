//! The readers of attributes. Each function reads the rule of its name.

ghost use Rattle.grammar.specs.Ran.{Reads};
ghost use Rattle.generic_syntax.specs.Nested.{values_within};
ghost use Rattle.generic_syntax.specs.Values as spec;

use crate::cst::{EntryCst, ValueCst, ValueNode};
use crate::leaf::{dense, key, sign, symbol};
use crate::token::{
    ValueSort, begins_number, begins_plain, is_attr_word, is_dotted, is_undotted, read_sign_name,
    read_string, read_text,
};
use crate::value::lists::{entry_list, values};
use crate::value::type_forms::{arguments, function, plain_node, typ};
use crate::value::value;
use attr_value::List;
use grammar::{SyntaxStop, expect, is_class};
use ir_lexer::{Class, TokenSource};
use sqlite_items::Boxed;
use std::alloc::Global;

#[cycle(values)]
pub fn any_node<T: TokenSource>(
    alloc: Global,
    t: &mut T,
    room: u32,
) -> Result<ValueNode, SyntaxStop>
    ensures { Reads (values_within room) spec.any_node (T.state t.old) result (T.state t.new) }
{
    if begins_plain(t) {
        return plain_node(alloc, t, room);
    }
    if is_class(t, Class::LParen) {
        return function(alloc, t, room);
    }
    attr_node(alloc, t, room)
}

#[cycle(values)]
fn attr_node<T: TokenSource>(alloc: Global, t: &mut T, room: u32) -> Result<ValueNode, SyntaxStop>
    ensures { Reads (values_within room) spec.attr_node (T.state t.old) result (T.state t.new) }
{
    if is_attr_word(t) {
        let word = read_text(alloc, t, Class::Word)?;
        return Ok(ValueNode::Word(word));
    }
    if is_class(t, Class::Str) {
        let bytes = read_string(alloc, t)?;
        return Ok(ValueNode::Str(bytes));
    }
    if is_class(t, Class::SymbolName) {
        return symbol(alloc, t);
    }
    if begins_number(t) {
        return number(alloc, t, room);
    }
    if is_class(t, Class::LSquare) {
        return array(alloc, t, room);
    }
    if is_class(t, Class::LBrace) {
        return dict(alloc, t, room);
    }
    if is_undotted(t, Class::AttrName) {
        let name = read_sign_name(alloc, t, Class::AttrName)?;
        return Ok(ValueNode::AttrAlias(name));
    }
    if is_dotted(t, Class::AttrName) {
        let name = read_sign_name(alloc, t, Class::AttrName)?;
        let args = arguments(alloc, t, room)?;
        return Ok(ValueNode::Dialect {
            is_type: false,
            name,
            args,
        });
    }
    dense(alloc, t)
}

#[cycle(values)]
fn number<T: TokenSource>(alloc: Global, t: &mut T, room: u32) -> Result<ValueNode, SyntaxStop>
    ensures { Reads (values_within room) spec.number (T.state t.old) result (T.state t.new) }
{
    let negative = sign(t)?;
    let digits = read_text(alloc, t, Class::Integer)?;
    let ty = type_behind(alloc, t, room)?;
    Ok(ValueNode::Number {
        negative,
        digits,
        ty,
    })
}

#[cycle(values)]
fn type_behind<T: TokenSource>(
    alloc: Global,
    t: &mut T,
    room: u32,
) -> Result<Option<Boxed<ValueCst>>, SyntaxStop>
    ensures { Reads (values_within room) spec.type_behind (T.state t.old) result (T.state t.new) }
{
    if !is_class(t, Class::Colon) {
        return Ok(None);
    }
    expect(t, Class::Colon)?;
    let ty = typ(alloc, t, room)?;
    let ty = Boxed::new(alloc, ty)?;
    Ok(Some(ty))
}

#[cycle(values)]
fn array<T: TokenSource>(alloc: Global, t: &mut T, room: u32) -> Result<ValueNode, SyntaxStop>
    ensures { Reads (values_within room) spec.array (T.state t.old) result (T.state t.new) }
{
    expect(t, Class::LSquare)?;
    let items = values(alloc, t, room, ValueSort::Attribute)?;
    expect(t, Class::RSquare)?;
    Ok(ValueNode::Array(items))
}

#[cycle(values)]
fn dict<T: TokenSource>(alloc: Global, t: &mut T, room: u32) -> Result<ValueNode, SyntaxStop>
    ensures { Reads (values_within room) spec.dict (T.state t.old) result (T.state t.new) }
{
    let found = entries(alloc, t, room)?;
    Ok(ValueNode::Dict(found))
}

#[cycle(values)]
pub fn entries<T: TokenSource>(
    alloc: Global,
    t: &mut T,
    room: u32,
) -> Result<List<EntryCst>, SyntaxStop>
    ensures { Reads (values_within room) spec.entries (T.state t.old) result (T.state t.new) }
{
    expect(t, Class::LBrace)?;
    let found = entry_list(alloc, t, room)?;
    expect(t, Class::RBrace)?;
    Ok(found)
}

#[cycle(values)]
pub fn entry<T: TokenSource>(alloc: Global, t: &mut T, room: u32) -> Result<EntryCst, SyntaxStop>
    ensures { Reads (values_within room) spec.entry (T.state t.old) result (T.state t.new) }
{
    let place = t.place();
    let key = key(alloc, t, room)?;
    let value = value_behind(alloc, t, room)?;
    Ok(EntryCst { place, key, value })
}

#[cycle(values)]
fn value_behind<T: TokenSource>(
    alloc: Global,
    t: &mut T,
    room: u32,
) -> Result<Option<ValueCst>, SyntaxStop>
    ensures { Reads (values_within room) spec.value_behind (T.state t.old) result (T.state t.new) }
{
    if !is_class(t, Class::Equal) {
        return Ok(None);
    }
    expect(t, Class::Equal)?;
    let value = value(alloc, t, room, ValueSort::Attribute)?;
    Ok(Some(value))
}
