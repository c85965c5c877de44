//! The readers of types. Each function reads the rule of its name.

ghost use Rattle.grammar.specs.Ran.{Reads};
ghost use Rattle.generic_syntax.specs.Nested.{values_within};
ghost use Rattle.generic_syntax.specs.Values as spec;

use crate::cst::{ValueCst, ValueNode};
use crate::leaf::dims;
use crate::token::{
    ValueSort, begins_plain, is_dotted, is_type_word, is_undotted, read_sign_name, read_text,
};
use crate::value::lists::values;
use crate::value::value;
use attr_value::{List, ShapeKind};
use grammar::{SyntaxStop, expect, expect_word, is_class, is_word};
use ir_lexer::{Class, TokenSource};
use sqlite_items::Boxed;
use std::alloc::Global;

#[cycle(values)]
pub fn typ<T: TokenSource>(alloc: Global, t: &mut T, room: u32) -> Result<ValueCst, SyntaxStop>
    ensures { Reads (values_within room) spec.type (T.state t.old) result (T.state t.new) }
{
    let place = t.place();
    let node = type_node(alloc, t, room)?;
    Ok(ValueCst { place, node })
}

#[cycle(values)]
pub fn type_node<T: TokenSource>(
    alloc: Global,
    t: &mut T,
    room: u32,
) -> Result<ValueNode, SyntaxStop>
    ensures { Reads (values_within room) spec.type_node (T.state t.old) result (T.state t.new) }
{
    if begins_plain(t) {
        return plain_node(alloc, t, room);
    }
    function(alloc, t, room)
}

#[cycle(values)]
pub fn plain_node<T: TokenSource>(
    alloc: Global,
    t: &mut T,
    room: u32,
) -> Result<ValueNode, SyntaxStop>
    ensures { Reads (values_within room) spec.plain_node (T.state t.old) result (T.state t.new) }
{
    if is_type_word(t) {
        let word = read_text(alloc, t, Class::Word)?;
        return Ok(ValueNode::Word(word));
    }
    if is_undotted(t, Class::TypeName) {
        let name = read_sign_name(alloc, t, Class::TypeName)?;
        return Ok(ValueNode::TypeAlias(name));
    }
    if is_dotted(t, Class::TypeName) {
        let name = read_sign_name(alloc, t, Class::TypeName)?;
        let args = arguments(alloc, t, room)?;
        return Ok(ValueNode::Dialect {
            is_type: true,
            name,
            args,
        });
    }
    if is_word(t, b"tuple") {
        return tuple(alloc, t, room);
    }
    if is_word(t, b"complex") {
        return complex(alloc, t, room);
    }
    if is_word(t, b"vector") {
        return shaped(alloc, t, room, ShapeKind::Vector, b"vector");
    }
    if is_word(t, b"tensor") {
        return shaped(alloc, t, room, ShapeKind::Tensor, b"tensor");
    }
    shaped(alloc, t, room, ShapeKind::Memref, b"memref")
}

#[cycle(values)]
fn tuple<T: TokenSource>(alloc: Global, t: &mut T, room: u32) -> Result<ValueNode, SyntaxStop>
    ensures { Reads (values_within room) spec.tuple (T.state t.old) result (T.state t.new) }
{
    expect_word(t, b"tuple")?;
    expect(t, Class::Less)?;
    let items = values(alloc, t, room, ValueSort::AnyType)?;
    expect(t, Class::Greater)?;
    Ok(ValueNode::Tuple(items))
}

#[cycle(values)]
fn complex<T: TokenSource>(alloc: Global, t: &mut T, room: u32) -> Result<ValueNode, SyntaxStop>
    ensures { Reads (values_within room) spec.complex (T.state t.old) result (T.state t.new) }
{
    expect_word(t, b"complex")?;
    expect(t, Class::Less)?;
    let element = value(alloc, t, room, ValueSort::AnyType)?;
    expect(t, Class::Greater)?;
    let element = Boxed::new(alloc, element)?;
    Ok(ValueNode::Complex(element))
}

#[cycle(values)]
fn shaped<T: TokenSource>(
    alloc: Global,
    t: &mut T,
    room: u32,
    kind: ShapeKind,
    name: &[u8],
) -> Result<ValueNode, SyntaxStop>
    ensures { Reads (values_within room) (spec.shaped kind name.now)
        (T.state t.old) result (T.state t.new) }
{
    expect_word(t, name)?;
    expect(t, Class::Less)?;
    let dims = dims(alloc, t)?;
    let element = value(alloc, t, room, ValueSort::AnyType)?;
    expect(t, Class::Greater)?;
    let element = Boxed::new(alloc, element)?;
    Ok(ValueNode::Shaped {
        kind,
        dims,
        element,
    })
}

#[cycle(values)]
pub fn arguments<T: TokenSource>(
    alloc: Global,
    t: &mut T,
    room: u32,
) -> Result<List<ValueCst>, SyntaxStop>
    ensures { Reads (values_within room) spec.arguments (T.state t.old) result (T.state t.new) }
{
    if !is_class(t, Class::Less) {
        return Ok(List::new(alloc));
    }
    expect(t, Class::Less)?;
    let args = values(alloc, t, room, ValueSort::Attribute)?;
    expect(t, Class::Greater)?;
    Ok(args)
}

#[cycle(values)]
pub fn function<T: TokenSource>(
    alloc: Global,
    t: &mut T,
    room: u32,
) -> Result<ValueNode, SyntaxStop>
    ensures { Reads (values_within room) spec.function (T.state t.old) result (T.state t.new) }
{
    let inputs = types(alloc, t, room)?;
    expect(t, Class::Arrow)?;
    let outputs = outs(alloc, t, room)?;
    Ok(ValueNode::Function { inputs, outputs })
}

#[cycle(values)]
pub fn types<T: TokenSource>(
    alloc: Global,
    t: &mut T,
    room: u32,
) -> Result<List<ValueCst>, SyntaxStop>
    ensures { Reads (values_within room) spec.types (T.state t.old) result (T.state t.new) }
{
    expect(t, Class::LParen)?;
    let found = values(alloc, t, room, ValueSort::AnyType)?;
    expect(t, Class::RParen)?;
    Ok(found)
}

#[cycle(values)]
pub fn outs<T: TokenSource>(
    alloc: Global,
    t: &mut T,
    room: u32,
) -> Result<List<ValueCst>, SyntaxStop>
    ensures { Reads (values_within room) spec.outs (T.state t.old) result (T.state t.new) }
{
    if is_class(t, Class::LParen) {
        return types(alloc, t, room);
    }
    let mut found = List::new(alloc);
    found.push(value(alloc, t, room, ValueSort::PlainType)?)?;
    found.trim();
    Ok(found)
}
