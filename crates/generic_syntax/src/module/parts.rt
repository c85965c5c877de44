//! What stands beside the names and regions of modules: dictionaries, signatures, arguments of
//! blocks, and aliases. Each function reads the rule of its name, whatever reads regions.

ghost use Rattle.std.specs.Prelude.{◌≡◌, ◌≢◌};
ghost use Rattle.grammar.specs.Looks.{undotted, passes};
ghost use Rattle.grammar.specs.Ran.{Reads, Took};
ghost use Rattle.grammar.specs.Rules.{list};
ghost use Rattle.ir_lexer.specs.Names as names;
ghost use Rattle.generic_syntax.specs.ModuleForms.{list1};
ghost use Rattle.generic_syntax.specs.ModuleText.{RegionReader, modules_by, Begins};
ghost use Rattle.generic_syntax.specs.Modules as spec;
ghost use Rattle.generic_syntax.specs.Operations as operation;

use crate::cst::{EntryCst, ValueCst};
use crate::module_cst::{AliasCst, ArgCst};
use crate::pieces::{ROOM, read_attribute, read_dictionary, read_results, read_type, read_types};
use crate::token::{is_undotted, read_sign_name};
use attr_value::{List, Text};
use grammar::{SyntaxStop, expect, is_class, refused};
use ir_lexer::{Class, TokenSource};
use std::alloc::Global;

// ---- parts of operations

/// Reads the properties of an operation, or nothing: `<{a = 1}>`.
pub fn read_properties<T: TokenSource>(
    alloc: Global,
    t: &mut T,
) -> Result<List<EntryCst>, SyntaxStop>
    ensures { (regions : RegionReader) → Reads (modules_by regions.read) operation.properties
        (T.state t.old) result (T.state t.new) }
{
    if !is_class(t, Class::Less) {
        return Ok(List::new(alloc));
    }
    expect(t, Class::Less)?;
    let found = read_dictionary(alloc, t, ROOM)?;
    expect(t, Class::Greater)?;
    Ok(found)
}

/// Reads the dictionary of an operation, or nothing: `{a = 1}`.
pub fn read_attributes<T: TokenSource>(
    alloc: Global,
    t: &mut T,
) -> Result<List<EntryCst>, SyntaxStop>
    ensures { (regions : RegionReader) → Reads (modules_by regions.read) operation.attributes
        (T.state t.old) result (T.state t.new) }
{
    if !is_class(t, Class::LBrace) {
        return Ok(List::new(alloc));
    }
    read_dictionary(alloc, t, ROOM)
}

/// Reads the types of an operation's operands and results: `: (i8) -> i1`.
pub fn read_signature<T: TokenSource>(
    alloc: Global,
    t: &mut T,
) -> Result<(List<ValueCst>, List<ValueCst>), SyntaxStop>
    ensures { (regions : RegionReader) → Reads (modules_by regions.read) operation.signature
        (T.state t.old) result (T.state t.new) }
{
    expect(t, Class::Colon)?;
    let inputs = read_types(alloc, t, ROOM)?;
    expect(t, Class::Arrow)?;
    let outputs = read_results(alloc, t, ROOM)?;
    Ok((inputs, outputs))
}

// ---- arguments of blocks

/// Reads the arguments of a block in parentheses, or nothing: `(%0 : i8)`.
pub fn read_block_arguments<T: TokenSource>(
    alloc: Global,
    t: &mut T,
) -> Result<List<ArgCst>, SyntaxStop>
    ensures { (regions : RegionReader) → Reads (modules_by regions.read) spec.block_arguments
        (T.state t.old) result (T.state t.new) }
{
    if !is_class(t, Class::LParen) {
        return Ok(List::new(alloc));
    }
    expect(t, Class::LParen)?;
    let found = argument_list(alloc, t)?;
    expect(t, Class::RParen)?;
    Ok(found)
}

fn argument_list<T: TokenSource>(alloc: Global, t: &mut T) -> Result<List<ArgCst>, SyntaxStop>
    ensures { (regions : RegionReader) → Reads (modules_by regions.read) (list spec.argument)
        (T.state t.old) result (T.state t.new) }
{
    if !is_class(t, Class::ValueName) {
        return Ok(List::new(alloc));
    }
    some_arguments(alloc, t)
}

fn some_arguments<T: TokenSource>(alloc: Global, t: &mut T) -> Result<List<ArgCst>, SyntaxStop>
    ensures { (regions : RegionReader) → Reads (modules_by regions.read) (list1 spec.argument)
        (T.state t.old) result (T.state t.new) }
{
    let mut found = List::new(alloc);
    found.push(argument(alloc, t)?)?;
    'each: while is_class(t, Class::Comma) {
        expect(t, Class::Comma)?;
        found.push(argument(alloc, t)?)?;
    }
    found.trim();
    Ok(found)
}

fn argument<T: TokenSource>(alloc: Global, t: &mut T) -> Result<ArgCst, SyntaxStop>
    ensures { (regions : RegionReader) → Reads (modules_by regions.read) spec.argument
        (T.state t.old) result (T.state t.new) }
{
    let place = t.place();
    let name = read_sign_name(alloc, t, Class::ValueName)?;
    expect(t, Class::Colon)?;
    let ty = read_type(alloc, t, ROOM)?;
    Ok(ArgCst { place, name, ty })
}

// ---- aliases

/// Reads any number of definitions of aliases: `!a = i8  #b = 5`.
pub fn read_aliases<T: TokenSource>(alloc: Global, t: &mut T) -> Result<List<AliasCst>, SyntaxStop>
    ensures { (regions : RegionReader) → Reads (modules_by regions.read) spec.aliases
        (T.state t.old) result (T.state t.new) }
{
    let mut found = List::new(alloc);
    'each: while begins_alias(t) {
        found.push(alias(alloc, t)?)?;
    }
    found.trim();
    Ok(found)
}

/// Whether an alias begins with the present token.
fn begins_alias<T: TokenSource>(t: &T) -> bool
    ensures { result ≡ Begins spec.alias (T.state t.now).now }
{
    is_undotted(t, Class::TypeName) || is_undotted(t, Class::AttrName)
}

fn alias<T: TokenSource>(alloc: Global, t: &mut T) -> Result<AliasCst, SyntaxStop>
    ensures { (regions : RegionReader) → Reads (modules_by regions.read) spec.alias
        (T.state t.old) result (T.state t.new) }
{
    if is_undotted(t, Class::TypeName) {
        return type_alias(alloc, t);
    }
    attr_alias(alloc, t)
}

fn type_alias<T: TokenSource>(alloc: Global, t: &mut T) -> Result<AliasCst, SyntaxStop>
    ensures { (regions : RegionReader) → Reads (modules_by regions.read) spec.type_alias
        (T.state t.old) result (T.state t.new) }
{
    let place = t.place();
    let name = alias_name(alloc, t, Class::TypeName)?;
    expect(t, Class::Equal)?;
    let value = read_type(alloc, t, ROOM)?;
    Ok(AliasCst {
        place,
        is_type: true,
        name,
        value,
    })
}

fn attr_alias<T: TokenSource>(alloc: Global, t: &mut T) -> Result<AliasCst, SyntaxStop>
    ensures { (regions : RegionReader) → Reads (modules_by regions.read) spec.attr_alias
        (T.state t.old) result (T.state t.new) }
{
    let place = t.place();
    let name = alias_name(alloc, t, Class::AttrName)?;
    expect(t, Class::Equal)?;
    let value = read_attribute(alloc, t, ROOM)?;
    Ok(AliasCst {
        place,
        is_type: false,
        name,
        value,
    })
}

/// Takes a name of this class in which no dot stands, without its sign.
fn alias_name<T: TokenSource>(alloc: Global, t: &mut T, kind: Class) -> Result<Text, SyntaxStop>
    requires { kind ≢ Class.End }
    ensures { Took (passes (undotted kind)) (λ t. names.name_bytes t.text)
        (T.state t.old) result (T.state t.new) }
{
    if !is_undotted(t, kind) {
        return Err(refused(t));
    }
    read_sign_name(alloc, t, kind)
}
