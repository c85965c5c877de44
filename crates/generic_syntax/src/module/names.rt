//! Names of results, uses and blocks, and the numbers that stand beside them. Each function reads
//! the rule of its name, whatever reads regions.

ghost use Rattle.grammar.specs.Looks.{any_of, passes};
ghost use Rattle.grammar.specs.Ran.{Reads, Took};
ghost use Rattle.grammar.specs.Rules.{list};
ghost use Rattle.generic_syntax.specs.ModuleForms.{list1};
ghost use Rattle.generic_syntax.specs.ModuleText.{RegionReader, modules_by};
ghost use Rattle.generic_syntax.specs.Operations as spec;

use crate::cst::NameCst;
use crate::module_cst::{NumberCst, ResultCst, UseCst};
use crate::name::read_name;
use crate::text::name_text;
use crate::token::read_sign_name;
use attr_value::{List, Text};
use grammar::{SyntaxStop, expect, is_class};
use ir_lexer::{Class, TokenSource};
use std::alloc::Global;

// ---- results

/// Reads the names of an operation's results with their `=`, or nothing: `%0, %1:2 =`.
pub fn read_result_names<T: TokenSource>(
    alloc: Global,
    t: &mut T,
) -> Result<List<ResultCst>, SyntaxStop>
    ensures { (regions : RegionReader) → Reads (modules_by regions.read) spec.result_names
        (T.state t.old) result (T.state t.new) }
{
    if !is_class(t, Class::ValueName) {
        return Ok(List::new(alloc));
    }
    let found = some_results(alloc, t)?;
    expect(t, Class::Equal)?;
    Ok(found)
}

fn some_results<T: TokenSource>(alloc: Global, t: &mut T) -> Result<List<ResultCst>, SyntaxStop>
    ensures { (regions : RegionReader) → Reads (modules_by regions.read) (list1 spec.result_name)
        (T.state t.old) result (T.state t.new) }
{
    let mut found = List::new(alloc);
    found.push(result_name(alloc, t)?)?;
    'each: while is_class(t, Class::Comma) {
        expect(t, Class::Comma)?;
        found.push(result_name(alloc, t)?)?;
    }
    found.trim();
    Ok(found)
}

fn result_name<T: TokenSource>(alloc: Global, t: &mut T) -> Result<ResultCst, SyntaxStop>
    ensures { (regions : RegionReader) → Reads (modules_by regions.read) spec.result_name
        (T.state t.old) result (T.state t.new) }
{
    let place = t.place();
    let name = read_sign_name(alloc, t, Class::ValueName)?;
    let pack = pack(alloc, t)?;
    Ok(ResultCst { place, name, pack })
}

fn pack<T: TokenSource>(alloc: Global, t: &mut T) -> Result<Option<NumberCst>, SyntaxStop>
    ensures { (regions : RegionReader) → Reads (modules_by regions.read) spec.pack
        (T.state t.old) result (T.state t.new) }
{
    if !is_class(t, Class::Colon) {
        return Ok(None);
    }
    expect(t, Class::Colon)?;
    let size = pack_size(alloc, t)?;
    Ok(Some(size))
}

fn pack_size<T: TokenSource>(alloc: Global, t: &mut T) -> Result<NumberCst, SyntaxStop>
    ensures { Took (passes (any_of Class.Integer)) spec.size_of
        (T.state t.old) result (T.state t.new) }
{
    let place = t.place();
    let digits = Text::from_slice(alloc, t.text())?;
    expect(t, Class::Integer)?;
    Ok(NumberCst { place, digits })
}

// ---- uses

/// Reads uses in parentheses: `(%0, %1#1)`.
pub fn read_operands<T: TokenSource>(alloc: Global, t: &mut T) -> Result<List<UseCst>, SyntaxStop>
    ensures { (regions : RegionReader) → Reads (modules_by regions.read) spec.operands
        (T.state t.old) result (T.state t.new) }
{
    expect(t, Class::LParen)?;
    let found = read_uses(alloc, t)?;
    expect(t, Class::RParen)?;
    Ok(found)
}

/// Reads any number of uses with commas between them: `%0, %1#1`.
pub fn read_uses<T: TokenSource>(alloc: Global, t: &mut T) -> Result<List<UseCst>, SyntaxStop>
    ensures { (regions : RegionReader) → Reads (modules_by regions.read) (list spec.operand)
        (T.state t.old) result (T.state t.new) }
{
    if !is_class(t, Class::ValueName) {
        return Ok(List::new(alloc));
    }
    read_some_uses(alloc, t)
}

/// Reads one use or more, with commas between them.
pub fn read_some_uses<T: TokenSource>(alloc: Global, t: &mut T) -> Result<List<UseCst>, SyntaxStop>
    ensures { (regions : RegionReader) → Reads (modules_by regions.read) (list1 spec.operand)
        (T.state t.old) result (T.state t.new) }
{
    let mut found = List::new(alloc);
    found.push(read_operand(alloc, t)?)?;
    'each: while is_class(t, Class::Comma) {
        expect(t, Class::Comma)?;
        found.push(read_operand(alloc, t)?)?;
    }
    found.trim();
    Ok(found)
}

/// Reads one use: `%0`, or `%1#1` of a pack.
pub fn read_operand<T: TokenSource>(alloc: Global, t: &mut T) -> Result<UseCst, SyntaxStop>
    ensures { (regions : RegionReader) → Reads (modules_by regions.read) spec.operand
        (T.state t.old) result (T.state t.new) }
{
    let place = t.place();
    let name = read_sign_name(alloc, t, Class::ValueName)?;
    let number = use_number(alloc, t)?;
    Ok(UseCst {
        place,
        name,
        number,
    })
}

fn use_number<T: TokenSource>(alloc: Global, t: &mut T) -> Result<Option<NumberCst>, SyntaxStop>
    ensures { (regions : RegionReader) → Reads (modules_by regions.read) spec.use_number
        (T.state t.old) result (T.state t.new) }
{
    if !is_class(t, Class::ResultNumber) {
        return Ok(None);
    }
    let number = result_number(alloc, t)?;
    Ok(Some(number))
}

fn result_number<T: TokenSource>(alloc: Global, t: &mut T) -> Result<NumberCst, SyntaxStop>
    ensures { Took (passes (any_of Class.ResultNumber)) spec.number_of
        (T.state t.old) result (T.state t.new) }
{
    let place = t.place();
    let digits = name_text(alloc, t.text())?;
    expect(t, Class::ResultNumber)?;
    Ok(NumberCst { place, digits })
}

// ---- blocks

/// Reads names of blocks in square brackets, or nothing: `[^a, ^b]`.
pub fn read_successors<T: TokenSource>(
    alloc: Global,
    t: &mut T,
) -> Result<List<NameCst>, SyntaxStop>
    ensures { (regions : RegionReader) → Reads (modules_by regions.read) spec.successors
        (T.state t.old) result (T.state t.new) }
{
    if !is_class(t, Class::LSquare) {
        return Ok(List::new(alloc));
    }
    expect(t, Class::LSquare)?;
    let found = block_names(alloc, t)?;
    expect(t, Class::RSquare)?;
    Ok(found)
}

fn block_names<T: TokenSource>(alloc: Global, t: &mut T) -> Result<List<NameCst>, SyntaxStop>
    ensures { (regions : RegionReader) → Reads (modules_by regions.read) (list1 spec.block_name)
        (T.state t.old) result (T.state t.new) }
{
    let mut found = List::new(alloc);
    found.push(read_name(alloc, t, Class::BlockName)?)?;
    'each: while is_class(t, Class::Comma) {
        expect(t, Class::Comma)?;
        found.push(read_name(alloc, t, Class::BlockName)?)?;
    }
    found.trim();
    Ok(found)
}
