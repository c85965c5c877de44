//! Operations in generic form, and the regions and blocks in them. Each function reads the rule of
//! its name.
//!
//! Regions in the operation that is read may nest `room` deep; one deeper is refused at its bracket.

ghost use Rattle.std.specs.Prelude.{◌≡◌, [], IfOk};
ghost use Rattle.grammar.specs.Ran.{Reads};
ghost use Rattle.generic_syntax.specs.ModuleForms as forms;
ghost use Rattle.generic_syntax.specs.ModuleText.{modules_within, Begins};
ghost use Rattle.generic_syntax.specs.Modules as spec;
ghost use Rattle.generic_syntax.specs.Operations as operation;
ghost use Rattle.generic_syntax.specs.Operations.{no_customs};

use crate::module::names::{read_operands, read_result_names, read_successors};
use crate::module::parts::{
    read_attributes, read_block_arguments, read_properties, read_signature,
};
use crate::module_cst::{BlockCst, FormCst, GenericCst, OpCst, RegionCst};
use crate::name::read_name;
use crate::token::{read_string, too_deep};
use attr_value::List;
use grammar::{SyntaxStop, expect, is_class, refused};
use ir_lexer::{Class, TokenSource};
use std::alloc::{AllocError, Global};

// ---- operations

#[cycle(operations)]
pub fn ops<T: TokenSource>(alloc: Global, t: &mut T, room: u32) -> Result<List<OpCst>, SyntaxStop>
    ensures { Reads (modules_within no_customs room) (operation.ops no_customs)
        (T.state t.old) result (T.state t.new) }
{
    let mut found = List::new(alloc);
    'each: while begins_op(t) {
        found.push(op(alloc, t, room)?)?;
    }
    found.trim();
    Ok(found)
}

/// Whether an operation begins with the present token.
fn begins_op<T: TokenSource>(t: &T) -> bool
    ensures { result ≡ Begins (operation.op_with []) (T.state t.now).now }
{
    is_class(t, Class::ValueName) || is_class(t, Class::Str)
}

#[cycle(operations)]
fn op<T: TokenSource>(alloc: Global, t: &mut T, room: u32) -> Result<OpCst, SyntaxStop>
    ensures { Reads (modules_within no_customs room) (operation.op_with [])
        (T.state t.old) result (T.state t.new) }
{
    let results = read_result_names(alloc, t)?;
    let place = t.place();
    let form = generic(alloc, t, room)?;
    Ok(OpCst {
        place,
        results,
        form: FormCst::Generic(form),
    })
}

#[cycle(operations)]
fn generic<T: TokenSource>(alloc: Global, t: &mut T, room: u32) -> Result<GenericCst, SyntaxStop>
    ensures { Reads (modules_within no_customs room) operation.generic
        (T.state t.old) result (T.state t.new) }
{
    let name = read_string(alloc, t)?;
    let operands = read_operands(alloc, t)?;
    let successors = read_successors(alloc, t)?;
    let props = read_properties(alloc, t)?;
    let regions = regions(alloc, t, room)?;
    let attrs = read_attributes(alloc, t)?;
    let (inputs, outputs) = read_signature(alloc, t)?;
    Ok(GenericCst {
        name,
        operands,
        successors,
        props,
        regions,
        attrs,
        inputs,
        outputs,
    })
}

// ---- regions

#[cycle(operations)]
fn regions<T: TokenSource>(
    alloc: Global,
    t: &mut T,
    room: u32,
) -> Result<List<RegionCst>, SyntaxStop>
    ensures { Reads (modules_within no_customs room) operation.regions
        (T.state t.old) result (T.state t.new) }
{
    if !is_class(t, Class::LParen) {
        return Ok(List::new(alloc));
    }
    expect(t, Class::LParen)?;
    let found = some_regions(alloc, t, room)?;
    expect(t, Class::RParen)?;
    Ok(found)
}

#[cycle(operations)]
fn some_regions<T: TokenSource>(
    alloc: Global,
    t: &mut T,
    room: u32,
) -> Result<List<RegionCst>, SyntaxStop>
    ensures { Reads (modules_within no_customs room) (forms.list1 forms.inner_region)
        (T.state t.old) result (T.state t.new) }
{
    let mut found = List::new(alloc);
    found.push(inner_region(alloc, t, room)?)?;
    'each: while is_class(t, Class::Comma) {
        expect(t, Class::Comma)?;
        found.push(inner_region(alloc, t, room)?)?;
    }
    found.trim();
    Ok(found)
}

/// Reads a region that stands in an operation.
#[cycle(operations)]
fn inner_region<T: TokenSource>(
    alloc: Global,
    t: &mut T,
    room: u32,
) -> Result<RegionCst, SyntaxStop>
    ensures { Reads (modules_within no_customs room) forms.inner_region
        (T.state t.old) result (T.state t.new) }
{
    if room > 0 {
        return region(alloc, t, room - 1);
    }
    if is_class(t, Class::LBrace) {
        return Err(too_deep(t));
    }
    Err(refused(t))
}

#[cycle(operations)]
fn region<T: TokenSource>(alloc: Global, t: &mut T, room: u32) -> Result<RegionCst, SyntaxStop>
    ensures { Reads (modules_within no_customs room) (spec.region no_customs)
        (T.state t.old) result (T.state t.new) }
{
    let place = t.place();
    expect(t, Class::LBrace)?;
    let blocks = blocks(alloc, t, room)?;
    expect(t, Class::RBrace)?;
    Ok(RegionCst { place, blocks })
}

#[cycle(operations)]
fn blocks<T: TokenSource>(alloc: Global, t: &mut T, room: u32) -> Result<List<BlockCst>, SyntaxStop>
    ensures { Reads (modules_within no_customs room) (spec.blocks no_customs)
        (T.state t.old) result (T.state t.new) }
{
    let ops = ops(alloc, t, room)?;
    let mut found = unlabelled(alloc, ops)?;
    'each: while is_class(t, Class::BlockName) {
        found.push(block(alloc, t, room)?)?;
    }
    found.trim();
    Ok(found)
}

/// The block of the operations before the first label, or none.
fn unlabelled(alloc: Global, ops: List<OpCst>) -> Result<List<BlockCst>, AllocError>
    ensures { IfOk result (λ found. found ≡ spec.unlabelled ops) }
{
    let mut found = List::new(alloc);
    if ops.is_empty() {
        return Ok(found);
    }
    found.push(BlockCst {
        label: None,
        args: List::new(alloc),
        ops,
    })?;
    Ok(found)
}

#[cycle(operations)]
fn block<T: TokenSource>(alloc: Global, t: &mut T, room: u32) -> Result<BlockCst, SyntaxStop>
    ensures { Reads (modules_within no_customs room) (spec.block no_customs)
        (T.state t.old) result (T.state t.new) }
{
    let label = read_name(alloc, t, Class::BlockName)?;
    let args = read_block_arguments(alloc, t)?;
    expect(t, Class::Colon)?;
    let ops = ops(alloc, t, room)?;
    Ok(BlockCst {
        label: Some(label),
        args,
        ops,
    })
}
