//! Values of dialects' types, judged beside many definitions.

ghost use Rattle.constraint_solver.specs.Definitions.{AreSoundDefs};

use crate::names::spell;
use crate::values::read_tree;
use anyhow::{Result, bail};
use attr_uniquer::Uniquer;
use attr_value::{List, Text};
use constraint_solver::are_sound_defs;
use dialect_defs::{Body, TypeDef};
use generic_syntax::ValueCst;
use native_predicate::Natives;
use std::alloc::{AllocError, Global};
use std::time::Instant;
use value_meaning::{Aliases, Definitions, have_distinct_names, value_in};

/// How many values are judged.
const VALUES: u32 = 100_000;

/// So many types without parameters.
fn definitions(alloc: Global, count: u32) -> Result<Vec<TypeDef>, AllocError> {
    let mut types = Vec::new(alloc);
    let mut own = Vec::new(alloc);
    for number in 0..count {
        spell(&mut own, number)?;
        let mut name = Vec::from_slice(alloc, b"d.")?;
        name.extend_from_slice(own.as_slice())?;
        types.push(TypeDef {
            is_type: true,
            name: Text::from_vec(alloc, name)?,
            body: Body {
                vars: List::new(alloc),
            },
            params: List::new(alloc),
        })?;
    }
    Ok(types)
}

/// An array of types, of which the first `count` numbers are named in turn.
fn mentions(alloc: Global, count: u32) -> Result<Vec<u8>, AllocError> {
    let mut text = Vec::from_slice(alloc, b"[")?;
    let mut own = Vec::new(alloc);
    for n in 0..VALUES {
        if n > 0 {
            text.extend_from_slice(b", ")?;
        }
        spell(&mut own, if count > 0 { n % count } else { n })?;
        text.extend_from_slice(b"!d.")?;
        text.extend_from_slice(own.as_slice())?;
    }
    text.push(b']')?;
    Ok(text)
}

/// The definitions of so many types, with their index.
fn indexed(alloc: Global, count: u32) -> Result<Definitions> {
    let list = definitions(alloc, count)?;
    if !have_distinct_names(alloc, list.as_slice())? {
        bail!("a type is defined twice");
    }
    Ok(Definitions::of(alloc, list)?)
}

/// The values of a tree, judged by definitions that name no value and no predicate.
fn judged(alloc: Global, types: &Definitions, tree: &ValueCst) -> Result<Uniquer>
    requires defs { AreSoundDefs 0 0 types.now }
{
    let mut u = Uniquer::new(alloc);
    let natives = Natives::new(Vec::new(alloc));
    let aliases = Aliases::new(alloc);
    match value_in(alloc, &mut u, types, &natives, tree, &aliases) {
        Ok(_) => Ok(u),
        Err(_) => bail!("the value is refused"),
    }
}

/// The same, with a line that tells the time.
fn timed(rt: HostRuntime, types: &Definitions, tree: &ValueCst) -> Result<usize> {
    if !are_sound_defs(types.types(), 0, 0) {
        bail!("a definition isn't sound");
    }
    let start = Instant::now(&rt)?;
    let u = judged(rt.alloc(), types, tree)?;
    let took = Instant::now(&rt)?.duration_since(start).as_micros();
    println!(rt; "{took} microseconds of judging")?;
    Ok(u.len())
}

/// How many values an array of types has in it, with itself, beside so many definitions. The tree
/// and the definitions are made before the clock starts.
pub(crate) fn judge_values(rt: HostRuntime, count: u32) -> Result<usize> {
    let types = indexed(rt.alloc(), count)?;
    let text = mentions(rt.alloc(), count)?;
    match read_tree(rt.alloc(), text.as_slice()) {
        Some(tree) => timed(rt, &types, &tree),
        None => bail!("the text is no value"),
    }
}
