//! Values, printed into memory.

ghost use Rattle.std.specs.Prelude.{◌≡◌, [], ◌<◌, length, IfOk, IfSome};
ghost use Rattle.attr_value.specs.Ids.{at};
ghost use Rattle.derived_printer.specs.Spellable.{Spellable};
ghost use Rattle.value_meaning.specs.AliasTable.{AreGoodAliases};

use crate::values::{attributes, read_tree};
use anyhow::{Context, Result};
use attr_uniquer::Uniquer;
use attr_value::{Text, ValueId};
use derived_printer::print_value;
use irdl_bytes::MemSink;
use native_predicate::Natives;
use std::alloc::{AllocError, Global};
use std::time::Instant;
use text_layout::{Layout, PrintError};
use value_meaning::{Aliases, Definitions, define_alias, value_in};

/// The most bytes of a text.
const TEXT_LIMIT: usize = 16_777_216;

/// How often a value is printed.
const TIMES: u32 = 8;

/// The index of no definitions.
fn nothing_defined(alloc: Global) -> Result<Definitions, AllocError>
    ensures { IfOk result (λ types. types ≡ []) }
{
    Definitions::of(alloc, Vec::new(alloc))
}

/// The value of a text that is kept, where it has one. Nothing is defined.
fn value_of(alloc: Global, u: &mut Uniquer, types: &Definitions, src: &[u8]) -> Option<ValueId>
    requires none { types.now ≡ [] }
    ensures known { IfSome result (λ id. id.0 < length u.new) }
    ensures spellable { IfSome result (λ id. Spellable (at u.new id.0)) }
{
    let tree = read_tree(alloc, src)?;
    let natives = Natives::new(Vec::new(alloc));
    let aliases = Aliases::new(alloc);
    value_in(alloc, u, types, &natives, &tree, &aliases).ok()
}

/// The value of a text, of which the alias `!a` is made. Nothing is defined.
fn name_value(
    alloc: Global,
    u: &mut Uniquer,
    types: &Definitions,
    aliases: &mut Aliases,
    src: &[u8],
) -> Option<ValueId>
    requires none { types.now ≡ [] }
    requires good { AreGoodAliases u.old [] [] aliases.old }
    ensures good { AreGoodAliases u.new [] [] aliases.new }
    ensures known { IfSome result (λ id. id.0 < length u.new) }
    ensures spellable { IfSome result (λ id. Spellable (at u.new id.0)) }
{
    let tree = read_tree(alloc, src)?;
    let name = Text::from_slice(alloc, b"a").ok()?;
    let natives = Natives::new(Vec::new(alloc));
    define_alias(alloc, u, types, &natives, &tree, true, name, aliases).ok()
}

/// Prints a value, up to the limit of a text. How many bytes it has there.
fn print_into(alloc: Global, u: &Uniquer, id: ValueId) -> Result<usize>
    requires known { id.0 < length u.now }
    requires spellable { Spellable (at u.now id.0) }
{
    let mut sink = MemSink::new(alloc, TEXT_LIMIT)?;
    let mut layout = Layout::new(alloc, &mut sink);
    let printed = print_value(alloc, u, id, &mut layout);
    let ended = layout.end();
    match printed.and(ended) {
        Ok(()) | Err(PrintError::OutputLimit) => Ok(sink.bytes().len()),
        Err(stop) => Err(stop.into()),
    }
}

/// Prints a value many times. A line tells the time of one.
fn print_often(rt: &HostRuntime, u: &Uniquer, id: ValueId) -> Result<usize>
    requires known { id.0 < length u.now }
    requires spellable { Spellable (at u.now id.0) }
{
    let start = Instant::now(rt)?;
    let mut bytes = 0;
    for _ in 0..TIMES {
        bytes = print_into(rt.alloc(), u, id)?;
    }
    let took = Instant::now(rt)?.duration_since(start).as_micros();
    println!(rt;
        "{} microseconds of printing once",
        took / u128::from(TIMES)
    )?;
    Ok(bytes)
}

/// The bytes of an array of so many groups of attributes, printed.
pub(crate) fn print_attributes(rt: HostRuntime, count: u32) -> Result<usize> {
    let text = attributes(rt.alloc(), count)?;
    let mut u = Uniquer::new(rt.alloc());
    let types = nothing_defined(rt.alloc())?;
    let id = value_of(rt.alloc(), &mut u, &types, text.as_slice()).context("no value")?;
    print_often(&rt, &u, id)
}

/// The bytes of the last of so many aliases, each a tuple of the one before twice, up to the limit
/// of a text.
pub(crate) fn print_doubled(alloc: Global, count: u32) -> Result<usize> {
    let mut u = Uniquer::new(alloc);
    let types = nothing_defined(alloc)?;
    let mut aliases = Aliases::new(alloc);
    let mut last = name_value(alloc, &mut u, &types, &mut aliases, b"i8").context("no value")?;
    'each: for _ in 0..count {
        last = name_value(alloc, &mut u, &types, &mut aliases, b"tuple<!a, !a>").context(
            "no value",
        )?;
    }
    print_into(alloc, &u, last)
}
