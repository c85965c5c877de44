//! Reads, judges and prints the values of `data/values.txt`, and prints each that differs and how
//! many there are.
//!
//! A line is one of these; spaces round `;` don't count. An empty line, and one that begins with
//! `//`, is none.
//!
//! - `TEXT ; CANONICAL`: the text has a value, which is printed as `CANONICAL`, and that is read as
//!   the same value again.
//! - `TEXT ; ! PLACE RULE`: the text is refused at this place, in bytes from 0. `Syntax`, `Float`,
//!   `Bad` and `Nesting` are the reader's rules, and `M` with a number is a rule of values. What
//!   stands behind a value is refused as syntax.
//! - `alias NAME ; TEXT`: the lines behind know an alias, `!NAME` of a type or `#NAME` of any value,
//!   in the place of an earlier one.
//!
//! The definitions are the type `d.t` without parameters, the type `d.pair` with two of any kind,
//! and the attribute `d.num` with a number. No predicates are handed in.
#![tactic(auto)]

ghost use Rattle.std.specs.Prelude.{IfOk, IfSome};
ghost use Rattle.constraint_solver.specs.Definitions.{AreSoundDefs};
ghost use Rattle.derived_printer.specs.Spellable.{HaveFullNames};

mod definitions;
mod desk;
mod outcome;
mod row;

use crate::definitions::definitions;
use crate::desk::Desk;
use crate::outcome::differs;
use crate::row::Row;
use anyhow::{Context, Result, bail};
use constraint_solver::are_sound_defs;
use derived_printer::have_full_names;
use std::alloc::Global;
use std::fs;
use value_meaning::{Definitions, have_distinct_names};

/// How many lines were tried, and how many of them differ.
#[derive(Clone, Copy)]
struct Tally {
    values: u64,
    differ: u64,
}

impl Tally {
    fn add(&mut self, differs: bool) {
        self.values = self.values.saturating_add(1);
        self.differ = self.differ.saturating_add(u64::from(differs));
    }
}

/// Tries each line of a list.
fn try_lines(rt: &HostRuntime, types: &Definitions, list: &str) -> Result<Tally>
    requires sound { AreSoundDefs 0 0 types.now }
    requires names { HaveFullNames types.now }
{
    let mut desk = Desk::new(rt.alloc());
    let mut tally = Tally {
        values: 0,
        differ: 0,
    };
    for line in list.lines() {
        if let Some(row) = Row::of_line(line)? {
            tally.add(differs(rt, types, &mut desk, row)?);
        }
    }
    Ok(tally)
}

/// The definitions that lines may name, where they are what `try_lines` asks for.
fn known_types(alloc: Global) -> Result<Option<Definitions>>
    ensures sound { IfOk result (λ found. IfSome found (AreSoundDefs 0 0)) }
    ensures names { IfOk result (λ found. IfSome found HaveFullNames) }
{
    let list = definitions(alloc)?;
    let types = list.as_slice();
    if !are_sound_defs(types, 0, 0) || !have_full_names(types) {
        return Ok(None);
    }
    if !have_distinct_names(alloc, types)? {
        return Ok(None);
    }
    Ok(Some(Definitions::of(alloc, list)?))
}

fn main(rt: HostRuntime) -> Result<()> {
    let list = fs::read_to_string(&rt, "values.txt").context("reading values.txt")?;
    let Some(types) = known_types(rt.alloc())? else {
        bail!("the definitions aren't sound");
    };
    let Tally { values, differ } = try_lines(&rt, &types, list.as_str())?;
    println!(rt; "{values} values, {differ} differ")?;
    Ok(())
}
