//! Does one kind of work many times, so that it can be timed, and prints how much came of it. Before
//! that, `values` tells the time of the reading alone, `meanings` that of the judgement alone, and
//! `print` that of the printing.
//!
//! usage: bench_calls WORK COUNT     WORK is one of intern, solve, choices, lex, layout, values,
//! meanings, print, doubled, store, names
#![tactic(auto)]

use anyhow::{Context, Result, bail};
use std::env;

mod intern;
mod layout;
mod meanings;
mod names;
mod print;
mod solve;
mod store;
mod values;

fn main(rt: HostRuntime) -> Result<()> {
    let words: Vec<String> = env::args(&rt)?.skip(1).collect(rt.alloc())?;
    let [work, count] = words.as_slice() else {
        bail!(
            "usage: bench_calls (intern | solve | choices | lex | layout | values | meanings | print | doubled | store | names) COUNT"
        );
    };
    let count: u32 = count.as_str().parse().context("COUNT is no number")?;
    let made = match work.as_str() {
        "intern" => intern::intern_values(rt.alloc(), count)?,
        "solve" => solve::solve_pick(rt.alloc(), count)?,
        "choices" => solve::walk_choices(rt.alloc(), count)?,
        "lex" => layout::lex_operations(rt.alloc(), count)?,
        "layout" => layout::lay_operations(rt.alloc(), count)?,
        "values" => values::read_values(rt, count)?,
        "meanings" => meanings::judge_values(rt, count)?,
        "print" => print::print_attributes(rt, count)?,
        "doubled" => print::print_doubled(rt.alloc(), count)?,
        "store" => store::verify_module(rt.alloc(), count)?,
        "names" => names::note_names(rt.alloc(), count)?,
        _ => bail!("no such work"),
    };
    println!(rt; "{made}")?;
    Ok(())
}
