//! Runs the rows of `data/`, and prints each that differs and how many there are.
//!
//! A row is a run of the program over files and streams in memory, with the status and the bytes
//! that it has to answer. Each line of `rows.txt` is a row or the name of a drawn file; an empty
//! line, and one that begins with `#`, is neither.
//!
//! A row is `words ; plan ; status ; out ; err ; text`, and may have a second and a third text, each
//! behind one `;` more. The texts are those of the files `f.irdl`, `g.irdl` and `h.irdl`; where the
//! words are `verify` or `print`, the last text is that of `m.mlir`. In texts, and in what standard
//! output and standard error have to get, `\n` is a line feed and `\xHH` the byte of this number;
//! spaces at the ends don't count. The word `''` is the empty one. A plan has any of these items,
//! each behind a space:
//!
//! - `spaces=N`: so many spaces stand behind the first text;
//! - `call=N`: call number N of the files fails;
//! - `write=N`: write number N to standard error fails;
//! - `out=N`: standard output has to get so many bytes, of which the row has the first;
//! - `fronts`: the row is also run with each standard output and each standard error that has too
//!   little room for what it is to get. It gets as much as has room then, and the status is 5.
//!
//! The program is given the predicates that the tool is given.
//!
//! A drawn file is a definition file that is checked by its own name. Where it is refused, the
//! comment `//    ^ error CODE NAME` stands on the line below the token, with the caret below the
//! token's first byte. A line `// -----` parts such a file into several, each with its own lines.
//!
//! A drawn file whose name ends with `.mlir` has modules. The first line of each part is a comment
//! of the command, less the module's name: `// verify DEF..` or `// print generic DEF..`, with the
//! names of files of `data/`. A refusal is drawn as above; that of a token in the first two columns
//! can't be, so such lines are indented. What is to be printed stands behind a line `// ---->`.
//! Without one, the module is to be printed as it stands, less the lines that are comments.
#![tactic(auto)]

mod plan;
mod row;
mod trial;

use crate::row::Row;
use crate::trial::differs;
use anyhow::{Context, Result};
use native_predicate::{
    IsFloat, IsNonempty, IsPositive, IsSignless, IsStatic, IsType, NativePredicate, Natives,
};
use std::fs;

/// What stands between the parts of a drawn file.
const SEAM: &str = "// -----\n";

/// How many rows were run, and how many of them differ.
#[derive(Clone, Copy)]
struct Tally {
    rows: u64,
    differ: u64,
}

impl Tally {
    fn add(&mut self, differs: bool) {
        self.rows = self.rows.saturating_add(1);
        self.differ = self.differ.saturating_add(u64::from(differs));
    }
}

fn main(rt: HostRuntime) -> Result<()> {
    let alloc = rt.alloc();
    let mut list: Vec<Box<dyn NativePredicate>> = Vec::new(alloc);
    list.push(Box::new(alloc, IsType::new())?)?;
    list.push(Box::new(alloc, IsFloat::new())?)?;
    list.push(Box::new(alloc, IsSignless::new())?)?;
    list.push(Box::new(alloc, IsPositive::new())?)?;
    list.push(Box::new(alloc, IsNonempty::new())?)?;
    list.push(Box::new(alloc, IsStatic::new())?)?;
    let Tally { rows, differ } = run_rows(&rt, &Natives::new(list))?;
    println!(rt; "{rows} rows, {differ} differ")?;
    Ok(())
}

/// Runs all rows over a program that is given these predicates.
fn run_rows(rt: &HostRuntime, natives: &Natives) -> Result<Tally> {
    let list = fs::read_to_string(rt, "rows.txt").context("reading rows.txt")?;
    let mut tally = Tally { rows: 0, differ: 0 };
    for line in list.as_str().lines() {
        if line.contains(';') && !line.starts_with('#') {
            tally.add(differs(rt, natives, &Row::listed(rt.alloc(), line)?)?);
        } else if !line.is_empty() && !line.starts_with('#') {
            let file = fs::read_to_string(rt, line).context("reading a drawn file")?;
            for part in file.as_str().split(SEAM) {
                let row = Row::drawn(rt, line, part)?;
                tally.add(differs(rt, natives, &row)?);
            }
        }
    }
    Ok(tally)
}
