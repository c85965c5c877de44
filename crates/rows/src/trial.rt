//! What the program answers to a row.

use crate::row::Row;
use anyhow::Result;
use irdl_bytes::{MemFiles, MemSink};
use irdl_engine::run;
use native_predicate::Natives;
use std::alloc::Global;

/// How many bytes standard error takes where no fault is planned.
const ROOM: usize = 4096;

/// The status of a fault while a line is written.
const WRITE_FAULT: u8 = 5;

/// How many bytes of what differs are printed.
const SHOWN: usize = 2048;

/// How many bytes the streams of a run take, and what has to be answered then.
#[derive(Clone, Copy)]
struct Trial<'a> {
    out_room: usize,
    err_room: usize,
    status: u8,
    /// The first bytes of what standard output has to get.
    out: &'a [u8],
    err: &'a [u8],
}

/// Runs a row, and says whether an answer differs from it. What differs is printed.
pub fn differs(rt: &HostRuntime, natives: &Natives, row: &Row<'_>) -> Result<bool> {
    let whole = Trial {
        out_room: row.out_length(),
        err_room: ROOM,
        status: row.status,
        out: &row.out,
        err: &row.err,
    };
    let mut any = run_differs(rt, natives, row, &whole)?;
    if row.plan.fronts {
        for room in 0..row.out.len() {
            any |= run_differs(rt, natives, row, &Trial::short_out(row, room))?;
        }
        for room in 0..row.err.len() {
            any |= run_differs(rt, natives, row, &Trial::short_err(row, room))?;
        }
    }
    Ok(any)
}

impl<'a> Trial<'a> {
    /// Standard output takes so many bytes, which are too few.
    fn short_out(row: &'a Row<'_>, room: usize) -> Trial<'a> {
        Trial {
            out_room: room,
            err_room: ROOM,
            status: WRITE_FAULT,
            out: row.out.get(..room).unwrap_or(&[]),
            err: &[],
        }
    }

    /// Standard error takes so many bytes, which are too few.
    fn short_err(row: &'a Row<'_>, room: usize) -> Trial<'a> {
        Trial {
            out_room: row.out_length(),
            err_room: room,
            status: WRITE_FAULT,
            out: &row.out,
            err: row.err.get(..room).unwrap_or(&[]),
        }
    }
}

/// The same of one run.
fn run_differs(
    rt: &HostRuntime,
    natives: &Natives,
    row: &Row<'_>,
    trial: &Trial<'_>,
) -> Result<bool> {
    let got = run_row(rt.alloc(), natives, row, trial)?;
    if got.status == trial.status
        && got.out.len() == trial.out_room
        && got.out.starts_with(trial.out)
        && got.err.as_slice() == trial.err
    {
        return Ok(false);
    }
    println!(rt;
        "differs, where the streams take {} and {} bytes: {}",
        trial.out_room, trial.err_room, row.title
    )?;
    println!(rt;
        "  expected {}, out {}, err {}",
        trial.status,
        trial.out.escape_ascii(),
        trial.err.escape_ascii()
    )?;
    println!(rt;
        "  got {}, {} bytes, out {}, err {}",
        got.status,
        got.out.len(),
        got.out.get(..SHOWN).unwrap_or(&got.out).escape_ascii(),
        got.err.escape_ascii()
    )?;
    Ok(true)
}

/// A status, with what standard output and standard error got.
#[derive(Drop)]
struct Answer {
    status: u8,
    out: Vec<u8>,
    err: Vec<u8>,
}

/// What the program answers to a row where the streams take so many bytes.
fn run_row(alloc: Global, natives: &Natives, row: &Row<'_>, trial: &Trial<'_>) -> Result<Answer> {
    let mut files = MemFiles::new(alloc);
    for file in &row.files {
        files.add(file.name, &file.text)?;
    }
    files.fail_call(row.plan.call)?;
    let mut out = MemSink::new(alloc, trial.out_room)?;
    let mut err = MemSink::new(alloc, ROOM)?;
    err.fail_call(row.plan.write)?;
    err.fail_after(trial.err_room as u64);
    let status = run(alloc, &row.words, natives, &mut files, &mut out, &mut err);
    Ok(Answer {
        status: status.number(),
        out: out.bytes().to_vec(alloc)?,
        err: err.bytes().to_vec(alloc)?,
    })
}
