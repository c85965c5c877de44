//! The command `check`.

ghost use Rattle.std.specs.Prelude.{Some};
ghost use Rattle.irdl_engine.specs.Command as spec;
ghost use Rattle.irdl_engine.specs.Judged.{predicates};
ghost use Rattle.irdl_engine.specs.Obeyed.{Obeyed, files_seen, sink_seen};
ghost use Rattle.irdl_engine.specs.Words.{texts};
ghost use Rattle.native_predicate.specs.Lists.{names, tests};

use crate::definition_files::load_files;
use crate::report::report;
use crate::status::Status;
use attr_uniquer::Uniquer;
use irdl_bytes::{Files, Sink};
use native_predicate::Natives;
use std::alloc::Global;

/// Reads definition files, judges them, and writes what is to be written.
#[tactic(auto, using(crate::proofs::Given::giving))]
pub fn check<F: Files, O: Sink, E: Sink>(
    alloc: Global,
    defs: &[&str],
    natives: &Natives,
    files: &mut F,
    out: &mut O,
    err: &mut E,
) -> Status
    ensures { Obeyed (predicates (names title natives.now) (tests property natives.now))
        (Some (spec.Check (texts defs.now))) result
        (files_seen F.file_map F.steady F.faults files.old files.new)
        (sink_seen O.written O.faults out.old out.new)
        (sink_seen E.written E.faults err.old err.new) }
{
    let mut u = Uniquer::new(alloc);
    match load_files(alloc, natives, files, defs, &mut u) {
        Ok(_) => Status::Done,
        Err(stop) => report(err, defs, &stop),
    }
}
