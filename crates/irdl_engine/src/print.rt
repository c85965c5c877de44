//! The commands `verify` and `print`.

ghost use Rattle.std.specs.Prelude.{◌≡◌, Some};
ghost use Rattle.derived_printer.specs.Printable.{IsPrintable};
ghost use Rattle.irdl_engine.specs.Answer.{printed};
ghost use Rattle.irdl_engine.specs.Command as spec;
ghost use Rattle.irdl_engine.specs.Judged.{predicates};
ghost use Rattle.irdl_engine.specs.Modules.{canonical_text};
ghost use Rattle.irdl_engine.specs.Obeyed.{Obeyed, files_seen, sink_seen};
ghost use Rattle.irdl_engine.specs.Printed.{GivesPrinted};
ghost use Rattle.irdl_engine.specs.Words.{texts};
ghost use Rattle.module_meaning.specs.SeenModules.{seen_module};
ghost use Rattle.native_predicate.specs.Lists.{names, tests};
ghost use Rattle.text_layout.specs.Moment.{Wrote};

use crate::module_file::judge_module;
use crate::report::{report_module, report_output_limit};
use crate::status::Status;
use attr_uniquer::Uniquer;
use derived_printer::{Form, print};
use dialect_registry::Registry;
use ir_store::Store;
use irdl_bytes::{Files, Sink};
use native_predicate::Natives;
use std::alloc::Global;
use text_layout::{Layout, PrintError};

/// Reads definition files and a module file, judges them, and writes what is to be written.
#[tactic(auto, using(crate::proofs::Given::giving))]
pub fn verify<F: Files, O: Sink, E: Sink>(
    alloc: Global,
    name: &str,
    defs: &[&str],
    natives: &Natives,
    files: &mut F,
    out: &mut O,
    err: &mut E,
) -> Status
    ensures { Obeyed (predicates (names title natives.now) (tests property natives.now))
        (Some (spec.Verify name.now (texts defs.now))) result
        (files_seen F.file_map F.steady F.faults files.old files.new)
        (sink_seen O.written O.faults out.old out.new)
        (sink_seen E.written E.faults err.old err.new) }
{
    let mut u = Uniquer::new(alloc);
    match judge_module(alloc, natives, files, name, defs, &mut u) {
        Ok(_) => Status::Done,
        Err(stop) => report_module(err, name, defs, &stop),
    }
}

/// Writes the canonical text of a module, up to the limit.
fn lay_module<O: Sink>(
    alloc: Global,
    registry: &Registry,
    u: &Uniquer,
    store: &Store,
    form: Form,
    out: &mut O,
) -> Result<(), PrintError>
    requires { IsPrintable registry.now.ops u.now store.now }
    ensures { Wrote (O.written out.old) (O.faults out.old)
        (canonical_text form registry.now.ops (seen_module registry.now.ops u.now store.now))
        result (O.written out.new) (O.faults out.new) }
{
    let mut layout = Layout::new(alloc, out);
    // An error is answered again by `end`.
    let _ = print(alloc, registry.ops(), u, store, form, &mut layout);
    layout.end()
}

/// Writes the canonical text of a module, and a line where it is too long.
fn write_module<O: Sink, E: Sink>(
    alloc: Global,
    registry: &Registry,
    u: &Uniquer,
    store: &Store,
    form: Form,
    out: &mut O,
    err: &mut E,
) -> Status
    requires { IsPrintable registry.now.ops u.now store.now }
    ensures { GivesPrinted (printed (canonical_text form registry.now.ops
        (seen_module registry.now.ops u.now store.now))) result
        (sink_seen O.written O.faults out.old out.new)
        (sink_seen E.written E.faults err.old err.new) }
{
    match lay_module(alloc, registry, u, store, form, out) {
        Ok(()) => Status::Done,
        Err(PrintError::WriteFault) => Status::WriteFault,
        Err(PrintError::OutputLimit) => report_output_limit(err),
        Err(PrintError::OutOfMemory) => Status::OutOfMemory,
    }
}

/// As `verify`, and writes the module in a form.
#[tactic(auto, using(crate::proofs::Given::giving))]
pub fn print_module<F: Files, O: Sink, E: Sink>(
    alloc: Global,
    form: Form,
    name: &str,
    defs: &[&str],
    natives: &Natives,
    files: &mut F,
    out: &mut O,
    err: &mut E,
) -> Status
    ensures { Obeyed (predicates (names title natives.now) (tests property natives.now))
        (Some (spec.Print form name.now (texts defs.now))) result
        (files_seen F.file_map F.steady F.faults files.old files.new)
        (sink_seen O.written O.faults out.old out.new)
        (sink_seen E.written E.faults err.old err.new) }
{
    let mut u = Uniquer::new(alloc);
    match judge_module(alloc, natives, files, name, defs, &mut u) {
        Ok((registry, store)) => write_module(alloc, &registry, &u, &store, form, out, err),
        Err(stop) => report_module(err, name, defs, &stop),
    }
}
