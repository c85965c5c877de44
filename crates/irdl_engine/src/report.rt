//! The line that standard error gets.

ghost use Rattle.std.specs.Prelude.{◌≡◌, ◌<◌, ◌≤◌, ◌⊎◌, MatchOption, length};
ghost use Rattle.std.specs.List.{flat_map};
ghost use Rattle.irdl_bytes.specs.Outside.{Rose};
ghost use Rattle.irdl_engine.specs.Answer.{module_refused, name_line, output_limit_line};
ghost use Rattle.irdl_engine.specs.Answer.{refused, usage};
ghost use Rattle.irdl_engine.specs.InOrder.{text_at};
ghost use Rattle.irdl_engine.specs.Said.{said, said_of_module, IsModuleWithin, IsWithin};
ghost use Rattle.irdl_engine.specs.Words.{texts};
ghost use Rattle.irdl_engine.specs.Writes.{Says, change};

use crate::module_code::{code_name, code_text};
use crate::status::Status;
use crate::stop::{ModuleRefusal, ModuleStop, Refusal, Stop};
use irdl_bytes::Sink;
use itoa::Buffer;
use text_layout::{write_pieces, write_refusal};

/// The line for words that fit no form.
const USAGE: &str = "usage: irdl_opt check DEF.. | verify MODULE DEF.. \
    | print generic MODULE DEF.. | print custom MODULE DEF.. | soak N\n";

/// The line for a text that is too long.
const OUTPUT_LIMIT: &str = "output limit\n";

/// Writes a line, and answers with this status or with a write fault.
fn say<S: Sink>(err: &mut S, status: Status, pieces: &[&[u8]]) -> Status
    ensures says { Says status (flat_map (λ p. p.now) pieces.now) result
        (change (S.written err.old) (S.written err.new)) }
    ensures fault { result ≡ Status.WriteFault →
        (status ≡ Status.WriteFault) ⊎ Rose (S.faults err.old) (S.faults err.new) }
    ensures later { S.faults err.old ≤ S.faults err.new }
{
    match write_pieces(err, pieces) {
        Ok(()) => status,
        Err(_) => Status::WriteFault,
    }
}

/// Writes the usage line.
pub fn report_usage<S: Sink>(err: &mut S) -> Status
    ensures says { Says usage.status usage.err result
        (change (S.written err.old) (S.written err.new)) }
    ensures fault { result ≡ Status.WriteFault → Rose (S.faults err.old) (S.faults err.new) }
    ensures later { S.faults err.old ≤ S.faults err.new }
{
    say(err, Status::Usage, &[USAGE.as_bytes()])
}

/// The name of the file with this number.
fn name_of<'a>(names: &[&'a str], file: usize) -> &'a str
    requires { file < length names.now }
    ensures { result.now ≡ text_at (texts names.now) file }
{
    names[file]
}

/// Writes the line of a stop over files of these names, if it has one. Else nothing can fail.
pub fn report<S: Sink>(err: &mut S, names: &[&str], stop: &Stop) -> Status
    requires { IsWithin (length names.now) stop.now }
    ensures says { MatchOption (said (texts names.now) stop.now)
        ((result ≡ Status.OutOfMemory) × (S.written err.new ≡ S.written err.old))
        (λ a. Says a.status a.err result (change (S.written err.old) (S.written err.new))) }
    ensures fault { result ≡ Status.WriteFault → Rose (S.faults err.old) (S.faults err.new) }
    ensures later { S.faults err.old ≤ S.faults err.new }
{
    match stop {
        Stop::Unreadable(file) => {
            report_name(
                err,
                Status::ReadFault,
                "read fault: ",
                name_of(names, *file),
            )
        }
        Stop::TooLong(file) => {
            report_name(
                err,
                Status::InputLimit,
                "input limit: ",
                name_of(names, *file),
            )
        }
        Stop::Refused(refusal) => report_refusal(err, name_of(names, refusal.file), refusal),
        Stop::OutOfMemory => Status::OutOfMemory,
    }
}

/// Writes the line of a stop over a module file of this name and definition files of these.
pub fn report_module<S: Sink>(err: &mut S, name: &str, defs: &[&str], stop: &ModuleStop) -> Status
    requires { IsModuleWithin (length defs.now) stop.now }
    ensures says { MatchOption (said_of_module name.now (texts defs.now) stop.now)
        ((result ≡ Status.OutOfMemory) × (S.written err.new ≡ S.written err.old))
        (λ a. Says a.status a.err result (change (S.written err.old) (S.written err.new))) }
    ensures fault { result ≡ Status.WriteFault → Rose (S.faults err.old) (S.faults err.new) }
    ensures later { S.faults err.old ≤ S.faults err.new }
{
    match stop {
        ModuleStop::Definitions(stop) => report(err, defs, stop),
        ModuleStop::Module(stop) => report(err, &[name], stop),
        ModuleStop::Fault(refusal) => report_fault(err, name, refusal),
    }
}

/// Writes the line of a refusal in a module file of this name.
fn report_fault<S: Sink>(err: &mut S, name: &str, refusal: &ModuleRefusal) -> Status
    ensures says { let a = module_refused name.now refusal.now.place refusal.now.code in
        Says a.status a.err result (change (S.written err.old) (S.written err.new)) }
    ensures fault { result ≡ Status.WriteFault → Rose (S.faults err.old) (S.faults err.new) }
    ensures later { S.faults err.old ≤ S.faults err.new }
{
    match write_refusal(
        err,
        name,
        refusal.place,
        code_text(refusal.code),
        code_name(refusal.code),
        &[],
    ) {
        Ok(()) => Status::ModuleRefused,
        Err(_) => Status::WriteFault,
    }
}

/// Writes the line for a text that is too long.
pub fn report_output_limit<S: Sink>(err: &mut S) -> Status
    ensures says { Says Status.OutputLimit output_limit_line result
        (change (S.written err.old) (S.written err.new)) }
    ensures fault { result ≡ Status.WriteFault → Rose (S.faults err.old) (S.faults err.new) }
    ensures later { S.faults err.old ≤ S.faults err.new }
{
    say(err, Status::OutputLimit, &[OUTPUT_LIMIT.as_bytes()])
}

/// Writes a title and a name.
fn report_name<S: Sink>(err: &mut S, status: Status, title: &str, name: &str) -> Status
    ensures says { Says status (name_line title.now name.now) result
        (change (S.written err.old) (S.written err.new)) }
    ensures fault { result ≡ Status.WriteFault →
        (status ≡ Status.WriteFault) ⊎ Rose (S.faults err.old) (S.faults err.new) }
    ensures later { S.faults err.old ≤ S.faults err.new }
{
    say(
        err,
        status,
        &[title.as_bytes(), name.as_bytes(), "\n".as_bytes()],
    )
}

/// Writes the line of a refusal in a file of this name.
fn report_refusal<S: Sink>(err: &mut S, name: &str, refusal: &Refusal) -> Status
    ensures says { let a = refused name.now refusal.now.place refusal.now.code
        refusal.now.told.items in
        Says a.status a.err result (change (S.written err.old) (S.written err.new)) }
    ensures fault { result ≡ Status.WriteFault → Rose (S.faults err.old) (S.faults err.new) }
    ensures later { S.faults err.old ≤ S.faults err.new }
{
    let mut number = Buffer::new();
    let code = number.format(refusal.code.number());
    match write_refusal(
        err,
        name,
        refusal.place,
        code,
        refusal.code.name(),
        &refusal.told,
    ) {
        Ok(()) => Status::DefinitionRefused,
        Err(_) => Status::WriteFault,
    }
}
