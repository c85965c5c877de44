//! The one call that does all that the program does.

ghost use Rattle.std.specs.Prelude.{◌≡◌, ◌≢◌, ◌⊎◌, false, List, None, IsTrue, IfSome};
ghost use Rattle.std.specs.Io.KnownBytes.{Keeps};
ghost use Rattle.derived_printer.specs.declared.form.Form.{Form};
ghost use Rattle.ir_lexer.specs.Spelling.{Text};
ghost use Rattle.irdl_bytes.specs.Outside.{Rose, FaultsByItself};
ghost use Rattle.irdl_engine.specs.Command.{command_of, printed_by};
ghost use Rattle.irdl_engine.specs.Answer.{Answer, Obeys, Accepted, IsDenoted, module_of, usage};
ghost use Rattle.irdl_engine.specs.Judged.{predicates};
ghost use Rattle.irdl_engine.specs.Modules.{canonical_text, Denotes, IsLoadedFrom};
ghost use Rattle.irdl_engine.specs.Obeyed.{Obeyed, files_seen, sink_seen, writes_out};
ghost use Rattle.irdl_engine.specs.ReadBack.{IsPrinted};
ghost use Rattle.irdl_engine.specs.Words.{texts};
ghost use Rattle.irdl_engine.specs.Writes.{MayGive, Says, change};
ghost use Rattle.module_meaning.specs.WholeModules.{Loaded, WholeModule};
ghost use Rattle.module_text.specs.WellFormed.{IsStorable};
ghost use Rattle.native_predicate.specs.Lists.{names, tests};

use crate::check::check;
use crate::command::{Command, read_command};
use crate::print::{print_module, verify};
use crate::report::report_usage;
use crate::status::Status;
use irdl_bytes::{Files, Sink};
use native_predicate::Natives;
use std::alloc::Global;

// As `run`, without what follows from it.
#[tactic(auto, using(crate::proofs::Given::giving))]
fn obey<F: Files, O: Sink, E: Sink>(
    alloc: Global,
    words: &[&str],
    natives: &Natives,
    files: &mut F,
    out: &mut O,
    err: &mut E,
) -> Status
    ensures { Obeyed (predicates (names title natives.now) (tests property natives.now))
        (command_of (texts words.now)) result
        (files_seen F.file_map F.steady F.faults files.old files.new)
        (sink_seen O.written O.faults out.old out.new)
        (sink_seen E.written E.faults err.old err.new) }
{
    match read_command(words) {
        None => report_usage(err),
        Some(Command::Check(defs)) => check(alloc, defs, natives, files, out, err),
        Some(Command::Verify(name, defs)) => verify(alloc, name, defs, natives, files, out, err),
        Some(Command::Print(form, name, defs)) => {
            print_module(alloc, form, name, defs, natives, files, out, err)
        }
    }
}

/// Does what the words ask for, and writes what is to be written.
///
/// The words are those behind the program's name, and the predicates those that definitions may
/// name. Standard output is `out`, standard error `err`.
#[tactic(auto, using(crate::proofs::Whole::whole))]
pub fn run<F: Files, O: Sink, E: Sink>(
    alloc: Global,
    words: &[&str],
    natives: &Natives,
    files: &mut F,
    out: &mut O,
    err: &mut E,
) -> Status
    // What is answered and written, for files that tell their bytes.
    ensures planned { IfSome (F.file_map files.old) (λ m.
        MayGive (predicates (names title natives.now) (tests property natives.now)) m
        (FaultsByItself (F.steady files.old) (F.faults files.old) (F.faults files.new))
        (command_of (texts words.now)) result
        (change (O.written out.old) (O.written out.new))
        (change (E.written err.old) (E.written err.new))) }

    // The words, the predicates and the bytes told leave no choice of what is to be answered.
    ensures single { IfSome (F.file_map files.old) (λ m. (a b : Answer) →
        let known = predicates (names title natives.now) (tests property natives.now) in
        Obeys known m (command_of (texts words.now)) a →
        Obeys known m (command_of (texts words.now)) b → a ≡ b) }

    // A module is accepted exactly where its file's bytes denote one by accepted definition files:
    // where all is well they do, and where they do neither is refused.
    ensures denoted { IfSome (F.file_map files.old) (λ m.
        module_of (command_of (texts words.now)) ≢ None → result ≡ Status.Done →
        IsDenoted (predicates (names title natives.now) (tests property natives.now)) m
        (command_of (texts words.now))) }
    ensures refused { IfSome (F.file_map files.old) (λ m.
        (result ≡ Status.DefinitionRefused) ⊎ (result ≡ Status.ModuleRefused) →
        IsDenoted (predicates (names title natives.now) (tests property natives.now)) m
        (command_of (texts words.now)) → ⊥) }

    // No bytes denote two modules, whatever table holds the constants of the definitions.
    ensures one_module { (defs : List Text) (loaded other : Loaded) →
        let known = predicates (names title natives.now) (tests property natives.now) in
        IsLoadedFrom known defs loaded → IsLoadedFrom known defs other →
        (bytes : Text) (m n : WholeModule) → Denotes loaded bytes m → Denotes other bytes n →
        m ≡ n }

    // What is printed of a module is its canonical text, which denotes the same module. So does the
    // canonical text of each module that any bytes denote, if it can be stored.
    ensures reads_back { IfSome (F.file_map files.old) (λ m.
        printed_by (command_of (texts words.now)) ≢ None → result ≡ Status.Done →
        IsPrinted (predicates (names title natives.now) (tests property natives.now)) m
        (command_of (texts words.now)) (change (O.written out.old) (O.written out.new))) }

    ensures canonical { (defs : List Text) (loaded : Loaded) →
        IsLoadedFrom (predicates (names title natives.now) (tests property natives.now)) defs
        loaded →
        (form : Form) (bytes : Text) (m : WholeModule) → Denotes loaded bytes m →
        IsStorable m → Denotes loaded (canonical_text form loaded.ops m) m }

    // Told or not, the usage line is written exactly for words that are no command.
    ensures no_command { command_of (texts words.now) ≡ None →
        Says usage.status usage.err result (change (E.written err.old) (E.written err.new)) }
    ensures usage { result ≡ Status.Usage → command_of (texts words.now) ≡ None }

    // A fault is answered only where one was counted in this call.
    ensures read_fault { result ≡ Status.ReadFault →
        Rose (F.faults files.old) (F.faults files.new) }
    ensures write_fault { result ≡ Status.WriteFault →
        Rose (O.faults out.old) (O.faults out.new) ⊎ Rose (E.faults err.old) (E.faults err.new) }

    // Accepted files are accepted, unless reading them failed or memory ran out. Where nothing is
    // printed no stream's fault matters; else none may be counted.
    ensures complete { IfSome (F.file_map files.old) (λ m.
        Accepted (predicates (names title natives.now) (tests property natives.now)) m
        (command_of (texts words.now)) →
        IsTrue (F.steady files.old) ⊎ ¬ Rose (F.faults files.old) (F.faults files.new) →
        (printed_by (command_of (texts words.now)) ≡ None) ⊎
        (¬ Rose (O.faults out.old) (O.faults out.new)
        × ¬ Rose (E.faults err.old) (E.faults err.new)) →
        (result ≡ Status.Done) ⊎ (result ≡ Status.OutOfMemory)) }

    // Standard output gets nothing and isn't tried, but where a module is printed: by `print`, with
    // no other status than 0, 5, 6 or 8.
    ensures silent { writes_out (command_of (texts words.now)) result ≡ false →
        Keeps (O.written out.old) (O.written out.new) }
    ensures untouched { writes_out (command_of (texts words.now)) result ≡ false →
        O.faults out.new ≡ O.faults out.old }
{
    obey(alloc, words, natives, files, out, err)
}
