//! The judgement of a module file.

ghost use Rattle.std.specs.Prelude.{◌≡◌, ◌≤◌, IfErr, IfOk, IfSome, length};
ghost use Rattle.derived_printer.specs.Printable.{IsPrintable};
ghost use Rattle.dialect_registry.specs.Registered.{IsSound};
ghost use Rattle.elaborate.specs.Elaborated.{loaded_of};
ghost use Rattle.irdl_bytes.specs.Outside.{FaultsByItself, Rose};
ghost use Rattle.irdl_bytes.specs.declared.whole.TheConstants.{FILE_LIMIT};
ghost use Rattle.irdl_engine.specs.Judged.{predicates};
ghost use Rattle.irdl_engine.specs.Modules.{Denotes, IsReadBack};
ghost use Rattle.irdl_engine.specs.ModuleTexts.{DenotedBy, HasModule, IsFileStop, IsTextStop};
ghost use Rattle.irdl_engine.specs.ModuleTexts.{MayStopModule};
ghost use Rattle.irdl_engine.specs.Obeyed.{files_seen};
ghost use Rattle.irdl_engine.specs.Said.{IsModuleUnreadable, IsModuleWithin, said_of_module};
ghost use Rattle.irdl_engine.specs.Words as words;
ghost use Rattle.module_meaning.specs.SeenModules.{seen_module};
ghost use Rattle.native_predicate.specs.Lists.{count, names, tests};

use crate::definition_files::load_files;
use crate::module_reading::read_module_text;
use crate::stop::{ModuleRefusal, ModuleStop, Stop};
use crate::texts::read_text;
use attr_uniquer::Uniquer;
use dialect_registry::Registry;
use elaborate::ModStop;
use ir_lexer::line_col;
use ir_store::Store;
use irdl_bytes::Files;
use native_predicate::Natives;
use std::alloc::Global;

/// The module that a text denotes, or the refusal of the text.
fn judge_text(
    alloc: Global,
    registry: &Registry,
    natives: &Natives,
    u: &mut Uniquer,
    text: &[u8],
) -> Result<Store, ModuleStop>
    requires short { length text.now ≤ FILE_LIMIT }
    requires sound { IsSound (length u.old) (count natives.now) registry.now }
    ensures denoted { IfOk result (λ store.
        Denotes (loaded_of u.old (tests property natives.now) registry.now) text.now
        (seen_module registry.now.ops u.new store)) }
    ensures printable { IfOk result (IsPrintable registry.now.ops u.new) }
    ensures read_back { IfOk result (λ store.
        IsReadBack (loaded_of u.old (tests property natives.now) registry.now)
        (seen_module registry.now.ops u.new store)) }
    ensures stopped { IfErr result
        (IsTextStop (loaded_of u.old (tests property natives.now) registry.now) text.now) }
{
    match read_module_text(alloc, registry, natives, u, text) {
        Ok(store) => Ok(store),
        Err(ModStop::Refused(fault)) => {
            Err(ModuleStop::Fault(ModuleRefusal {
                place: line_col(text, fault.place),
                code: fault.code,
            }))
        }
        Err(ModStop::OutOfMemory) => Err(ModuleStop::Module(Stop::OutOfMemory)),
    }
}

/// Reads a module file and judges it: the module that it denotes, or why there is none.
fn judge_file<F: Files>(
    alloc: Global,
    registry: &Registry,
    natives: &Natives,
    files: &mut F,
    name: &str,
    u: &mut Uniquer,
) -> Result<Store, ModuleStop>
    requires { IsSound (length u.old) (count natives.now) registry.now }
    ensures denoted { IfOk result (λ store. IfSome (F.file_map files.old)
        (HasModule (loaded_of u.old (tests property natives.now) registry.now) name.now
        (seen_module registry.now.ops u.new store))) }
    ensures printable { IfOk result (IsPrintable registry.now.ops u.new) }
    ensures stopped { IfErr result
        (IsFileStop (files_seen F.file_map F.steady F.faults files.old files.new)
        (loaded_of u.old (tests property natives.now) registry.now) name.now) }
    ensures later { F.faults files.old ≤ F.faults files.new }
{
    let text = match read_text(alloc, files, 0, name) {
        Ok(text) => text,
        Err(stop) => return Err(ModuleStop::Module(stop)),
    };
    judge_text(alloc, registry, natives, u, &text)
}

/// Reads and judges definition files, and then a module file: what the files define and the module
/// that the module file denotes, or why there is none.
pub fn judge_module<F: Files>(
    alloc: Global,
    natives: &Natives,
    files: &mut F,
    name: &str,
    defs: &[&str],
    u: &mut Uniquer,
) -> Result<(Registry, Store), ModuleStop>
    ensures denoted { IfOk result (λ judged. IfSome (F.file_map files.old) (λ m.
        DenotedBy (predicates (names title natives.now) (tests property natives.now)) m
        (words.texts defs.now) name.now judged.0.ops
        (seen_module judged.0.ops u.new judged.1))) }
    ensures printable { IfOk result (λ judged. IsPrintable judged.0.ops u.new judged.1) }
    ensures stopped { IfErr result (λ stop. IfSome (F.file_map files.old) (λ m.
        IfSome (said_of_module name.now (words.texts defs.now) stop)
        (MayStopModule (predicates (names title natives.now) (tests property natives.now)) m
        (FaultsByItself (F.steady files.old) (F.faults files.old) (F.faults files.new))
        name.now (words.texts defs.now)))) }
    ensures read_fault { IfErr result (λ stop. IsModuleUnreadable stop →
        Rose (F.faults files.old) (F.faults files.new)) }
    ensures within { IfErr result (IsModuleWithin (length defs.now)) }
{
    match load_files(alloc, natives, files, defs, u) {
        Ok(registry) => match judge_file(alloc, &registry, natives, files, name, u) {
            Ok(store) => Ok((registry, store)),
            Err(stop) => Err(stop),
        },
        Err(stop) => Err(ModuleStop::Definitions(stop)),
    }
}
