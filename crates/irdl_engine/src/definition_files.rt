//! The judgement of definition files, and what they define.

ghost use Rattle.std.specs.Prelude.{◌≡◌, ◌<◌, ◌≤◌, Err, IfOk, IfErr, IfSome, IsTrue, length};
ghost use Rattle.dialect_registry.specs.Loaded.{AreLoaded};
ghost use Rattle.dialect_registry.specs.Registered.{IsSound};
ghost use Rattle.dialect_registry.specs.Details as told;
ghost use Rattle.irdl_bytes.specs.Outside.{Rose, FaultsByItself};
ghost use Rattle.irdl_engine.specs.Answer.{IsLoadedOf};
ghost use Rattle.irdl_engine.specs.Judged.{predicates, SpellFiles};
ghost use Rattle.irdl_engine.specs.InOrder.{text_at};
ghost use Rattle.irdl_engine.specs.Modules.{IsLoadedFrom, loaded_as};
ghost use Rattle.irdl_engine.specs.Said.{bytes_of, said, AreShort, StandsAt, IsVerdict};
ghost use Rattle.irdl_engine.specs.Said.{IsWithin, IsUnreadable, MayStopLoading};
ghost use Rattle.irdl_engine.specs.Words as words;
ghost use Rattle.native_predicate.specs.Lists.{count, names, tests};

use crate::stop::{Refusal, Stop};
use crate::texts::read_texts;
use crate::trees::{read_trees, refusal_at};
use attr_uniquer::Uniquer;
use dialect_registry::{DefCode, DefRefusal, DefStop, Registry, detail, load};
use irdl_bytes::Files;
use irdl_ops::RawDefs;
use native_predicate::Natives;
use std::alloc::{AllocError, Global};

/// What was found by this rule in one of the texts, with its line, its column and its detail.
fn refusal_in(
    alloc: Global,
    texts: &[Vec<u8>],
    found: &DefRefusal,
    code: DefCode,
) -> Result<Refusal, AllocError>
    requires short { AreShort (bytes_of texts.now) }
    requires there { found.now.file < length texts.now }
    ensures stands { IfOk result (λ r.
        StandsAt (text_at (bytes_of texts.now) found.now.file) r found.now.place) }
    ensures in_file { IfOk result (λ r. r.file ≡ found.now.file) }
    ensures rule { IfOk result (λ r. r.code ≡ code) }
    ensures told { IfOk result (λ r. r.told.items ≡ told.detail code found.now) }
{
    let file = found.file;
    let told = detail(alloc, code, found)?;
    Ok(refusal_at(file, &texts[file], found.place, code, told))
}

/// What the definition files that texts spell define, or the refusal for the first rule that they
/// break.
fn load_trees(
    alloc: Global,
    natives: &Natives,
    texts: &[Vec<u8>],
    trees: &[RawDefs],
    u: &mut Uniquer,
) -> Result<Registry, Stop>
    requires short { AreShort (bytes_of texts.now) }
    requires spelled { SpellFiles (bytes_of texts.now) trees.now }
    ensures loaded { IfOk result (λ r. AreLoaded trees.now (names title natives.now)
        (tests property natives.now) u.new r.types r.ops) }
    ensures sound { IfOk result (IsSound (length u.new) (count natives.now)) }
    ensures stopped { IfErr result (λ stop.
        IsVerdict (predicates (names title natives.now) (tests property natives.now))
        (bytes_of texts.now) (Err stop)) }
{
    match load(alloc, trees, natives, u) {
        Ok(registry) => Ok(registry),
        Err(DefStop::Refused(refusal)) => {
            let Some(code) = DefCode::of_number(refusal.code) else {
                unreachable!()
            };
            Err(Stop::Refused(refusal_in(alloc, texts, &refusal, code)?))
        }
        Err(DefStop::OutOfMemory) => Err(Stop::OutOfMemory),
    }
}

/// What the texts of definition files define: the syntax of each is judged, and then the rules over
/// all of them.
fn load_texts(
    alloc: Global,
    natives: &Natives,
    texts: &[Vec<u8>],
    u: &mut Uniquer,
) -> Result<Registry, Stop>
    requires { AreShort (bytes_of texts.now) }
    ensures loaded { IfOk result (λ r.
        let known = predicates (names title natives.now) (tests property natives.now) in
        IsLoadedFrom known (bytes_of texts.now) (loaded_as u.new known r.types r.ops)) }
    ensures sound { IfOk result (IsSound (length u.new) (count natives.now)) }
    ensures stopped { IfErr result (λ stop.
        IsVerdict (predicates (names title natives.now) (tests property natives.now))
        (bytes_of texts.now) (Err stop)) }
{
    let trees = read_trees(alloc, texts)?;
    load_trees(alloc, natives, texts, &trees, u)
}

/// Reads all definition files of these names, in their order, and then judges them: what they
/// define, or why that isn't known.
pub fn load_files<F: Files>(
    alloc: Global,
    natives: &Natives,
    files: &mut F,
    defs: &[&str],
    u: &mut Uniquer,
) -> Result<Registry, Stop>
    ensures loaded { IfOk result (λ r. IfSome (F.file_map files.old) (λ m.
        let known = predicates (names title natives.now) (tests property natives.now) in
        IsLoadedOf known m (words.texts defs.now) (loaded_as u.new known r.types r.ops))) }
    ensures sound { IfOk result (IsSound (length u.new) (count natives.now)) }
    ensures stopped { IfErr result (λ stop. IfSome (F.file_map files.old) (λ m.
        IfSome (said (words.texts defs.now) stop)
        (MayStopLoading (predicates (names title natives.now) (tests property natives.now)) m
        (FaultsByItself (F.steady files.old) (F.faults files.old) (F.faults files.new))
        (words.texts defs.now)))) }
    ensures read_fault { IfErr result (λ stop. IsUnreadable stop →
        Rose (F.faults files.old) (F.faults files.new)) }
    ensures within { IfErr result (IsWithin (length defs.now)) }
    ensures same_map { F.file_map files.new ≡ F.file_map files.old }
    ensures stays_steady { IsTrue (F.steady files.old) → IsTrue (F.steady files.new) }
    ensures later { F.faults files.old ≤ F.faults files.new }
{
    let texts = read_texts(alloc, files, defs)?;
    load_texts(alloc, natives, &texts, u)
}
