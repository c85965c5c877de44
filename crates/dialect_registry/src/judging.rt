//! The judgement of definition files.

ghost use Rattle.std.specs.Prelude.{◌≡◌, ◌++◌, [], List, IfOk, OnOk, IfSome};
ghost use Rattle.dialect_registry.specs.Codes.{IsRule};
ghost use Rattle.dialect_registry.specs.DefFaults as spec;
ghost use Rattle.dialect_registry.specs.DefFaults.{IsDefFault, IsDialectFault, IsFileFault};
ghost use Rattle.dialect_registry.specs.DefFaults.{IsFault, IsFirstIn};
ghost use Rattle.dialect_registry.specs.Parts.{Behind};
ghost use Rattle.dialect_registry.specs.Scopes as seen;
ghost use Rattle.dialect_registry.specs.Scopes.{Finds, HasDialects};
ghost use Rattle.dialect_registry.specs.Targets.{World};
ghost use Rattle.first_fault.specs.Firsts.{IsFirst};
ghost use Rattle.irdl_ops.specs.declared.raw.RawDialect.{RawDialect};
ghost use Rattle.irdl_ops.specs.declared.raw.RawDef.{RawDef};
ghost use Rattle.native_predicate.specs.Lists.{names};

use crate::body::judge_body;
use crate::code::{DefCode, fault_if};
use crate::limits::judge_variables;
use crate::name_shapes::{is_bad_dialect, is_bare_id};
use crate::names::NameSet;
use crate::refusal::FileFault;
use crate::statement::judge_statements;
use crate::targets::Targets;
use first_fault::{Fault, earlier};
use irdl_ops::{RawDef, RawDefs, RawDialect};
use native_predicate::Natives;
use std::alloc::{AllocError, Global};

/// The first fault of definition files but those of constants and formats: by file, then by place,
/// and then by the rule's number. `None` exactly where no rule is broken. It takes time linear in
/// the files.
pub fn judge(
    alloc: Global,
    files: &[RawDefs],
    natives: &Natives,
) -> Result<Option<FileFault>, AllocError>
    ensures first { IfOk result (IsFirstIn (IsFault files.now (names title natives.now))) }
    ensures rule { IfOk result (λ first. IfSome first (λ refusal. IsRule refusal.code)) }
{
    let targets = Targets::of(alloc, files)?;
    judge_by(alloc, &targets, files, natives)
}

/// The same, by what references may name in these files.
pub fn judge_by(
    alloc: Global,
    targets: &Targets,
    files: &[RawDefs],
    natives: &Natives,
) -> Result<Option<FileFault>, AllocError>
    requires { Finds (spec.dialects_of files.now) targets.now }
    ensures first { IfOk result (IsFirstIn (IsFault files.now (names title natives.now))) }
    ensures rule { IfOk result (λ first. IfSome first (λ refusal. IsRule refusal.code)) }
{
    let mut dialects = NameSet::new(alloc);
    let mut first = None;
    for (file, defs) in files.iter().enumerate() {
        let fault = judge_file(alloc, targets, natives, &mut dialects, defs)?;
        first = or_in_file(first, file, fault);
    }
    Ok(first)
}

/// The fault that was found, or else the fault in the file with this number.
pub fn or_in_file(first: Option<FileFault>, file: usize, fault: Option<Fault>) -> Option<FileFault>
    ensures { result ≡ seen.or_in_file first file fault }
{
    match (first, fault) {
        (None, Some(Fault { place, code })) => Some(FileFault { file, place, code }),
        _ => first,
    }
}

/// The first fault of a file. The set has the names of the dialects of earlier files, and then
/// those of this file too.
fn judge_file<'a>(
    alloc: Global,
    targets: &Targets,
    natives: &Natives,
    dialects: &mut NameSet<'a>,
    defs: &'a RawDefs,
) -> Result<Option<Fault>, AllocError>
    ensures seen { OnOk result ((earlier : List RawDialect) → HasDialects earlier dialects.old →
        HasDialects (earlier ++ defs.now.dialects) dialects.new) }
    ensures first { IfOk result (λ first. (w : World) (earlier : List RawDialect) →
        Finds w.dialects targets.now → w.natives ≡ names title natives.now →
        HasDialects earlier dialects.old →
        IsFirst (IsFileFault w earlier defs.now) first) }
{
    let mut first = None;
    for dialect in defs.dialects.as_slice() {
        let known = dialects.add(dialect.name.bytes())?;
        first = earlier(
            first,
            judge_dialect(alloc, targets, natives, dialect, known)?,
        );
    }
    Ok(first)
}

/// The first fault of a dialect, whose name stands earlier or not.
fn judge_dialect(
    alloc: Global,
    targets: &Targets,
    natives: &Natives,
    dialect: &RawDialect,
    known: bool,
) -> Result<Option<Fault>, AllocError>
    ensures { IfOk result (λ first. (w : World) (before : List RawDialect) →
        Finds w.dialects targets.now → w.natives ≡ names title natives.now →
        known ≡ spec.is_dialect before dialect.now.name →
        IsFirst (IsDialectFault w before dialect.now) first) }
{
    let name = dialect.name.bytes();
    let again = fault_if(known, dialect.place, DefCode::NameRepeated);
    let bad = fault_if(is_bad_dialect(name), dialect.place, DefCode::ReservedName);
    let defs = judge_defs(alloc, targets, natives, name, dialect.defs.as_slice())?;
    Ok(earlier(earlier(again, bad), defs))
}

/// The first fault of the definitions of a dialect.
fn judge_defs(
    alloc: Global,
    targets: &Targets,
    natives: &Natives,
    own: &[u8],
    defs: &[RawDef],
) -> Result<Option<Fault>, AllocError>
    ensures { IfOk result (λ first. (w : World) →
        Finds w.dialects targets.now → w.natives ≡ names title natives.now →
        IsFirst (Behind (IsDefFault w own.now) [] defs.now) first) }
{
    let mut seen = NameSet::new(alloc);
    let mut first = None;
    for def in defs {
        let known = seen.add(def.name.bytes())?;
        first = earlier(first, judge_def(alloc, targets, natives, own, def, known)?);
    }
    Ok(first)
}

/// The first fault of a definition, whose name stands earlier in its dialect or not.
fn judge_def(
    alloc: Global,
    targets: &Targets,
    natives: &Natives,
    own: &[u8],
    def: &RawDef,
    known: bool,
) -> Result<Option<Fault>, AllocError>
    ensures { IfOk result (λ first. (w : World) (before : List RawDef) →
        Finds w.dialects targets.now → w.natives ≡ names title natives.now →
        known ≡ spec.is_def before def.now.name →
        IsFirst (IsDefFault w own.now before def.now) first) }
{
    let again = fault_if(known, def.place, DefCode::NameRepeated);
    let bad = fault_if(
        !is_bare_id(def.name.bytes()),
        def.place,
        DefCode::ReservedName,
    );
    let body = judge_body(alloc, def)?;
    let statements = def.statements.as_slice();
    let extra = judge_variables(statements);
    let wrong = judge_statements(targets, natives, own, statements);
    Ok(earlier(earlier(again, bad), earlier(body, earlier(extra, wrong))))
}
