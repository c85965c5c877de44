//! The loading of definition files.

ghost use Rattle.std.specs.Prelude.{◌≡◌, ◌<◌, ◌∷◌, IfErr, IfOk, length};
ghost use Rattle.std.specs.Vec.Iter.{into_iter_items};
ghost use Rattle.constraint_solver.specs.Grown.{Extends};
ghost use Rattle.native_predicate.specs.Lists.{count, names, tests};
ghost use Rattle.dialect_registry.specs.Codes.{IsRule};
ghost use Rattle.dialect_registry.specs.DefFaults.{IsFault, IsFirstIn, dialects_of};
ghost use Rattle.dialect_registry.specs.Formatting.{formatted_each, IsValueless};
ghost use Rattle.dialect_registry.specs.Loaded.{AreLoaded, AreOwnOps, HasNoFault, HasNoValue};
ghost use Rattle.dialect_registry.specs.Loaded.{HaveTypes, IsNotGood, IsRefusedBy};
ghost use Rattle.dialect_registry.specs.Loaded as spec;
ghost use Rattle.dialect_registry.specs.ConstantFaults.{shapes_of};
ghost use Rattle.dialect_registry.specs.Refusals.{fault_of, IsPlain, Refuses};
ghost use Rattle.dialect_registry.specs.Registered.{IsSound};
ghost use Rattle.dialect_registry.specs.Resolving.{HasOne, IsBadFile};
ghost use Rattle.dialect_registry.specs.Scopes.{Finds};
ghost use Rattle.value_meaning.specs.Distinct.{HaveDistinctNames};

use crate::constants::{Ground, judge_constants};
use crate::formats::read_formats;
use crate::judging::judge_by;
use crate::operations::Operations;
use crate::refusal::DefRefusal;
use crate::registry::{Registry, module_op};
use crate::resolve::{Env, ResolveStop, resolve};
use crate::shape::shapes;
use crate::targets::Targets;
use attr_uniquer::Uniquer;
use dialect_defs::{Format, OpDef};
use irdl_ops::RawDefs;
use native_predicate::Natives;
use std::alloc::{AllocError, Global};
use std::vec;
use value_meaning::Definitions;

/// Why definition files aren't loaded.
#[derive(Debug, Drop)]
pub enum DefStop {
    /// A rule is broken.
    Refused(DefRefusal),
    /// Memory ran out.
    OutOfMemory,
}

impl From<AllocError> for DefStop {
    ghost use Rattle.dialect_registry.specs.declared.loading.DefStop.TheVariants.{OutOfMemory};

    ghost from_gives = { λ _ e. e ≡ OutOfMemory };

    fn from(_: AllocError) -> DefStop {
        DefStop::OutOfMemory
    }
}

/// Loads definition files: the definitions that they have, or the first fault of the first stage
/// that has one (`specs/Loaded.antt`). A fault is given by its file, its place and the number of
/// its rule.
///
/// Constants are interned, also where there is a fault or memory runs out; values that were in the
/// table before keep their ids. It recurses as deep as constants are, and takes time linear in the
/// files.
pub fn load(
    alloc: Global,
    raw: &[RawDefs],
    natives: &Natives,
    u: &mut Uniquer,
) -> Result<Registry, DefStop>
    ensures later { Extends u.old u.new }
    ensures loaded { IfOk result (λ r. AreLoaded raw.now (names title natives.now)
        (tests property natives.now) u.new r.types r.ops) }
    ensures sound { IfOk result (IsSound (length u.new) (count natives.now)) }
    ensures refused { IfErr result (Refuses (IsRefusedBy raw.now (names title natives.now)
        (tests property natives.now))) }
    ensures rule { IfErr result (Refuses (λ refusal. IsRule refusal.code)) }
{
    let targets = Targets::of(alloc, raw)?;
    match judge_by(alloc, &targets, raw, natives)? {
        Some(fault) => Err(DefStop::Refused(DefRefusal::plain(fault))),
        None => load_named(alloc, targets, raw, natives, u),
    }
}

/// Loads files that break no rule on names, references and limits.
fn load_named(
    alloc: Global,
    targets: Targets<'_>,
    raw: &[RawDefs],
    natives: &Natives,
    u: &mut Uniquer,
) -> Result<Registry, DefStop>
    requires targets { Finds (dialects_of raw.now) targets }
    requires rules { HasNoFault (IsFault raw.now (names title natives.now)) }
    ensures later { Extends u.old u.new }
    ensures loaded { IfOk result (λ r. AreLoaded raw.now (names title natives.now)
        (tests property natives.now) u.new r.types r.ops) }
    ensures sound { IfOk result (IsSound (length u.new) (count natives.now)) }
    ensures refused { IfErr result (Refuses (IsRefusedBy raw.now (names title natives.now)
        (tests property natives.now))) }
    ensures rule { IfErr result (Refuses (λ refusal. IsRule refusal.code)) }
{
    let defined = define(alloc, targets, raw, natives, u)?;
    let ground = Ground {
        alloc,
        natives,
        types: &defined.types,
    };
    if let Some(fault) = judge_constants(&ground, u, raw)? {
        return Err(DefStop::Refused(DefRefusal::plain(fault)));
    }
    let formats = read_formats(alloc, raw)?;
    Ok(registry_of(alloc, defined, formats)?)
}

/// Types and attributes, and operations without their formats.
#[derive(Drop)]
struct Defined {
    types: Definitions,
    ops: Vec<OpDef>,
}

/// The definitions of files that break no rule on names, references and limits; or the first
/// constant that has no value.
fn define(
    alloc: Global,
    targets: Targets<'_>,
    raw: &[RawDefs],
    natives: &Natives,
    u: &mut Uniquer,
) -> Result<Defined, DefStop>
    requires targets { Finds (dialects_of raw.now) targets }
    requires rules { HasNoFault (IsFault raw.now (names title natives.now)) }
    ensures later { Extends u.old u.new }
    ensures types { IfOk result (λ r. HaveTypes raw.now (names title natives.now)
        (tests property natives.now) u.new r.types) }
    ensures ops { IfOk result (λ r. AreOwnOps raw.now (names title natives.now)
        (tests property natives.now) u.new r.ops.items) }
    ensures refused { IfErr result (Refuses (IsValueless raw.now (tests property natives.now))) }
{
    let list = shapes(alloc, raw)?;
    let shapes = Definitions::of(alloc, list)?;
    let env = Env {
        alloc,
        targets: &targets,
        natives,
        shapes: &shapes,
    };
    let resolved = resolve(&env, u, raw);
    drop(targets);
    match resolved {
        Ok(resolved) => Ok(Defined {
            types: Definitions::of(alloc, resolved.types)?,
            ops: resolved.ops,
        }),
        Err(ResolveStop::BadConstant) => Err(first_meaningless(alloc, raw, natives, u, &shapes)),
        Err(ResolveStop::OutOfMemory) => Err(DefStop::OutOfMemory),
    }
}

/// The first constant that has no value, of files that have such a one.
fn first_meaningless(
    alloc: Global,
    raw: &[RawDefs],
    natives: &Natives,
    u: &mut Uniquer,
    shapes: &Definitions,
) -> DefStop
    requires shapes { shapes.now ≡ shapes_of raw.now }
    requires bad { HasOne (IsBadFile (tests property natives.now) shapes.now) raw.now }
    ensures later { Extends u.old u.new }
    ensures refused { Refuses (IsValueless raw.now (tests property natives.now)) result }
{
    let ground = Ground {
        alloc,
        natives,
        types: shapes,
    };
    match judge_constants(&ground, u, raw) {
        Ok(Some(fault)) => DefStop::Refused(DefRefusal::plain(fault)),
        Ok(None) => unreachable!(),
        Err(_) => DefStop::OutOfMemory,
    }
}

/// The next of some things. It takes no memory.
fn next<T: Drop>(things: &mut vec::IntoIter<T, Global>) -> T
    requires { 0 < length (into_iter_items things.old) }
    ensures { into_iter_items things.old ≡ result ∷ into_iter_items things.new }
{
    match things.next() {
        Some(thing) => thing,
        None => unreachable!(),
    }
}

/// The operation that is always there, and behind it these, with their formats.
fn operations(
    alloc: Global,
    ops: Vec<OpDef>,
    formats: Vec<Option<Format>>,
) -> Result<Vec<OpDef>, AllocError>
    requires counts { length ops.items ≡ length formats.items }
    ensures { IfOk result (λ all. all.items
        ≡ spec.module_op ∷ formatted_each ops.items formats.items) }
{
    let count = ops.len();
    let mut ops_left = ops.into_iter();
    let mut formats_left = formats.into_iter();
    let mut all = Vec::new(alloc);
    all.push(module_op(alloc)?)?;
    for i in 0..count {
        let mut op = next(&mut ops_left);
        op.format = next(&mut formats_left);
        all.push(op)?;
    }
    Ok(all)
}

/// The registry of some definitions with these formats, and the operation that is always there.
fn registry_of(
    alloc: Global,
    defined: Defined,
    formats: Vec<Option<Format>>,
) -> Result<Registry, AllocError>
    requires counts { length defined.ops.items ≡ length formats.items }
    ensures types { IfOk result (λ r. r.types ≡ defined.types) }
    ensures ops { IfOk result (λ r. r.ops
        ≡ spec.module_op ∷ formatted_each defined.ops.items formats.items) }
{
    let ops = operations(alloc, defined.ops, formats)?;
    Ok(Registry::of(Operations::of(alloc, ops)?, defined.types))
}
