//! The rules on an operation in generic form, whose values aren't at fault.

ghost use Rattle.std.specs.Prelude.{◌≡◌, ◌<◌, ◌↔◌, Some, length, List, map, slice_get, IsOk, IfOk};
ghost use Rattle.std.specs.Prelude.{IsTrue, true, false};
ghost use Rattle.std.specs.List.{AllByRecursion};
ghost use Rattle.attr_value.specs.Heads.{IsType};
ghost use Rattle.attr_value.specs.Ids.{at, AreKnown};
ghost use Rattle.attr_value.specs.Values.{Value};
ghost use Rattle.dialect_defs.specs.Operations.{Operation};
ghost use Rattle.generic_syntax.specs.declared.module_cst.GenericCst.{out-GenericCst};
ghost use Rattle.native_predicate.specs.Lists.{count, tests};
ghost use Rattle.op_judgement.specs.Found.{basis_of};
ghost use Rattle.op_judgement.specs.Grounds.{IsReady};
ghost use Rattle.op_judgement.specs.Parts.{AreKnownParts, IsShownBy};
ghost use Rattle.op_judgement.specs.Rules.{IsPlaceOrRule, IsSatisfiedBy};
ghost use Rattle.op_judgement.specs.Shown.{block_counts};
ghost use Rattle.op_verifier.specs.Seen.{values_at};
ghost use Rattle.op_verifier.specs.Sound.{IsSoundOp};

use crate::arity::lists_differ;
use crate::env::Env;
use crate::parts::Parts;
use attr_uniquer::Uniquer;
use attr_value::{List as Items, ValueId};
use dialect_defs::OpDef;
use generic_syntax::{GenericCst, RegionCst, ResultCst};
use module_faults::OpRule;
use op_verifier::{OpRegions, OpView, Types, meets_definition};
use std::alloc::{AllocError, Global};

/// Whether the values of ids are types.
fn are_types(u: &Uniquer, ids: &[ValueId]) -> bool
    requires { AreKnown (length u.now) ids.now }
    ensures { IsTrue result ↔ AllByRecursion IsType (values_at u.now ids.now) }
{
    for id in ids {
        if !is_type(u, *id) {
            return false;
        }
    }
    true
}

/// Whether the values of ids of each list are types.
fn are_all_types(u: &Uniquer, lists: &[Items<ValueId>]) -> bool
    requires { AllByRecursion (AreKnown (length u.now)) lists.now }
    ensures { IsTrue result ↔ AllByRecursion (AllByRecursion IsType)
        (map (values_at u.now) lists.now) }
{
    for ids in lists {
        if !are_types(u, ids.as_slice()) {
            return false;
        }
    }
    true
}

/// Whether the value of an id is a type.
fn is_type(u: &Uniquer, id: ValueId) -> bool
    requires { id.0 < length u.now }
    ensures { IsTrue result ↔ IsType (at u.now id.0) }
{
    let (head, _) = u.view(id);
    head.is_type()
}

/// How many blocks each region has.
fn counts_of(alloc: Global, regions: &[RegionCst]) -> Result<Vec<usize>, AllocError>
    ensures { IfOk result (λ counts. counts.items ≡ block_counts regions.now) }
{
    let mut counts = Vec::new(alloc);
    for region in regions {
        counts.push(region.blocks.as_slice().len())?;
    }
    Ok(counts)
}

/// Whether an operation of these parts meets a definition, and its operands, results and arguments
/// have types.
fn is_satisfied(
    env: &Env,
    u: &Uniquer,
    def: &OpDef,
    form: &GenericCst,
    parts: &Parts,
) -> Result<bool, AllocError>
    requires def { IsSoundOp (length u.now) (count env.now.natives.now) def.now }
    requires parts { AreKnownParts (length u.now) form.now parts.now }
    ensures { IfOk result (λ yes. (o : Operation) → IsShownBy u.now form.now parts.now o →
        (IsTrue yes ↔ IsSatisfiedBy u.now (tests property env.now.natives.now) def.now o)) }
{
    if !are_types(u, parts.operands.as_slice()) {
        return Ok(false);
    }
    if !are_types(u, parts.results.as_slice()) {
        return Ok(false);
    }
    if !are_all_types(u, parts.args.as_slice()) {
        return Ok(false);
    }
    let counts = counts_of(env.alloc, form.regions.as_slice())?;
    let view = OpView {
        operands: Types::Listed(parts.operands.as_slice()),
        results: parts.results.as_slice(),
        keys: parts.keys.as_slice(),
        values: parts.values.as_slice(),
        successors: form.successors.as_slice().len(),
        regions: OpRegions::Listed {
            counts: counts.as_slice(),
            args: parts.args.as_slice(),
        },
    };
    Ok(meets_definition(def, env.natives, u, &view))
}

/// Whether an operation of this definition has to be the last of its list, and isn't.
pub fn stands_early(def: &OpDef, is_last: bool) -> bool
    ensures { IsTrue result ↔ ((def.now.terminator ≡ true) × (is_last ≡ false)) }
{
    def.terminator && !is_last
}

/// The definition at a place.
pub fn definition_at(defs: &[OpDef], i: usize) -> &OpDef
    requires { i < length defs.now }
    ensures { slice_get defs.now i ≡ Some result.now }
{
    &defs[i]
}

/// The place of the definition of an operation in generic form, or the first rule that it breaks.
pub fn judge_form(
    env: &Env,
    u: &Uniquer,
    named: &[ResultCst],
    form: &GenericCst,
    is_last: bool,
    parts: &Parts,
) -> Result<Result<usize, OpRule>, AllocError>
    requires ready { IsReady (basis_of property env.now) u.now }
    requires parts { AreKnownParts (length u.now) form.now parts.now }
    ensures { IfOk result (IsPlaceOrRule (basis_of property env.now) u.now named.now form.now
        is_last parts.now) }
{
    let Some(place) = env.registry.op(form.name.bytes()) else {
        return Ok(Err(OpRule::Unknown));
    };
    let def = definition_at(env.registry.ops(), place);
    if lists_differ(form, named) {
        return Ok(Err(OpRule::Arity));
    }
    if stands_early(def, is_last) {
        return Ok(Err(OpRule::NotLast));
    }
    if !is_satisfied(env, u, def, form, parts)? {
        return Ok(Err(OpRule::Unsatisfied));
    }
    Ok(Ok(place))
}
