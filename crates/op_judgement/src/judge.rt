//! The judgement of an operation's tree.

ghost use Rattle.std.specs.Prelude.{◌≡◌, length, List, IfOk};
ghost use Rattle.attr_value.specs.Values.{Value};
ghost use Rattle.constraint_solver.specs.Grown.{Extends};
ghost use Rattle.dialect_registry.specs.Registered.{IsSound};
ghost use Rattle.generic_syntax.specs.declared.module_cst.FormCst.{out-FormCst};
ghost use Rattle.generic_syntax.specs.declared.module_cst.FormCst.TheOpen.{FormCst-F};
ghost use Rattle.generic_syntax.specs.declared.module_cst.OpCst.{out-OpCst};
ghost use Rattle.native_predicate.specs.Lists.{count, tests};
ghost use Rattle.op_judgement.specs.Found.{basis_of};
ghost use Rattle.op_judgement.specs.Grounds.{IsGround, IsReady, basis, loaded_by};
ghost use Rattle.op_judgement.specs.Judged.{IsJudgement, IsWrongOp};
ghost use Rattle.value_meaning.specs.AliasTable.{AreGoodAliases};
ghost use Rattle.value_meaning.specs.Meaning.{Aliases as Values};

use crate::env::Env;
use crate::parts::parts_of;
use crate::rule::{definition_at, judge_form, stands_early};
use attr_uniquer::Uniquer;
use dialect_registry::{Aliases, Registry};
use first_fault::Fault;
use generic_syntax::{CustomCst, FormCst, GenericCst, OpCst};
use module_faults::{OpIds, OpRule};
use native_predicate::Natives;
use std::alloc::{AllocError, Global};

/// What is said of the tree of an operation.
#[derive(Drop)]
pub enum Judgement {
    /// The first fault of its values: an attribute, a key, or the type of an operand, of a result
    /// or of an argument, as the second `a` of `{a = 1, a = 2}`.
    Values(Fault),
    /// No value is at fault, and this is the first rule that the operation breaks.
    Operation(OpRule),
    /// No value is at fault and no rule broken: the operation that completes the tree.
    Right(OpIds),
}

/// The judgement of an operation in custom form. No operation has one, so none completes the tree.
fn judge_custom(env: &Env, op: &OpCst, form: &CustomCst, is_last: bool) -> OpRule
    requires form { out-FormCst (out-OpCst op.now).form ≡ FormCst-F.Custom form.now }
    ensures { (old now : List Value) (al : Values) →
        IsGround (basis_of property env.now) old al now →
        IsWrongOp (loaded_by (basis_of property env.now) old) al op.now is_last result }
{
    let Some(place) = env.registry.op(form.name.bytes()) else {
        return OpRule::Unknown;
    };
    let def = definition_at(env.registry.ops(), place);
    if stands_early(def, is_last) {
        return OpRule::NotLast;
    }
    OpRule::Unsatisfied
}

/// The judgement of an operation in generic form.
fn judge_generic(
    env: &Env,
    u: &mut Uniquer,
    op: &OpCst,
    form: &GenericCst,
    is_last: bool,
) -> Result<Judgement, AllocError>
    requires ready { IsReady (basis_of property env.now) u.old }
    requires form { out-FormCst (out-OpCst op.now).form ≡ FormCst-F.Generic form.now }
    ensures later { Extends u.old u.new }
    ensures judged { IfOk result (λ judgement. (old : List Value) (al : Values) →
        IsGround (basis_of property env.now) old al u.old →
        IsJudgement (loaded_by (basis_of property env.now) old) al op.now is_last u.new
        judgement) }
{
    let parts = match parts_of(env, u, form)? {
        Ok(parts) => parts,
        Err(fault) => return Ok(Judgement::Values(fault)),
    };
    match judge_form(env, u, op.results.as_slice(), form, is_last, &parts)? {
        Ok(def) => Ok(Judgement::Right(OpIds {
            def,
            operands: parts.operands,
            results: parts.results,
            keys: parts.keys,
            values: parts.values,
            args: parts.args,
        })),
        Err(rule) => Ok(Judgement::Operation(rule)),
    }
}

/// Judges the tree of an operation: its values, and where none is at fault, the operation.
/// `is_last` says whether it is the last of its block, or of the top level. Its regions are judged
/// as far as the numbers of blocks and the types of arguments; operations in them aren't.
///
/// Values are interned, also where there is a fault or memory runs out.
pub fn judge_op(
    alloc: Global,
    registry: &Registry,
    natives: &Natives,
    u: &mut Uniquer,
    aliases: &Aliases,
    op: &OpCst,
    is_last: bool,
) -> Result<Judgement, AllocError>
    requires sound { IsSound (length u.old) (count natives.now) registry.now }
    requires aliases { AreGoodAliases u.old (tests property natives.now) registry.now.types
        aliases.now }
    ensures later { Extends u.old u.new }
    ensures judged { IfOk result (λ judgement. (old : List Value) (al : Values) →
        IsGround (basis (tests property natives.now) (count natives.now) registry.now aliases.now)
        old al u.old →
        IsJudgement (loaded_by (basis (tests property natives.now) (count natives.now)
        registry.now aliases.now) old) al op.now is_last u.new judgement) }
{
    let env = Env {
        alloc,
        registry,
        natives,
        aliases,
    };
    match &op.form {
        FormCst::Generic(form) => judge_generic(&env, u, op, form, is_last),
        FormCst::Custom(form) => {
            let rule = judge_custom(&env, op, form, is_last);
            Ok(Judgement::Operation(rule))
        }
    }
}
