//! The values of operations, and the operations.

ghost use Rattle.std.specs.Prelude.{◌≡◌, ◌++◌, ◌∷◌, [], Bool, length, List, map, IfOk};
ghost use Rattle.std.specs.Prelude.{OnOk};
ghost use Rattle.attr_value.specs.Values.{Value};
ghost use Rattle.constraint_solver.specs.Grown.{Extends};
ghost use Rattle.dialect_registry.specs.Registered.{IsSound};
ghost use Rattle.elaborate.specs.Operations.{AreFound};
ghost use Rattle.generic_syntax.specs.declared.module_cst.OpCst.{OpCst, out-OpCst};
ghost use Rattle.module_faults.specs.Listed.{seen};
ghost use Rattle.module_faults.specs.OpFaults.{rank};
ghost use Rattle.module_faults.specs.Standings.{Standing as Stood, an_op};
ghost use Rattle.module_meaning.specs.Completes.{HaveDistinctOps};
ghost use Rattle.module_meaning.specs.WholeModules.{Loaded};
ghost use Rattle.native_predicate.specs.Lists.{count, tests};
ghost use Rattle.op_judgement.specs.Grounds.{IsGround, basis, loaded_by};
ghost use Rattle.op_judgement.specs.Judged.{IsJudgement};
ghost use Rattle.value_meaning.specs.AliasTable.{AreGoodAliases};
ghost use Rattle.value_meaning.specs.Meaning.{Aliases as Values};

use attr_uniquer::Uniquer;
use dialect_registry::Registry;
use first_fault::{Fault, earlier};
use module_faults::{OpIds, OpRule, Standing};
use native_predicate::Natives;
use op_judgement::{Judgement, judge_op};
use std::alloc::{AllocError, Global};
use value_meaning::Aliases;

/// What is found of operations: the first fault of their values; the first of the operations
/// themselves, with the rank of its rule for its number; and where there is none, what each says.
#[derive(Drop)]
pub struct Found {
    pub values: Option<Fault>,
    pub operations: Option<Fault>,
    pub ids: Vec<OpIds>,
}

/// The order of a rule among those on one operation.
fn rank_of(rule: OpRule) -> u32
    ensures { result ≡ rank rule }
{
    match rule {
        OpRule::Unknown => 0,
        OpRule::Arity => 1,
        OpRule::NotLast => 2,
        OpRule::Unsatisfied => 3,
    }
}

/// The rule of a rank.
pub(crate) fn rule_of(number: u32) -> OpRule
    ensures { (rule : OpRule) → number ≡ rank rule → result ≡ rule }
{
    match number {
        0 => OpRule::Unknown,
        1 => OpRule::Arity,
        2 => OpRule::NotLast,
        _ => OpRule::Unsatisfied,
    }
}

impl Found {
    /// Puts what is said of one more operation, whose name stands at a place, behind the others.
    fn add(&mut self, place: u32, judgement: Judgement) -> Result<(), AllocError>
        ensures { OnOk result ((loaded : Loaded) (al : Values) (ss : List Stood)
            (now : List Value) (c : OpCst) (is_last : Bool) → HaveDistinctOps loaded.ops →
            place ≡ (out-OpCst c).place → AreFound loaded al ss now self.old →
            IsJudgement loaded al c is_last now judgement →
            AreFound loaded al (ss ++ an_op c is_last ∷ []) now self.new) }
    {
        match judgement {
            Judgement::Values(fault) => self.values = earlier(self.values, Some(fault)),
            Judgement::Operation(rule) => {
                let fault = Fault {
                    place,
                    code: rank_of(rule),
                };
                self.operations = earlier(self.operations, Some(fault));
            }
            Judgement::Right(ids) => self.ids.push(ids)?,
        }
        Ok(())
    }
}

/// Judges the operations that stand in a tree. No fault ends the walk.
pub(crate) fn judge_ops(
    alloc: Global,
    registry: &Registry,
    natives: &Natives,
    u: &mut Uniquer,
    aliases: &Aliases,
    standings: &[Standing<'_>],
) -> Result<Found, AllocError>
    requires sound { IsSound (length u.old) (count natives.now) registry.now }
    requires aliases { AreGoodAliases u.old (tests property natives.now) registry.now.types
        aliases.now }
    ensures later { Extends u.old u.new }
    ensures found { IfOk result (λ found. (old : List Value) (al : Values) →
        IsGround (basis (tests property natives.now) (count natives.now) registry.now aliases.now)
        old al u.old →
        AreFound (loaded_by (basis (tests property natives.now) (count natives.now)
        registry.now aliases.now) old) al (map seen standings.now) u.new found) }
{
    let mut found = Found {
        values: None,
        operations: None,
        ids: Vec::new(alloc),
    };
    for standing in standings {
        if let Standing::Op { op, is_last } = standing {
            let judgement = judge_op(alloc, registry, natives, u, aliases, op, *is_last)?;
            found.add(op.place, judgement)?;
        }
    }
    Ok(found)
}
