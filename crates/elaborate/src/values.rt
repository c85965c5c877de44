//! The stages of values and of operations.

ghost use Rattle.std.specs.Prelude.{◌≡◌, length, map, IfErr, IfOk};
ghost use Rattle.constraint_solver.specs.Grown.{Extends};
ghost use Rattle.dialect_registry.specs.Registered.{IsSound};
ghost use Rattle.elaborate.specs.Elaborated.{loaded_of};
ghost use Rattle.elaborate.specs.Judged.{AreJudged, RefusesJudged};
ghost use Rattle.module_faults.specs.Listed.{seen};
ghost use Rattle.module_faults.specs.Standings.{standings as standings_of};
ghost use Rattle.native_predicate.specs.Lists.{count, tests};

use crate::aliases::define_aliases;
use crate::operations::{judge_ops, rule_of};
use crate::regions::first_deep_region;
use crate::stop::ModStop;
use attr_uniquer::Uniquer;
use dialect_registry::Registry;
use first_fault::{Fault, earlier};
use generic_syntax::ModuleCst;
use module_faults::{OpIds, Standing};
use native_predicate::Natives;
use std::alloc::Global;
use value_meaning::Aliases;

/// What each operation of a tree says, in ids; or the first fault of values, or else of operations.
/// Of names none is at fault. What stands in the tree is listed.
pub(crate) fn judge_values(
    alloc: Global,
    registry: &Registry,
    natives: &Natives,
    u: &mut Uniquer,
    tree: &ModuleCst,
    list: &[Standing<'_>],
) -> Result<Vec<OpIds>, ModStop>
    requires sound { IsSound (length u.old) (count natives.now) registry.now }
    requires stands { map seen list.now ≡ standings_of tree.now }
    ensures later { Extends u.old u.new }
    ensures judged { IfOk result (λ ids.
        AreJudged (loaded_of u.old (tests property natives.now) registry.now) tree.now u.new
        ids.items) }
    ensures refused { IfErr result
        (RefusesJudged (loaded_of u.old (tests property natives.now) registry.now) tree.now) }
{
    let mut aliases = Aliases::new(alloc);
    let faulty = define_aliases(
        alloc,
        registry,
        natives,
        u,
        tree.aliases.as_slice(),
        &mut aliases,
    )?;
    let deep = first_deep_region(list);
    if let Some(fault) = faulty {
        return Err(ModStop::Refused(earlier(Some(fault), deep).unwrap()));
    }
    let found = judge_ops(alloc, registry, natives, u, &aliases, list)?;
    if let Some(fault) = earlier(deep, found.values) {
        return Err(ModStop::Refused(fault));
    }
    if let Some(fault) = found.operations {
        return Err(ModStop::Refused(Fault {
            place: fault.place,
            code: rule_of(fault.code).code(),
        }));
    }
    Ok(found.ids)
}
