//! The elaboration of a whole module.

ghost use Rattle.std.specs.Prelude.{length, IfErr, IfOk};
ghost use Rattle.constraint_solver.specs.Grown.{Extends};
ghost use Rattle.dialect_registry.specs.Registered.{IsSound};
ghost use Rattle.elaborate.specs.Elaborated.{AreNamed, loaded_of, MeansNothing, RefusesModule};
ghost use Rattle.module_meaning.specs.Completes.{Completes};
ghost use Rattle.module_meaning.specs.Facts.{no_forms};
ghost use Rattle.module_meaning.specs.SeenModules.{seen_module};
ghost use Rattle.native_predicate.specs.Lists.{count, tests};
ghost use Rattle.op_verifier.specs.Seen.{HasIds};

use crate::names::judge_names;
use crate::stop::ModStop;
use crate::uses::{first_wrong_use, shown_types, types_differ_by_ids};
use crate::values::judge_values;
use attr_uniquer::Uniquer;
use dialect_registry::Registry;
use generic_syntax::ModuleCst;
use ir_store::Store;
use module_builder::build;
use module_faults::standings;
use native_predicate::Natives;
use std::alloc::Global;

/// The store of the module that completes the tree of a file, or the first fault of the first stage
/// that has one: names, values, operations, types of uses.
///
/// Values are interned, also where there is a fault or memory runs out; earlier ones keep their ids.
pub fn elaborate(
    alloc: Global,
    registry: &Registry,
    natives: &Natives,
    u: &mut Uniquer,
    tree: &ModuleCst,
) -> Result<Store, ModStop>
    requires { IsSound (length u.old) (count natives.now) registry.now }
    ensures later { Extends u.old u.new }
    ensures completes { IfOk result (λ store.
        Completes (loaded_of u.old (tests property natives.now) registry.now) no_forms tree.now
        (seen_module registry.now.ops u.new store)) }
    ensures named { IfOk result (AreNamed registry.now.ops tree.now) }
    ensures ids { IfOk result (HasIds (length u.new)) }
    ensures refused { IfErr result
        (RefusesModule (loaded_of u.old (tests property natives.now) registry.now) tree.now) }
    ensures unmeant { IfErr result
        (MeansNothing (loaded_of u.old (tests property natives.now) registry.now) tree.now) }
{
    let uses = judge_names(alloc, tree)?;
    let list = standings(alloc, tree)?;
    let ids = judge_values(alloc, registry, natives, u, tree, &list)?;
    let shown = shown_types(alloc, &ids)?;
    let store = build(alloc, tree, &list, ids, &uses)?;
    types_differ_by_ids(u, &shown);
    match first_wrong_use(&store, &list, &shown) {
        None => Ok(store),
        Some(fault) => Err(ModStop::Refused(fault)),
    }
}
