//! The value of a whole tree.

ghost use Rattle.std.specs.Prelude.{◌≡◌, ◌<◌, ℕ, Bool, List, length, IfErr, IfOk, OnErr};
ghost use Rattle.std.specs.declared.option.Option.TheVariants.{None};
ghost use Rattle.attr_value.specs.Ids.{at};
ghost use Rattle.constraint_solver.specs.Definitions.{AreSoundDefs};
ghost use Rattle.constraint_solver.specs.Grown.{Extends};
ghost use Rattle.first_fault.specs.Firsts.{IsFirst};
ghost use Rattle.native_predicate.specs.Lists.{count, tests};
ghost use Rattle.value_meaning.specs.AliasTable.{alias_values, AreGoodAliases, id_of, with_alias};
ghost use Rattle.value_meaning.specs.Faults.{IsFault, Means};
ghost use Rattle.value_meaning.specs.Refusals.{ExcludesValue, RefusesValue};

use crate::definitions::Definitions;
use crate::env::{Aliases, Env};
use crate::judge::judge;
use attr_uniquer::Uniquer;
use attr_value::{Text, ValueId};
use first_fault::Fault;
use generic_syntax::ValueCst;
use native_predicate::Natives;
use std::alloc::Global;

/// Why a tree has no value.
#[derive(Clone, Copy, Debug, PartialEq, Eq)]
pub enum ValueStop {
    /// A rule is broken, as by a key that stands twice. The place is one of the tree's, and the
    /// code is the number of the rule, [`SYNTAX`](crate::SYNTAX) to
    /// [`INT_RANGE`](crate::INT_RANGE).
    Refused(Fault),
    /// Memory ran out.
    OutOfMemory,
}

/// The id of the value of a tree that stands by itself, at nesting 1; or its first fault: that with
/// the least place, and there with the least number of a rule. Aliases are those that are known.
///
/// The value is interned, and so are its parts, also where there is a fault or memory runs out;
/// values that were in the table before keep their ids. Definitions name values of the table. It
/// recurses as deep as the tree is.
pub fn value_in(
    alloc: Global,
    u: &mut Uniquer,
    types: &Definitions,
    natives: &Natives,
    cst: &ValueCst,
    aliases: &Aliases,
) -> Result<ValueId, ValueStop>
    requires defs { AreSoundDefs (length u.old) (count natives.now) types.now }
    requires aliases { AreGoodAliases u.old (tests property natives.now) types.now aliases.now }
    ensures later { Extends u.old u.new }
    ensures known { IfOk result (λ id. id.0 < length u.new) }
    ensures ok { IfOk result (λ id. Means u.old (tests property natives.now) types.now
        (alias_values u.old aliases.now) cst.now (at u.new id.0)) }
    ensures right { IfOk result (λ id. IsFirst (IsFault u.old (tests property natives.now) types.now
        (alias_values u.old aliases.now) 1 cst.now) None) }
    ensures refused { IfErr result (RefusesValue (IsFault u.old (tests property natives.now)
        types.now (alias_values u.old aliases.now) 1 cst.now)) }
    ensures unmeant { IfErr result (ExcludesValue (Means u.old (tests property natives.now)
        types.now (alias_values u.old aliases.now) cst.now)) }
{
    let env = Env {
        alloc,
        types,
        natives,
        aliases,
    };
    let Ok(judged) = judge(&env, u, cst, 1) else {
        return Err(ValueStop::OutOfMemory);
    };
    match judged.first {
        Some(fault) => Err(ValueStop::Refused(fault)),
        None => Ok(judged.value.unwrap()),
    }
}

/// Makes an alias of this kind and name known, whose value is that of a tree by itself, and gives
/// the value's id; or the tree's first fault. The name has no sign. Aliases that the tree mentions
/// are those that were known, and where there is no value they stay the same.
pub fn define_alias(
    alloc: Global,
    u: &mut Uniquer,
    types: &Definitions,
    natives: &Natives,
    cst: &ValueCst,
    is_type: bool,
    name: Text,
    aliases: &mut Aliases,
) -> Result<ValueId, ValueStop>
    requires defs { AreSoundDefs (length u.old) (count natives.now) types.now }
    requires aliases { AreGoodAliases u.old (tests property natives.now) types.now aliases.old }
    ensures later { Extends u.old u.new }
    ensures known { IfOk result (λ id. id.0 < length u.new) }
    ensures good { AreGoodAliases u.new (tests property natives.now) types.now aliases.new }
    ensures defined { IfOk result (λ id. (kind : Bool) (other : List ℕ) →
        id_of aliases.new kind other ≡ with_alias (id_of aliases.old) is_type name id kind other) }
    ensures err { OnErr result ((kind : Bool) (other : List ℕ) →
        id_of aliases.new kind other ≡ id_of aliases.old kind other) }
    ensures ok { IfOk result (λ id. Means u.old (tests property natives.now) types.now
        (alias_values u.old aliases.old) cst.now (at u.new id.0)) }
    ensures refused { IfErr result (RefusesValue (IsFault u.old (tests property natives.now)
        types.now (alias_values u.old aliases.old) 1 cst.now)) }
    ensures unmeant { IfErr result (ExcludesValue (Means u.old (tests property natives.now)
        types.now (alias_values u.old aliases.old) cst.now)) }
{
    let id = value_in(alloc, u, types, natives, cst, aliases)?;
    match aliases.define(is_type, name, id) {
        Ok(()) => Ok(id),
        Err(_) => Err(ValueStop::OutOfMemory),
    }
}
