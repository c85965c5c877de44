//! The aliases of a module.

ghost use Rattle.std.specs.Prelude.{length, IfOk};
ghost use Rattle.constraint_solver.specs.Grown.{Extends};
ghost use Rattle.dialect_registry.specs.Registered.{IsSound};
ghost use Rattle.elaborate.specs.Aliases.{AreDefined, HasNone};
ghost use Rattle.native_predicate.specs.Lists.{count, tests};
ghost use Rattle.value_meaning.specs.AliasTable.{AreGoodAliases};

use attr_uniquer::Uniquer;
use attr_value::Text;
use dialect_registry::Registry;
use first_fault::Fault;
use generic_syntax::AliasCst;
use native_predicate::Natives;
use std::alloc::{AllocError, Global};
use value_meaning::{Aliases, ValueStop, define_alias};

/// Makes the aliases of a module known, in their order, up to the first whose value has a fault; and
/// gives the first of its faults. No alias is known before.
pub(crate) fn define_aliases(
    alloc: Global,
    registry: &Registry,
    natives: &Natives,
    u: &mut Uniquer,
    list: &[AliasCst],
    aliases: &mut Aliases,
) -> Result<Option<Fault>, AllocError>
    requires sound { IsSound (length u.old) (count natives.now) registry.now }
    requires none { HasNone aliases.old }
    ensures later { Extends u.old u.new }
    ensures good { AreGoodAliases u.new (tests property natives.now) registry.now.types
        aliases.new }
    ensures defined { IfOk result (λ first. AreDefined u.old (tests property natives.now)
        registry.now.types list.now u.new aliases.new first) }
{
    for alias in list {
        let defined = define_alias(
            alloc,
            u,
            registry.definitions(),
            natives,
            &alias.value,
            alias.is_type,
            Text::from_slice(alloc, alias.name.bytes())?,
            aliases,
        );
        match defined {
            Ok(_) => {}
            Err(ValueStop::Refused(fault)) => return Ok(Some(fault)),
            Err(ValueStop::OutOfMemory) => return Err(AllocError),
        }
    }
    Ok(None)
}
