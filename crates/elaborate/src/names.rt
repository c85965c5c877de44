//! The names of a module.

ghost use Rattle.std.specs.Prelude.{IfErr, IfOk, OnOk};
ghost use Rattle.elaborate.specs.Names.{IsMeant, HasNoNamesFault, RefusesNamesOf};

use crate::stop::ModStop;
use first_fault::Fault;
use generic_syntax::ModuleCst;
use module_names::note_module;
use std::alloc::Global;
use symbol_scopes::{NameStop, Scopes, Uses};

/// What the uses and successors of a module mean, or the first fault of its names.
pub(crate) fn judge_names(alloc: Global, tree: &ModuleCst) -> Result<Uses, ModStop>
    ensures right { OnOk result (HasNoNamesFault tree.now) }
    ensures meant { IfOk result (IsMeant tree.now) }
    ensures refused { IfErr result (RefusesNamesOf tree.now) }
{
    let mut scopes = Scopes::new(alloc);
    note_module(&mut scopes, tree)?;
    match scopes.finish() {
        Ok(uses) => Ok(uses),
        Err(NameStop::Refused { place, code }) => Err(ModStop::Refused(Fault { place, code })),
        Err(NameStop::OutOfMemory) => Err(ModStop::OutOfMemory),
    }
}
