//! The store of a module.

ghost use Rattle.std.specs.Prelude.{◌≡◌, map, IfOk};
ghost use Rattle.std.specs.List.{AllZip};
ghost use Rattle.ir_store.specs.Numbering.{ops_in};
ghost use Rattle.module_builder.specs.Built.{HasParts, HasPlace, value_number, successors_at};
ghost use Rattle.module_builder.specs.Fit.{IdsFit, UsesFit};
ghost use Rattle.module_faults.specs.Listed.{seen};
ghost use Rattle.module_faults.specs.ModuleFaults.{operands_at};
ghost use Rattle.module_faults.specs.Shape.{HasShape, definitions_in};
ghost use Rattle.module_faults.specs.Standings.{standings as standings_of, ops_of};

use crate::fill::fill_ops;
use crate::firsts::first_values;
use crate::make::make_rows;
use generic_syntax::ModuleCst;
use ir_store::Store;
use module_faults::{OpIds, Standing};
use std::alloc::{AllocError, Global};
use symbol_scopes::Uses;

/// The store of a module, by its tree, by what stands in it, by the parts of each operation in ids,
/// and by what its names mean.
///
/// The module has the shape of the tree, and each operation of it the parts and the place of its
/// tree. Values have numbers in order of definition: an operand is the number of the value that the
/// use means.
pub fn build(
    alloc: Global,
    tree: &ModuleCst,
    standings: &[Standing<'_>],
    ids: Vec<OpIds>,
    uses: &Uses,
) -> Result<Store, AllocError>
    requires stands { map seen standings.now ≡ standings_of tree.now }
    requires fit { AllZip IdsFit (ops_of (standings_of tree.now)) ids.items }
    requires uses { UsesFit (standings_of tree.now) uses.now }
    ensures shape { IfOk result (λ store. HasShape tree.now.ops store) }
    ensures parts { IfOk result (λ store. AllZip HasParts (ops_in store) ids.items) }
    ensures places { IfOk result (λ store.
        AllZip HasPlace (ops_in store) (ops_of (standings_of tree.now))) }
    ensures operands { IfOk result (λ store. operands_at (ops_in store)
        ≡ map (value_number (definitions_in 0 tree.now.ops store)) uses.now.values) }
    ensures successors { IfOk result (λ store. successors_at (ops_in store) ≡ uses.now.blocks) }
{
    let firsts = first_values(alloc, standings, ids.as_slice())?;
    let rows = make_rows(alloc, standings, ids, uses, firsts.as_slice())?;
    let mut store = Store::new(alloc);
    fill_ops(&mut store, None, tree.ops.as_slice(), &mut rows.into_iter())?;
    Ok(store)
}
