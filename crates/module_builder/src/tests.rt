//! The store of `"t.a"() : () -> ()`.

ghost use Rattle.std.specs.Prelude.{◌≡◌, [], IfOk};
ghost use Rattle.generic_syntax.specs.declared.module_cst.FormCst.{out-FormCst};
ghost use Rattle.generic_syntax.specs.declared.module_cst.OpCst.{out-OpCst};
ghost use Rattle.module_builder.specs.Fit.{IdsFit, uses_in, successors_in};
ghost use Rattle.module_faults.specs.declared.ids.OpIds.{OpIds as Ids};
ghost use Rattle.module_faults.specs.Standings.{generic_regions};

use super::*;
use attr_value::{List, Text};
use generic_syntax::{FormCst, GenericCst, ModuleCst, OpCst};
use module_faults::{OpIds, standings};
use smallvec::SmallVec;
use std::alloc::{AllocError, Global};
use std::process::Abort;
use symbol_scopes::{Scopes, Uses};

/// An operation that shows nothing but its name.
fn operation(alloc: Global, place: u32, name: Text) -> OpCst
    ensures results { (out-OpCst result).results ≡ [] }
    ensures regions { generic_regions result ≡ [] }
    ensures uses { uses_in (out-FormCst (out-OpCst result).form) ≡ [] }
    ensures successors { successors_in (out-FormCst (out-OpCst result).form) ≡ [] }
    ensures fit { (ids : Ids) → ids.results.items ≡ [] → ids.args ≡ [] → ids.keys ≡ []
        → ids.values ≡ [] → IdsFit result ids }
{
    OpCst {
        place,
        results: List::new(alloc),
        form: FormCst::Generic(GenericCst {
            name,
            operands: List::new(alloc),
            successors: List::new(alloc),
            props: List::new(alloc),
            regions: List::new(alloc),
            attrs: List::new(alloc),
            inputs: List::new(alloc),
            outputs: List::new(alloc),
        }),
    }
}

/// The parts of an operation that has none.
fn no_parts(alloc: Global, def: usize) -> OpIds
    ensures results { result.results.items ≡ [] }
    ensures args { result.args ≡ [] }
    ensures keys { result.keys ≡ [] }
    ensures values { result.values ≡ [] }
{
    OpIds {
        def,
        operands: SmallVec::new(alloc),
        results: SmallVec::new(alloc),
        keys: List::new(alloc),
        values: List::new(alloc),
        args: List::new(alloc),
    }
}

/// What names mean where there are none.
fn no_uses(alloc: Global) -> Result<Uses, AllocError>
    ensures values { IfOk result (λ uses. uses.values ≡ []) }
    ensures blocks { IfOk result (λ uses. uses.blocks ≡ []) }
{
    match Scopes::new(alloc).finish() {
        Ok(uses) => Ok(uses),
        Err(_) => Err(AllocError),
    }
}

#[test]
fn a_module_of_one_operation_is_built(rt: HostRuntime) -> Result<(), AllocError> {
    let alloc = rt.alloc();
    let mut ops = List::new(alloc);
    ops.push(operation(alloc, 7, Text::from_slice(alloc, b"t.a")?))?;
    let tree = ModuleCst {
        aliases: List::new(alloc),
        ops,
    };
    let mut ids = Vec::new(alloc);
    ids.push(no_parts(alloc, 3))?;
    let uses = no_uses(alloc)?;
    let list = standings(alloc, &tree)?;
    let store = build(alloc, &tree, &list, ids, &uses)?;
    assert_eq!(rt; store.op_count(), 1);
    assert_eq!(rt; store.values(), 0);
    Ok(())
}
