//! Modules over no definitions.

use super::*;
use attr_uniquer::Uniquer;
use attr_value::{List, Text};
use dialect_registry::load;
use first_fault::Fault;
use generic_syntax::{FormCst, GenericCst, ModuleCst, OpCst};
use ir_store::Store;
use native_predicate::Natives;
use std::alloc::{AllocError, Global};
use std::process::Abort;

/// The tree of `"t.a"() : () -> ()`, whose name stands at a place.
fn operation(alloc: Global, place: u32) -> Result<OpCst, AllocError> {
    Ok(OpCst {
        place,
        results: List::new(alloc),
        form: FormCst::Generic(GenericCst {
            name: Text::from_slice(alloc, b"t.a")?,
            operands: List::new(alloc),
            successors: List::new(alloc),
            props: List::new(alloc),
            regions: List::new(alloc),
            attrs: List::new(alloc),
            inputs: List::new(alloc),
            outputs: List::new(alloc),
        }),
    })
}

/// What a module of these operations is, where nothing is defined.
fn elaborated(alloc: Global, ops: List<OpCst>) -> Result<Store, ModStop> {
    let natives = Natives::new(Vec::new(alloc));
    let mut u = Uniquer::new(alloc);
    let registry = match load(alloc, &[], &natives, &mut u) {
        Ok(registry) => registry,
        Err(_) => return Err(ModStop::OutOfMemory),
    };
    let aliases = List::new(alloc);
    elaborate(
        alloc,
        &registry,
        &natives,
        &mut u,
        &ModuleCst { aliases, ops },
    )
}

#[test]
fn a_module_without_operations_has_an_empty_store(rt: HostRuntime) -> Result<(), AllocError> {
    let alloc = rt.alloc();
    match elaborated(alloc, List::new(alloc)) {
        Ok(store) => assert_eq!(rt; store.op_count(), 0),
        Err(stop) => assert_eq!(rt; stop, ModStop::OutOfMemory),
    }
    Ok(())
}

#[test]
fn an_operation_without_a_definition_is_refused(rt: HostRuntime) -> Result<(), AllocError> {
    let alloc = rt.alloc();
    let mut ops = List::new(alloc);
    ops.push(operation(alloc, 7)?)?;
    let unknown = Fault { place: 7, code: 17 };
    let refused = elaborated(alloc, ops).err();
    assert!(rt; refused == Some(ModStop::Refused(unknown)));
    Ok(())
}
