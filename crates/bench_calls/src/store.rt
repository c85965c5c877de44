//! Modules: built operation by operation, and verified.

ghost use Rattle.std.specs.Prelude.{IfOk};
ghost use Rattle.ir_store.specs.Named.{AttrsAreRight};
ghost use Rattle.ir_store.specs.Store.{head_of};

use attr_uniquer::Uniquer;
use attr_value::{Head, IntKind, List, Text, ValueId};
use dialect_defs::{Arity, Body, Constraint, Entry, OpDef, VarId};
use ir_store::{OpRow, Store};
use native_predicate::Natives;
use op_verifier::{are_sound_ops, can_judge, verify};
use smallvec::SmallVec;
use std::alloc::{AllocError, Global};

/// A single entry of the first variable.
fn entry(alloc: Global, name: &[u8]) -> Result<Entry, AllocError> {
    Ok(Entry {
        name: Some(Text::from_slice(alloc, name)?),
        arity: Arity::Single,
        var: VarId(0),
    })
}

/// The operation `soak.add`, whose operands and result have one type.
fn add(alloc: Global) -> Result<OpDef, AllocError> {
    let mut vars = List::new(alloc);
    vars.push(Constraint::Any)?;
    let mut operands = List::new(alloc);
    operands.push(entry(alloc, b"a")?)?;
    operands.push(entry(alloc, b"b")?)?;
    let mut results = List::new(alloc);
    results.push(entry(alloc, b"r")?)?;
    Ok(OpDef {
        name: Text::from_slice(alloc, b"soak.add")?,
        body: Body { vars },
        operands,
        results,
        attrs: List::new(alloc),
        regions: List::new(alloc),
        successors: List::new(alloc),
        terminator: false,
        format: None,
    })
}

/// The row of an operation of two operands and a result.
fn row(alloc: Global, operands: [usize; 2], kind: ValueId) -> Result<OpRow, AllocError>
    ensures { IfOk result (λ row. AttrsAreRight (head_of row)) }
{
    Ok(OpRow {
        def: 0,
        place: 0,
        operands: SmallVec::from_slice(alloc, &operands)?,
        results: SmallVec::from_slice(alloc, &[kind])?,
        successors: SmallVec::new(alloc),
        keys: List::new(alloc),
        values: List::new(alloc),
    })
}

/// A module of so many operations, each over earlier values.
fn module(alloc: Global, count: u32, kind: ValueId) -> Result<Store, AllocError> {
    let mut store = Store::new(alloc);
    for n in 0..count {
        let n = n as usize;
        store.add_op(None, row(alloc, [n.saturating_sub(1), n / 2], kind)?)?;
    }
    Ok(store)
}

/// How many operations were built and meet their definition, or 0 where one doesn't.
pub(crate) fn verify_module(alloc: Global, count: u32) -> Result<usize, AllocError> {
    let mut u = Uniquer::new(alloc);
    let kind = u.intern(Head::Int(IntKind::Signless(64)), &[])?;
    let mut defs = Vec::new(alloc);
    defs.push(add(alloc)?)?;
    let natives = Natives::new(Vec::new(alloc));
    let store = module(alloc, count, kind)?;
    if !are_sound_ops(&defs, u.len(), natives.len()) || !can_judge(&store, defs.len(), u.len()) {
        return Ok(0);
    }
    match verify(&defs, &natives, &u, &store) {
        Ok(()) => Ok(store.op_count()),
        Err(_) => Ok(0),
    }
}
