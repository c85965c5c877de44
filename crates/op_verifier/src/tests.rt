//! Which operations meet which definitions, and which one is named. Expected values are written by
//! hand.
ghost use Rattle.std.specs.Prelude.{IfOk, OnOk, IsOk};
ghost use Rattle.ir_store.specs.Named.{AttrsAreRight};
ghost use Rattle.ir_store.specs.Growth.{in_block, in_op, in_region, IsOpen};
ghost use Rattle.ir_store.specs.Store.{head_of};

use super::*;
use attr_uniquer::Uniquer;
use attr_value::{Head, IntKind, List, Text, ValueId};
use dialect_defs::{Arity, AttrEntry, Body, Constraint, Entry, OpDef, RegionEntry, VarId};
use ir_store::{BlockId, OpId, OpRow, Store};
use native_predicate::Natives;
use smallvec::SmallVec;
use std::alloc::{AllocError, Global};
use std::process::Abort;
use std::test::Fail;

/// What `verify` says, where the module is one that it takes.
fn verified(
    rt: &impl Abort,
    defs: &[OpDef],
    natives: &Natives,
    u: &Uniquer,
    store: &Store,
) -> Result<(), OpPlace> {
    assert!(rt; are_sound_ops(defs, u.len(), natives.len()));
    assert!(rt; can_judge(store, defs.len(), u.len()));
    verify(defs, natives, u, store)
}

/// What `meets` says, where it takes the operation and the types of its operands.
fn met(
    rt: &impl Abort,
    defs: &[OpDef],
    natives: &Natives,
    u: &Uniquer,
    store: &Store,
    op: OpId,
    operands: &[ValueId],
) -> bool {
    assert!(rt; are_sound_ops(defs, u.len(), natives.len()));
    assert!(rt; has_ids(store, u.len()));
    assert!(rt; are_known(u.len(), operands));
    assert!(rt; op.0 < store.op_count());
    let row = store.op(op);
    assert!(rt; row.def < defs.len());
    assert!(rt; row.operands.as_slice().len() == operands.len());
    meets(defs, natives, u, store, op, operands)
}

/// A definition of two variables, of which all is allowed, without entries.
fn definition(alloc: Global) -> Result<OpDef, AllocError> {
    let mut vars = List::new(alloc);
    vars.push(Constraint::Any)?;
    vars.push(Constraint::Any)?;
    Ok(OpDef {
        name: Text::from_slice(alloc, b"t.op")?,
        body: Body { vars },
        operands: List::new(alloc),
        results: List::new(alloc),
        attrs: List::new(alloc),
        regions: List::new(alloc),
        successors: List::new(alloc),
        terminator: false,
        format: None,
    })
}

fn entry(arity: Arity, var: usize) -> Entry {
    Entry {
        name: None,
        arity,
        var: VarId(var),
    }
}

/// A row without attributes, with these operands and results.
fn row(
    alloc: Global,
    place: u32,
    operands: &[usize],
    results: &[ValueId],
) -> Result<OpRow, AllocError>
    ensures { IfOk result (λ row. AttrsAreRight (head_of row)) }
{
    Ok(OpRow {
        def: 0,
        place,
        operands: SmallVec::from_slice(alloc, operands)?,
        results: SmallVec::from_slice(alloc, results)?,
        successors: SmallVec::new(alloc),
        keys: List::new(alloc),
        values: List::new(alloc),
    })
}

/// A row of two operands with one attribute.
fn row_with(
    alloc: Global,
    operands: &[usize],
    key: &[u8],
    value: ValueId,
) -> Result<OpRow, AllocError>
    ensures { IfOk result (λ row. AttrsAreRight (head_of row)) }
{
    let mut keys = List::new(alloc);
    keys.push(Text::from_slice(alloc, key)?)?;
    let mut values = List::new(alloc);
    values.push(value)?;
    Ok(OpRow {
        def: 0,
        place: 7,
        operands: SmallVec::from_slice(alloc, operands)?,
        results: SmallVec::new(alloc),
        successors: SmallVec::new(alloc),
        keys,
        values,
    })
}

/// A list of one definition.
fn listed(alloc: Global, def: OpDef) -> Result<List<OpDef>, AllocError> {
    let mut defs = List::new(alloc);
    defs.push(def)?;
    Ok(defs)
}

/// A definition of at most one operand, and of any number of results of its type.
fn of_one_type(alloc: Global) -> Result<List<OpDef>, AllocError> {
    let mut def = definition(alloc)?;
    def.operands.push(entry(Arity::Optional, 0))?;
    def.results.push(entry(Arity::Variadic, 0))?;
    listed(alloc, def)
}

/// The signless integer type of a width.
fn integer(u: &mut Uniquer, width: u32) -> Result<ValueId, AllocError> {
    u.intern(Head::Int(IntKind::Signless(width)), &[])
}

#[test]
fn first_fault_is_named_with_its_place(rt: HostRuntime) -> Result<(), Fail> {
    let alloc = rt.alloc();
    let mut u = Uniquer::new(alloc);
    let i32 = integer(&mut u, 32)?;
    let i64 = integer(&mut u, 64)?;
    let natives = Natives::new(Vec::new(alloc));
    let defs = of_one_type(alloc)?;
    let mut store = Store::new(alloc);
    store.add_op(None, row(alloc, 10, &[], &[i32, i32])?)?;
    store.add_op(None, row(alloc, 20, &[1], &[i32])?)?;
    assert_eq!(rt;
        verified(&rt, defs.as_slice(), &natives, &u, &store),
        Ok(())
    );
    store.add_op(None, row(alloc, 30, &[1], &[i32, i64])?)?;
    store.add_op(None, row(alloc, 40, &[1, 1], &[])?)?;
    let fault = OpPlace {
        op: OpId(2),
        place: 30,
    };
    assert_eq!(rt;
        verified(&rt, defs.as_slice(), &natives, &u, &store),
        Err(fault)
    );
    Ok(())
}

/// Whether an operation with an operand and a result of 32 bits, which are to be of one type, meets
/// its definition where its operand is given an integer type of this width.
fn meets_with(
    rt: &impl Abort,
    alloc: Global,
    natives: &Natives,
    width: u32,
) -> Result<bool, AllocError> {
    let defs = of_one_type(alloc)?;
    let mut u = Uniquer::new(alloc);
    let i32 = integer(&mut u, 32)?;
    let given = integer(&mut u, width)?;
    let mut store = Store::new(alloc);
    store.add_op(None, row(alloc, 10, &[0], &[i32])?)?;
    Ok(met(rt, defs.as_slice(), natives, &u, &store, OpId(0), &[given]))
}

#[test]
fn operands_have_the_types_that_are_given(rt: HostRuntime) -> Result<(), Fail> {
    let natives = Natives::new(Vec::new(rt.alloc()));
    for (width, want) in [(32, true), (64, false)] {
        assert_eq!(rt; meets_with(&rt, rt.alloc(), &natives, width)?, want);
    }
    Ok(())
}

/// A dense array of integers of a width.
fn dense(alloc: Global, u: &mut Uniquer, width: u32, items: &[i64]) -> Result<ValueId, AllocError> {
    let items = List::from_slice(alloc, items)?;
    u.intern(Head::Dense { width, items }, &[])
}

/// Whether two operands fall into two segments by an attribute.
fn fall_into_segments(
    rt: &impl Abort,
    alloc: Global,
    defs: &[OpDef],
    natives: &Natives,
    key: &[u8],
    width: u32,
    items: &[i64],
) -> Result<bool, AllocError> {
    let mut u = Uniquer::new(alloc);
    let i32 = integer(&mut u, 32)?;
    let sizes = dense(alloc, &mut u, width, items)?;
    let mut store = Store::new(alloc);
    store.add_op(None, row_with(alloc, &[0, 0], key, sizes)?)?;
    store.add_op(None, row(alloc, 9, &[], &[i32])?)?;
    match verified(rt, defs, natives, &u, &store) {
        Ok(()) => Ok(true),
        Err(fault) => Ok(fault.op.0 > 0),
    }
}

const SIZES: &[(&str, u32, &[i64], bool)] = &[
    ("operandSegmentSizes", 32, &[2, 0], true),
    ("operandSegmentSizes", 32, &[0, 2], true),
    ("operandSegmentSizes", 32, &[1, 0], false),
    ("operandSegmentSizes", 32, &[3, -1], false),
    ("operandSegmentSizes", 32, &[2], false),
    ("operandSegmentSizes", 64, &[2, 0], false),
    ("resultSegmentSizes", 32, &[2, 0], false),
];

#[test]
fn sizes_of_segments_come_from_an_attribute(rt: HostRuntime) -> Result<(), Fail> {
    let alloc = rt.alloc();
    let natives = Natives::new(Vec::new(alloc));
    let mut def = definition(alloc)?;
    def.operands.push(entry(Arity::Variadic, 0))?;
    def.operands.push(entry(Arity::Variadic, 1))?;
    let defs = listed(alloc, def)?;
    for (key, width, items, meets) in SIZES {
        let found = fall_into_segments(
            &rt,
            alloc,
            defs.as_slice(),
            &natives,
            key.as_bytes(),
            *width,
            items,
        )?;
        assert_eq!(rt; found, *meets);
    }
    Ok(())
}

/// A definition of an attribute `a`, which is the value of this id.
fn of_one_attribute(
    alloc: Global,
    optional: bool,
    unit: ValueId,
) -> Result<List<OpDef>, AllocError> {
    let mut def = definition(alloc)?;
    def.body.vars.push(Constraint::Is(unit))?;
    def.attrs.push(AttrEntry {
        name: Text::from_slice(alloc, b"a")?,
        optional,
        unit: true,
        var: VarId(2),
    })?;
    listed(alloc, def)
}

/// Whether an operation with the unit attribute, or with a string, at a key meets a definition of
/// an attribute `a` that is the unit attribute.
fn has_unit(
    rt: &impl Abort,
    alloc: Global,
    natives: &Natives,
    optional: bool,
    key: &[u8],
    is_unit: bool,
) -> Result<bool, AllocError> {
    let mut u = Uniquer::new(alloc);
    let unit = u.intern(Head::Unit, &[])?;
    let other = u.intern(Head::Str(Text::from_slice(alloc, b"x")?), &[])?;
    let defs = of_one_attribute(alloc, optional, unit)?;
    let mut store = Store::new(alloc);
    let value = if is_unit { unit } else { other };
    store.add_op(None, row_with(alloc, &[], key, value)?)?;
    Ok(verified(rt, defs.as_slice(), natives, &u, &store).is_ok())
}

const ATTRS: &[(bool, &str, bool, bool)] = &[
    (false, "a", true, true),
    (false, "a", false, false),
    (false, "b", true, false),
    (true, "a", true, true),
    (true, "a", false, false),
    (true, "b", false, true),
];

#[test]
fn attributes_are_those_that_are_declared(rt: HostRuntime) -> Result<(), Fail> {
    let natives = Natives::new(Vec::new(rt.alloc()));
    for (optional, key, is_unit, meets) in ATTRS {
        let found = has_unit(
            &rt,
            rt.alloc(),
            &natives,
            *optional,
            key.as_bytes(),
            *is_unit,
        )?;
        assert_eq!(rt; found, *meets);
    }
    Ok(())
}

/// Puts an operation with one region at top level. The region has a block with these arguments, if
/// any are given, and then another without arguments, if that is wanted.
fn region_with(
    alloc: Global,
    store: &mut Store,
    args: Option<&[ValueId]>,
    another: bool,
) -> Result<(), AllocError> {
    let op = store.add_op(None, row(alloc, 3, &[], &[])?)?;
    let region = store.add_region(op)?;
    let Some(args) = args else {
        return Ok(());
    };
    store.add_block(region, args)?;
    if another {
        store.add_block(region, &[])?;
    }
    Ok(())
}

/// A definition of one region.
fn of_one_region(
    alloc: Global,
    declared: Option<&[VarId]>,
    size: Option<u32>,
) -> Result<List<OpDef>, AllocError> {
    let args = match declared {
        Some(vars) => Some(List::from_slice(alloc, vars)?),
        None => None,
    };
    let mut def = definition(alloc)?;
    def.regions.push(RegionEntry {
        name: None,
        args,
        size,
    })?;
    listed(alloc, def)
}

/// The signless integer types of these widths.
fn integers(alloc: Global, u: &mut Uniquer, widths: &[u32]) -> Result<List<ValueId>, AllocError> {
    let mut types = List::new(alloc);
    for width in widths {
        types.push(integer(u, *width)?)?;
    }
    Ok(types)
}

/// Whether an operation with one region meets a definition. Arguments are integers of these widths.
fn has_region(
    rt: &impl Abort,
    alloc: Global,
    natives: &Natives,
    declared: Option<&[VarId]>,
    size: Option<u32>,
    args: Option<&[u32]>,
    another: bool,
) -> Result<bool, AllocError> {
    let defs = of_one_region(alloc, declared, size)?;
    let mut u = Uniquer::new(alloc);
    let types = integers(alloc, &mut u, args.unwrap_or(&[]))?;
    let args = match args {
        Some(_) => Some(types.as_slice()),
        None => None,
    };
    let mut store = Store::new(alloc);
    region_with(alloc, &mut store, args, another)?;
    Ok(verified(rt, defs.as_slice(), natives, &u, &store).is_ok())
}

/// The declared arguments, the declared number of blocks, the widths of the first block's
/// arguments, if there is a block, whether there is another, and whether the operation meets.
type RegionRow = (
    Option<&'static [VarId]>,
    Option<u32>,
    Option<&'static [u32]>,
    bool,
    bool,
);

const REGIONS: &[RegionRow] = &[
    (Some(&[VarId(0)]), None, Some(&[]), false, false),
    (Some(&[VarId(0)]), None, None, false, false),
    (Some(&[VarId(0)]), None, Some(&[32]), false, true),
    (
        Some(&[VarId(0), VarId(0)]),
        None,
        Some(&[32, 32]),
        false,
        true,
    ),
    (
        Some(&[VarId(0), VarId(0)]),
        None,
        Some(&[32, 64]),
        false,
        false,
    ),
    (Some(&[]), None, None, false, true),
    (None, None, Some(&[32]), true, true),
    (None, Some(2), Some(&[]), false, false),
    (None, Some(2), Some(&[]), true, true),
];

#[test]
fn regions_have_the_declared_blocks_and_arguments(rt: HostRuntime) -> Result<(), Fail> {
    let natives = Natives::new(Vec::new(rt.alloc()));
    for (declared, size, args, another, meets) in REGIONS {
        let found = has_region(&rt, rt.alloc(), &natives, *declared, *size, *args, *another)?;
        assert_eq!(rt; found, *meets);
    }
    Ok(())
}
