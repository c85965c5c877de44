//! Types and attributes as far as their names and the numbers of their parameters go.

ghost use Rattle.std.specs.Prelude.{◌≡◌, ◌++◌, map, IfOk, OnOk};
ghost use Rattle.dialect_registry.specs.ConstantFaults as spec;
ghost use Rattle.dialect_registry.specs.Resolved.{located, located_in, located_of, types_among};

use crate::resolve::{full_name, parameters_in};
use attr_value::List;
use dialect_defs::{Arity, Body, Constraint, Entry, TypeDef, VarId};
use irdl_ops::{DefKind, RawDef, RawDefs, RawDialect};
use std::alloc::{AllocError, Global};

/// So many variables of which nothing is asked, and as many parameters, each with its own of these.
fn own_vars(alloc: Global, count: usize) -> Result<(List<Constraint>, List<Entry>), AllocError>
    ensures vars { IfOk result (λ own. own.0 ≡ spec.free_vars count) }
    ensures params { IfOk result (λ own. own.1 ≡ spec.own_params count) }
{
    let mut vars = List::new(alloc);
    let mut params = List::new(alloc);
    for i in 0..count {
        vars.push(Constraint::Any)?;
        params.push(Entry {
            name: None,
            arity: Arity::Single,
            var: VarId(i),
        })?;
    }
    vars.trim();
    params.trim();
    Ok((vars, params))
}

/// The shape of a type or an attribute of a dialect.
fn shape(alloc: Global, own: &[u8], def: &RawDef) -> Result<TypeDef, AllocError>
    ensures { IfOk result (λ shape. shape ≡ spec.shape_of (located own.now def.now)) }
{
    let count = parameters_in(def.statements.as_slice()).len();
    let (vars, params) = own_vars(alloc, count)?;
    Ok(TypeDef {
        is_type: matches!(def.kind, DefKind::OfType),
        name: full_name(alloc, own, def.name.bytes())?,
        body: Body { vars },
        params,
    })
}

/// Adds the shapes of a dialect.
fn add_dialect(
    alloc: Global,
    shapes: &mut Vec<TypeDef>,
    dialect: &RawDialect,
) -> Result<(), AllocError>
    ensures { OnOk result (shapes.new.items ≡
        shapes.old.items ++ map spec.shape_of (types_among (located_of dialect.now))) }
{
    for def in dialect.defs.as_slice() {
        match def.kind {
            DefKind::OfType | DefKind::OfAttr => {
                shapes.push(shape(alloc, dialect.name.bytes(), def)?)?;
            }
            DefKind::OfOp => {}
        }
    }
    Ok(())
}

/// The shapes of the types and attributes of some files, in the order of the text.
pub fn shapes(alloc: Global, files: &[RawDefs]) -> Result<Vec<TypeDef>, AllocError>
    ensures { IfOk result (λ shapes. shapes.items ≡ spec.shapes_of files.now) }
{
    let mut shapes = Vec::new(alloc);
    for file in files {
        add_file(alloc, &mut shapes, file)?;
    }
    Ok(shapes)
}

/// Adds the shapes of a file.
fn add_file(alloc: Global, shapes: &mut Vec<TypeDef>, file: &RawDefs) -> Result<(), AllocError>
    ensures { OnOk result (shapes.new.items ≡ shapes.old.items
        ++ map spec.shape_of (types_among (located_in file.now.dialects))) }
{
    for dialect in file.dialects.as_slice() {
        add_dialect(alloc, shapes, dialect)?;
    }
    Ok(())
}
