//! The definitions that the values are judged by.

use attr_value::{BaseKind, List, Text};
use dialect_defs::{Arity, BaseRef, Body, Constraint, Entry, TypeDef, VarId};
use std::alloc::{AllocError, Global};

/// Constraints of so many variables that ask nothing.
fn anything(alloc: Global, count: usize) -> Result<List<Constraint>, AllocError> {
    let mut vars = List::new(alloc);
    for _ in 0..count {
        vars.push(Constraint::Any)?;
    }
    Ok(vars)
}

/// The constraint of one variable, a number.
fn a_number(alloc: Global) -> Result<List<Constraint>, AllocError> {
    let mut vars = List::new(alloc);
    vars.push(Constraint::Base(BaseRef::Builtin(BaseKind::IntegerAttr)))?;
    Ok(vars)
}

/// A type or an attribute with a parameter for each variable.
fn definition(
    alloc: Global,
    is_type: bool,
    name: &[u8],
    vars: List<Constraint>,
) -> Result<TypeDef, AllocError> {
    let mut params = List::new(alloc);
    for var in 0..vars.len() {
        params.push(Entry {
            name: None,
            arity: Arity::Single,
            var: VarId(var),
        })?;
    }
    Ok(TypeDef {
        is_type,
        name: Text::from_slice(alloc, name)?,
        body: Body { vars },
        params,
    })
}

/// All definitions.
pub fn definitions(alloc: Global) -> Result<Vec<TypeDef>, AllocError> {
    let mut types = Vec::new(alloc);
    types.push(definition(alloc, true, b"d.t", anything(alloc, 0)?)?)?;
    types.push(definition(alloc, true, b"d.pair", anything(alloc, 2)?)?)?;
    types.push(definition(alloc, false, b"d.num", a_number(alloc)?)?)?;
    Ok(types)
}
