//! The entries of definitions.

ghost use Rattle.std.specs.Prelude.{◌≡◌, map, IfOk, option_map};
ghost use Rattle.dialect_registry.specs.Resolved as spec;
ghost use Rattle.dialect_registry.specs.Resolving.{constraints_of, region_at};

use crate::resolve::names::{BodyNames, Region};
use attr_value::{List, Text};
use dialect_defs::{AttrEntry, Entry, RegionEntry, VarId};
use generic_syntax::NameCst;
use irdl_ops::{RawAttr, RawEntry};
use std::alloc::{AllocError, Global};

/// The variables of some names.
pub fn variables(
    alloc: Global,
    names: &BodyNames,
    vars: &[NameCst],
) -> Result<List<VarId>, AllocError>
    ensures { IfOk result (λ list. list ≡ spec.variables (constraints_of names.now) vars.now) }
{
    let mut list = List::new(alloc);
    for var in vars {
        list.push(names.variable(var))?;
    }
    list.trim();
    Ok(list)
}

/// The name of an entry, where it has one.
fn label(alloc: Global, name: &Option<NameCst>) -> Result<Option<Text>, AllocError>
    ensures { IfOk result (λ label. label ≡ spec.label name.now) }
{
    match name {
        Some(name) => Ok(Some(Text::from_slice(alloc, name.name.bytes())?)),
        None => Ok(None),
    }
}

fn entry(alloc: Global, names: &BodyNames, raw: &RawEntry) -> Result<Entry, AllocError>
    ensures { IfOk result (λ entry. entry ≡ spec.entry_of (constraints_of names.now) raw.now) }
{
    Ok(Entry {
        name: label(alloc, &raw.name)?,
        arity: raw.arity,
        var: names.variable(&raw.var),
    })
}

/// Entries of parameters, operands or results.
pub fn entries(
    alloc: Global,
    names: &BodyNames,
    raw: &[RawEntry],
) -> Result<List<Entry>, AllocError>
    ensures { IfOk result (λ list. list ≡
        map (spec.entry_of (constraints_of names.now)) raw.now) }
{
    let mut list = List::new(alloc);
    for one in raw {
        list.push(entry(alloc, names, one)?)?;
    }
    list.trim();
    Ok(list)
}

fn attr(alloc: Global, names: &BodyNames, raw: &RawAttr) -> Result<AttrEntry, AllocError>
    ensures { IfOk result (λ entry. entry ≡ spec.attr_of (constraints_of names.now) raw.now) }
{
    Ok(AttrEntry {
        name: Text::from_slice(alloc, raw.name.text.bytes())?,
        optional: raw.optional,
        unit: names.is_unit(raw.var.name.bytes()),
        var: names.variable(&raw.var),
    })
}

/// Entries of attributes.
pub fn attrs(
    alloc: Global,
    names: &BodyNames,
    raw: &[RawAttr],
) -> Result<List<AttrEntry>, AllocError>
    ensures { IfOk result (λ list. list ≡
        map (spec.attr_of (constraints_of names.now)) raw.now) }
{
    let mut list = List::new(alloc);
    for one in raw {
        list.push(attr(alloc, names, one)?)?;
    }
    list.trim();
    Ok(list)
}

/// The arguments of a region, where they are declared.
fn args(
    alloc: Global,
    names: &BodyNames,
    args: &Option<List<NameCst>>,
) -> Result<Option<List<VarId>>, AllocError>
    ensures { IfOk result (λ found. found ≡
        option_map (spec.variables (constraints_of names.now)) args.now) }
{
    match args {
        Some(args) => Ok(Some(variables(alloc, names, args.as_slice())?)),
        None => Ok(None),
    }
}

fn region(alloc: Global, names: &BodyNames, raw: &RawEntry) -> Result<RegionEntry, AllocError>
    ensures { IfOk result (λ entry. entry ≡ spec.region_by (constraints_of names.now)
        (spec.label raw.now.name) (region_at names.now raw.now.var.name)) }
{
    let name = label(alloc, &raw.name)?;
    match names.region(raw.var.name.bytes()) {
        Some(said) => Ok(RegionEntry {
            name,
            args: args(alloc, names, said.args)?,
            size: said.size,
        }),
        None => Ok(RegionEntry {
            name,
            args: None,
            size: None,
        }),
    }
}

/// Entries of regions.
pub fn regions(
    alloc: Global,
    names: &BodyNames,
    raw: &[RawEntry],
) -> Result<List<RegionEntry>, AllocError>
    ensures { IfOk result (λ list. list ≡ map (λ entry. spec.region_by (constraints_of names.now)
        (spec.label entry.name) (region_at names.now entry.var.name)) raw.now) }
{
    let mut list = List::new(alloc);
    for one in raw {
        list.push(region(alloc, names, one)?)?;
    }
    list.trim();
    Ok(list)
}

/// The names of successors.
pub fn successors(alloc: Global, raw: &[NameCst]) -> Result<List<Text>, AllocError>
    ensures { IfOk result (λ list. list ≡ map (λ name. name.name) raw.now) }
{
    let mut list = List::new(alloc);
    for name in raw {
        list.push(Text::from_slice(alloc, name.name.bytes())?)?;
    }
    list.trim();
    Ok(list)
}
