//! A walk over the tree of a module that notes each name.

ghost use Rattle.std.specs.Prelude.{OnOk};
ghost use Rattle.module_names.specs.ModuleNotes.{
  module_notes,
  ops_notes,
  form_notes,
  generic_notes,
  custom_notes,
  part_own,
  part_regions,
  region_notes,
  blocks_notes,
};
ghost use Rattle.module_names.specs.Said.{Said, noted};

use crate::mentions::{note_entries, note_maybe, note_values};
use crate::names::{
    note_aliases, note_arguments, note_label, note_results, note_successor, note_successors,
    note_uses,
};
use generic_syntax::{
    BlockCst, CustomCst, FormCst, GenericCst, ModuleCst, OpCst, PartCst, RegionCst,
};
use std::alloc::AllocError;
use symbol_scopes::Scopes;

/// Notes the names of a module: its aliases, and then its operations with all that stands in them.
///
/// An alias is noted behind the mentions in its own value, the results of an operation before its
/// regions, and the arguments of a block before its operations. Places are those of the tree.
pub fn note_module(scopes: &mut Scopes, tree: &ModuleCst) -> Result<(), AllocError>
    ensures { OnOk result (Said scopes.old scopes.new (module_notes tree.now)) }
{
    note_aliases(scopes, tree.aliases.as_slice())?;
    note_ops(scopes, tree.ops.as_slice())
}

#[cycle(notes)]
fn note_ops(scopes: &mut Scopes, ops: &[OpCst]) -> Result<(), AllocError>
    ensures { OnOk result (Said scopes.old scopes.new (ops_notes ops.now)) }
{
    for op in ops {
        note_results(scopes, op.results.as_slice())?;
        note_form(scopes, &op.form)?;
    }
    Ok(())
}

#[cycle(notes)]
fn note_form(scopes: &mut Scopes, form: &FormCst) -> Result<(), AllocError>
    ensures { OnOk result (Said scopes.old scopes.new (form_notes form.now)) }
{
    match form {
        FormCst::Generic(g) => note_generic(scopes, g),
        FormCst::Custom(c) => note_custom(scopes, c),
    }
}

#[cycle(notes)]
fn note_generic(scopes: &mut Scopes, g: &GenericCst) -> Result<(), AllocError>
    ensures { OnOk result (Said scopes.old scopes.new (generic_notes g.now)) }
{
    note_uses(scopes, g.operands.as_slice())?;
    note_successors(scopes, g.successors.as_slice())?;
    note_entries(scopes, g.props.as_slice())?;
    note_entries(scopes, g.attrs.as_slice())?;
    note_values(scopes, g.inputs.as_slice())?;
    note_values(scopes, g.outputs.as_slice())?;
    note_regions(scopes, g.regions.as_slice())
}

#[cycle(notes)]
fn note_custom(scopes: &mut Scopes, c: &CustomCst) -> Result<(), AllocError>
    ensures { OnOk result (Said scopes.old scopes.new (custom_notes c.now)) }
{
    note_own_parts(scopes, c.parts.as_slice())?;
    note_part_regions(scopes, c.parts.as_slice())
}

/// Notes what parts say themselves, without their regions.
#[cycle(own)]
fn note_own_parts(scopes: &mut Scopes, parts: &[PartCst]) -> Result<(), AllocError>
    ensures { OnOk result (Said scopes.old scopes.new (noted part_own parts.now)) }
{
    for part in parts {
        note_own_part(scopes, part)?;
    }
    Ok(())
}

#[cycle(own)]
fn note_own_part(scopes: &mut Scopes, part: &PartCst) -> Result<(), AllocError>
    ensures { OnOk result (Said scopes.old scopes.new (part_own part.now)) }
{
    match part {
        PartCst::Uses(uses) => note_uses(scopes, uses.as_slice()),
        PartCst::Value(value) => note_maybe(scopes, value),
        PartCst::Successor(s) => note_successor(scopes, s),
        PartCst::Types(types) => note_values(scopes, types.as_slice()),
        PartCst::Functional { inputs, outputs } => {
            note_values(scopes, inputs.as_slice())?;
            note_values(scopes, outputs.as_slice())
        }
        PartCst::Dict(entries) => note_entries(scopes, entries.as_slice()),
        PartCst::Group { parts, .. } => note_own_parts(scopes, parts.as_slice()),
        PartCst::SymbolName(_) | PartCst::IntText(_) | PartCst::Region(_) => Ok(()),
    }
}

/// Notes what the regions of parts say.
#[cycle(notes)]
fn note_part_regions(scopes: &mut Scopes, parts: &[PartCst]) -> Result<(), AllocError>
    ensures { OnOk result (Said scopes.old scopes.new (noted part_regions parts.now)) }
{
    for part in parts {
        note_regions_of(scopes, part)?;
    }
    Ok(())
}

#[cycle(notes)]
fn note_regions_of(scopes: &mut Scopes, part: &PartCst) -> Result<(), AllocError>
    ensures { OnOk result (Said scopes.old scopes.new (part_regions part.now)) }
{
    match part {
        PartCst::Region(region) => note_region(scopes, region),
        PartCst::Group { parts, .. } => note_part_regions(scopes, parts.as_slice()),
        _ => Ok(()),
    }
}

#[cycle(notes)]
fn note_regions(scopes: &mut Scopes, regions: &[RegionCst]) -> Result<(), AllocError>
    ensures { OnOk result (Said scopes.old scopes.new (noted region_notes regions.now)) }
{
    for region in regions {
        note_region(scopes, region)?;
    }
    Ok(())
}

#[cycle(notes)]
fn note_region(scopes: &mut Scopes, region: &RegionCst) -> Result<(), AllocError>
    ensures { OnOk result (Said scopes.old scopes.new (region_notes region.now)) }
{
    scopes.enter()?;
    note_blocks(scopes, region.blocks.as_slice())?;
    scopes.leave()
}

#[cycle(notes)]
fn note_blocks(scopes: &mut Scopes, blocks: &[BlockCst]) -> Result<(), AllocError>
    ensures { OnOk result (Said scopes.old scopes.new (blocks_notes blocks.now)) }
{
    let mut number = 0;
    for block in blocks {
        note_label(scopes, &block.label, number)?;
        note_arguments(scopes, block.args.as_slice())?;
        note_ops(scopes, block.ops.as_slice())?;
        number += 1;
    }
    Ok(())
}
