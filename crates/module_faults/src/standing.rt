//! A walk over the tree of a module that lists what stands in it.

ghost use Rattle.std.specs.Prelude.{◌≡◌, ◌++◌, map, IfOk, OnOk};
ghost use Rattle.module_faults.specs.Listed.{seen, form_standings};
ghost use Rattle.module_faults.specs.Standings.{
  deeper as deeper_than,
  standings as standings_of,
  ops_standings,
  regions_standings,
  blocks_standings,
};

use attr_value::DEPTH_LIMIT;
use generic_syntax::{BlockCst, FormCst, ModuleCst, OpCst, RegionCst};
use std::alloc::{AllocError, Global};

/// What stands in the tree of a module, where it stands.
#[derive(Clone, Copy, Drop)]
pub enum Standing<'a> {
    /// An operation, and whether it is the last of its block, or of the top level.
    Op { op: &'a OpCst, is_last: bool },
    /// A region. Its nesting is 1 where no other is round it, and is counted no further than 65.
    Region { region: &'a RegionCst, nesting: u32 },
    Block(&'a BlockCst),
}

/// What stands in a module: operations, regions and blocks, each before what stands in it.
pub fn standings<'a>(alloc: Global, tree: &'a ModuleCst) -> Result<Vec<Standing<'a>>, AllocError>
    ensures { IfOk result (λ list. map seen list.items ≡ standings_of tree.now) }
{
    let mut list = Vec::new(alloc);
    list_ops(tree.ops.as_slice(), 0, &mut list)?;
    Ok(list)
}

/// The nesting of a region with so many regions round it.
fn deeper(around: u32) -> u32
    ensures { result ≡ deeper_than around }
{
    if around < DEPTH_LIMIT as u32 {
        around + 1
    } else {
        DEPTH_LIMIT as u32 + 1
    }
}

#[cycle(listing)]
fn list_ops<'a>(
    ops: &'a [OpCst],
    around: u32,
    list: &mut Vec<Standing<'a>>,
) -> Result<(), AllocError>
    ensures { OnOk result
        (map seen list.new.items ≡ map seen list.old.items ++ ops_standings around ops.now) }
{
    for (i, op) in ops.iter().enumerate() {
        list.push(Standing::Op {
            op,
            is_last: i + 1 == ops.len(),
        })?;
        list_form(&op.form, around, list)?;
    }
    Ok(())
}

/// Lists what stands in the regions of a form. In a custom one nothing stands.
#[cycle(listing)]
fn list_form<'a>(
    form: &'a FormCst,
    around: u32,
    list: &mut Vec<Standing<'a>>,
) -> Result<(), AllocError>
    ensures { OnOk result
        (map seen list.new.items ≡ map seen list.old.items ++ form_standings around form.now) }
{
    match form {
        FormCst::Generic(g) => list_regions(g.regions.as_slice(), around, list),
        FormCst::Custom(_) => Ok(()),
    }
}

#[cycle(listing)]
fn list_regions<'a>(
    regions: &'a [RegionCst],
    around: u32,
    list: &mut Vec<Standing<'a>>,
) -> Result<(), AllocError>
    ensures { OnOk result
        (map seen list.new.items
        ≡ map seen list.old.items ++ regions_standings around regions.now) }
{
    let nesting = deeper(around);
    for region in regions {
        list.push(Standing::Region { region, nesting })?;
        list_blocks(region.blocks.as_slice(), nesting, list)?;
    }
    Ok(())
}

#[cycle(listing)]
fn list_blocks<'a>(
    blocks: &'a [BlockCst],
    around: u32,
    list: &mut Vec<Standing<'a>>,
) -> Result<(), AllocError>
    ensures { OnOk result
        (map seen list.new.items ≡ map seen list.old.items ++ blocks_standings around blocks.now) }
{
    for block in blocks {
        list.push(Standing::Block(block))?;
        list_ops(block.ops.as_slice(), around, list)?;
    }
    Ok(())
}
