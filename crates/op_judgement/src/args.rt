//! The types of the arguments of blocks.

ghost use Rattle.std.specs.Prelude.{◌≡◌, ◌∷◌, ◌++◌, [], List, None, map, IfOk, OnOk};
ghost use Rattle.attr_value.specs.Values.{Value};
ghost use Rattle.constraint_solver.specs.Grown.{Extends};
ghost use Rattle.generic_syntax.specs.declared.cst.ValueCst.{ValueCst};
ghost use Rattle.generic_syntax.specs.declared.module_cst.RegionCst.{out-RegionCst};
ghost use Rattle.module_faults.specs.OpFaults.{block_types};
ghost use Rattle.op_judgement.specs.Found.{basis_of, AreArgsFound, AreFound};
ghost use Rattle.op_judgement.specs.Grounds.{IsGround, IsReady, loaded_by};
ghost use Rattle.op_judgement.specs.Shown.{block_trees};
ghost use Rattle.value_meaning.specs.Meaning.{Aliases as Values};

use crate::env::Env;
use crate::tree::tree_value;
use attr_uniquer::Uniquer;
use attr_value::{List, ValueId};
use first_fault::{Fault, earlier};
use generic_syntax::{ArgCst, BlockCst, RegionCst};
use std::alloc::{AllocError, Global};

/// The types of the arguments of some blocks, in order, and the first fault of their trees. Where
/// there is one, types are missing.
#[derive(Drop)]
pub struct Args {
    pub types: List<List<ValueId>>,
    pub first: Option<Fault>,
}

/// The types of arguments, and the first fault of their trees.
fn arg_types(
    env: &Env,
    u: &mut Uniquer,
    args: &[ArgCst],
) -> Result<(List<ValueId>, Option<Fault>), AllocError>
    requires ready { IsReady (basis_of property env.now) u.old }
    ensures later { Extends u.old u.new }
    ensures found { IfOk result (λ r. (old : List Value) (al : Values) →
        IsGround (basis_of property env.now) old al u.old →
        AreFound (loaded_by (basis_of property env.now) old) al (map (λ x. x.ty) args.now) u.new
        r.0 r.1) }
{
    let mut ids = List::new(env.alloc);
    let mut first = None;
    for arg in args {
        match tree_value(env, u, &arg.ty)? {
            Ok(id) => ids.push(id)?,
            Err(fault) => first = earlier(first, Some(fault)),
        }
    }
    Ok((ids, first))
}

impl Args {
    /// Of no block. It takes no memory.
    pub fn new(alloc: Global) -> Args
        ensures types { result.types ≡ [] }
        ensures first { result.first ≡ None }
    {
        Args {
            types: List::new(alloc),
            first: None,
        }
    }

    /// Puts those of a block behind the others.
    fn add_block(&mut self, env: &Env, u: &mut Uniquer, block: &BlockCst) -> Result<(), AllocError>
        requires ready { IsReady (basis_of property env.now) u.old }
        ensures later { Extends u.old u.new }
        ensures found { OnOk result ((old : List Value) (al : Values)
            (before : List (List ValueCst)) → IsGround (basis_of property env.now) old al u.old →
            AreArgsFound (loaded_by (basis_of property env.now) old) al before u.old self.old →
            AreArgsFound (loaded_by (basis_of property env.now) old) al
            (before ++ block_types block.now ∷ []) u.new self.new) }
    {
        let (types, first) = arg_types(env, u, block.args.as_slice())?;
        self.first = earlier(self.first, first);
        self.types.push(types)?;
        Ok(())
    }

    /// Puts those of a region's blocks behind the others.
    fn add_region(
        &mut self,
        env: &Env,
        u: &mut Uniquer,
        region: &RegionCst,
    ) -> Result<(), AllocError>
        requires ready { IsReady (basis_of property env.now) u.old }
        ensures later { Extends u.old u.new }
        ensures found { OnOk result ((old : List Value) (al : Values)
            (before : List (List ValueCst)) → IsGround (basis_of property env.now) old al u.old →
            AreArgsFound (loaded_by (basis_of property env.now) old) al before u.old self.old →
            AreArgsFound (loaded_by (basis_of property env.now) old) al
            (before ++ map block_types (out-RegionCst region.now).blocks) u.new self.new) }
    {
        for block in region.blocks.as_slice() {
            self.add_block(env, u, block)?;
        }
        Ok(())
    }

    /// Puts those of the blocks of regions behind the others.
    pub fn add_regions(
        &mut self,
        env: &Env,
        u: &mut Uniquer,
        regions: &[RegionCst],
    ) -> Result<(), AllocError>
        requires ready { IsReady (basis_of property env.now) u.old }
        ensures later { Extends u.old u.new }
        ensures found { OnOk result ((old : List Value) (al : Values)
            (before : List (List ValueCst)) → IsGround (basis_of property env.now) old al u.old →
            AreArgsFound (loaded_by (basis_of property env.now) old) al before u.old self.old →
            AreArgsFound (loaded_by (basis_of property env.now) old) al
            (before ++ block_trees regions.now) u.new self.new) }
    {
        for region in regions {
            self.add_region(env, u, region)?;
        }
        Ok(())
    }
}
