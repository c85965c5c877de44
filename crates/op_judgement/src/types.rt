//! The types of operands and results.

ghost use Rattle.std.specs.Prelude.{◌<◌, List, length, IfOk};
ghost use Rattle.attr_value.specs.Ids.{AreKnown};
ghost use Rattle.attr_value.specs.Values.{Value};
ghost use Rattle.constraint_solver.specs.Grown.{Extends};
ghost use Rattle.op_judgement.specs.Found.{basis_of, AreFound};
ghost use Rattle.op_judgement.specs.Grounds.{IsGround, IsReady, loaded_by};
ghost use Rattle.value_meaning.specs.Meaning.{Aliases as Values};

use crate::env::Env;
use crate::tree::tree_value;
use attr_uniquer::Uniquer;
use attr_value::ValueId;
use first_fault::{Fault, earlier};
use generic_syntax::ValueCst;
use smallvec::SmallVec;
use std::alloc::AllocError;

/// The ids of the values of trees, and their first fault. Where there is one, ids are missing.
pub fn types<const N: usize>(
    env: &Env,
    u: &mut Uniquer,
    trees: &[ValueCst],
) -> Result<(SmallVec<ValueId, N>, Option<Fault>), AllocError>
    requires ready { IsReady (basis_of property env.now) u.old }
    ensures later { Extends u.old u.new }
    ensures known { IfOk result (λ r. AreKnown (length u.new) r.0.items) }
    ensures found { IfOk result (λ r. (old : List Value) (al : Values) →
        IsGround (basis_of property env.now) old al u.old →
        AreFound (loaded_by (basis_of property env.now) old) al trees.now u.new r.0.items
        r.1) }
{
    let mut ids = SmallVec::new(env.alloc);
    let mut first = None;
    for tree in trees {
        match tree_value(env, u, tree)? {
            Ok(id) => ids.push(id)?,
            Err(fault) => first = earlier(first, Some(fault)),
        }
    }
    Ok((ids, first))
}
