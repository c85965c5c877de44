//! The value of a tree, or its first fault.

ghost use Rattle.std.specs.Prelude.{◌<◌, List, length, IfOk};
ghost use Rattle.attr_value.specs.Values.{Value};
ghost use Rattle.constraint_solver.specs.Grown.{Extends};
ghost use Rattle.op_judgement.specs.Found.{basis_of, IsFound};
ghost use Rattle.op_judgement.specs.Grounds.{IsGround, IsReady, loaded_by};
ghost use Rattle.value_meaning.specs.Meaning.{Aliases as Values};

use crate::env::Env;
use attr_uniquer::Uniquer;
use attr_value::ValueId;
use dialect_registry::ValueStop;
use first_fault::Fault;
use generic_syntax::ValueCst;
use std::alloc::AllocError;

/// The id of the value of a tree that stands by itself, or its first fault. The value is interned.
pub fn tree_value(
    env: &Env,
    u: &mut Uniquer,
    tree: &ValueCst,
) -> Result<Result<ValueId, Fault>, AllocError>
    requires ready { IsReady (basis_of property env.now) u.old }
    ensures later { Extends u.old u.new }
    ensures known { IfOk result (λ found. IfOk found (λ id. id.0 < length u.new)) }
    ensures found { IfOk result (λ found. (old : List Value) (al : Values) →
        IsGround (basis_of property env.now) old al u.old →
        IsFound (loaded_by (basis_of property env.now) old) al tree.now u.new found) }
{
    match env
        .registry
        .value(env.alloc, env.natives, u, tree, env.aliases)
    {
        Ok(id) => Ok(Ok(id)),
        Err(ValueStop::Refused(fault)) => Ok(Err(fault)),
        Err(ValueStop::OutOfMemory) => Err(AllocError),
    }
}
