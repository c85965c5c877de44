//! The judgement of whole trees: first what stands in a value, and then the value.

ghost use Rattle.std.specs.Prelude.{◌≡◌, ◌<◌, ℕ, List, length, IfOk, IfSome};
ghost use Rattle.attr_value.specs.Ids.{AreKnown};
ghost use Rattle.attr_value.specs.Values.{Value};
ghost use Rattle.constraint_solver.specs.Grown.{Extends};
ghost use Rattle.value_meaning.specs.Bases.{basis_of};
ghost use Rattle.value_meaning.specs.Judging.{ByEach, CanJudge, IsJudged};
ghost use Rattle.value_meaning.specs.Meaning.{seen};

use crate::env::Env;
use crate::form::form;
use crate::gather::{stood, unit};
use crate::judged::{Judged, Kids};
use crate::kid::{Kid, kid_at, kids_nesting};
use attr_uniquer::Uniquer;
use generic_syntax::ValueCst;
use std::alloc::AllocError;

/// The value of a tree that stands at a nesting, and its first fault. It recurses as deep as the
/// tree is.
pub fn judge(env: &Env, u: &mut Uniquer, cst: &ValueCst, nesting: u32) -> Result<Judged, AllocError>
    requires can { CanJudge (length u.old) (basis_of property env.now) }
    ensures grown { Extends u.old u.new }
    ensures known { IfOk result (λ j. IfSome j.value (λ id. id.0 < length u.new)) }
    ensures judged { ByEach (basis_of property env.now) u.old nesting (λ g n aliases.
        IfOk result (IsJudged g n (seen aliases cst.now) u.new)) }
{
    let inner = kids_nesting(&cst.node, nesting);
    let mut kids = Kids::new(env.alloc);
    let mut i = 0;
    while let Some(kid) = kid_at(&cst.node, i) {
        let judged = match kid {
            Kid::Tree(tree) => judge(env, u, tree, inner)?,
            Kid::Lone(place) => unit(u, place, inner)?,
        };
        kids.add(judged)?;
        let Some(next) = i.checked_add(1) else {
            return Err(AllocError);
        };
        i = next;
    }
    let node = form(env, u, &cst.node, cst.place, nesting, kids)?;
    Ok(stood(node, cst.place, nesting))
}
