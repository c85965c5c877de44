//! The judgement of every form of a value, from that of its kids.

ghost use Rattle.std.specs.Prelude.{◌≡◌, ◌<◌, ℕ, length, is_some, IfOk, IfSome};
ghost use Rattle.attr_value.specs.Ids.{AreKnown};
ghost use Rattle.constraint_solver.specs.Grown.{Extends};
ghost use Rattle.value_meaning.specs.Bases.{basis_of};
ghost use Rattle.value_meaning.specs.Judging.{AreJudged, ByEach, CanJudge, IsOnly, Judges};
ghost use Rattle.value_meaning.specs.KidsSeen.{kids_nesting, kids_seen};
ghost use Rattle.value_meaning.specs.Meaning.{node_seen};

use crate::entries::dict;
use crate::env::Env;
use crate::judged::{Judged, Kids};
use crate::leaf::{dense, number};
use crate::node::{made, mention, string, symbol, word};
use crate::part::{dialect, of_types, shape};
use attr_uniquer::Uniquer;
use attr_value::Head;
use generic_syntax::ValueNode;
use std::alloc::AllocError;

/// A form at a place and a nesting, of whose kids this is known.
pub fn form(
    env: &Env,
    u: &mut Uniquer,
    node: &ValueNode,
    place: u32,
    nesting: u32,
    kids: Kids,
) -> Result<Judged, AllocError>
    requires can { CanJudge (length u.old) (basis_of property env.now) }
    requires known { AreKnown (length u.old) kids.ids.items }
    ensures grown { Extends u.old u.new }
    ensures known { IfOk result (λ j. IfSome j.value (λ id. id.0 < length u.new)) }
    ensures judged { ByEach (basis_of property env.now) u.old nesting (λ g n aliases.
        AreJudged g (kids_nesting node.now n) (kids_seen aliases node.now) u.old kids →
        IfOk result (Judges g n (node_seen aliases node.now).value
        ((node_seen aliases node.now).marks place n) u.new)) }
{
    match node {
        ValueNode::Word(text) => word(u, place, text),
        ValueNode::TypeAlias(name) => Ok(mention(env, u, true, name, place, nesting)),
        ValueNode::AttrAlias(name) => Ok(mention(env, u, false, name, place, nesting)),
        ValueNode::Dialect { is_type, name, .. } => dialect(env, u, place, *is_type, name, kids),
        ValueNode::Function { inputs, .. } => {
            let inputs = inputs.len();
            of_types(u, place, Head::Function { inputs }, kids)
        }
        ValueNode::Tuple(_) => of_types(u, place, Head::Tuple, kids),
        ValueNode::Shaped { kind, dims, .. } => shape(
            env.alloc,
            u,
            place,
            *kind,
            dims.as_slice(),
            kids,
        ),
        ValueNode::Complex(_) => of_types(u, place, Head::Complex, kids),
        ValueNode::Number {
            negative,
            digits,
            ty,
        } => number(u, place, *negative, digits, type_of(ty.is_some(), kids)),
        ValueNode::Str(bytes) => string(env.alloc, u, bytes),
        ValueNode::Array(_) => made(u, Head::Array, kids),
        ValueNode::Dict(entries) => dict(env.alloc, u, entries.as_slice(), kids),
        ValueNode::Symbol(parts) => symbol(env.alloc, u, place, parts.as_slice()),
        ValueNode::Dense { width, items } => dense(env.alloc, u, place, *width, items.as_slice()),
    }
}

/// What is known of the type behind a number, where one stands there.
fn type_of(is_typed: bool, kids: Kids) -> Option<Judged>
    ensures typed { is_some result ≡ is_typed }
    ensures known { (len : ℕ) → AreKnown len kids.ids.items →
        IfSome result (λ ty. IfSome ty.value (λ id. id.0 < len)) }
    ensures only { IfSome result (IsOnly kids) }
{
    if is_typed { Some(kids.only()) } else { None }
}
