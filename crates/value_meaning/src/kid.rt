//! The kids of a form, by their numbers.

ghost use Rattle.std.specs.Prelude.{◌≡◌, ◌<◌, ◌∷◌, [], ℕ, option_map, slice_get, IfSome};
ghost use Rattle.generic_syntax.specs.declared.cst.ValueCst.{size-ValueCst};
ghost use Rattle.generic_syntax.specs.declared.cst.ValueNode.{ValueNode as Node, size-ValueNode};
ghost use Rattle.value_meaning.specs.Judging.{counted};
ghost use Rattle.value_meaning.specs.KidsSeen.{IsBelow, kid_seen, kids_seen, kids_nesting};
ghost use Rattle.value_meaning.specs.Meaning.{Aliases, seen};

use crate::gather::deeper;
use generic_syntax::{ValueCst, ValueNode};

/// What stands in a form.
#[derive(Clone, Copy)]
pub enum Kid<'a> {
    Tree(&'a ValueCst),
    /// The key alone of an entry, at its place.
    Lone(u32),
}

/// The kid of this number, from 0, in the order of the text.
pub fn kid_at(node: &ValueNode, i: usize) -> Option<Kid<'_>>
    ensures kid { (al : Aliases) →
        option_map (kid_seen al) result ≡ slice_get (kids_seen al node.now) i }
    ensures below { IfSome result (IsBelow node.now) }
{
    match node {
        ValueNode::Dialect { args, .. } => Some(Kid::Tree(args.as_slice().get(i)?)),
        ValueNode::Function { inputs, outputs } => match inputs.as_slice().get(i) {
            Some(input) => Some(Kid::Tree(input)),
            None => Some(Kid::Tree(outputs.as_slice().get(i - inputs.len())?)),
        },
        ValueNode::Tuple(trees) => Some(Kid::Tree(trees.as_slice().get(i)?)),
        ValueNode::Array(trees) => Some(Kid::Tree(trees.as_slice().get(i)?)),
        ValueNode::Shaped { element, .. } => only(element.get(), i),
        ValueNode::Complex(element) => only(element.get(), i),
        ValueNode::Number { ty, .. } => match ty {
            Some(ty) => only(ty.get(), i),
            None => None,
        },
        ValueNode::Dict(entries) => {
            let entry = entries.as_slice().get(i)?;
            match &entry.value {
                Some(value) => Some(Kid::Tree(value)),
                None => Some(Kid::Lone(entry.place)),
            }
        }
        ValueNode::Word(_)
        | ValueNode::TypeAlias(_)
        | ValueNode::AttrAlias(_)
        | ValueNode::Str(_)
        | ValueNode::Symbol(_)
        | ValueNode::Dense { .. } => None,
    }
}

/// The only kid of a form, where its number is 0.
fn only(tree: &ValueCst, i: usize) -> Option<Kid<'_>>
    ensures kid { (al : Aliases) →
        option_map (kid_seen al) result ≡ slice_get (seen al tree.now ∷ []) i }
    ensures below { (node : Node) → size-ValueCst tree.now < size-ValueNode node →
        IfSome result (IsBelow node) }
{
    if i == 0 { Some(Kid::Tree(tree)) } else { None }
}

/// The nesting of the kids of a form that stands at this nesting.
pub fn kids_nesting(node: &ValueNode, nesting: u32) -> u32
    ensures { (n : ℕ) → nesting ≡ counted n → result ≡ counted (kids_nesting node.now n) }
{
    match node {
        ValueNode::Number { .. } => nesting,
        _ => deeper(nesting),
    }
}
