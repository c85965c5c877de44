//! The aliases that values mention.

ghost use Rattle.std.specs.Prelude.{OnOk};
ghost use Rattle.module_names.specs.Mentions.{
  value_mentions,
  maybe_mentions,
  entry_mentions,
  node_mentions,
};
ghost use Rattle.module_names.specs.Said.{Said, noted};

use generic_syntax::{EntryCst, ValueCst, ValueNode};
use std::alloc::AllocError;
use symbol_scopes::Scopes;

#[cycle(mentions)]
pub fn note_values(scopes: &mut Scopes, values: &[ValueCst]) -> Result<(), AllocError>
    ensures { OnOk result (Said scopes.old scopes.new (noted value_mentions values.now)) }
{
    for value in values {
        note_value(scopes, value)?;
    }
    Ok(())
}

#[cycle(mentions)]
pub fn note_value(scopes: &mut Scopes, value: &ValueCst) -> Result<(), AllocError>
    ensures { OnOk result (Said scopes.old scopes.new (value_mentions value.now)) }
{
    note_node(scopes, &value.node, value.place)
}

#[cycle(mentions)]
pub fn note_maybe(scopes: &mut Scopes, value: &Option<ValueCst>) -> Result<(), AllocError>
    ensures { OnOk result (Said scopes.old scopes.new (maybe_mentions value.now)) }
{
    match value {
        Some(value) => note_value(scopes, value),
        None => Ok(()),
    }
}

#[cycle(mentions)]
pub fn note_entries(scopes: &mut Scopes, entries: &[EntryCst]) -> Result<(), AllocError>
    ensures { OnOk result (Said scopes.old scopes.new (noted entry_mentions entries.now)) }
{
    for entry in entries {
        note_maybe(scopes, &entry.value)?;
    }
    Ok(())
}

/// Notes what a form says that stands at this place.
#[cycle(mentions)]
fn note_node(scopes: &mut Scopes, node: &ValueNode, place: u32) -> Result<(), AllocError>
    ensures { OnOk result (Said scopes.old scopes.new (node_mentions node.now place)) }
{
    match node {
        ValueNode::TypeAlias(name) => scopes.mention_alias(true, name.bytes(), place),
        ValueNode::AttrAlias(name) => scopes.mention_alias(false, name.bytes(), place),
        ValueNode::Dialect { args, .. } => note_values(scopes, args.as_slice()),
        ValueNode::Function { inputs, outputs } => {
            note_values(scopes, inputs.as_slice())?;
            note_values(scopes, outputs.as_slice())
        }
        ValueNode::Tuple(types) => note_values(scopes, types.as_slice()),
        ValueNode::Shaped { element, .. } => note_value(scopes, element.get()),
        ValueNode::Complex(element) => note_value(scopes, element.get()),
        ValueNode::Number { ty, .. } => match ty {
            Some(ty) => note_value(scopes, ty.get()),
            None => Ok(()),
        },
        ValueNode::Array(values) => note_values(scopes, values.as_slice()),
        ValueNode::Dict(entries) => note_entries(scopes, entries.as_slice()),
        ValueNode::Word(_) | ValueNode::Str(_) | ValueNode::Symbol(_) | ValueNode::Dense { .. } =>
            Ok(()),
    }
}
