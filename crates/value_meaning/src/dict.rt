//! The heads and kids of dictionaries.
ghost use Rattle.std.specs.Prelude.{◌≡◌, ℕ, map, IfOk};
ghost use Rattle.std.specs.List.Sorted.{IsPermutation};
ghost use Rattle.std.specs.Option.{IfSome};
ghost use Rattle.attr_value.specs.declared.head.Head.TheVariants as h;
ghost use Rattle.attr_value.specs.Ids.{AreKnown};
ghost use Rattle.value_meaning.specs.Dicts.{keyed};
ghost use Rattle.value_meaning.specs.Spelled.{sorted_entries};

use attr_value::{Head, List, Text, ValueId};
use std::alloc::{AllocError, Global};

/// An entry of a dictionary: its key, which is borrowed from the tree, and its value.
#[derive(Clone, Copy, Drop)]
pub struct Entry<'a> {
    pub key: &'a [u8],
    pub value: ValueId,
}

/// Sorts entries by their keys, in bytes. Where a key stands twice, its entries come in any order.
/// It takes no memory.
pub fn sort_by_key(entries: &mut [Entry<'_>])
    ensures sorted { IfSome (sorted_entries (keyed entries.old))
        (λ sorted. keyed entries.new ≡ sorted) }
    ensures moved { IsPermutation entries.old entries.new }
{
    entries.sort_unstable_by(|a, b| a.key.cmp(b.key));
}

/// The head of a dictionary of these entries, which ascend by their keys, and its kids.
fn head_and_kids(alloc: Global, entries: &[Entry<'_>]) -> Result<(Head, Vec<ValueId>), AllocError>
    ensures head { IfOk result (λ parts.
        parts.0 ≡ h.Dict (map (λ e. e.0) (keyed entries.now))) }
    ensures kids { IfOk result (λ parts.
        parts.1.items ≡ map (λ e. e.1) (keyed entries.now)) }
{
    let mut keys = List::new(alloc);
    let mut kids = Vec::with_capacity(alloc, entries.len())?;
    for entry in entries {
        keys.push(Text::from_slice(alloc, entry.key)?)?;
        kids.push(entry.value)?;
    }
    Ok((Head::Dict { keys }, kids))
}

/// The head of a dictionary of these entries, whose keys are distinct, and its kids, by ascending
/// keys.
pub fn dict_parts(
    alloc: Global,
    mut entries: Vec<Entry<'_>>,
) -> Result<(Head, Vec<ValueId>), AllocError>
    ensures head { IfSome (sorted_entries (keyed entries.entry.items)) (λ sorted.
        IfOk result (λ parts. parts.0 ≡ h.Dict (map (λ e. e.0) sorted))) }
    ensures kids { IfSome (sorted_entries (keyed entries.entry.items)) (λ sorted.
        IfOk result (λ parts. parts.1.items ≡ map (λ e. e.1) sorted)) }
    ensures known { (n : ℕ) → AreKnown n (map (λ e. e.1) (keyed entries.entry.items)) →
        IfOk result (λ parts. AreKnown n parts.1.items) }
{
    sort_by_key(entries.as_mut_slice());
    head_and_kids(alloc, entries.as_slice())
}
