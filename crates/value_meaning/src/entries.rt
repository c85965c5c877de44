//! The judgement of dictionaries, from that of their entries' values.

ghost use Rattle.std.specs.Prelude.{◌≡◌, ◌<◌, ◌≤◌, ℕ, ◌+◌, [], List, length, map, zip};
ghost use Rattle.std.specs.Prelude.{IfOk, IfSome};
ghost use Rattle.attr_value.specs.Ids.{AreKnown};
ghost use Rattle.constraint_solver.specs.Grown.{Extends};
ghost use Rattle.value_meaning.specs.Dicts.{keyed};
ghost use Rattle.value_meaning.specs.Entered.{IsFirstRepeat, keys_of, seen_values};
ghost use Rattle.value_meaning.specs.Judging.{AreJudged, Ground, Judges};
ghost use Rattle.value_meaning.specs.Meaning.{Aliases, dict_value, entries_marks, entry_seen};

use crate::code::KEY_REPEATED;
use crate::dict::{Entry, dict_parts};
use crate::judged::{Judged, Kids};
use crate::keys::KeySet;
use crate::node::made;
use attr_uniquer::Uniquer;
use attr_value::ValueId;
use first_fault::{Fault, earlier};
use generic_syntax::EntryCst;
use std::alloc::{AllocError, Global};

/// The fault of the first key, by place, that stands before its place too.
fn first_repeat(alloc: Global, entries: &[EntryCst]) -> Result<Option<Fault>, AllocError>
    ensures { IfOk result
        (λ first. (al : Aliases) → IsFirstRepeat (map (entry_seen al) entries.now) first) }
{
    let mut seen = KeySet::new(alloc);
    let mut first = None;
    for entry in entries {
        if seen.add(entry.key.bytes())? {
            let repeated = Fault {
                place: entry.place,
                code: KEY_REPEATED,
            };
            first = earlier(first, Some(repeated));
        }
    }
    Ok(first)
}

/// The keys of entries, each with the id at its place.
fn paired<'a>(
    alloc: Global,
    entries: &'a [EntryCst],
    ids: &[ValueId],
) -> Result<Vec<Entry<'a>>, AllocError>
    ensures { IfOk result (λ pairs. keyed pairs.items ≡ zip (keys_of entries.now) ids.now) }
{
    let mut pairs = Vec::with_capacity(alloc, ids.len())?;
    for entry in entries {
        let Some(value) = ids.get(pairs.len()) else {
            break;
        };
        pairs.push(Entry {
            key: entry.key.bytes(),
            value: *value,
        })?;
    }
    Ok(pairs)
}

/// A dictionary, whose entries' values are these.
pub fn dict(
    alloc: Global,
    u: &mut Uniquer,
    entries: &[EntryCst],
    kids: Kids,
) -> Result<Judged, AllocError>
    requires known { AreKnown (length u.old) kids.ids.items }
    ensures grown { Extends u.old u.new }
    ensures known { IfOk result (λ j. IfSome j.value (λ id. id.0 < length u.new)) }
    ensures judged { (g : Ground) (n : ℕ) (al : Aliases) → 1 ≤ n →
        AreJudged g (n + 1) (seen_values (map (entry_seen al) entries.now)) u.old kids →
        IfOk result (Judges g n (dict_value (map (entry_seen al) entries.now))
        (entries_marks (n + 1) [] (map (entry_seen al) entries.now)) u.new) }
{
    let repeat = first_repeat(alloc, entries)?;
    let first = earlier(repeat, kids.first);
    if !kids.all_good {
        return Ok(Judged { value: None, first });
    }
    if repeat.is_some() {
        return Ok(Judged { value: None, first });
    }
    let (head, ids) = dict_parts(alloc, paired(alloc, entries, &kids.ids)?)?;
    made(
        u,
        head,
        Kids {
            ids,
            all_good: true,
            first,
        },
    )
}
