//! The attributes of an operation: the entries of its properties and of its dictionary together.

ghost use Rattle.std.specs.Prelude.{◌≡◌, ◌<◌, ◌∷◌, ◌++◌, [], ℕ, List, length, map, IfOk, OnOk};
ghost use Rattle.std.specs.Option.{IfSome};
ghost use Rattle.attr_value.specs.Values.{Value};
ghost use Rattle.constraint_solver.specs.Grown.{Extends};
ghost use Rattle.first_fault.specs.Firsts.{IsFirst};
ghost use Rattle.generic_syntax.specs.declared.cst.EntryCst.{EntryCst, out-EntryCst};
ghost use Rattle.op_judgement.specs.Entered.{AreEntered, IsEntryValue, IsRepeat};
ghost use Rattle.op_judgement.specs.Found.{basis_of};
ghost use Rattle.op_judgement.specs.Grounds.{IsGround, IsReady, loaded_by};
ghost use Rattle.value_meaning.specs.Dicts.{keyed};
ghost use Rattle.value_meaning.specs.Keys.{HasSeen};
ghost use Rattle.value_meaning.specs.Meaning.{Aliases as Values};
ghost use Rattle.value_meaning.specs.Spelled.{sorted_entries};

use crate::env::Env;
use crate::tree::tree_value;
use attr_uniquer::Uniquer;
use attr_value::{Head, List, Text, ValueId};
use first_fault::{Fault, earlier};
use generic_syntax::EntryCst as EntryTree;
use std::alloc::{AllocError, Global};
use value_meaning::{Entry, KEY_REPEATED, KeySet, sort_by_key};

/// Entries that were judged: their keys with their values, and the first fault of a key or of a
/// value. Where there is one, values are missing.
#[derive(Drop)]
pub struct Entries<'a> {
    pub seen: KeySet<'a>,
    pub pairs: Vec<Entry<'a>>,
    pub first: Option<Fault>,
}

/// The fault of an entry whose key was seen before. Its key is seen.
fn repeat<'a>(seen: &mut KeySet<'a>, entry: &'a EntryTree) -> Result<Option<Fault>, AllocError>
    ensures seen { OnOk result ((keys : List (List ℕ)) → HasSeen keys seen.old →
        HasSeen (keys ++ (out-EntryCst entry.now).key ∷ []) seen.new) }
    ensures first { IfOk result (λ first. (keys : List (List ℕ)) → HasSeen keys seen.old →
        IsFirst (IsRepeat keys entry.now) first) }
{
    if seen.add(entry.key.bytes())? {
        return Ok(Some(Fault {
            place: entry.place,
            code: KEY_REPEATED,
        }));
    }
    Ok(None)
}

/// The id of an entry's value, or its first fault. A key alone has the unit attribute.
fn entry_value(
    env: &Env,
    u: &mut Uniquer,
    entry: &EntryTree,
) -> Result<Result<ValueId, Fault>, AllocError>
    requires ready { IsReady (basis_of property env.now) u.old }
    ensures later { Extends u.old u.new }
    ensures found { IfOk result (λ found. (old : List Value) (al : Values) →
        IsGround (basis_of property env.now) old al u.old →
        IsEntryValue (loaded_by (basis_of property env.now) old) al entry.now u.new found) }
{
    match &entry.value {
        Some(tree) => tree_value(env, u, tree),
        None => Ok(Ok(u.intern(Head::Unit, &[])?)),
    }
}

impl<'a> Entries<'a> {
    /// No entries. It takes no memory.
    pub fn new(alloc: Global) -> Entries<'a>
        ensures seen { HasSeen [] result.seen }
        ensures pairs { result.pairs.items ≡ [] }
        ensures first { result.first ≡ None }
    {
        Entries {
            seen: KeySet::new(alloc),
            pairs: Vec::new(alloc),
            first: None,
        }
    }

    /// Judges an entry behind the others.
    fn add(&mut self, env: &Env, u: &mut Uniquer, entry: &'a EntryTree) -> Result<(), AllocError>
        requires ready { IsReady (basis_of property env.now) u.old }
        ensures later { Extends u.old u.new }
        ensures entered { OnOk result ((old : List Value) (al : Values)
            (before : List EntryCst) → IsGround (basis_of property env.now) old al u.old →
            AreEntered (loaded_by (basis_of property env.now) old) al before u.old self.old →
            AreEntered (loaded_by (basis_of property env.now) old) al
            (before ++ entry.now ∷ []) u.new self.new) }
    {
        let repeated = repeat(&mut self.seen, entry)?;
        self.first = earlier(self.first, repeated);
        match entry_value(env, u, entry)? {
            Ok(value) => {
                let key = entry.key.bytes();
                self.pairs.push(Entry { key, value })?;
            }
            Err(fault) => self.first = earlier(self.first, Some(fault)),
        }
        Ok(())
    }

    /// Judges entries behind the others.
    pub fn add_all(
        &mut self,
        env: &Env,
        u: &mut Uniquer,
        entries: &'a [EntryTree],
    ) -> Result<(), AllocError>
        requires ready { IsReady (basis_of property env.now) u.old }
        ensures later { Extends u.old u.new }
        ensures entered { OnOk result ((old : List Value) (al : Values)
            (before : List EntryCst) → IsGround (basis_of property env.now) old al u.old →
            AreEntered (loaded_by (basis_of property env.now) old) al before u.old self.old →
            AreEntered (loaded_by (basis_of property env.now) old) al
            (before ++ entries.now) u.new self.new) }
    {
        for entry in entries {
            self.add(env, u, entry)?;
        }
        Ok(())
    }
}

/// The keys of entries, and their values.
fn keys_and_values(
    alloc: Global,
    entries: &[Entry<'_>],
) -> Result<(List<Text>, List<ValueId>), AllocError>
    ensures keys { IfOk result (λ r. r.0 ≡ map (λ e. e.0) (keyed entries.now)) }
    ensures values { IfOk result (λ r. r.1 ≡ map (λ e. e.1) (keyed entries.now)) }
{
    let mut keys = List::new(alloc);
    let mut values = List::new(alloc);
    for entry in entries {
        keys.push(Text::from_slice(alloc, entry.key)?)?;
        values.push(entry.value)?;
    }
    Ok((keys, values))
}

/// The keys of entries, which are distinct, and their values, both in the order of the keys.
pub fn by_key(
    alloc: Global,
    mut entries: Vec<Entry<'_>>,
) -> Result<(List<Text>, List<ValueId>), AllocError>
    ensures keys { IfSome (sorted_entries (keyed entries.entry.items)) (λ sorted.
        IfOk result (λ r. r.0 ≡ map (λ e. e.0) sorted)) }
    ensures values { IfSome (sorted_entries (keyed entries.entry.items)) (λ sorted.
        IfOk result (λ r. r.1 ≡ map (λ e. e.1) sorted)) }
{
    sort_by_key(entries.as_mut_slice());
    keys_and_values(alloc, entries.as_slice())
}
