//! The faults of aliases, and wrong sizes of packs.

ghost use Rattle.std.specs.Prelude.{◌≡◌, ◌<◌, ◌++◌, ◌∷◌, [], IfOk, length, List};
ghost use Rattle.first_fault.specs.Firsts.{IsFirst, IsFaultBy};
ghost use Rattle.symbol_scopes.specs.Faults as spec;
ghost use Rattle.symbol_scopes.specs.Aliases.{KnowsAliases};
ghost use Rattle.symbol_scopes.specs.ScopeMarks.{ScopeMark};
ghost use Rattle.symbol_scopes.specs.Calls.{mark_of, marks_of, numbered_name};
ghost use Rattle.symbol_scopes.specs.Calls.{AreNamed, IsNamed};

use crate::call::{Call, Said};
use crate::calls::Calls;
use crate::names::Names;
use first_fault::{Fault, earlier};
use std::alloc::{AllocError, Global};

/// For each name, whether an alias of types or of attributes has it.
#[derive(Drop)]
pub struct AliasSet {
    pub types: Vec<bool>,
    pub attributes: Vec<bool>,
}

impl AliasSet {
    /// No alias is known.
    fn new(alloc: Global, names: &Names) -> Result<AliasSet, AllocError>
        ensures { IfOk result (λ k. KnowsAliases names.now [] k) }
    {
        Ok(AliasSet {
            types: vec![in alloc; false; names.len()]?,
            attributes: vec![in alloc; false; names.len()]?,
        })
    }

    /// Whether an alias is known.
    fn has(&self, names: &Names, is_type: bool, name: u32) -> bool
        requires known { (before : List ScopeMark) × KnowsAliases names.now before self.now }
        requires named { name < length names.now }
        ensures { (before : List ScopeMark) → KnowsAliases names.now before self.now →
            result ≡ spec.is_alias_known before is_type (numbered_name names.now name) }
    {
        if is_type {
            self.types[name as usize]
        } else {
            self.attributes[name as usize]
        }
    }

    /// Goes over a call.
    fn take(&mut self, names: &Names, next: Call)
        requires known { (before : List ScopeMark) × KnowsAliases names.now before self.old }
        requires named { IsNamed (length names.now) next }
        ensures { (before : List ScopeMark) → KnowsAliases names.now before self.old →
            KnowsAliases names.now (before ++ mark_of names.now next ∷ []) self.new }
    {
        let _ = names.len();
        match next {
            Call::Name { name, said } => match said {
                Said::DefineAlias { is_type, .. } => {
                    if is_type {
                        self.types[name as usize] = true;
                    } else {
                        self.attributes[name as usize] = true;
                    }
                }
                _ => {}
            },
            _ => {}
        }
    }
}

/// The fault of a call, by the aliases that are known.
fn alias_fault(known: &AliasSet, names: &Names, next: Call) -> Option<Fault>
    requires known { (before : List ScopeMark) × KnowsAliases names.now before known.now }
    requires named { IsNamed (length names.now) next }
    ensures { (before : List ScopeMark) → KnowsAliases names.now before known.now →
        result ≡ spec.alias_fault before (mark_of names.now next) }
{
    match next {
        Call::BadPack { place } => Some(Fault { place, code: 9 }),
        Call::Name { name, said } => match said {
            Said::DefineAlias { is_type, place } => {
                if known.has(names, is_type, name) {
                    Some(Fault { place, code: 6 })
                } else {
                    None
                }
            }
            Said::MentionAlias { is_type, place } => {
                if known.has(names, is_type, name) {
                    None
                } else {
                    Some(Fault { place, code: 5 })
                }
            }
            _ => None,
        },
        _ => None,
    }
}

/// The first fault of aliases and of sizes of packs.
pub fn judge_aliases(
    alloc: Global,
    names: &Names,
    calls: &Calls,
) -> Result<Option<Fault>, AllocError>
    requires named { AreNamed (length names.now) calls.now }
    ensures { IfOk result (λ first. IsFirst (IsFaultBy spec.alias_fault
        (marks_of names.now calls.now)) first) }
{
    let mut known = AliasSet::new(alloc, names)?;
    let mut first = None;
    for at in 0..calls.len() {
        let next = calls.get(at);
        first = earlier(first, alias_fault(&known, names, next));
        known.take(names, next);
    }
    Ok(first)
}
