//! What successors mean, and the faults of labels.

ghost use Rattle.std.specs.Prelude.{
  ◌≡◌,
  ◌<◌,
  ◌≤◌,
  IfOk,
  length,
  map,
  None,
  Some,
  ℕ,
  option_to_list,
};
ghost use Rattle.first_fault.specs.Firsts.{IsFirst, IsFaultBy};
ghost use Rattle.symbol_scopes.specs.Faults.{blocks_rule};
ghost use Rattle.symbol_scopes.specs.Faults as spec;
ghost use Rattle.symbol_scopes.specs.Listed.{bindings_in};
ghost use Rattle.symbol_scopes.specs.Meanings.{block_meanings};
ghost use Rattle.symbol_scopes.specs.Meanings as meaning;
ghost use Rattle.symbol_scopes.specs.Slots.{AreSlots};
ghost use Rattle.symbol_scopes.specs.Calls.{mark_of, marks_of, AreNamed, IsNamed};

use crate::call::{Call, NameKind, Said};
use crate::calls::Calls;
use crate::judged::Judged;
use crate::listed::list_bindings;
use crate::names::Names;
use crate::rows::Listed;
use crate::walk::Walk;
use first_fault::Fault;
use std::alloc::{AllocError, Global};

/// The fault of a call, by what its name means where it stands and how many definitions stand
/// before.
fn block_fault(
    walk: &Walk,
    names: &Names,
    listed: &Listed,
    next: Call,
    before: usize,
) -> Option<Fault>
    requires named { IsNamed (length names.now) next }
    requires slots { AreSlots names.now (bindings_in names.now listed.now)
        walk.now.round.round walk.now.slots }
    requires most { before ≤ length (bindings_in names.now listed.now) }
    ensures { result ≡ spec.block_fault (bindings_in names.now listed.now)
        walk.now.round.round before (mark_of names.now next) }
{
    let Call::Name { name, said } = next else {
        return None;
    };
    match said {
        Said::Label { place, .. } => {
            match walk.own_found(names, listed, name) {
                Some(f) => {
                    if (f.at as usize) < before {
                        Some(Fault { place, code: 11 })
                    } else {
                        None
                    }
                }
                None => None,
            }
        }
        Said::LeadTo { place } => {
            match walk.own_found(names, listed, name) {
                None => Some(Fault { place, code: 10 }),
                Some(f) => {
                    if f.number == 0 {
                        Some(Fault { place, code: 12 })
                    } else {
                        None
                    }
                }
            }
        }
        _ => None,
    }
}

/// What a call means, if it is a successor.
fn block_meaning(walk: &Walk, names: &Names, listed: &Listed, next: Call) -> Option<u32>
    requires named { IsNamed (length names.now) next }
    requires slots { AreSlots names.now (bindings_in names.now listed.now)
        walk.now.round.round walk.now.slots }
    ensures { (i : ℕ) → spec.block_fault (bindings_in names.now listed.now)
        walk.now.round.round i (mark_of names.now next) ≡ None →
        map Some (option_to_list result)
        ≡ meaning.block_meaning (bindings_in names.now listed.now) walk.now.round.round
        (mark_of names.now next) }
{
    let Call::Name { name, said } = next else {
        return None;
    };
    match said {
        Said::LeadTo { .. } => {
            match walk.own_found(names, listed, name) {
                None => None,
                Some(f) => Some(f.number),
            }
        }
        _ => None,
    }
}

/// What each successor means, and the first fault of labels. Where there is neither label nor
/// successor, the calls aren't gone over.
pub fn judge_blocks(alloc: Global, names: &Names, calls: &Calls) -> Result<Judged<u32>, AllocError>
    requires named { AreNamed (length names.now) calls.now }
    ensures first { IfOk result (λ v. IsFirst
        (IsFaultBy (blocks_rule (marks_of names.now calls.now))
        (marks_of names.now calls.now)) v.first) }
    ensures meanings { IfOk result (λ v. v.first ≡ None →
        map Some v.meanings.items ≡ block_meanings (marks_of names.now calls.now)) }
{
    if calls.speak_of_blocks() {
        walk_blocks(alloc, names, calls)
    } else {
        Ok(Judged::new(alloc))
    }
}

/// The same, by a walk over the calls.
fn walk_blocks(alloc: Global, names: &Names, calls: &Calls) -> Result<Judged<u32>, AllocError>
    requires named { AreNamed (length names.now) calls.now }
    ensures first { IfOk result (λ v. IsFirst
        (IsFaultBy (blocks_rule (marks_of names.now calls.now))
        (marks_of names.now calls.now)) v.first) }
    ensures meanings { IfOk result (λ v. v.first ≡ None →
        map Some v.meanings.items ≡ block_meanings (marks_of names.now calls.now)) }
{
    let listed = list_bindings(alloc, names, calls, NameKind::Labels)?;
    let mut walk = Walk::new(alloc, names, &listed)?;
    let mut blocks = Judged::new(alloc);
    let mut before = 0;
    for at in 0..calls.len() {
        let next = calls.get(at);
        let fault = block_fault(&walk, names, &listed, next, before);
        blocks.take(fault, block_meaning(&walk, names, &listed, next))?;
        before += next.definitions(NameKind::Labels);
        walk.take(names, &listed, next)?;
    }
    Ok(blocks)
}
