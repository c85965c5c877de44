//! What uses mean, and the faults of value names.

ghost use Rattle.std.specs.Prelude.{
  ◌≡◌,
  ◌<◌,
  ◌≤◌,
  IfOk,
  length,
  map,
  None,
  Some,
  ℕ,
  option_to_list,
};
ghost use Rattle.first_fault.specs.Firsts.{IsFirst, IsFaultBy};
ghost use Rattle.symbol_scopes.specs.Faults.{values_rule};
ghost use Rattle.symbol_scopes.specs.Faults as spec;
ghost use Rattle.symbol_scopes.specs.Listed.{bindings_in};
ghost use Rattle.symbol_scopes.specs.Meanings.{value_meanings};
ghost use Rattle.symbol_scopes.specs.Meanings as meaning;
ghost use Rattle.symbol_scopes.specs.Slots.{AreSlots};
ghost use Rattle.symbol_scopes.specs.Calls.{mark_of, marks_of, AreNamed, IsNamed};

use crate::call::{Call, NameKind, Said};
use crate::calls::Calls;
use crate::judged::Judged;
use crate::listed::list_bindings;
use crate::names::Names;
use crate::rows::Listed;
use crate::walk::Walk;
use first_fault::Fault;
use std::alloc::{AllocError, Global};

/// The fault of a call, by what its name means where it stands and how many definitions stand
/// before.
fn value_fault(
    walk: &Walk,
    names: &Names,
    listed: &Listed,
    next: Call,
    before: usize,
) -> Option<Fault>
    requires named { IsNamed (length names.now) next }
    requires slots { AreSlots names.now (bindings_in names.now listed.now)
        walk.now.round.round walk.now.slots }
    requires most { before ≤ length (bindings_in names.now listed.now) }
    ensures { result ≡ spec.value_fault (bindings_in names.now listed.now)
        walk.now.round.round before (mark_of names.now next) }
{
    let Call::Name { name, said } = next else {
        return None;
    };
    match said {
        Said::Define { place, .. } => {
            if (walk.slot(names, listed, name).least as usize) < before {
                Some(Fault { place, code: 8 })
            } else {
                None
            }
        }
        Said::Use {
            place,
            number,
            number_place,
        } => {
            match walk.found(names, listed, name) {
                None => Some(Fault { place, code: 7 }),
                Some(f) => {
                    if 0 < f.number && f.number <= number {
                        Some(Fault {
                            place: number_place,
                            code: 9,
                        })
                    } else {
                        None
                    }
                }
            }
        }
        _ => None,
    }
}

/// What a call means, if it is a use.
fn value_meaning(walk: &Walk, names: &Names, listed: &Listed, next: Call) -> Option<(u32, u32)>
    requires named { IsNamed (length names.now) next }
    requires slots { AreSlots names.now (bindings_in names.now listed.now)
        walk.now.round.round walk.now.slots }
    ensures { (i : ℕ) → spec.value_fault (bindings_in names.now listed.now)
        walk.now.round.round i (mark_of names.now next) ≡ None →
        map Some (option_to_list result)
        ≡ meaning.value_meaning (bindings_in names.now listed.now) walk.now.round.round
        (mark_of names.now next) }
{
    let Call::Name { name, said } = next else {
        return None;
    };
    match said {
        Said::Use { number, .. } => {
            match walk.found(names, listed, name) {
                None => None,
                Some(f) => Some((f.at, number)),
            }
        }
        _ => None,
    }
}

/// What each use means, and the first fault of value names.
pub fn judge_values(
    alloc: Global,
    names: &Names,
    calls: &Calls,
) -> Result<Judged<(u32, u32)>, AllocError>
    requires named { AreNamed (length names.now) calls.now }
    ensures first { IfOk result (λ v. IsFirst
        (IsFaultBy (values_rule (marks_of names.now calls.now))
        (marks_of names.now calls.now)) v.first) }
    ensures meanings { IfOk result (λ v. v.first ≡ None →
        map Some v.meanings.items ≡ value_meanings (marks_of names.now calls.now)) }
{
    let listed = list_bindings(alloc, names, calls, NameKind::Values)?;
    let mut walk = Walk::new(alloc, names, &listed)?;
    let mut values = Judged::new(alloc);
    let mut before = 0;
    for at in 0..calls.len() {
        let next = calls.get(at);
        let fault = value_fault(&walk, names, &listed, next, before);
        values.take(fault, value_meaning(&walk, names, &listed, next))?;
        before += next.definitions(NameKind::Values);
        walk.take(names, &listed, next)?;
    }
    Ok(values)
}
