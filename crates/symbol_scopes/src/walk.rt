//! A walk over a text that knows what each name means where it is.

ghost use Rattle.std.specs.Prelude.{◌≡◌, ◌<◌, ◌+◌, ◌^◌, [], IfOk, OnOk, length};
ghost use Rattle.symbol_scopes.specs.ScopeMarks.{top, passed, own};
ghost use Rattle.symbol_scopes.specs.Listed.{IsListed, bindings_in};
ghost use Rattle.symbol_scopes.specs.Slots.{AreSlots, slot_of, in_own};
ghost use Rattle.symbol_scopes.specs.Calls.{mark_of, numbered_name};
ghost use Rattle.symbol_scopes.specs.Meanings.{first_in, meant};

use crate::call::Call;
use crate::names::Names;
use crate::round::Round;
use crate::rows::Listed;
use crate::slots::{FoundBinding, NameSlot, NameSlots};
use std::alloc::{AllocError, Global};

/// The open regions, and what names mean there.
#[derive(Drop)]
pub struct Walk {
    pub round: Round,
    pub slots: NameSlots,
}

impl Walk {
    /// At the beginning, with the top level open.
    pub fn new(alloc: Global, names: &Names, listed: &Listed) -> Result<Walk, AllocError>
        requires listed { IsListed names.now (bindings_in names.now listed.now)
            (length listed.now.heads.items) listed.now }
        requires regions { 0 < length listed.now.heads.items }
        ensures round { IfOk result (λ w. w.round ≡ top) }
        ensures slots { IfOk result (λ w.
            AreSlots names.now (bindings_in names.now listed.now) w.round.round w.slots) }
    {
        let round = Round::new(alloc)?;
        let mut slots = NameSlots::new(alloc, names, listed)?;
        slots.enter(names, listed, &round);
        Ok(Walk { round, slots })
    }

    /// Goes over a call.
    pub fn take(&mut self, names: &Names, listed: &Listed, next: Call) -> Result<(), AllocError>
        requires listed { IsListed names.now (bindings_in names.now listed.now)
            (length listed.now.heads.items) listed.now }
        requires slots { AreSlots names.now (bindings_in names.now listed.now)
            self.old.round.round self.old.slots }
        requires regions { (passed self.old.round (mark_of names.now next)).entered
            < length listed.now.heads.items }
        ensures round { OnOk result
            (self.new.round ≡ passed self.old.round (mark_of names.now next)) }
        ensures slots { OnOk result (AreSlots names.now (bindings_in names.now listed.now)
            self.new.round.round self.new.slots) }
    {
        match next {
            Call::Enter => {
                self.round.enter()?;
                self.slots.enter(names, listed, &self.round);
            }
            Call::Leave => {
                if self.round.is_inner() {
                    self.slots.leave(names, listed, &self.round);
                }
                self.round.leave();
            }
            _ => {}
        }
        Ok(())
    }

    /// The slot of a name here.
    pub fn slot(&self, names: &Names, listed: &Listed, name: u32) -> NameSlot
        requires slots { AreSlots names.now (bindings_in names.now listed.now)
            self.now.round.round self.now.slots }
        requires named { name < length names.now }
        ensures { result ≡ slot_of (bindings_in names.now listed.now) self.now.round.round
            (numbered_name names.now name) }
    {
        self.slots.slots[name as usize]
    }

    /// The definition that a name means here.
    pub fn found(&self, names: &Names, listed: &Listed, name: u32) -> Option<FoundBinding>
        requires slots { AreSlots names.now (bindings_in names.now listed.now)
            self.now.round.round self.now.slots }
        requires named { name < length names.now }
        ensures { result ≡ meant (bindings_in names.now listed.now) self.now.round.round
            (numbered_name names.now name) }
    {
        listed.found(self.slot(names, listed, name).found)
    }

    /// The first definition of a name in the innermost region.
    pub fn own_found(&self, names: &Names, listed: &Listed, name: u32) -> Option<FoundBinding>
        requires slots { AreSlots names.now (bindings_in names.now listed.now)
            self.now.round.round self.now.slots }
        requires named { name < length names.now }
        ensures { result ≡ first_in (bindings_in names.now listed.now) (own self.now.round.round)
            (numbered_name names.now name) }
    {
        in_region(self.found(names, listed, name), self.round.region())
    }
}

/// A definition, if it is in a region.
fn in_region(found: Option<FoundBinding>, region: u32) -> Option<FoundBinding>
    ensures { result ≡ in_own found region }
{
    match found {
        Some(f) => { if f.region == region { found } else { None } }
        None => None,
    }
}
