//! What each name means in the open regions.

ghost use Rattle.std.specs.Prelude.{◌≡◌, ◌<◌, [], IfOk, List, ℕ, length};
ghost use Rattle.symbol_scopes.specs.ScopeMarks.{Binding, own, behind_own};
ghost use Rattle.symbol_scopes.specs.Listed.{IsListed, bindings_in};
ghost use Rattle.symbol_scopes.specs.Slots.{AreSlots, outer_of};

use crate::names::Names;
use crate::round::Round;
use crate::rows::Listed;
use std::alloc::{AllocError, Global};
use std::mem::size_of;

/// A definition that a name means: its number, its region, and the size of its pack or the number
/// of its block.
#[derive(Clone, Copy)]
pub struct FoundBinding {
    pub at: u32,
    pub region: u32,
    pub number: u32,
}

/// The number of the definition that a name means, and the least number of a definition of it in
/// the open regions. Both are the count of definitions where there is none.
#[derive(Clone, Copy)]
pub struct NameSlot {
    pub found: u32,
    pub least: u32,
}

const _: () = prove!(size_of::<NameSlot>() == 8);

/// A slot for each name, and for each definition in an open region that of its name outside.
#[derive(Drop)]
pub struct NameSlots {
    pub slots: Vec<NameSlot>,
    pub saved: Vec<NameSlot>,
}

/// What a name means outside a region, by its slot in it.
fn outer_slot(slot: NameSlot, saved: &[NameSlot], listed: &Listed, region: u32) -> NameSlot
    requires { length saved.now ≡ length listed.now.rows.items }
    ensures { (ns : List (List ℕ)) →
        result ≡ outer_of (bindings_in ns listed.now) slot saved.now region }
{
    match listed.found(slot.found) {
        Some(f) => {
            if f.region == region {
                saved[f.at as usize]
            } else {
                slot
            }
        }
        None => slot,
    }
}

impl NameSlots {
    /// No region is open.
    pub fn new(alloc: Global, names: &Names, listed: &Listed) -> Result<NameSlots, AllocError>
        ensures { IfOk result (λ t. AreSlots names.now (bindings_in names.now listed.now) [] t) }
    {
        let none = listed.rows.len() as u32;
        let slot = NameSlot {
            found: none,
            least: none,
        };
        Ok(NameSlots {
            slots: vec![in alloc; slot; names.len()]?,
            saved: vec![in alloc; slot; listed.rows.len()]?,
        })
    }

    /// The innermost region begins: each name that it defines means its first definition there.
    pub fn enter(&mut self, names: &Names, listed: &Listed, round: &Round)
        requires listed { IsListed names.now (bindings_in names.now listed.now)
            (length listed.now.heads.items) listed.now }
        requires slots { AreSlots names.now (bindings_in names.now listed.now)
            (behind_own round.now.round) self.old }
        requires known { own round.now.round < length listed.now.heads.items }
        ensures { AreSlots names.now (bindings_in names.now listed.now) round.now.round self.new }
    {
        let region = round.region();
        let _ = names.len();
        let mut at = listed.heads[region as usize];
        while let Some(d) = at {
            let row = listed.rows[d as usize];
            let slot = self.slots[row.name as usize];
            let out = outer_slot(slot, self.saved.as_slice(), listed, region);
            self.saved[d as usize] = out;
            self.slots[row.name as usize] = NameSlot {
                found: d,
                least: d.min(out.least),
            };
            at = row.next;
        }
    }

    /// The innermost region ends: each name means what it means outside.
    pub fn leave(&mut self, names: &Names, listed: &Listed, round: &Round)
        requires listed { IsListed names.now (bindings_in names.now listed.now)
            (length listed.now.heads.items) listed.now }
        requires slots { AreSlots names.now (bindings_in names.now listed.now)
            round.now.round self.old }
        requires known { own round.now.round < length listed.now.heads.items }
        ensures { AreSlots names.now (bindings_in names.now listed.now)
            (behind_own round.now.round) self.new }
    {
        let region = round.region();
        let _ = names.len();
        let mut at = listed.heads[region as usize];
        while let Some(d) = at {
            let row = listed.rows[d as usize];
            self.slots[row.name as usize] = self.saved[d as usize];
            at = row.next;
        }
    }
}
