//! The regions that are open.

ghost use Rattle.std.specs.Prelude.{◌≡◌, ◌<◌, ◌+◌, ◌^◌, ◌↔◌, IsTrue, IfOk, OnOk, length};
ghost use Rattle.symbol_scopes.specs.ScopeMarks.{top, passed, own};
ghost use Rattle.symbol_scopes.specs.ScopeMarks.{enters, leaves};
ghost use Rattle.symbol_scopes.specs.Slots.{Descend};

use std::alloc::{AllocError, Global};
use std::marker::Model;

/// The numbers of the open regions, the innermost last, and how many were entered.
#[derive(Drop)]
pub struct Round {
    entered: u32,
    regions: Vec<u32>,
}

impl Model for Round {
    ghost use Rattle.std.specs.Prelude.{reverse, length, ◌<◌};
    ghost use Rattle.symbol_scopes.specs.ScopeMarks.{Standing};
    ghost use Rattle.symbol_scopes.specs.Slots.{Descend};
    ghost use Rattle.std.specs.Prelude.{◌+◌};

    ghost Value = { Standing };

    ghost view = { λ s. record { entered = s.entered; round = reverse s.regions.items } };

    ghost invariant = { λ s. (0 < length s.regions.items)
        × Descend (s.entered + 1) (reverse s.regions.items) };
}

impl Round {
    /// The top level alone is open.
    pub fn new(alloc: Global) -> Result<Round, AllocError>
        ensures { IfOk result (λ r. r ≡ top) }
    {
        let mut regions = Vec::new(alloc);
        regions.push(0)?;
        Ok(Round {
            entered: 0,
            regions,
        })
    }

    /// The innermost region.
    pub fn region(&self) -> u32
        ensures own { result ≡ own self.now.round }
        ensures some { 0 < length self.now.round }
        ensures descend { Descend (self.now.entered + 1) self.now.round }
    {
        self.regions[self.regions.len() - 1]
    }

    /// Whether another region than the top level is open.
    pub fn is_inner(&self) -> bool
        ensures inner { IsTrue result ↔ (1 < length self.now.round) }
        ensures descend { Descend (self.now.entered + 1) self.now.round }
    {
        self.regions.len() > 1
    }

    /// A region begins. There is memory for `u32::MAX` of them.
    pub fn enter(&mut self) -> Result<(), AllocError>
        ensures { OnOk result (self.new ≡ passed self.old enters) }
    {
        if self.entered == u32::MAX {
            return Err(AllocError);
        }
        self.regions.push(self.entered + 1)?;
        self.entered += 1;
        Ok(())
    }

    /// The innermost region ends. The top level stays open.
    pub fn leave(&mut self)
        ensures { self.new ≡ passed self.old leaves }
    {
        if self.regions.len() > 1 {
            let _ = self.regions.pop();
        }
    }
}
