//! Names, each kept once and known by its number.

ghost use Rattle.std.specs.Prelude.{
  ◌≡◌,
  ◌<◌,
  ◌⊎◌,
  ◌++◌,
  ◌∷◌,
  [],
  Some,
  slice_get,
  length,
  IfOk,
  OnErr,
};
ghost use Rattle.symbol_scopes.specs.Slots.{AreDistinctNames};

use attr_value::Text;
use indexmap::IndexSet;
use std::alloc::{AllocError, Global};
use std::marker::Model;

/// Distinct names. Contracts see the list of them, in which the place of a name is its number.
#[derive(Drop)]
pub struct Names {
    keys: IndexSet<Text>,
    alloc: Global,
}

impl Model for Names {
    ghost use Rattle.std.specs.Prelude.{List, ℕ};

    ghost Value = { List (List ℕ) };

    ghost view = { λ s. s.keys.keys };
}

impl Names {
    /// No name. It takes no memory.
    pub fn new(alloc: Global) -> Names
        ensures { result ≡ [] }
    {
        Names {
            keys: IndexSet::new(alloc),
            alloc,
        }
    }

    /// How many names there are.
    pub fn len(&self) -> usize
        ensures count { result ≡ length self.now }
        ensures distinct { AreDistinctNames self.now }
    {
        self.keys.len()
    }

    /// The number of a name, which is kept from now on. There is memory for `u32::MAX` names.
    pub fn number(&mut self, name: &[u8]) -> Result<u32, AllocError>
        ensures ok { IfOk result (λ n. slice_get self.new n ≡ Some name.now) }
        ensures kept { (self.new ≡ self.old) ⊎ (self.new ≡ self.old ++ name.now ∷ []) }
        ensures err { OnErr result (self.new ≡ self.old) }
    {
        if self.len() >= u32::MAX as usize {
            return Err(AllocError);
        }
        let name = Text::from_slice(self.alloc, name)?;
        let (place, _) = self.keys.insert_full(name)?;
        Ok(place as u32)
    }
}
