//! What was judged so far.

ghost use Rattle.std.specs.Prelude.{◌≡◌, ◌++◌, [], None, OnOk, option_to_list};
ghost use Rattle.first_fault.specs.Firsts.{earlier_of};

use first_fault::{Fault, earlier};
use std::alloc::{AllocError, Global};

/// What was meant, in the order of the text, and the first fault.
#[derive(Drop)]
pub struct Judged<M> {
    pub meanings: Vec<M>,
    pub first: Option<Fault>,
}

impl<M: Drop> Judged<M> {
    /// Nothing was meant, and there is no fault. It takes no memory.
    pub fn new(alloc: Global) -> Judged<M>
        ensures meanings { result.meanings.items ≡ [] }
        ensures first { result.first ≡ None }
    {
        Judged {
            meanings: Vec::new(alloc),
            first: None,
        }
    }

    /// One call more: its fault, and what it means.
    pub fn take(&mut self, fault: Option<Fault>, meant: Option<M>) -> Result<(), AllocError>
        ensures first { OnOk result (self.new.first ≡ earlier_of self.old.first fault) }
        ensures meanings { OnOk result
            (self.new.meanings.items ≡ self.old.meanings.items ++ option_to_list meant) }
    {
        self.first = earlier(self.first, fault);
        if let Some(meaning) = meant {
            self.meanings.push(meaning)?;
        }
        Ok(())
    }
}
