//! The calls of an object in memory: how many were made, which are planned to fail, and how many
//! failed.
ghost use Rattle.std.specs.Prelude.{◌≡◌, ◌∷◌, ◌++◌, [], false, IsTrue, OnOk, OnErr};
ghost use Rattle.irdl_bytes.specs.Outside.{next_count};
ghost use Rattle.irdl_bytes.specs.Planned.{is_planned, none_later};

use std::alloc::{AllocError, Global};

/// The calls of an object. Its numbers stand still at the greatest `u64`.
#[derive(Drop)]
pub struct Plan {
    pub calls: u64,
    pub planned: Vec<u64>,
    pub faults: u64,
}

impl Plan {
    /// No call yet, and none planned to fail.
    pub fn new(alloc: Global) -> Plan
        ensures calls { result.calls ≡ 0 }
        ensures planned { result.planned.items ≡ [] }
        ensures faults { result.faults ≡ 0 }
    {
        Plan {
            calls: 0,
            planned: Vec::new(alloc),
            faults: 0,
        }
    }

    /// Plans that call number `k` fails, counted from 1.
    pub fn fail_call(&mut self, k: u64) -> Result<(), AllocError>
        ensures ok { OnOk result (self.new.planned.items ≡ self.old.planned.items ++ k ∷ []) }
        ensures err { OnErr result (self.new.planned.items ≡ self.old.planned.items) }
        ensures calls { self.new.calls ≡ self.old.calls }
        ensures faults { self.new.faults ≡ self.old.faults }
    {
        self.planned.push(k)?;
        Ok(())
    }

    /// Counts a call, and says whether it is planned to fail.
    #[tactic(auto, using(crate::proofs::NotPlanned::passing))]
    pub fn count_call(&mut self) -> bool
        ensures planned { result ≡ is_planned self.old.calls self.old.planned.items }
        ensures after { self.new ≡ record self.old { calls = next_count self.old.calls } }
        ensures none { IsTrue (none_later self.old.calls self.old.planned.items) → result ≡ false }
        ensures still_none { IsTrue (none_later self.old.calls self.old.planned.items) →
            IsTrue (none_later self.new.calls self.old.planned.items) }
    {
        let planned = is_next(self.calls, &self.planned);
        self.calls = self.calls.saturating_add(1);
        planned
    }

    /// Counts a call that failed.
    pub fn count_fault(&mut self)
        ensures { self.new ≡ record self.old { faults = next_count self.old.faults } }
    {
        self.faults = self.faults.saturating_add(1);
    }
}

// Whether the call after so many is planned to fail. None comes after the greatest number.
fn is_next(calls: u64, planned: &[u64]) -> bool
    ensures { result ≡ is_planned calls planned.now }
{
    calls < u64::MAX && planned.contains(&(calls + 1))
}
