//! What is known of a tree, or of some trees, behind their judgement.

ghost use Rattle.std.specs.Prelude.{◌≡◌, [], ◌∷◌, ◌++◌, true, false, None, Some, IfOk, OnOk};
ghost use Rattle.std.specs.Prelude.{ℕ, List};
ghost use Rattle.attr_value.specs.Ids.{AreKnown};
ghost use Rattle.attr_value.specs.Values.{Value};
ghost use Rattle.first_fault.specs.Firsts.{earlier_of};
ghost use Rattle.value_meaning.specs.Gathered.{IsAdded};
ghost use Rattle.value_meaning.specs.Judging.{AreJudged, Ground};

use attr_value::ValueId;
use first_fault::{Fault, earlier};
use std::alloc::{AllocError, Global};

/// A tree's value, where it is good, and its first fault.
#[derive(Drop)]
pub struct Judged {
    pub value: Option<ValueId>,
    pub first: Option<Fault>,
}

impl Judged {
    /// Without a good value, for a fault of this rule at its place.
    pub fn wrong(place: u32, code: u32) -> Judged
        ensures value { result.value ≡ None }
        ensures first { result.first ≡ Some (record { place = place; code = code }) }
    {
        Judged {
            value: None,
            first: Some(Fault { place, code }),
        }
    }

    /// Without a good value, for this fault, beside what is known of its kids.
    pub fn bad(fault: Fault, kids: Kids) -> Judged
        ensures value { result.value ≡ None }
        ensures first { result.first ≡ earlier_of (Some fault) kids.first }
    {
        Judged {
            value: None,
            first: earlier(Some(fault), kids.first),
        }
    }

    /// With one more fault, where there is one.
    pub fn and(self, fault: Option<Fault>) -> Judged
        ensures value { result.value ≡ self.value }
        ensures first { result.first ≡ earlier_of fault self.first }
    {
        Judged {
            value: self.value,
            first: earlier(fault, self.first),
        }
    }
}

/// The values of some trees, in order, where each is good, and the first of all their faults.
#[derive(Drop)]
pub struct Kids {
    /// The ids of the good values.
    pub ids: Vec<ValueId>,
    /// Whether each tree has a good value.
    pub all_good: bool,
    pub first: Option<Fault>,
}

impl Kids {
    /// Of no trees. It takes no memory.
    pub fn new(alloc: Global) -> Kids
        ensures ids { result.ids.items ≡ [] }
        ensures all_good { result.all_good ≡ true }
        ensures first { result.first ≡ None }
        ensures known { (len : ℕ) → AreKnown len result.ids.items }
        ensures none { (g : Ground) (n : ℕ) (new : List Value) → AreJudged g n [] new result }
    {
        Kids {
            ids: Vec::new(alloc),
            all_good: true,
            first: None,
        }
    }

    /// Puts what is known of one more tree behind the others.
    pub fn add(&mut self, judged: Judged) -> Result<(), AllocError>
        ensures { OnOk result (IsAdded self.old judged self.new) }
    {
        self.first = earlier(self.first, judged.first);
        match judged.value {
            Some(id) => self.ids.push(id)?,
            None => self.all_good = false,
        }
        Ok(())
    }
}
