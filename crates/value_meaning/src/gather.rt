//! Values where they stand, and the only kid of one.

ghost use Rattle.std.specs.Prelude.{◌≡◌, ◌<◌, ℕ, ◌+◌, List, length, IfOk, IfSome};
ghost use Rattle.attr_value.specs.Ids.{AreKnown};
ghost use Rattle.attr_value.specs.Values.{Value};
ghost use Rattle.constraint_solver.specs.Grown.{Extends};
ghost use Rattle.first_fault.specs.Firsts.{IsFirst};
ghost use Rattle.value_meaning.specs.Faults.{IsFaultOf};
ghost use Rattle.value_meaning.specs.Judging.{counted, Ground, IsJudged, IsOnly, Judges};
ghost use Rattle.value_meaning.specs.Meaning.{NodeSeen, seen_at, seen_unit};
ghost use Rattle.value_meaning.specs.Meaning.{claim_at, stands};

use crate::code::NESTING;
use crate::judged::{Judged, Kids};
use crate::node::leaf_of;
use attr_uniquer::Uniquer;
use attr_value::{DEPTH_LIMIT, Head};
use first_fault::Fault;
use generic_syntax::TOO_DEEP;
use std::alloc::AllocError;

/// The nesting of what stands in a value, counted no further than where it is too deep.
pub fn deeper(nesting: u32) -> u32
    ensures { (n : ℕ) → nesting ≡ counted n → result ≡ counted (n + 1) }
{
    if nesting >= TOO_DEEP {
        TOO_DEEP
    } else {
        nesting + 1
    }
}

/// The fault of a value that stands where there is no room for one.
fn room_fault(place: u32, nesting: u32) -> Option<Fault>
    ensures { (g : Ground) (n : ℕ) → nesting ≡ counted n →
        IsFirst (IsFaultOf g.table g.tests g.types (claim_at place (stands n))) result }
{
    if nesting as usize <= DEPTH_LIMIT {
        return None;
    }
    Some(Fault {
        place,
        code: NESTING,
    })
}

/// A value at its place: where there is no room for it, that is a fault.
pub fn stood(node: Judged, place: u32, nesting: u32) -> Judged
    ensures value { result.value ≡ node.value }
    ensures judged { (g : Ground) (n : ℕ) (s : NodeSeen) (new : List Value) →
        nesting ≡ counted n → Judges g n s.value (s.marks place n) new node →
        IsJudged g n (seen_at place s) new result }
{
    node.and(room_fault(place, nesting))
}

/// The unit attribute of a key that stands alone at a place.
pub fn unit(u: &mut Uniquer, place: u32, nesting: u32) -> Result<Judged, AllocError>
    ensures grown { Extends u.old u.new }
    ensures known { IfOk result (λ j. IfSome j.value (λ id. id.0 < length u.new)) }
    ensures judged { (g : Ground) (n : ℕ) → nesting ≡ counted n →
        IfOk result (IsJudged g n (seen_unit place) u.new) }
{
    let unit = leaf_of(u, Head::Unit)?;
    Ok(stood(unit, place, nesting))
}

impl Kids {
    /// What is known of the one tree that these are of.
    pub fn only(self) -> Judged
        ensures known { (len : ℕ) → AreKnown len self.ids.items →
            IfSome result.value (λ id. id.0 < len) }
        ensures judged { IsOnly self result }
    {
        if !self.all_good {
            return Judged {
                value: None,
                first: self.first,
            };
        }
        Judged {
            value: self.ids.first().copied(),
            first: self.first,
        }
    }
}
