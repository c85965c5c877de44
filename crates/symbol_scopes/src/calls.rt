//! Calls, in few bytes each.

ghost use Rattle.std.specs.Prelude.{
  ◌≡◌,
  ◌<◌,
  ◌^◌,
  ◌⊎◌,
  ◌++◌,
  ◌∷◌,
  [],
  length,
  IfOk,
  IfSome,
  OnOk,
  OnErr,
};
ghost use Rattle.std.specs.List.{list_any};
ghost use Rattle.symbol_scopes.specs.Calls.{call_at, is_of_blocks};
ghost use Rattle.symbol_scopes.specs.Steps as spec;
ghost use Rattle.symbol_scopes.specs.Steps.{IsStep, IsStepOf};
ghost use Rattle.symbol_scopes.specs.declared.call.Call.TheVariants as of_call;
ghost use Rattle.symbol_scopes.specs.declared.call.Said.TheVariants as of_said;

use crate::call::{Call, Said};
use std::alloc::{AllocError, Global};
use std::marker::Model;
use std::mem::size_of;

/// A call whose numbers are small, or the place of another one among the large ones.
#[derive(Clone, Copy)]
pub enum Step {
    Enter,
    Leave,
    BadPack {
        place: u32,
    },
    Define {
        count: u16,
        name: u32,
        place: u32,
    },
    /// The place of the number is so far ahead of that of the name.
    Use {
        number: u8,
        ahead: u16,
        name: u32,
        place: u32,
    },
    Label {
        block: u16,
        name: u32,
        place: u32,
    },
    LeadTo {
        name: u32,
        place: u32,
    },
    DefineAlias {
        is_type: bool,
        name: u32,
        place: u32,
    },
    MentionAlias {
        is_type: bool,
        name: u32,
        place: u32,
    },
    Large {
        at: u32,
    },
}

const _: () = prove!(size_of::<Step>() == 12);

/// The step of what is said of a name, if its numbers are small.
fn said_step(name: u32, said: Said) -> Option<Step>
    ensures { IfSome result (λ s. IsStepOf (of_call.Name name said) s) }
{
    match said {
        Said::Define { place, count } => {
            let count = u16_of(count)?;
            Some(Step::Define { count, name, place })
        }
        Said::Use {
            place,
            number,
            number_place,
        } => use_step(name, place, number, number_place),
        Said::Label { place, block } => {
            let block = u16_of(block)?;
            Some(Step::Label { block, name, place })
        }
        Said::LeadTo { place } => Some(Step::LeadTo { name, place }),
        Said::DefineAlias { is_type, place } => Some(Step::DefineAlias {
            is_type,
            name,
            place,
        }),
        Said::MentionAlias { is_type, place } => Some(Step::MentionAlias {
            is_type,
            name,
            place,
        }),
    }
}

/// A number, if it is small.
fn u16_of(number: u32) -> Option<u16>
    ensures { IfSome result (λ n. n ≡ number) }
{
    if number > u16::MAX as u32 {
        return None;
    }
    Some(number as u16)
}

/// The step of a use, if its number is small and stands closely behind its name.
fn use_step(name: u32, place: u32, number: u32, number_place: u32) -> Option<Step>
    ensures { IfSome result (λ s.
        IsStepOf (of_call.Name name (of_said.Use place number number_place)) s) }
{
    if number > u8::MAX as u32 || number_place < place {
        return None;
    }
    let ahead = u16_of(number_place - place)?;
    Some(Step::Use {
        number: number as u8,
        ahead,
        name,
        place,
    })
}

/// The step of a call, if its numbers are small.
fn small_step(call: Call) -> Option<Step>
    ensures { IfSome result (λ s. IsStepOf call s) }
{
    match call {
        Call::Enter => Some(Step::Enter),
        Call::Leave => Some(Step::Leave),
        Call::BadPack { place } => Some(Step::BadPack { place }),
        Call::Name { name, said } => said_step(name, said),
    }
}

/// The step of a call, which is kept among the large ones unless its numbers are small. There is
/// memory for `u32::MAX` large ones.
fn kept_step(large: &mut Vec<Call>, call: Call) -> Result<Step, AllocError>
    ensures is { IfOk result (λ s. spec.call_of large.new.items s ≡ call) }
    ensures fits { IfOk result (λ s. IsStep (length large.new.items) s) }
    ensures kept { (large.new.items ≡ large.old.items)
        ⊎ (large.new.items ≡ large.old.items ++ call ∷ []) }
{
    if let Some(step) = small_step(call) {
        return Ok(step);
    }
    let at = large.len();
    if at >= u32::MAX as usize {
        return Err(AllocError);
    }
    large.push(call)?;
    Ok(Step::Large { at: at as u32 })
}

/// The call of a step.
fn call_of(large: &[Call], step: Step) -> Call
    requires { IsStep (length large.now) step }
    ensures { result ≡ spec.call_of large.now step }
{
    match step {
        Step::Enter => Call::Enter,
        Step::Leave => Call::Leave,
        Step::BadPack { place } => Call::BadPack { place },
        Step::Define { count, name, place } => {
            let count = count as u32;
            named(name, Said::Define { place, count })
        }
        Step::Use {
            number,
            ahead,
            name,
            place,
        } => {
            let number = number as u32;
            let number_place = place + ahead as u32;
            named(
                name,
                Said::Use {
                    place,
                    number,
                    number_place,
                },
            )
        }
        Step::Label { block, name, place } => {
            let block = block as u32;
            named(name, Said::Label { place, block })
        }
        Step::LeadTo { name, place } => named(name, Said::LeadTo { place }),
        Step::DefineAlias {
            is_type,
            name,
            place,
        } => { named(name, Said::DefineAlias { is_type, place }) }
        Step::MentionAlias {
            is_type,
            name,
            place,
        } => { named(name, Said::MentionAlias { is_type, place }) }
        Step::Large { at } => large[at as usize],
    }
}

/// The call that says something of a name.
fn named(name: u32, said: Said) -> Call
    ensures { result ≡ of_call.Name name said }
{
    Call::Name { name, said }
}

/// Calls, in order. Contracts see the list of them.
#[derive(Drop)]
pub struct Calls {
    steps: Vec<Step>,
    large: Vec<Call>,
    of_blocks: bool,
}

impl Model for Calls {
    ghost use Rattle.std.specs.Prelude.{◌≡◌, List};
    ghost use Rattle.std.specs.List.{list_any};
    ghost use Rattle.symbol_scopes.specs.declared.call.Call.{Call};
    ghost use Rattle.symbol_scopes.specs.Calls.{is_of_blocks};
    ghost use Rattle.symbol_scopes.specs.Steps.{calls_of, AreSteps};

    ghost Value = { List Call };

    ghost view = { λ s. calls_of s.large.items s.steps.items };

    ghost invariant = { λ s. AreSteps s.large.items s.steps.items
        × (s.of_blocks ≡ list_any is_of_blocks (calls_of s.large.items s.steps.items)) };
}

impl Calls {
    /// No call. It takes no memory.
    pub fn new(alloc: Global) -> Calls
        ensures { result ≡ [] }
    {
        Calls {
            steps: Vec::new(alloc),
            large: Vec::new(alloc),
            of_blocks: false,
        }
    }

    /// How many calls there are.
    pub fn len(&self) -> usize
        ensures count { result ≡ length self.now }
        ensures few { length self.now < 2 ^ 63 }
    {
        self.steps.len()
    }

    /// The call at a place.
    pub fn get(&self, at: usize) -> Call
        requires { at < length self.now }
        ensures { result ≡ call_at self.now at }
    {
        call_of(self.large.as_slice(), self.steps[at])
    }

    /// Whether one of them is a label or a successor.
    pub fn speak_of_blocks(&self) -> bool
        ensures { result ≡ list_any is_of_blocks self.now }
    {
        self.of_blocks
    }

    /// One call more.
    pub fn push(&mut self, call: Call) -> Result<(), AllocError>
        ensures ok { OnOk result (self.new ≡ self.old ++ call ∷ []) }
        ensures err { OnErr result (self.new ≡ self.old) }
        ensures few { length self.old < 2 ^ 63 }
    {
        let of_blocks = self.of_blocks | call.is_of_blocks();
        let step = kept_step(&mut self.large, call)?;
        self.steps.push(step)?;
        self.of_blocks = of_blocks;
        Ok(())
    }
}
