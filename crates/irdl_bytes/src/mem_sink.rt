//! A stream in memory, which fails as planned.
//!
//! It takes its memory when it is made, so no write fails for want of it. The bytes are told, so
//! each clause here is exact: `specs/MemSink.antt` says what a write leaves.
ghost use Rattle.std.specs.Prelude.{◌≡◌, ◌≤◌, ◌∷◌, ◌++◌, ◌-◌, [], Some, min, take, length, nat_le, vec_capacity, is_err, IfOk, OnOk, OnErr};
ghost use Rattle.std.specs.Io.KnownBytes.{Appends};
ghost use Rattle.irdl_bytes.specs.Outside.{Rose, AppendsPrefix};
ghost use Rattle.irdl_bytes.specs.MemSink.{write_fails, after_write};

use crate::outside::{Failed, Sink};
use crate::plan::Plan;
use std::alloc::{AllocError, Global};
use std::marker::Model;

/// A stream that keeps the bytes written to it.
#[derive(Drop)]
pub struct MemSink {
    bytes: Vec<u8>,
    limit: usize,
    plan: Plan,
}

impl Model for MemSink {
    ghost use Rattle.std.specs.Prelude.{◌≤◌, vec_capacity};
    ghost use Rattle.irdl_bytes.specs.MemSink.{SinkState};

    ghost Value = { SinkState };

    ghost view = { λ s. record {
      bytes = s.bytes.items;
      limit = s.limit;
      calls = s.plan.calls;
      planned = s.plan.planned.items;
      faults = s.plan.faults;
    } };

    ghost invariant = { λ s. s.limit ≤ vec_capacity s.bytes };
}

impl MemSink {
    /// An empty stream with memory for `room` bytes, which no write passes.
    pub fn new(alloc: Global, room: usize) -> Result<MemSink, AllocError>
        ensures { IfOk result (λ s. s ≡ record {
          bytes = [];
          limit = room;
          calls = 0;
          planned = [];
          faults = 0;
        }) }
    {
        Ok(MemSink {
            bytes: Vec::with_capacity(alloc, room)?,
            limit: room,
            plan: Plan::new(alloc),
        })
    }

    /// Plans that write number `k` fails, counted from 1 since `new`. A number that isn't of a
    /// write to come fails none.
    pub fn fail_call(&mut self, k: u64) -> Result<(), AllocError>
        ensures ok { OnOk result
            (self.new ≡ record self.old { planned = self.old.planned ++ k ∷ [] }) }
        ensures err { OnErr result (self.new ≡ self.old) }
    {
        self.plan.fail_call(k)
    }

    /// Makes each write fail that would pass `n` bytes. The least number of these and of the room
    /// counts. It takes no memory.
    pub fn fail_after(&mut self, n: u64)
        ensures { self.new ≡ record self.old { limit = min n self.old.limit } }
    {
        self.limit = n.min(self.limit as u64) as usize;
    }

    /// The bytes written. It takes no memory.
    pub fn bytes(&self) -> &[u8]
        ensures { result.now ≡ self.now.bytes }
    {
        &self.bytes
    }
}

// Appends what fits below the limit, and says whether that was the whole piece.
fn append_within(bytes: &mut Vec<u8>, limit: usize, piece: &[u8]) -> bool
    requires { limit ≤ vec_capacity bytes.old }
    ensures bytes { bytes.new.items ≡
        bytes.old.items ++ take (limit - length bytes.old.items) piece.now }
    ensures whole { result ≡ nat_le (length piece.now) (limit - length bytes.old.items) }
    ensures capacity { vec_capacity bytes.old ≤ vec_capacity bytes.new }
{
    let space = limit.saturating_sub(bytes.len());
    let fits = piece.len() <= space;
    let front = if fits { piece } else { &piece[..space] };
    // The room was taken when the sink was made.
    let _ = bytes.extend_from_slice(front);
    fits
}

impl Sink for MemSink {
    ghost use Rattle.std.specs.Prelude.{Some};

    ghost written = { λ s. Some s.bytes };

    ghost faults = { λ s. s.faults };

    /// As the trait's. It takes no memory.
    fn write_all(&mut self, piece: &[u8]) -> Result<(), Failed>
        ensures fails { is_err result ≡ write_fails self.old piece.now }
        ensures after { self.new ≡ after_write self.old piece.now }

        // What the trait asks for.
        ensures ok { OnOk result (Appends (Some self.old.bytes) (Some self.new.bytes) piece.now) }
        ensures err { OnErr result
            (AppendsPrefix (Some self.old.bytes) (Some self.new.bytes) piece.now) }
        ensures later { self.old.faults ≤ self.new.faults }
        ensures cause { OnErr result (Rose self.old.faults self.new.faults) }
    {
        if self.plan.count_call() {
            self.plan.count_fault();
            return Err(Failed);
        }
        if append_within(&mut self.bytes, self.limit, piece) {
            return Ok(());
        }
        self.plan.count_fault();
        Err(Failed)
    }
}
