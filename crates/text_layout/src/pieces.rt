//! A line that is written in pieces, without memory.
//!
//! Short pieces are held back and go to the sink together, so that a short line is one write.

ghost use Rattle.std.specs.Prelude.{◌≡◌, ◌≤◌, ◌++◌, [], OnOk, OnErr};
ghost use Rattle.std.specs.List.{flat_map};
ghost use Rattle.std.specs.Io.KnownBytes.{Appends};
ghost use Rattle.irdl_bytes.specs.Outside.{AppendsPrefix, Rose};
ghost use Rattle.text_layout.specs.Pieces.{Sends};

use arrayvec::ArrayVec;
use irdl_bytes::{Failed, Sink};

/// How many bytes of pieces are held back at most.
const HELD_LEN: usize = 128;

/// Writes the pieces one after another, up to the first write that fails. Pieces that have at most
/// 128 bytes together are one write, and empty ones none. It takes no memory.
#[tactic(auto, using(crate::proofs::Appending::appending))]
pub fn write_pieces<S: Sink>(sink: &mut S, pieces: &[&[u8]]) -> Result<(), Failed>
    ensures whole { OnOk result
        (Appends (S.written sink.old) (S.written sink.new) (flat_map (λ p. p.now) pieces.now)) }
    ensures part { OnErr result (AppendsPrefix (S.written sink.old) (S.written sink.new)
        (flat_map (λ p. p.now) pieces.now)) }
    ensures later { S.faults sink.old ≤ S.faults sink.new }
    ensures cause { OnErr result (Rose (S.faults sink.old) (S.faults sink.new)) }
{
    let mut held = ArrayVec::new();
    for piece in pieces {
        put(sink, &mut held, piece)?;
    }
    hand_over(sink, &mut held)
}

/// Holds a piece back. Where it has no room, what was held back before it goes to the sink, and a
/// piece that is longer than the room of all goes there too.
#[tactic(auto, using(crate::proofs::Appending::appending))]
fn put<S: Sink>(sink: &mut S, held: &mut ArrayVec<u8, HELD_LEN>, piece: &[u8]) -> Result<(), Failed>
    ensures ok { OnOk result (Sends (S.written sink.old) (S.written sink.new)
        (held.old.items ++ piece.now) held.new.items) }
    ensures err { OnErr result (AppendsPrefix (S.written sink.old) (S.written sink.new)
        (held.old.items ++ piece.now)) }
    ensures later { S.faults sink.old ≤ S.faults sink.new }
    ensures cause { OnErr result (Rose (S.faults sink.old) (S.faults sink.new)) }
{
    if held.try_extend_from_slice(piece).is_ok() {
        return Ok(());
    }
    hand_over(sink, held)?;
    if held.try_extend_from_slice(piece).is_ok() {
        return Ok(());
    }
    sink.write_all(piece)
}

/// Hands what is held back to the sink, where it is anything.
#[tactic(auto, using(crate::proofs::Appending::appending))]
fn hand_over<S: Sink>(sink: &mut S, held: &mut ArrayVec<u8, HELD_LEN>) -> Result<(), Failed>
    ensures ok { OnOk result
        (Appends (S.written sink.old) (S.written sink.new) held.old.items) }
    ensures empty { OnOk result (held.new.items ≡ []) }
    ensures err { OnErr result
        (AppendsPrefix (S.written sink.old) (S.written sink.new) held.old.items) }
    ensures later { S.faults sink.old ≤ S.faults sink.new }
    ensures cause { OnErr result (Rose (S.faults sink.old) (S.faults sink.new)) }
{
    if held.is_empty() {
        return Ok(());
    }
    sink.write_all(held.as_slice())?;
    held.clear();
    Ok(())
}
