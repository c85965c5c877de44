//! Bytes on their way to a sink.

ghost use Rattle.std.specs.Prelude.{◌≡◌, ◌≢◌, ◌+◌, ◌-◌, ◌<◌, ◌≤◌, ◌∷◌, ◌++◌, [], length, vec_capacity, IfErr, OnOk, OnErr};
ghost use Rattle.std.specs.Io.KnownBytes.{Appends};
ghost use Rattle.irdl_bytes.specs.Outside.{Rose, AppendsPrefix};
ghost use Rattle.ir_lexer.specs.declared.lexer.TheConstants.{TEXT_LIMIT};
ghost use Rattle.ir_lexer.specs.Signs.{line_feed};
ghost use Rattle.text_layout.specs.Flow.{Adds, PrintHasCause, Stops, Drains};
ghost use Rattle.text_layout.specs.OutputFlow.{flow_of};
ghost use Rattle.text_layout.specs.PageInside.{HasRoom, last_text};

use crate::error::PrintError;
use crate::pieces::write_pieces;
use ir_lexer::TEXT_LIMIT;
use irdl_bytes::Sink;
use std::alloc::{AllocError, Global};

/// As many bytes or more are handed to the sink at once.
const PIECE_LEN: usize = 65_536;

/// Bytes that the sink hasn't got, and how many went in so far. The last text that was put in is
/// among the former, as their last bytes until a line feed comes.
#[derive(Drop)]
pub struct Output {
    pub held: Vec<u8>,
    pub laid: usize,
    /// How many bytes that text has.
    pub last: usize,
}

impl Output {
    pub fn new(alloc: Global) -> Output
        ensures held { result.held.items ≡ [] }
        ensures laid { result.laid ≡ 0 }
    {
        Output {
            held: Vec::new(alloc),
            laid: 0,
            last: 0,
        }
    }

    /// The text that was put in last, where no line feed stands behind it.
    pub fn last_text(&self) -> &[u8]
        ensures { result.now ≡ last_text self.now }
    {
        &self.held[self.held.len().saturating_sub(self.last)..]
    }

    /// Takes a gap and a text. What is held already is handed to the sink first, where it is much.
    pub fn put<S: Sink>(&mut self, sink: &mut S, gap: &[u8], text: &[u8]) -> Result<(), PrintError>
        requires within { self.old.laid ≤ TEXT_LIMIT }
        ensures ok { OnOk result (Adds (flow_of self.old (S.written sink.old) (S.faults sink.old))
            (gap.now ++ text.now) (flow_of self.new (S.written sink.new) (S.faults sink.new))) }
        ensures err { IfErr result
            (λ e. Stops (flow_of self.old (S.written sink.old) (S.faults sink.old))
            (gap.now ++ text.now) e (flow_of self.new (S.written sink.new) (S.faults sink.new))) }
        ensures within { self.new.laid ≤ TEXT_LIMIT }
        ensures last { OnOk result (last_text self.new ≡ text.now) }
        ensures room { OnOk result (HasRoom self.new) }
    {
        let room = TEXT_LIMIT - self.laid;
        if gap.len() > room || text.len() > room - gap.len() {
            return Err(self.cut(sink, gap, text));
        }
        self.hand_on(sink)?;
        match self.keep(gap, text) {
            Ok(()) => Ok(()),
            Err(_) => Err(PrintError::OutOfMemory),
        }
    }

    /// Takes a line feed. It takes no memory.
    pub fn put_line_feed<S: Sink>(&mut self, sink: &mut S) -> Result<(), PrintError>
        requires within { self.old.laid ≤ TEXT_LIMIT }
        requires room { HasRoom self.old }
        ensures ok { OnOk result (Adds (flow_of self.old (S.written sink.old) (S.faults sink.old))
            (line_feed ∷ []) (flow_of self.new (S.written sink.new) (S.faults sink.new))) }
        ensures err { IfErr result
            (λ e. Stops (flow_of self.old (S.written sink.old) (S.faults sink.old))
            (line_feed ∷ []) e (flow_of self.new (S.written sink.new) (S.faults sink.new))) }
        ensures memory { IfErr result (λ e. e ≢ PrintError.OutOfMemory) }
        ensures within { self.new.laid ≤ TEXT_LIMIT }
    {
        if self.laid == TEXT_LIMIT {
            return Err(self.cut(sink, b"\n", b""));
        }
        let _ = self.held.push(b'\n');
        self.laid += 1;
        Ok(())
    }

    /// Takes a last line feed, and hands all to the sink. It takes no memory.
    #[tactic(auto, using(crate::proofs::Flows::drains_last))]
    pub fn end_line<S: Sink>(mut self, sink: &mut S) -> Result<(), PrintError>
        requires within { self.laid ≤ TEXT_LIMIT }
        requires room { HasRoom self }
        ensures { Drains (flow_of self (S.written sink.old) (S.faults sink.old))
            (line_feed ∷ []) result (S.written sink.new) (S.faults sink.new) }
    {
        self.put_line_feed(sink)?;
        self.end(sink)
    }

    /// Hands all to the sink, as the last bytes. It takes no memory.
    pub fn end<S: Sink>(mut self, sink: &mut S) -> Result<(), PrintError>
        requires within { self.laid ≤ TEXT_LIMIT }
        ensures { Drains (flow_of self (S.written sink.old) (S.faults sink.old))
            [] result (S.written sink.new) (S.faults sink.new) }
    {
        self.flush(sink)
    }

    /// Hands all to the sink. It takes no memory.
    fn flush<S: Sink>(&mut self, sink: &mut S) -> Result<(), PrintError>
        ensures ok { OnOk result
            (Appends (S.written sink.old) (S.written sink.new) self.old.held.items) }
        ensures empty { OnOk result (self.new.held.items ≡ []) }
        ensures fault { IfErr result (λ e. e ≡ PrintError.WriteFault) }
        ensures cause { OnErr result (Rose (S.faults sink.old) (S.faults sink.new)) }
        ensures some { OnErr result (self.old.held.items ≢ []) }
        ensures part { OnErr result
            (AppendsPrefix (S.written sink.old) (S.written sink.new) self.old.held.items) }
        ensures laid { self.new.laid ≡ self.old.laid }
        ensures later { S.faults sink.old ≤ S.faults sink.new }
    {
        if self.held.is_empty() {
            return Ok(());
        }
        if sink.write_all(&self.held).is_err() {
            return Err(PrintError::WriteFault);
        }
        self.held.clear();
        Ok(())
    }

    /// Holds a gap and a text back.
    fn keep(&mut self, gap: &[u8], text: &[u8]) -> Result<(), AllocError>
        requires { self.old.laid + length (gap.now ++ text.now) ≤ TEXT_LIMIT }
        ensures held { OnOk result
            (self.new.held.items ≡ self.old.held.items ++ (gap.now ++ text.now)) }
        ensures laid { OnOk result
            (self.new.laid ≡ self.old.laid + length (gap.now ++ text.now)) }
        ensures err { OnErr result (self.new.laid ≡ self.old.laid) }
        ensures last { OnOk result (last_text self.new ≡ text.now) }
        ensures room { OnOk result (HasRoom self.new) }
    {
        self.held.reserve(gap.len() + text.len() + 1)?;
        // Most gaps are a space or nothing, which is no work for a copy.
        match gap {
            [] => {}
            [byte] => {
                let _ = self.held.push(*byte);
            }
            _ => {
                let _ = self.held.extend_from_slice(gap);
            }
        }
        let _ = self.held.extend_from_slice(text);
        self.laid += gap.len() + text.len();
        self.last = text.len();
        Ok(())
    }

    /// Hands all to the sink where it is much.
    fn hand_on<S: Sink>(&mut self, sink: &mut S) -> Result<(), PrintError>
        ensures ok { OnOk result (Adds (flow_of self.old (S.written sink.old) (S.faults sink.old))
            [] (flow_of self.new (S.written sink.new) (S.faults sink.new))) }
        ensures err { IfErr result
            (λ e. Stops (flow_of self.old (S.written sink.old) (S.faults sink.old))
            [] e (flow_of self.new (S.written sink.new) (S.faults sink.new))) }
        ensures laid { self.new.laid ≡ self.old.laid }
    {
        if self.held.len() < PIECE_LEN {
            return Ok(());
        }
        self.flush(sink)
    }

    /// Hands to the sink what is held back and the bytes up to the limit, which a gap and a text
    /// pass. It answers why they don't go in. It takes no memory.
    fn cut<S: Sink>(&self, sink: &mut S, gap: &[u8], text: &[u8]) -> PrintError
        requires within { self.now.laid ≤ TEXT_LIMIT }
        requires beyond { TEXT_LIMIT < self.now.laid + length (gap.now ++ text.now) }
        ensures cause { PrintHasCause (flow_of self.now (S.written sink.old) (S.faults sink.old))
            (gap.now ++ text.now) result (S.written sink.new) (S.faults sink.new) }
        ensures memory { result ≢ PrintError.OutOfMemory }
        ensures later { S.faults sink.old ≤ S.faults sink.new }
    {
        let room = TEXT_LIMIT - self.laid;
        let gap = &gap[..gap.len().min(room)];
        let text = &text[..room - gap.len()];
        match write_pieces(sink, &[&self.held, gap, text]) {
            Ok(()) => PrintError::OutputLimit,
            Err(_) => PrintError::WriteFault,
        }
    }
}
