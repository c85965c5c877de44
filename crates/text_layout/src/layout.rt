//! A layout over a sink.

ghost use Rattle.std.specs.Prelude.{◌≡◌, ◌≢◌, ◌≤◌, List, ◌∷◌, [], Ok, Err, Some, None, IfErr};
ghost use Rattle.ir_lexer.specs.Spelling.{Spells};
ghost use Rattle.text_layout.specs.declared.blank.TheConstants.{INDENT_LIMIT};
ghost use Rattle.text_layout.specs.Lines as line;
ghost use Rattle.text_layout.specs.Lines.{Mark};
ghost use Rattle.text_layout.specs.Moment.{first_moment, Lays, Repeats, Ended};
ghost use Rattle.text_layout.specs.OfLayout.{sink_of, moment};

use crate::error::PrintError;
use crate::gap::Gap;
use crate::page::Page;
use ir_lexer::Class;
use irdl_bytes::Sink;
use std::alloc::Global;

/// Writes tokens to a sink as the bytes of `layout` of `specs/Lines.antt`.
///
/// The sink gets bytes in pieces of 64 KiB and more, and the last ones at [`Layout::end`]; until
/// then it has the first bytes of the text so far. It gets none behind the first 16,777,216 of a
/// text, whatever is answered. A clause sees the sink (`sink_of`), and where the line and the text
/// stand (`moment`). What the calls say adds up: marks that are laid down one after another are
/// laid down together (`adds_up` of `src/laws.rt`).
///
/// `P` is always `Page`. It is a type parameter since the contract of `end` speaks of the sink
/// behind the reference, and can't where a field's own type owns memory.
#[derive(Drop)]
pub struct Layout<'a, S: Sink, P: Drop = Page> {
    sink: &'a mut S,
    page: P,
}

impl<'a, S: Sink> Layout<'a, S, Page> {
    /// A layout in which nothing stands. It takes no memory, and writes nothing.
    pub fn new(alloc: Global, sink: &'a mut S) -> Layout<'a, S>
        ensures same_sink { (sink_of result).ghost_name ≡ sink.entry.ghost_name }
        ensures fresh { moment S.written S.faults result
            ≡ first_moment (S.written sink.old) (S.faults sink.old) }
    {
        Layout {
            sink,
            page: Page::new(alloc),
        }
    }

    /// Lays a token down, whose text spells its class, with what stands before it.
    ///
    /// `WriteFault` where the sink failed, `OutputLimit` where the text so far would have more than
    /// 16,777,216 bytes, and `OutOfMemory`. After an error, each call answers the same one and
    /// writes nothing.
    pub fn token(&mut self, class: Class, text: &[u8]) -> Result<(), PrintError>
        requires { Spells class text.now }
        ensures lays { Lays (moment S.written S.faults self.old) (line.token class text.now ∷ [])
            result (moment S.written S.faults self.new) }
        ensures again { Repeats (moment S.written S.faults self.old) result
            (moment S.written S.faults self.new) }
        ensures untouched { (moment S.written S.faults self.old).stopped ≢ None →
            (sink_of self.new).now ≡ (sink_of self.old).now }
        ensures same_sink { (sink_of self.new).ghost_name ≡ (sink_of self.old).ghost_name }
    {
        self.page.add_token(&mut *self.sink, class, text)
    }

    /// Stops for want of memory: for a caller that has none to make the text of a token with. The
    /// answer is `OutOfMemory`, or the error that was answered before, as from each later call. It
    /// writes nothing.
    pub fn out_of_memory(&mut self) -> PrintError
        ensures lays { (marks : List Mark) → Lays (moment S.written S.faults self.old) marks
            (Err result) (moment S.written S.faults self.new) }
        ensures again { Repeats (moment S.written S.faults self.old) (Err result)
            (moment S.written S.faults self.new) }
        ensures untouched { (sink_of self.new).now ≡ (sink_of self.old).now }
        ensures same_sink { (sink_of self.new).ghost_name ≡ (sink_of self.old).ghost_name }
    {
        self.page.out_of_memory()
    }

    /// Sets what is asked of the gap before the next token of the line. It takes no memory.
    pub fn ask(&mut self, gap: Gap)
        ensures lays { Lays (moment S.written S.faults self.old) (line.ask gap ∷ []) (Ok tt)
            (moment S.written S.faults self.new) }
        ensures untouched { (sink_of self.new).now ≡ (sink_of self.old).now }
        ensures stopped { (moment S.written S.faults self.new).stopped
            ≡ (moment S.written S.faults self.old).stopped }
        ensures same_sink { (sink_of self.new).ghost_name ≡ (sink_of self.old).ghost_name }
    {
        self.page.ask(gap);
    }

    /// Ends the line where it has a token, and sets the indent of the next one, in spaces, at most
    /// [`INDENT_LIMIT`]. It takes no memory, and may answer `WriteFault` or `OutputLimit`.
    pub fn break_line(&mut self, indent: u32) -> Result<(), PrintError>
        requires { indent ≤ INDENT_LIMIT }
        ensures lays { Lays (moment S.written S.faults self.old) (line.break_line indent ∷ [])
            result (moment S.written S.faults self.new) }
        ensures memory { (moment S.written S.faults self.old).stopped ≡ None →
            IfErr result (λ e. e ≢ PrintError.OutOfMemory) }
        ensures again { Repeats (moment S.written S.faults self.old) result
            (moment S.written S.faults self.new) }
        ensures untouched { (moment S.written S.faults self.old).stopped ≢ None →
            (sink_of self.new).now ≡ (sink_of self.old).now }
        ensures same_sink { (sink_of self.new).ghost_name ≡ (sink_of self.old).ghost_name }
    {
        self.page.add_break(&mut *self.sink, indent)
    }

    /// Ends the last line, and hands all to the sink. Without it, the last bytes are lost. It takes
    /// no memory, and may answer `WriteFault` or `OutputLimit`.
    pub fn end(self) -> Result<(), PrintError>
        ensures ended { Ended (moment S.written S.faults self.entry) result
            (S.written self.exit.0.now) (S.faults self.exit.0.now) }
        ensures untouched { (moment S.written S.faults self.entry).stopped ≢ None →
            self.exit.0.now ≡ (sink_of self.entry).now }
    {
        let Layout { sink, page } = self;
        page.finish(sink)
    }
}
