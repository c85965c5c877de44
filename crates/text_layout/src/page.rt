//! What a layout keeps, apart from its sink.

ghost use Rattle.std.specs.Prelude.{◌≡◌, ◌≢◌, ◌≤◌, ℕ, List, ◌∷◌, ◌++◌, [], Option, Ok, Err, Some, None, IfOk, IfErr, OnOk, if◌then◌else◌};
ghost use Rattle.ir_lexer.specs.Signs.{space};
ghost use Rattle.ir_lexer.specs.declared.lexer.TheConstants.{TEXT_LIMIT};
ghost use Rattle.ir_lexer.specs.Spelling.{Text, Spells};
ghost use Rattle.text_layout.specs.declared.blank.TheConstants.{INDENT_LIMIT};
ghost use Rattle.text_layout.specs.Blank.{blank_text, IsShort};
ghost use Rattle.text_layout.specs.Flow.{Stops};
ghost use Rattle.text_layout.specs.Lines.{Mark, token, ask, break_line, line_end, line_after, bytes_of, gap_before};
ghost use Rattle.text_layout.specs.Moment.{Laid, Lays, Ended};
ghost use Rattle.text_layout.specs.Page.{empty_page, moment_of};

use crate::blank::Blank;
use crate::error::PrintError;
use crate::gap::Gap;
use crate::output::Output;
use crate::rules::{Ends, first_of, is_tight, stays_apart};
use ir_lexer::Class;
use irdl_bytes::Sink;
use std::alloc::{AllocError, Global};
use std::marker::Model;

/// Where the present line stands, and the bytes on their way.
#[derive(Drop)]
pub struct Page {
    indent: u32,
    ends: Option<Ends>,
    gap: Gap,
    /// Room for two texts put together.
    joined: Vec<u8>,
    output: Output,
    stopped: Option<PrintError>,
}

impl Model for Page {
    ghost use Rattle.text_layout.specs.Page.{Page};

    ghost Value = { Page };

    ghost use Rattle.text_layout.specs.PageInside.{page_of, IsPage};

    ghost view = { page_of };

    ghost invariant = { IsPage };
}

impl Page {
    /// A page on which nothing stands. It takes no memory.
    pub fn new(alloc: Global) -> Page
        ensures { result ≡ empty_page }
    {
        Page {
            indent: 0,
            ends: None,
            gap: Gap::Plain,
            joined: Vec::new(alloc),
            output: Output::new(alloc),
            stopped: None,
        }
    }

    /// Sets what is asked of the next gap.
    pub fn ask(&mut self, gap: Gap)
        ensures { self.new
            ≡ record self.old { line = line_after self.old.line (ask gap) } }
    {
        self.gap = gap;
    }

    /// Lays a token down.
    pub fn add_token<S: Sink>(
        &mut self,
        sink: &mut S,
        class: Class,
        text: &[u8],
    ) -> Result<(), PrintError>
        requires { Spells class text.now }
        ensures lays { Lays (moment_of self.old (S.written sink.old) (S.faults sink.old))
            (token class text.now ∷ []) result
            (moment_of self.new (S.written sink.new) (S.faults sink.new)) }
        ensures again { (e : PrintError) → self.old.stopped ≡ Some e →
            (result ≡ Err e) × (self.new ≡ self.old) × (sink.new ≡ sink.old) }
    {
        if let Some(e) = self.stopped {
            return Err(e);
        }
        match self.try_token(sink, class, text) {
            Ok(()) => Ok(()),
            Err(e) => Err(self.stop(e)),
        }
    }

    /// Stops for want of memory, where no error came before. It writes nothing.
    #[tactic(auto, using(crate::proofs::Going::going))]
    pub fn out_of_memory(&mut self) -> PrintError
        ensures lays { (marks : List Mark) (written : Option Text) (faults : ℕ) →
            Lays (moment_of self.old written faults) marks (Err result)
            (moment_of self.new written faults) }
        ensures again { (e : PrintError) → self.old.stopped ≡ Some e →
            (result ≡ e) × (self.new ≡ self.old) }
    {
        match self.stopped {
            Some(e) => e,
            None => self.stop(PrintError::OutOfMemory),
        }
    }

    /// Ends the line where it has a token, and sets the indent of the next. It takes no memory.
    pub fn add_break<S: Sink>(&mut self, sink: &mut S, indent: u32) -> Result<(), PrintError>
        requires { indent ≤ INDENT_LIMIT }
        ensures lays { Lays (moment_of self.old (S.written sink.old) (S.faults sink.old))
            (break_line indent ∷ []) result
            (moment_of self.new (S.written sink.new) (S.faults sink.new)) }
        ensures memory { self.old.stopped ≡ None → IfErr result (λ e. e ≢ PrintError.OutOfMemory) }
        ensures again { (e : PrintError) → self.old.stopped ≡ Some e →
            (result ≡ Err e) × (self.new ≡ self.old) × (sink.new ≡ sink.old) }
    {
        if let Some(e) = self.stopped {
            return Err(e);
        }
        match self.try_break(sink, indent) {
            Ok(()) => Ok(()),
            Err(e) => Err(self.stop(e)),
        }
    }

    /// Ends the last line, and hands all to the sink. It takes no memory.
    pub fn finish<S: Sink>(self, sink: &mut S) -> Result<(), PrintError>
        ensures ended { Ended (moment_of self (S.written sink.old) (S.faults sink.old)) result
            (S.written sink.new) (S.faults sink.new) }
        ensures untouched { self.stopped ≢ None → sink.new ≡ sink.old }
    {
        let Page {
            ends,
            output,
            stopped,
            ..
        } = self;
        if let Some(e) = stopped {
            return Err(e);
        }
        match ends {
            Some(_) => output.end_line(sink),
            None => output.end(sink),
        }
    }

    /// Keeps an error, and hands it on.
    fn stop(&mut self, e: PrintError) -> PrintError
        ensures same { result ≡ e }
        ensures stopped { self.new ≡ record self.old { stopped = Some e } }
    {
        self.stopped = Some(e);
        e
    }

    /// Lays a token down, where no error came before.
    #[tactic(auto, using(crate::proofs::Going::going))]
    fn try_token<S: Sink>(
        &mut self,
        sink: &mut S,
        class: Class,
        text: &[u8],
    ) -> Result<(), PrintError>
        requires spelled { Spells class text.now }
        requires going { self.old.stopped ≡ None }
        ensures ok { OnOk result (Laid (moment_of self.old (S.written sink.old) (S.faults sink.old))
            (token class text.now ∷ [])
            (moment_of self.new (S.written sink.new) (S.faults sink.new))) }
        ensures err { IfErr result (λ e.
            Stops (moment_of self.old (S.written sink.old) (S.faults sink.old)).flow
            (bytes_of self.old.line (token class text.now)) e
            (moment_of self.new (S.written sink.new) (S.faults sink.new)).flow) }
        ensures going { self.new.stopped ≡ None }
    {
        let blank = self
            .gap_before(class, text)
            .map_err(|_| PrintError::OutOfMemory)?;
        let first = first_of(self.gap, self.ends, class);
        self.ends = None;
        self.output.put(sink, blank.bytes(), text)?;
        self.ends = Some(Ends { first, last: class });
        self.gap = Gap::Plain;
        Ok(())
    }

    /// Ends the line, where no error came before.
    fn try_break<S: Sink>(&mut self, sink: &mut S, indent: u32) -> Result<(), PrintError>
        requires short { indent ≤ INDENT_LIMIT }
        requires going { self.old.stopped ≡ None }
        ensures ok { OnOk result (Laid (moment_of self.old (S.written sink.old) (S.faults sink.old))
            (break_line indent ∷ [])
            (moment_of self.new (S.written sink.new) (S.faults sink.new))) }
        ensures err { IfErr result (λ e.
            Stops (moment_of self.old (S.written sink.old) (S.faults sink.old)).flow
            (bytes_of self.old.line (break_line indent)) e
            (moment_of self.new (S.written sink.new) (S.faults sink.new)).flow) }
        ensures memory { IfErr result (λ e. e ≢ PrintError.OutOfMemory) }
        ensures going { self.new.stopped ≡ None }
    {
        if let Some(_) = self.ends {
            self.ends = None;
            self.output.put_line_feed(sink)?;
        }
        self.gap = Gap::Plain;
        self.indent = indent;
        Ok(())
    }

    /// What stands before a token.
    #[tactic(auto, using(crate::proofs::Gaps::gaps))]
    fn gap_before(&mut self, class: Class, text: &[u8]) -> Result<Blank, AllocError>
        ensures gap { IfOk result (λ b. blank_text b ≡ gap_before self.old.line class text.now) }
        ensures short { IfOk result IsShort }
        ensures same { self.new ≡ self.old }
    {
        let Some(ends) = self.ends else {
            return Ok(Blank::Indent(self.indent));
        };
        match self.gap {
            Gap::Newline => Ok(Blank::Break(self.indent + 2)),
            Gap::Space => Ok(Blank::Space),
            Gap::Plain => Ok(space_unless(is_tight(ends, self.output.last_text(), class))),
            Gap::Empty => {
                let last = self.output.last_text();
                if is_tight(ends, last, class) {
                    return Ok(Blank::Nothing);
                }
                let apart = stays_apart(&mut self.joined, ends.last, last, text)?;
                Ok(space_unless(apart))
            }
        }
    }
}

/// One space, or none.
fn space_unless(none: bool) -> Blank
    ensures text { blank_text result ≡ (if none then [] else space ∷ []) }
    ensures short { IsShort result }
{
    if none { Blank::Nothing } else { Blank::Space }
}
