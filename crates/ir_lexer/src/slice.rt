//! The tokens of a slice as a source.

ghost use Rattle.std.specs.Prelude.{◌≡◌, ◌≤◌, ◌+◌, length, IsOk};
ghost use Rattle.ir_lexer.specs.Reading.{Reading, token_shown};
ghost use Rattle.ir_lexer.specs.Scan.{next_token};
ghost use Rattle.ir_lexer.specs.Slice.{Tells, slice_source};
ghost use Rattle.ir_lexer.specs.Source.{Advances};

use crate::class::Class;
use crate::lexer::{TEXT_LIMIT, Token, token_at};
use crate::source::{TokenSource, TokenStop};
use std::marker::Model;

/// The tokens of a slice, as a source that is steady, has no origin and counts no faults. It means
/// the text, and the place at which the search for the present token began.
#[derive(Drop)]
pub struct SliceTokens<'a> {
    src: &'a [u8],
    from: u32,
    now: Token,
}

impl<'a> Model for SliceTokens<'a> {
    ghost use Rattle.std.specs.Prelude.{◌≡◌, ◌≤◌, length};
    ghost use Rattle.ir_lexer.specs.Reading.{Reading};

    ghost Value = { Reading };

    ghost use Rattle.ir_lexer.specs.SliceInside.{reading_of, IsAtToken};

    ghost view = { reading_of };

    ghost invariant = { IsAtToken };
}

impl<'a> SliceTokens<'a> {
    /// A source at the first token of a slice. It takes no memory, and neither do its calls.
    pub fn new(src: &'a [u8]) -> SliceTokens<'a>
        requires short { length src.now ≤ TEXT_LIMIT }
        ensures { Tells (slice_source result) src.now }
    {
        SliceTokens {
            src,
            from: 0,
            now: token_at(src, 0),
        }
    }
}

impl TokenSource for SliceTokens<'_> {
    ghost use Rattle.ir_lexer.specs.Slice.{slice_source};
    ghost use Rattle.ir_lexer.specs.Sliced.{slice_ends, slice_end_is_last};

    ghost state = { slice_source };

    fn class(&self) -> Class {
        self.now.class
    }

    fn text(&self) -> &[u8] {
        &self.src[self.now.start as usize..self.now.end as usize]
    }

    fn place(&self) -> u32 {
        self.now.start
    }

    fn advance(&mut self) -> Result<(), TokenStop>
        ensures step { Advances (slice_source self.old) result (slice_source self.new) }
        ensures ok { IsOk result }
    {
        if self.now.class != Class::End {
            let from = self.now.end;
            self.now = token_at(self.src, from);
            self.from = from;
        }
        Ok(())
    }

    ghost ends = { slice_ends };

    ghost end_is_last = { slice_end_is_last };
}
