//! A text's tokens, one after another.

ghost use Rattle.std.specs.Prelude.{◌≡◌, ◌≤◌, length, slice_range};
ghost use Rattle.ir_lexer.specs.Tokens.{IsNext};
ghost use Rattle.ir_lexer.specs.Scan.{next_token};
ghost use Rattle.ir_lexer.specs.Reading.{Reading, token_shown};

use crate::class::Class;
use crate::scan::{layout_end, longest};
use irdl_bytes::FILE_LIMIT;
use std::marker::Model;

/// The most bytes that a text may have: as many as a file that is read.
pub const TEXT_LIMIT: usize = FILE_LIMIT;

/// A class, and where the spelling stands in the text, in bytes from 0.
#[derive(Clone, Copy, Debug, PartialEq, Eq)]
pub struct Token {
    pub class: Class,
    /// The place of the first byte.
    pub start: u32,
    /// The place behind the last byte.
    pub end: u32,
}

/// A text that is being cut into tokens. It means the text, and the place behind the last token.
#[derive(Drop)]
pub struct Lexer<'a> {
    src: &'a [u8],
    at: u32,
}

impl<'a> Model for Lexer<'a> {
    ghost use Rattle.std.specs.Prelude.{◌≤◌, length};
    ghost use Rattle.ir_lexer.specs.declared.lexer.TheConstants.{TEXT_LIMIT};
    ghost use Rattle.ir_lexer.specs.Reading.{Reading};

    ghost Value = { Reading };

    ghost view = { λ l. record { text = l.src.now; place = l.at } };

    ghost invariant = { λ l. (l.at ≤ length l.src.now) × (length l.src.now ≤ TEXT_LIMIT) };
}

impl<'a> Lexer<'a> {
    /// A lexer at the start of a text. It takes no memory.
    pub fn new(src: &'a [u8]) -> Lexer<'a>
        requires short { length src.now ≤ TEXT_LIMIT }
        ensures { result ≡ record { text = src.now; place = 0 } }
    {
        Lexer { src, at: 0 }
    }

    /// The next token: behind blanks and comments, the longest prefix of the rest that spells a
    /// class, `Bad` where none does, and `End` where nothing is left, again at each call. It takes
    /// no memory.
    ///
    /// Each call begins where the last one ended. So from a new lexer on, the tokens up to the
    /// first `End` are those that `Tokens` of `specs/Tokens.antt` gives the text.
    pub fn next(&mut self) -> Token
        ensures next { IsNext self.old.text self.old.place (token_shown self.old.text result) }
        ensures moved { self.new ≡ record { text = self.old.text; place = result.end } }

        // The token lies in the text, and that of the end is empty.
        ensures inside { (result.start ≤ result.end) × (result.end ≤ length self.old.text) }
        ensures end { result.class ≡ Class.End → result.start ≡ length self.old.text }
    {
        let token = token_at(self.src, self.at);
        self.at = token.end;
        token
    }

    /// The bytes of a token, which are a part of the text. It takes no memory.
    pub fn text(&self, t: Token) -> &[u8]
        requires inside { (t.start ≤ t.end) × (t.end ≤ length self.now.text) }
        ensures { result.now ≡ slice_range self.now.text t.start t.end }
    {
        &self.src[t.start as usize..t.end as usize]
    }
}

/// The next token from a place on.
pub fn token_at(src: &[u8], at: u32) -> Token
    requires short { length src.now ≤ TEXT_LIMIT }
    requires within { at ≤ length src.now }
    ensures value { token_shown src.now result ≡ next_token src.now at }
    ensures behind { at ≤ result.start }
    ensures inside { (result.start ≤ result.end) × (result.end ≤ length src.now) }
{
    let start = layout_end(src, at as usize);
    let found = longest(&src[start..]);
    Token {
        class: found.class,
        start: start as u32,
        end: (start + found.len) as u32,
    }
}
