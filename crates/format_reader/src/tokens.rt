//! The tokens of a format text, one after another.

ghost use Rattle.std.specs.Prelude.{◌≡◌, ◌≤◌, length, false};
ghost use Rattle.ir_lexer.specs.declared.lexer.TheConstants.{TEXT_LIMIT};
ghost use Rattle.ir_lexer.specs.Reading.{token_shown};
ghost use Rattle.format_reader.specs.Scan.{next_token, tokens_at};
ghost use Rattle.format_reader.specs.Ran.{HasToken, now_of, behind};
ghost use Rattle.grammar.specs.Looks.{any_of, passes};

use crate::byte::blank_len;
use crate::front::front;
use ir_lexer::{Class, TEXT_LIMIT, Token};
use std::marker::Model;

/// The tokens of a format text from the present one on.
#[derive(Drop)]
pub struct FormatTokens<'a> {
    text: &'a [u8],
    present: Token,
}

impl<'a> Model for FormatTokens<'a> {
    ghost use Rattle.std.specs.Prelude.{List};
    ghost use Rattle.ir_lexer.specs.Tokens.{Token as Shown};
    ghost use Rattle.format_reader.specs.Inside.{tokens_of, IsInText};

    ghost Value = { List Shown };

    ghost view = { tokens_of };

    ghost invariant = { IsInText };
}

impl<'a> FormatTokens<'a> {
    /// All tokens of a text. It takes no memory.
    pub fn new(text: &'a [u8]) -> FormatTokens<'a>
        requires short { length text.now ≤ TEXT_LIMIT }
        ensures { result ≡ tokens_at text.now 0 }
    {
        FormatTokens {
            text,
            present: token_at(text, 0),
        }
    }

    /// The class of the present token.
    pub fn class(&self) -> Class
        ensures class { result ≡ (now_of self.now).class }
        ensures some { HasToken self.now }
    {
        self.present.class
    }

    /// The bytes of the present token.
    pub fn text(&self) -> &[u8]
        ensures { result.now ≡ (now_of self.now).text }
    {
        &self.text[self.present.start as usize..self.present.end as usize]
    }

    /// The place of the present token.
    pub fn place(&self) -> u32
        ensures place { result ≡ (now_of self.now).place }
        ensures some { HasToken self.now }
    {
        self.present.start
    }

    /// Drops the present token. At the end it changes nothing.
    pub fn advance(&mut self)
        ensures { passes (any_of Class.End) (now_of self.old) ≡ false → self.new ≡ behind self.old }
    {
        if self.present.class != Class::End {
            self.present = token_at(self.text, self.present.end);
        }
    }
}

/// The next token from a place on.
fn token_at(text: &[u8], at: u32) -> Token
    requires short { length text.now ≤ TEXT_LIMIT }
    requires within { at ≤ length text.now }
    ensures value { token_shown text.now result ≡ next_token text.now at }
    ensures inside { (result.start ≤ result.end) × (result.end ≤ length text.now) }
{
    let start = at as usize + blank_len(&text[at as usize..]);
    let found = front(&text[start..]);
    Token {
        class: found.class,
        start: start as u32,
        end: (start + found.len) as u32,
    }
}
