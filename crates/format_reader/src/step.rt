//! One token.

ghost use Rattle.std.specs.Prelude.{◌≡◌, ◌≢◌, Err};
ghost use Rattle.grammar.specs.Looks.{any_of, passes};
ghost use Rattle.grammar.specs.Looks as look;
ghost use Rattle.grammar.specs.Rules.{punct, keyword};
ghost use Rattle.ir_lexer.specs.Classes as lexer;
ghost use Rattle.format_reader.specs.Ran.{HasToken, IsAtEnd, Reads, Refuses, now_of};

use crate::stop::FormatAt;
use crate::tokens::FormatTokens;
use ir_lexer::Class;

/// Whether the two classes are one.
fn same_class(a: Class, b: Class) -> bool
    ensures { result ≡ lexer.same_class a b }
{
    a == b
}

/// Whether the present token is of this class.
pub fn is_class(t: &FormatTokens<'_>, kind: Class) -> bool
    ensures passes { result ≡ passes (any_of kind) (now_of t.now) }
    ensures some { HasToken t.now }
{
    same_class(t.class(), kind)
}

/// Whether the present token is this word.
pub fn is_word(t: &FormatTokens<'_>, word: &[u8]) -> bool
    ensures passes { result ≡ passes (look.word word.now) (now_of t.now) }
    ensures some { HasToken t.now }
{
    is_class(t, Class::Word) && t.text() == word
}

/// The refusal of the present token.
fn refused(t: &FormatTokens<'_>) -> FormatAt
    ensures { Refuses t.now result }
{
    FormatAt::At(t.place())
}

/// Takes a token of this class. Any other is refused.
pub fn expect(t: &mut FormatTokens<'_>, kind: Class) -> Result<(), FormatAt>
    requires { kind ≢ Class.End }
    ensures { Reads (punct kind) t.old result t.new }
{
    if !is_class(t, kind) {
        return Err(refused(t));
    }
    t.advance();
    Ok(())
}

/// Takes this word. Any other token is refused.
pub fn expect_word(t: &mut FormatTokens<'_>, word: &[u8]) -> Result<(), FormatAt>
    ensures { Reads (keyword word.now) t.old result t.new }
{
    if !is_word(t, word) {
        return Err(refused(t));
    }
    t.advance();
    Ok(())
}

/// Sees that the present token is the end. Any other is refused.
pub fn expect_end(t: &FormatTokens<'_>) -> Result<(), FormatAt>
    ensures { IsAtEnd t.now result }
{
    if is_class(t, Class::End) {
        Ok(())
    } else {
        Err(refused(t))
    }
}
