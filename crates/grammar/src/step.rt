//! One token.
//!
//! Each reader of a grammar is made of these steps and of readers of smaller grammars. What a step
//! owes is stated once, in `specs/Ran.antt`.

ghost use Rattle.std.specs.Prelude.{◌≡◌, ◌≢◌, ◌↔◌, ◌^◌, ◌-◌, IsTrue, true, false, Err};
ghost use Rattle.ir_lexer.specs.Classes as lexer;
ghost use Rattle.ir_lexer.specs.Source.{IsInOrder};
ghost use Rattle.grammar.specs.Looks.{any_of, passes};
ghost use Rattle.grammar.specs.Looks as look;
ghost use Rattle.grammar.specs.Ran.{Took, IsAtEnd, RefusesBy, RefusesToken};

use crate::number::number_in;
use crate::stop::{SyntaxCode, SyntaxStop};
use crate::word::is_integer_word;
use ir_lexer::{Class, TokenSource};

/// Whether the two classes are one.
fn same_class(a: Class, b: Class) -> bool
    ensures value { result ≡ lexer.same_class a b }
    ensures same { result ≡ true → a ≡ b }
    ensures other { result ≡ false → a ≢ b }
{
    a == b
}

/// Whether the present token is of this class.
pub fn is_class<T: TokenSource>(t: &T, kind: Class) -> bool
    ensures class { IsTrue result ↔ ((T.state t.now).now.class ≡ kind) }
    ensures passes { result ≡ passes (any_of kind) (T.state t.now).now }
    ensures order { IsInOrder (T.state t.now) }
{
    same_class(t.class(), kind)
}

/// Whether the present token is this word.
pub fn is_word<T: TokenSource>(t: &T, word: &[u8]) -> bool
    ensures passes { result ≡ passes (look.word word.now) (T.state t.now).now }
    ensures order { IsInOrder (T.state t.now) }
{
    is_class(t, Class::Word) && t.text() == word
}

/// Whether the present token is the name of an integer type.
pub fn is_integer_type<T: TokenSource>(t: &T) -> bool
    ensures passes { result ≡ passes look.int_word (T.state t.now).now }
    ensures order { IsInOrder (T.state t.now) }
{
    is_class(t, Class::Word) && is_integer_word(t.text())
}

/// The refusal of the present token: no text has it at its place.
pub fn refused<T: TokenSource>(t: &T) -> SyntaxStop
    ensures { RefusesToken (T.state t.now).now result }
{
    let code = match t.class() {
        Class::Float => SyntaxCode::Float,
        Class::Bad => SyntaxCode::Bad,
        _ => SyntaxCode::Syntax,
    };
    SyntaxStop::At {
        place: t.place(),
        code,
    }
}

/// Sees that the present token is the end of the text. Any other is refused.
pub fn expect_end<T: TokenSource>(t: &T) -> Result<(), SyntaxStop>
    ensures { IsAtEnd (T.state t.now) result }
{
    if same_class(t.class(), Class::End) {
        Ok(())
    } else {
        Err(refused(t))
    }
}

/// Takes a token of this class. Any other is refused. Memory runs out in the source alone.
pub fn expect<T: TokenSource>(t: &mut T, kind: Class) -> Result<(), SyntaxStop>
    requires { kind ≢ Class.End }
    ensures took { Took (passes (any_of kind)) (λ _. tt) (T.state t.old) result (T.state t.new) }
    ensures refused { RefusesBy (passes (any_of kind)) (T.state t.old) result }
    ensures memory { result ≡ Err SyntaxStop.OutOfMemory → (T.state t.new).stopped ≡ true }
{
    if !is_class(t, kind) {
        return Err(refused(t));
    }
    t.advance()?;
    Ok(())
}

/// Takes this word. Any other token is refused. Memory runs out in the source alone.
pub fn expect_word<T: TokenSource>(t: &mut T, word: &[u8]) -> Result<(), SyntaxStop>
    ensures took { Took (passes (look.word word.now)) (λ _. tt)
        (T.state t.old) result (T.state t.new) }
    ensures refused { RefusesBy (passes (look.word word.now)) (T.state t.old) result }
    ensures memory { result ≡ Err SyntaxStop.OutOfMemory → (T.state t.new).stopped ≡ true }
{
    if !is_word(t, word) {
        return Err(refused(t));
    }
    t.advance()?;
    Ok(())
}

/// Takes a number of 32 bits. Any other token is refused.
pub fn read_number<T: TokenSource>(t: &mut T) -> Result<u32, SyntaxStop>
    ensures { Took (passes (look.number_to (2 ^ 32 - 1))) (λ t. look.number_in t.text)
        (T.state t.old) result (T.state t.new) }
{
    if !is_class(t, Class::Integer) {
        return Err(refused(t));
    }
    match number_in(t.text()) {
        None => Err(refused(t)),
        Some(number) => {
            t.advance()?;
            Ok(number)
        }
    }
}
