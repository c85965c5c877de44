//! Reading one value.

ghost use Rattle.std.specs.Prelude.{◌≤◌, ◌-◌};
ghost use Rattle.grammar.specs.Answers.{Told, Accepts, ReadsFront};
ghost use Rattle.grammar.specs.Ran.{Kept};
ghost use Rattle.generic_syntax.specs.declared.parse.TheConstants.{TOO_DEEP};
ghost use Rattle.generic_syntax.specs.Nested.{IsValue, deep};
ghost use Rattle.generic_syntax.specs.Values.{a_type, an_attr};

use crate::cst::ValueCst;
use crate::token::ValueSort;
use crate::value::value;
use grammar::SyntaxStop;
use ir_lexer::TokenSource;
use std::alloc::Global;

/// The nesting at which a value is too deep: one more than the greatest depth of a value.
pub const TOO_DEEP: u32 = 65;

/// Reads one type or attribute, which counts as standing at this nesting. The source then stands
/// behind it.
///
/// It is read exactly where the tokens have a front that is a value, none too deep. Any other tokens
/// are refused at the first with which no value goes on, or that begins one at nesting `TOO_DEEP`.
pub fn parse_value<T: TokenSource>(
    alloc: Global,
    t: &mut T,
    nesting: u32,
) -> Result<ValueCst, SyntaxStop>
    requires least { 1 ≤ nesting }
    requires most { nesting ≤ TOO_DEEP }
    ensures kept { Kept (T.state t.old) result (T.state t.new) }
    ensures answer { ReadsFront (IsValue an_attr) (deep (TOO_DEEP - nesting) an_attr)
        (T.state t.old) result (T.state t.new) }
    ensures accepts { Told (T.state t.old) (λ ts.
        Accepts (IsValue an_attr) (deep (TOO_DEEP - nesting) an_attr) ts result) }
{
    value(alloc, t, TOO_DEEP - nesting, ValueSort::Attribute)
}

/// Reads one type, with the same promises.
pub fn parse_type<T: TokenSource>(
    alloc: Global,
    t: &mut T,
    nesting: u32,
) -> Result<ValueCst, SyntaxStop>
    requires least { 1 ≤ nesting }
    requires most { nesting ≤ TOO_DEEP }
    ensures kept { Kept (T.state t.old) result (T.state t.new) }
    ensures answer { ReadsFront (IsValue a_type) (deep (TOO_DEEP - nesting) a_type)
        (T.state t.old) result (T.state t.new) }
    ensures accepts { Told (T.state t.old) (λ ts.
        Accepts (IsValue a_type) (deep (TOO_DEEP - nesting) a_type) ts result) }
{
    value(alloc, t, TOO_DEEP - nesting, ValueSort::AnyType)
}
