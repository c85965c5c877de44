//! Single tokens of values.

ghost use Rattle.std.specs.Prelude.{◌≡◌, ◌≢◌, ◌||◌, ℕ, List, [], ◌∷◌, codes, true};
ghost use Rattle.grammar.specs.Looks.{any_of, dotted, undotted, passes, is_among};
ghost use Rattle.grammar.specs.Looks as look;
ghost use Rattle.grammar.specs.Ran.{Took};
ghost use Rattle.ir_lexer.specs.Names as names;
ghost use Rattle.generic_syntax.specs.Begins.{Begins};
ghost use Rattle.generic_syntax.specs.Sorts.{sort_of};
ghost use Rattle.generic_syntax.specs.Values as spec;

use crate::text::{name_text, string_text};
use attr_value::Text;
use grammar::{SyntaxCode, SyntaxStop, expect, is_class, is_integer_type, is_word};
use ir_lexer::{Class, TokenSource};
use std::alloc::Global;

/// Which values may stand at a place.
#[derive(Clone, Copy)]
pub enum ValueSort {
    AnyType,
    /// A type that doesn't begin with a parenthesis.
    PlainType,
    /// Any value.
    Attribute,
}

/// The refusal of a token that begins a value nested too deep.
pub fn too_deep<T: TokenSource>(t: &T) -> SyntaxStop
    ensures { result ≡ SyntaxStop.At (T.state t.now).now.place SyntaxCode.Nesting }
{
    SyntaxStop::At {
        place: t.place(),
        code: SyntaxCode::Nesting,
    }
}

/// Whether a dot stands in the text.
fn has_dot(text: &[u8]) -> bool
    ensures { result ≡ look.has_dot text.now }
{
    for byte in text {
        if *byte == b'.' {
            return true;
        }
    }
    false
}

/// Whether the present token is of the class and has a dot.
pub fn is_dotted<T: TokenSource>(t: &T, kind: Class) -> bool
    ensures { result ≡ passes (dotted kind) (T.state t.now).now }
{
    is_class(t, kind) && has_dot(t.text())
}

/// Whether the present token is of the class and has no dot.
pub fn is_undotted<T: TokenSource>(t: &T, kind: Class) -> bool
    ensures { result ≡ passes (undotted kind) (T.state t.now).now }
{
    is_class(t, kind) && !has_dot(t.text())
}

/// Takes a token of this class, as its text.
pub fn read_text<T: TokenSource>(alloc: Global, t: &mut T, kind: Class) -> Result<Text, SyntaxStop>
    requires { kind ≢ Class.End }
    ensures { Took (passes (any_of kind)) (λ t. t.text) (T.state t.old) result (T.state t.new) }
{
    let text = Text::from_slice(alloc, t.text())?;
    expect(t, kind)?;
    Ok(text)
}

/// Takes a string, as its bytes.
pub fn read_string<T: TokenSource>(alloc: Global, t: &mut T) -> Result<Text, SyntaxStop>
    ensures { Took (passes (any_of Class.Str)) (λ t. names.literal_bytes t.text)
        (T.state t.old) result (T.state t.new) }
{
    let text = string_text(alloc, t.text())?;
    expect(t, Class::Str)?;
    Ok(text)
}

/// Takes a name of this class, without its sign.
pub fn read_sign_name<T: TokenSource>(
    alloc: Global,
    t: &mut T,
    kind: Class,
) -> Result<Text, SyntaxStop>
    requires { kind ≢ Class.End }
    ensures { Took (passes (any_of kind)) (λ t. names.name_bytes t.text)
        (T.state t.old) result (T.state t.new) }
{
    let text = name_text(alloc, t.text())?;
    expect(t, kind)?;
    Ok(text)
}

/// Whether a word is a type, beside the names of integer types.
fn is_type_name(word: &[u8]) -> bool
    ensures { result ≡ is_among (codes "index" ∷ spec.type_words) word.now }
{
    matches!(
        word,
        b"index" | b"none" | b"bf16" | b"f16" | b"tf32" | b"f32" | b"f64" | b"f80" | b"f128"
    )
}

/// Whether the present token is a word that is a type.
pub fn is_type_word<T: TokenSource>(t: &T) -> bool
    ensures { result ≡ Begins spec.type_word (T.state t.now).now }
{
    is_class(t, Class::Word) && (is_integer_type(t) || is_type_name(t.text()))
}

/// Whether a word is an attribute.
fn is_attr_name(word: &[u8]) -> bool
    ensures { result ≡ is_among (codes "true" ∷ codes "false" ∷ codes "unit" ∷ []) word.now }
{
    matches!(word, b"true" | b"false" | b"unit")
}

/// Whether the present token is a word that is an attribute.
pub fn is_attr_word<T: TokenSource>(t: &T) -> bool
    ensures { result ≡ Begins spec.attr_word (T.state t.now).now }
{
    is_class(t, Class::Word) && is_attr_name(t.text())
}

/// Whether the present token is a truth value.
pub fn is_truth<T: TokenSource>(t: &T) -> bool
    ensures { result ≡ Begins (spec.one_of (codes "true") (codes "false" ∷ [])) (T.state t.now).now }
{
    is_word(t, b"true") || is_word(t, b"false")
}

/// Whether the present token is the width of a dense array.
pub fn is_dense_width<T: TokenSource>(t: &T) -> bool
    ensures { result ≡ Begins (spec.one_of (codes "i1") spec.dense_widths) (T.state t.now).now }
{
    is_word(t, b"i1")
        || (is_word(t, b"i8") || (is_word(t, b"i16") || (is_word(t, b"i32") || is_word(t, b"i64"))))
}

/// Whether the present token is a word with which a type begins that has others in it.
fn begins_nest<T: TokenSource>(t: &T) -> bool
    ensures { let is = λ (w : List ℕ). passes (look.word w) (T.state t.now).now in
        result ≡ (is (codes "tuple") || (is (codes "complex") || (is (codes "vector")
        || (is (codes "tensor") || is (codes "memref"))))) }
{
    is_word(t, b"tuple")
        || (is_word(t, b"complex")
            || (is_word(t, b"vector") || (is_word(t, b"tensor") || is_word(t, b"memref"))))
}

/// Whether a type without parentheses begins with the present token.
pub fn begins_plain<T: TokenSource>(t: &T) -> bool
    ensures { result ≡ Begins spec.plain_node (T.state t.now).now }
{
    is_type_word(t) || (is_class(t, Class::TypeName) || begins_nest(t))
}

/// Whether a type begins with the present token.
pub fn begins_type<T: TokenSource>(t: &T) -> bool
    ensures { result ≡ Begins spec.type_node (T.state t.now).now }
{
    begins_plain(t) || is_class(t, Class::LParen)
}

/// Whether an attribute that is no type begins with the present token.
pub fn begins_attr_only<T: TokenSource>(t: &T) -> bool
    ensures { result ≡ Begins spec.attr_node (T.state t.now).now }
{
    is_attr_word(t)
        || (is_class(t, Class::Str)
            || (is_class(t, Class::SymbolName)
                || (begins_number(t)
                    || (is_class(t, Class::LSquare)
                        || (is_class(t, Class::LBrace)
                            || (is_undotted(t, Class::AttrName)
                                || (is_dotted(t, Class::AttrName) || is_word(t, b"array"))))))))
}

/// Whether a number begins with the present token.
pub fn begins_number<T: TokenSource>(t: &T) -> bool
    ensures { result ≡ Begins spec.number (T.state t.now).now }
{
    is_class(t, Class::Minus) || is_class(t, Class::Integer)
}

/// Whether an attribute begins with the present token.
pub fn begins_attr<T: TokenSource>(t: &T) -> bool
    ensures { result ≡ Begins spec.attr (T.state t.now).now }
{
    begins_type(t) || begins_attr_only(t)
}

/// Whether a value of this sort begins with the present token.
pub fn begins<T: TokenSource>(t: &T, sort: ValueSort) -> bool
    ensures { result ≡ Begins (spec.rule (sort_of sort)) (T.state t.now).now }
{
    match sort {
        ValueSort::AnyType => begins_type(t),
        ValueSort::PlainType => begins_plain(t),
        ValueSort::Attribute => begins_attr(t),
    }
}

/// Whether an entry of a dictionary begins with the present token.
pub fn begins_entry<T: TokenSource>(t: &T) -> bool
    ensures { result ≡ Begins spec.entry (T.state t.now).now }
{
    is_class(t, Class::Word) || is_class(t, Class::Str)
}

/// The width that the name of a signless integer type says, of one or two digits.
pub fn width_of(word: &[u8]) -> u32
    ensures { is_among (codes "i1" ∷ spec.dense_widths) word.now ≡ true → result ≡ spec.width_in word.now }
{
    match word {
        b"i1" => 1,
        b"i8" => 8,
        b"i16" => 16,
        b"i32" => 32,
        _ => 64,
    }
}
