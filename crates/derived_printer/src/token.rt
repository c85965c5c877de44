//! The parts of values that hold no value, laid down on a layout: signs, words, names and numbers.
//!
//! A text that isn't there as it is spelled is made in a buffer, which all texts share.

ghost use Rattle.std.specs.Prelude.{◌≡◌, ◌≤◌, [], ◌∷◌, true, false, decimal};
ghost use Rattle.attr_value.specs.Heads.{IsDim};
ghost use Rattle.std.specs.List.{AllByRecursion};
ghost use Rattle.text_layout.specs.Apart.{is_empty};
ghost use Rattle.text_layout.specs.declared.blank.TheConstants.{INDENT_LIMIT};
ghost use Rattle.text_layout.specs.Lines as line;
ghost use Rattle.derived_printer.specs.Parts as part;
ghost use Rattle.derived_printer.specs.Prints.{Prints};
ghost use Rattle.derived_printer.specs.Spelling as spec;
ghost use Rattle.derived_printer.specs.ValueMarks as mark;

use crate::spell::{add_dims, add_int, add_name, add_string, add_symbol, is_bare};
use attr_value::{Dim, FloatKind, IntKind, ShapeKind};
use ir_lexer::Class;
use irdl_bytes::Sink;
use itoa::Buffer;
use text_layout::{Layout, PrintError};

// ---- signs and words

/// How a class of signs is spelled.
fn sign_text(class: Class) -> &'static [u8]
    ensures { result.now ≡ mark.sign_text class }
{
    match class {
        Class::Colon => b":",
        Class::ColonColon => b"::",
        Class::Comma => b",",
        Class::Equal => b"=",
        Class::Less => b"<",
        Class::Greater => b">",
        Class::LParen => b"(",
        Class::RParen => b")",
        Class::LBrace => b"{",
        Class::RBrace => b"}",
        Class::LSquare => b"[",
        Class::RSquare => b"]",
        Class::Arrow => b"->",
        Class::Minus => b"-",
        _ => b"",
    }
}

/// Lays a sign down.
pub fn sign<S: Sink>(layout: &mut Layout<'_, S>, class: Class) -> Result<(), PrintError>
    requires { is_empty (mark.sign_text class) ≡ false }
    ensures { Prints S.written S.faults layout.old (mark.a_sign class) result layout.new }
{
    layout.token(class, sign_text(class))
}

/// Lays a sign down before the piece at a place, if it isn't the first.
pub fn separate<S: Sink>(
    layout: &mut Layout<'_, S>,
    class: Class,
    place: usize,
) -> Result<(), PrintError>
    requires { is_empty (mark.sign_text class) ≡ false }
    ensures { Prints S.written S.faults layout.old (part.separator class place)
        result layout.new }
{
    if place == 0 {
        return Ok(());
    }
    sign(layout, class)
}

/// Ends the line, and sets the indent of the next one.
pub fn new_line<S: Sink>(layout: &mut Layout<'_, S>, indent: u32) -> Result<(), PrintError>
    requires { indent ≤ INDENT_LIMIT }
    ensures { Prints S.written S.faults layout.old (line.break_line indent ∷ []) result layout.new }
{
    layout.break_line(indent)
}

/// Lays a word down.
pub fn word<S: Sink>(layout: &mut Layout<'_, S>, text: &[u8]) -> Result<(), PrintError>
    requires { spec.is_bare text.now ≡ true }
    ensures { Prints S.written S.faults layout.old (mark.a_word text.now) result layout.new }
{
    layout.token(Class::Word, text)
}

/// The name of a float type.
pub fn float_text(kind: FloatKind) -> &'static [u8]
    ensures { result.now ≡ spec.float_text kind }
{
    match kind {
        FloatKind::Bf16 => b"bf16",
        FloatKind::F16 => b"f16",
        FloatKind::Tf32 => b"tf32",
        FloatKind::F32 => b"f32",
        FloatKind::F64 => b"f64",
        FloatKind::F80 => b"f80",
        FloatKind::F128 => b"f128",
    }
}

/// The word of a shaped type.
pub fn shape_text(kind: ShapeKind) -> &'static [u8]
    ensures { result.now ≡ spec.shape_text kind }
{
    match kind {
        ShapeKind::Vector => b"vector",
        ShapeKind::Tensor => b"tensor",
        ShapeKind::Memref => b"memref",
    }
}

/// Lays the name of an integer type down.
pub fn int_type<S: Sink>(
    layout: &mut Layout<'_, S>,
    text: &mut Vec<u8>,
    kind: IntKind,
) -> Result<(), PrintError>
    ensures { Prints S.written S.faults layout.old (mark.a_word (spec.int_text kind))
        result layout.new }
{
    text.clear();
    match add_int(text, kind) {
        Ok(()) => layout.token(Class::Word, text.as_slice()),
        Err(_) => Err(layout.out_of_memory()),
    }
}

// ---- texts

/// Lays a string of these bytes down.
pub fn string<S: Sink>(
    layout: &mut Layout<'_, S>,
    text: &mut Vec<u8>,
    bytes: &[u8],
) -> Result<(), PrintError>
    ensures { Prints S.written S.faults layout.old
        (line.token Class.Str (spec.string_text bytes.now) ∷ []) result layout.new }
{
    text.clear();
    match add_string(text, bytes) {
        Ok(()) => layout.token(Class::Str, text.as_slice()),
        Err(_) => Err(layout.out_of_memory()),
    }
}

/// Lays a key of a dictionary down.
pub fn key<S: Sink>(
    layout: &mut Layout<'_, S>,
    text: &mut Vec<u8>,
    bytes: &[u8],
) -> Result<(), PrintError>
    ensures { Prints S.written S.faults layout.old
        (line.token (spec.key_class bytes.now) (spec.key_text bytes.now) ∷ [])
        result layout.new }
{
    if is_bare(bytes) {
        return layout.token(Class::Word, bytes);
    }
    string(layout, text, bytes)
}

/// Lays a part of a symbol down.
pub fn part<S: Sink>(
    layout: &mut Layout<'_, S>,
    text: &mut Vec<u8>,
    name: &[u8],
) -> Result<(), PrintError>
    ensures { Prints S.written S.faults layout.old (mark.part_marks name.now)
        result layout.new }
{
    text.clear();
    match add_symbol(text, name) {
        Ok(()) => layout.token(Class::SymbolName, text.as_slice()),
        Err(_) => Err(layout.out_of_memory()),
    }
}

/// The class of the name of a dialect's type, or of its attribute.
fn name_class(is_type: bool) -> Class
    ensures { result ≡ spec.name_class is_type }
{
    if is_type {
        Class::TypeName
    } else {
        Class::AttrName
    }
}

/// Lays the name of a dialect's type or attribute down.
pub fn name<S: Sink>(
    layout: &mut Layout<'_, S>,
    text: &mut Vec<u8>,
    is_type: bool,
    name: &[u8],
) -> Result<(), PrintError>
    requires { spec.is_bare name.now ≡ true }
    ensures { Prints S.written S.faults layout.old
        (line.token (spec.name_class is_type) (spec.name_text is_type name.now) ∷ [])
        result layout.new }
{
    text.clear();
    match add_name(text, is_type, name) {
        Ok(()) => layout.token(name_class(is_type), text.as_slice()),
        Err(_) => Err(layout.out_of_memory()),
    }
}

/// Lays dimensions down, if there are any.
pub fn dims<S: Sink>(
    layout: &mut Layout<'_, S>,
    text: &mut Vec<u8>,
    kind: ShapeKind,
    dims: &[Dim],
) -> Result<(), PrintError>
    requires { AllByRecursion (IsDim kind) dims.now }
    ensures { Prints S.written S.faults layout.old (mark.dims_marks dims.now)
        result layout.new }
{
    if dims.is_empty() {
        return Ok(());
    }
    text.clear();
    match add_dims(text, dims) {
        Ok(()) => layout.token(Class::Dims, text.as_slice()),
        Err(_) => Err(layout.out_of_memory()),
    }
}

// ---- numbers

/// Lays the `-` of a negative number down.
fn minus<S: Sink>(layout: &mut Layout<'_, S>, n: i128) -> Result<(), PrintError>
    ensures { Prints S.written S.faults layout.old (part.minus_marks n) result layout.new }
{
    if n < 0 {
        return sign(layout, Class::Minus);
    }
    Ok(())
}

/// Lays digits down.
fn digits<S: Sink>(layout: &mut Layout<'_, S>, n: u128) -> Result<(), PrintError>
    ensures { Prints S.written S.faults layout.old (line.token Class.Integer (decimal n) ∷ [])
        result layout.new }
{
    let mut buffer = Buffer::new();
    layout.token(Class::Integer, buffer.format(n).as_bytes())
}

/// Lays a number down.
pub fn number<S: Sink>(layout: &mut Layout<'_, S>, n: i128) -> Result<(), PrintError>
    ensures { Prints S.written S.faults layout.old (mark.number_marks n) result layout.new }
{
    minus(layout, n)?;
    digits(layout, n.unsigned_abs())
}

/// Lays a number of one bit down, as a truth value.
pub fn truth<S: Sink>(layout: &mut Layout<'_, S>, n: i128) -> Result<(), PrintError>
    ensures { Prints S.written S.faults layout.old (mark.a_word (spec.truth_text n))
        result layout.new }
{
    if n < 0 {
        return word(layout, b"true");
    }
    word(layout, b"false")
}

/// Whether the numbers of a kind are truth values.
fn is_truth_kind(kind: IntKind) -> bool
    ensures { result ≡ spec.is_truth_kind kind }
{
    match kind {
        IntKind::Signless(width) => width == 1,
        _ => false,
    }
}

/// Lays a number and its type down, or a truth value.
pub fn typed_number<S: Sink>(
    layout: &mut Layout<'_, S>,
    text: &mut Vec<u8>,
    kind: IntKind,
    n: i128,
) -> Result<(), PrintError>
    ensures { Prints S.written S.faults layout.old (mark.typed_number_marks kind n)
        result layout.new }
{
    if is_truth_kind(kind) {
        return truth(layout, n);
    }
    number(layout, n)?;
    sign(layout, Class::Colon)?;
    int_type(layout, text, kind)
}
