//! The trees of single tokens, and values up to what stands behind them.

use super::*;
use ir_lexer::{Class, SliceTokens, TEXT_LIMIT, TokenSource};
use std::process::Abort;

#[test]
fn a_name_has_its_place_and_the_bytes_behind_its_sign(rt: HostRuntime) -> Result<(), SyntaxStop> {
    let mut values = SliceTokens::new(b" %0 %a-b");
    for (place, bytes) in [(1, "0"), (4, "a-b")] {
        let name = read_name(rt.alloc(), &mut values, Class::ValueName)?;
        assert_eq!(rt; name.place, place);
        assert_eq!(rt; name.name.bytes(), bytes.as_bytes());
    }
    let mut symbols = SliceTokens::new(b"@\"a\\n\\41\" @a");
    for (place, bytes) in [(0, "a\nA"), (10, "a")] {
        let name = read_name(rt.alloc(), &mut symbols, Class::SymbolName)?;
        assert_eq!(rt; name.place, place);
        assert_eq!(rt; name.name.bytes(), bytes.as_bytes());
    }
    Ok(())
}

#[test]
fn a_word_that_is_a_name_has_its_place_and_its_bytes(rt: HostRuntime) -> Result<(), SyntaxStop> {
    let mut tokens = SliceTokens::new(b" x a.b %x");
    for (place, bytes) in [(1, "x"), (3, "a.b")] {
        let name = read_word(rt.alloc(), &mut tokens)?;
        assert_eq!(rt; name.place, place);
        assert_eq!(rt; name.name.bytes(), bytes.as_bytes());
    }
    let stop = SyntaxStop::At {
        place: 7,
        code: SyntaxCode::Syntax,
    };
    assert_eq!(rt; read_word(rt.alloc(), &mut tokens).err(), Some(stop));
    let mut last = SliceTokens::new(b"x");
    read_word(rt.alloc(), &mut last)?;
    let stop = SyntaxStop::At {
        place: 1,
        code: SyntaxCode::Syntax,
    };
    assert_eq!(rt; read_word(rt.alloc(), &mut last).err(), Some(stop));
    Ok(())
}

#[test]
fn a_string_is_its_bytes(rt: HostRuntime) -> Result<(), SyntaxStop> {
    let mut tokens = SliceTokens::new(b" \"a\\t\\42\" \"\" a");
    for bytes in ["a\tB", ""] {
        let text = read_string(rt.alloc(), &mut tokens)?;
        assert_eq!(rt; text.bytes(), bytes.as_bytes());
    }
    let stop = SyntaxStop::At {
        place: 13,
        code: SyntaxCode::Syntax,
    };
    assert_eq!(rt; read_string(rt.alloc(), &mut tokens).err(), Some(stop));
    Ok(())
}

/// A text, the nesting of its value, and the place of the token behind the value.
const READ: &[(&str, u32, u32)] = &[
    // types of one word
    ("i32 i8", 1, 4),
    ("si16777215 i8", 1, 11),
    ("index = ", 1, 6),
    ("none bf16", 1, 5),
    ("bf16 f16", 1, 5),
    ("f16 tf32", 1, 4),
    ("tf32", 1, 4),
    ("f32 <", 1, 4),
    ("f64 <", 1, 4),
    ("f80 <", 1, 4),
    ("f128 f80", 1, 5),
    // names
    ("!a<1>", 1, 2),
    ("!a->", 1, 3),
    ("!d.t", 1, 4),
    ("!d.t<>", 1, 6),
    ("!d.t<1, #a> x", 1, 12),
    ("!d.t<!d.t<1>> <", 1, 14),
    ("#a<", 1, 2),
    ("#d.a #d.b", 1, 5),
    ("#d.a<unit> <", 1, 11),
    ("@a", 1, 2),
    ("@a::@\"b c\" :", 1, 11),
    // types of types
    ("() -> ()", 1, 8),
    ("() -> tuple<> tuple", 1, 14),
    ("(i8, i1) -> () -> i1", 1, 15),
    ("(i8) -> !a -> i1", 1, 11),
    ("tuple<i8, tuple<>>", 1, 18),
    ("complex<!d.t> >", 1, 14),
    ("vector<4x8xi1>", 1, 14),
    ("tensor<?x4xcomplex<f32>>", 1, 24),
    ("memref<?x2xvector<i1>>", 1, 22),
    ("memref<index>", 1, 13),
    // other attributes
    ("true, false", 1, 4),
    ("false", 1, 5),
    ("unit unit", 1, 5),
    ("\"a\\\"b\" \"c\"", 1, 7),
    ("5", 1, 1),
    ("0x", 1, 1),
    ("- 7 : index", 1, 11),
    ("1: i1:", 1, 5),
    ("-0x1F : ui8 : i8", 1, 12),
    ("[]", 1, 2),
    ("[1, [\"a\"], {}] ]", 1, 15),
    ("[1, // one\n 2]", 1, 14),
    ("[i8, !a, #b.c]", 1, 14),
    ("{true}", 1, 6),
    ("{\"\" = unit}", 1, 11),
    ("{a = 1, \"b c\", d = {e}}", 1, 23),
    ("array<i1>", 1, 9),
    ("array<i1: true, false>", 1, 22),
    ("array<i8: 0> array", 1, 13),
    ("array<i16: -1>", 1, 14),
    ("array<i32: true>", 1, 16),
    ("array<i64: -1, 0x2>", 1, 19),
    // where no value may stand in them
    ("{} {}", 64, 3),
    ("[]", 64, 2),
    ("1 : i32", 64, 7),
    ("1 : tuple<>", 64, 11),
    ("() -> ()", 64, 8),
    ("!d.t<>", 64, 6),
    ("array<i8: 1>", 64, 12),
    ("[[1]]", 62, 5),
];

#[test]
fn the_source_stands_behind_a_value(rt: HostRuntime) -> Result<(), SyntaxStop> {
    for (text, nesting, behind) in READ {
        assert!(rt; text.len() <= TEXT_LIMIT);
        assert!(rt; 1 <= *nesting && *nesting <= TOO_DEEP);
        let mut tokens = SliceTokens::new(text.as_bytes());
        let value = parse_value(rt.alloc(), &mut tokens, *nesting)?;
        assert_eq!(rt; value.place, 0, "{text}");
        assert_eq!(rt; tokens.place(), *behind, "{text}");
    }
    Ok(())
}

/// A text that begins with no value at this nesting, and where it is refused for what.
const REFUSED: &[(&str, u32, u32, SyntaxCode)] = &[
    // words and single tokens
    ("", 1, 0, SyntaxCode::Syntax),
    ("i0", 1, 0, SyntaxCode::Syntax),
    ("i16777216", 1, 0, SyntaxCode::Syntax),
    ("#0", 1, 0, SyntaxCode::Syntax),
    ("%0", 1, 0, SyntaxCode::Syntax),
    ("1.5", 1, 0, SyntaxCode::Float),
    ("1.", 1, 0, SyntaxCode::Float),
    ("1.e5", 1, 0, SyntaxCode::Float),
    ("-1.5e", 1, 1, SyntaxCode::Float),
    ("[1, ~]", 1, 4, SyntaxCode::Bad),
    ("[\"a", 1, 1, SyntaxCode::Bad),
    ("-true", 1, 1, SyntaxCode::Syntax),
    ("- : i8", 1, 2, SyntaxCode::Syntax),
    // types
    ("1 : ", 1, 4, SyntaxCode::Syntax),
    ("1 : unit", 1, 4, SyntaxCode::Syntax),
    ("(1)", 1, 1, SyntaxCode::Syntax),
    ("(i8)", 1, 4, SyntaxCode::Syntax),
    ("(i8) -> 1", 1, 8, SyntaxCode::Syntax),
    ("() -> (i8", 1, 9, SyntaxCode::Syntax),
    ("tuple<i8,>", 1, 9, SyntaxCode::Syntax),
    ("complex<>", 1, 8, SyntaxCode::Syntax),
    ("complex<i8, i8>", 1, 10, SyntaxCode::Syntax),
    ("vector<4>", 1, 7, SyntaxCode::Syntax),
    ("vector<04xi8>", 1, 7, SyntaxCode::Syntax),
    ("vector<4x0xf32>", 1, 9, SyntaxCode::Syntax),
    ("!d.t<1 2>", 1, 7, SyntaxCode::Syntax),
    ("#d.a<1,>", 1, 7, SyntaxCode::Syntax),
    // other attributes
    ("@a:: x", 1, 5, SyntaxCode::Syntax),
    ("@a::\"b\"", 1, 4, SyntaxCode::Syntax),
    ("[1, 2", 1, 5, SyntaxCode::Syntax),
    ("[1, ]", 1, 4, SyntaxCode::Syntax),
    ("{1 = 2}", 1, 1, SyntaxCode::Syntax),
    ("{a 1}", 1, 3, SyntaxCode::Syntax),
    ("{a = }", 1, 5, SyntaxCode::Syntax),
    ("{a = 1,}", 1, 7, SyntaxCode::Syntax),
    ("array<i2>", 1, 6, SyntaxCode::Syntax),
    ("array<si8: 1>", 1, 6, SyntaxCode::Syntax),
    ("array<i8:>", 1, 9, SyntaxCode::Syntax),
    ("array<i8: -true>", 1, 11, SyntaxCode::Syntax),
    ("array<i8: 1 : i8>", 1, 12, SyntaxCode::Syntax),
    ("array<i8: 1.0>", 1, 10, SyntaxCode::Float),
    // nesting
    ("[]", 65, 0, SyntaxCode::Nesting),
    ("-1", 65, 0, SyntaxCode::Nesting),
    ("]", 65, 0, SyntaxCode::Syntax),
    ("1.5", 65, 0, SyntaxCode::Float),
    ("[1, 2]", 64, 1, SyntaxCode::Nesting),
    ("[[1]]", 63, 2, SyntaxCode::Nesting),
    ("{a}", 64, 1, SyntaxCode::Nesting),
    ("{a = 1}", 64, 1, SyntaxCode::Nesting),
    ("{\"a\" = 1}", 64, 1, SyntaxCode::Nesting),
    ("{1}", 64, 1, SyntaxCode::Syntax),
    ("!d.t<1>", 64, 5, SyntaxCode::Nesting),
    ("!d.t<}", 64, 5, SyntaxCode::Syntax),
    ("vector<4xi8>", 64, 9, SyntaxCode::Nesting),
    ("1 : tuple<", 64, 10, SyntaxCode::Syntax),
    ("1 : tuple<i8>", 64, 10, SyntaxCode::Nesting),
    ("1 : (i8) -> i1", 64, 5, SyntaxCode::Nesting),
    ("() -> (i8)", 64, 7, SyntaxCode::Nesting),
    ("() -> i8", 64, 6, SyntaxCode::Nesting),
];

/// The same of types.
const NO_TYPES: &[(&str, u32, u32, SyntaxCode)] = &[
    ("5", 1, 0, SyntaxCode::Syntax),
    ("true", 1, 0, SyntaxCode::Syntax),
    ("tuple<5>", 1, 6, SyntaxCode::Syntax),
    ("!d.t<5", 1, 6, SyntaxCode::Syntax),
    ("[", 65, 0, SyntaxCode::Syntax),
    ("(", 65, 0, SyntaxCode::Nesting),
];

#[test]
fn what_is_no_value_is_refused_at_its_place(rt: HostRuntime) {
    for (text, nesting, place, code) in REFUSED {
        assert!(rt; text.len() <= TEXT_LIMIT);
        assert!(rt; 1 <= *nesting && *nesting <= TOO_DEEP);
        let mut tokens = SliceTokens::new(text.as_bytes());
        let stop = SyntaxStop::At {
            place: *place,
            code: *code,
        };
        let answer = parse_value(rt.alloc(), &mut tokens, *nesting);
        assert_eq!(rt; answer.err(), Some(stop), "{text}");
    }
    for (text, nesting, place, code) in NO_TYPES {
        assert!(rt; text.len() <= TEXT_LIMIT);
        assert!(rt; 1 <= *nesting && *nesting <= TOO_DEEP);
        let mut tokens = SliceTokens::new(text.as_bytes());
        let stop = SyntaxStop::At {
            place: *place,
            code: *code,
        };
        let answer = parse_type(rt.alloc(), &mut tokens, *nesting);
        assert_eq!(rt; answer.err(), Some(stop), "{text}");
    }
}

#[test]
fn pieces_are_read_one_behind_the_other(rt: HostRuntime) -> Result<(), SyntaxStop> {
    let mut tokens = SliceTokens::new(b"i8 5 (i8, !a) i1 {a, b = 2} -7 true");
    assert_eq!(rt; read_type(rt.alloc(), &mut tokens, ROOM)?.place, 0);
    assert_eq!(rt; read_attribute(rt.alloc(), &mut tokens, ROOM)?.place, 3);
    let inputs = read_types(rt.alloc(), &mut tokens, ROOM)?;
    assert_eq!(rt; inputs.as_slice().len(), 2);
    let outputs = read_results(rt.alloc(), &mut tokens, ROOM)?;
    assert_eq!(rt; outputs.as_slice().len(), 1);
    let entries = read_dictionary(rt.alloc(), &mut tokens, ROOM)?;
    assert_eq!(rt; entries.as_slice().len(), 2);
    for (place, negative, spelling) in [(28, true, "7"), (31, false, "true")] {
        let item = read_item(rt.alloc(), &mut tokens)?;
        assert_eq!(rt; (item.place, item.negative), (place, negative));
        assert_eq!(rt; item.spelling.bytes(), spelling.as_bytes());
    }
    Ok(())
}
