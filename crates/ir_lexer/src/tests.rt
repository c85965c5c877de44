//! Spellings at the edge of their classes, places, and names.

use super::*;
use std::process::Abort;

const TEXTS: &[(&str, &[(Class, &str)])] = &[
    ("", &[]),
    (" \t\r\n// all of it", &[]),
    (
        "a//b\n/c//\n",
        &[(Class::Word, "a"), (Class::Bad, "/"), (Class::Word, "c")],
    ),
    // numbers and dimensions
    (
        "0 007 0x1F",
        &[
            (Class::Integer, "0"),
            (Class::Integer, "007"),
            (Class::Integer, "0x1F"),
        ],
    ),
    ("0x", &[(Class::Integer, "0"), (Class::Word, "x")]),
    ("00x", &[(Class::Integer, "00"), (Class::Word, "x")]),
    ("4x0xf32", &[(Class::Dims, "4x"), (Class::Integer, "0xf32")]),
    ("4x4", &[(Class::Dims, "4x"), (Class::Integer, "4")]),
    (
        "4x?x10xf32",
        &[(Class::Dims, "4x?x10x"), (Class::Word, "f32")],
    ),
    ("?4x", &[(Class::Question, "?"), (Class::Dims, "4x")]),
    (
        "1. 1.5E-3",
        &[(Class::Float, "1."), (Class::Float, "1.5E-3")],
    ),
    ("1.5e", &[(Class::Float, "1.5"), (Class::Word, "e")]),
    ("1.e5+", &[(Class::Float, "1.e5"), (Class::Plus, "+")]),
    // names
    ("a.b$_1-", &[(Class::Word, "a.b$_1"), (Class::Minus, "-")]),
    ("%a->", &[(Class::ValueName, "%a-"), (Class::Greater, ">")]),
    (
        "%0 ^bb.1 !t.$x",
        &[
            (Class::ValueName, "%0"),
            (Class::BlockName, "^bb.1"),
            (Class::TypeName, "!t.$x"),
        ],
    ),
    ("%0a", &[(Class::ValueName, "%0"), (Class::Word, "a")]),
    (
        "#0 #0a #a0",
        &[
            (Class::ResultNumber, "#0"),
            (Class::ResultNumber, "#0"),
            (Class::Word, "a"),
            (Class::AttrName, "#a0"),
        ],
    ),
    (
        "@a@\"b c\"@ \"d\"",
        &[
            (Class::SymbolName, "@a"),
            (Class::SymbolName, "@\"b c\""),
            (Class::Bad, "@"),
            (Class::Str, "\"d\""),
        ],
    ),
    // strings
    ("\"\"", &[(Class::Str, "\"\"")]),
    (
        "\"\\\"\\\\\\n\\t\\0a\\Ff//\t\u{80}é\"",
        &[(Class::Str, "\"\\\"\\\\\\n\\t\\0a\\Ff//\t\u{80}é\"")],
    ),
    ("\"a", &[(Class::Bad, "\""), (Class::Word, "a")]),
    (
        "\"a\nb\"",
        &[
            (Class::Bad, "\""),
            (Class::Word, "a"),
            (Class::Word, "b"),
            (Class::Bad, "\""),
        ],
    ),
    (
        "\"\\x\"",
        &[
            (Class::Bad, "\""),
            (Class::Bad, "\\"),
            (Class::Word, "x"),
            (Class::Bad, "\""),
        ],
    ),
    // signs
    (":::", &[(Class::ColonColon, "::"), (Class::Colon, ":")]),
    ("-->", &[(Class::Minus, "-"), (Class::Arrow, "->")]),
];

#[test]
fn texts_have_these_tokens(rt: HostRuntime) {
    for (text, tokens) in TEXTS {
        assert!(rt; text.len() <= TEXT_LIMIT);
        let mut lexer = Lexer::new(text.as_bytes());
        for (class, spelling) in *tokens {
            let token = lexer.next();
            assert_eq!(rt; token.class, *class, "in {text}");
            assert_eq!(rt; lexer.text(token), spelling.as_bytes(), "in {text}");
            assert_eq!(rt;
                class_of(spelling.as_bytes()).unwrap_or(Class::Bad),
                *class,
                "{spelling}"
            );
        }
        for _ in 0..2u8 {
            let token = lexer.next();
            assert_eq!(rt; token.class, Class::End, "in {text}");
            assert_eq!(rt;
                (token.start as usize, token.end as usize),
                (text.len(), text.len())
            );
        }
    }
}

fn class_alone(byte: u8) -> Class {
    match byte {
        b'A'..=b'Z' | b'a'..=b'z' | b'_' => Class::Word,
        b'0'..=b'9' => Class::Integer,
        b' ' | b'\t' | b'\r' | b'\n' => Class::End,
        b':' => Class::Colon,
        b',' => Class::Comma,
        b'=' => Class::Equal,
        b'<' => Class::Less,
        b'>' => Class::Greater,
        b'(' => Class::LParen,
        b')' => Class::RParen,
        b'{' => Class::LBrace,
        b'}' => Class::RBrace,
        b'[' => Class::LSquare,
        b']' => Class::RSquare,
        b'-' => Class::Minus,
        b'?' => Class::Question,
        b'+' => Class::Plus,
        b'*' => Class::Star,
        _ => Class::Bad,
    }
}

#[test]
fn each_byte_alone_has_its_class(rt: HostRuntime) {
    for byte in 0..=255u8 {
        let text = [byte];
        let token = Lexer::new(&text).next();
        assert_eq!(rt; token.class, class_alone(byte), "at {byte}");
        assert_eq!(rt; token.end, 1, "at {byte}");
    }
}

fn reads_on<T: TokenSource>(rt: &impl Abort, tokens: &mut T, want: &[(Class, &str, u32)]) {
    for (class, text, place) in want {
        assert_eq!(rt; tokens.class(), *class);
        assert_eq!(rt; tokens.text(), text.as_bytes());
        assert_eq!(rt; tokens.place(), *place);
        assert!(rt; tokens.advance().is_ok());
    }
}

#[test]
fn a_source_goes_to_the_end_and_stays(rt: HostRuntime) {
    let mut tokens = SliceTokens::new(b"%a = \"t\"\n ");
    let want = [
        (Class::ValueName, "%a", 0),
        (Class::Equal, "=", 3),
        (Class::Str, "\"t\"", 5),
        (Class::End, "", 10),
        (Class::End, "", 10),
    ];
    reads_on(&rt, &mut tokens, &want);
}

#[test]
fn a_line_feed_ends_a_line(rt: HostRuntime) {
    let text = "ab\n\né x";
    for (at, line, column) in [
        (0, 1, 1),
        (2, 1, 3),
        (3, 2, 1),
        (4, 3, 1),
        (6, 3, 3),
        (8, 3, 5),
    ] {
        let place = line_col(text.as_bytes(), at);
        assert_eq!(rt; (place.line, place.column), (line, column), "at {at}");
    }
}

#[test]
fn spellings_stand_for_these_bytes(rt: HostRuntime) -> Result<(), std::alloc::AllocError> {
    let strings: [(&str, &[u8]); 4] = [
        ("\"\"", b""),
        ("\"a b\"", b"a b"),
        ("\"\\n\\t\\\"\\\\n\"", b"\n\t\"\\n"),
        ("\"\\41x\\4a\\4A\\fF\\00\"", b"AxJJ\xFF\0"),
    ];
    for (spelling, bytes) in strings {
        assert_eq!(rt;
            literal_bytes(rt.alloc(), spelling.as_bytes())?.as_slice(),
            bytes,
            "{spelling}"
        );
    }
    for (spelling, name) in [
        ("%a-", "a-"),
        ("#0", "0"),
        ("@\"a b\"", "a b"),
        ("@\"\\22\"", "\""),
    ] {
        assert_eq!(rt;
            name_bytes(rt.alloc(), spelling.as_bytes())?.as_slice(),
            name.as_bytes(),
            "{spelling}"
        );
    }
    Ok(())
}
