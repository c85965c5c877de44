//! Single tokens: which are taken, and how others are refused.

use super::*;
use ir_lexer::{Class, SliceTokens, TEXT_LIMIT, TokenSource};
use std::process::Abort;

#[test]
fn an_integer_type_has_a_width_from_1_to_16777215(rt: HostRuntime) {
    for (text, want) in [
        ("i1", true),
        ("i8", true),
        ("i16777215", true),
        ("si32", true),
        ("ui64", true),
        ("i0", false),
        ("i01", false),
        ("si0", false),
        ("i16777216", false),
        ("ui16777216", false),
        ("i99999999999", false),
        ("i", false),
        ("s", false),
        ("si", false),
        ("u", false),
        ("ui", false),
        ("I8", false),
        ("i8x", false),
        ("i-8", false),
        ("index", false),
        ("8", false),
        ("\"i8\"", false),
        ("", false),
    ] {
        assert!(rt; text.len() <= TEXT_LIMIT);
        let tokens = SliceTokens::new(text.as_bytes());
        assert_eq!(rt; is_integer_type(&tokens), want, "{text}");
    }
}

#[test]
fn a_number_has_32_bits(rt: HostRuntime) {
    let refused = Err(SyntaxStop::At {
        place: 1,
        code: SyntaxCode::Syntax,
    });
    for (text, want) in [
        (" 0", Ok(0)),
        (" 007", Ok(7)),
        (" 4294967295", Ok(4294967295)),
        (" 4294967296", refused),
        (" 0x0", Ok(0)),
        (" 0x00fFA", Ok(4090)),
        (" 0xffffffff", Ok(4294967295)),
        (" 0x100000000", refused),
        (" 99999999999999999999999999999999999999999", refused),
        (" -1", refused),
        (" word", refused),
        (" ", refused),
    ] {
        assert!(rt; text.len() <= TEXT_LIMIT);
        let mut tokens = SliceTokens::new(text.as_bytes());
        assert_eq!(rt; read_number(&mut tokens), want, "{text}");
    }
}

#[test]
fn another_token_is_refused_by_its_class(rt: HostRuntime) {
    for (text, place, code) in [
        (" )", 1, SyntaxCode::Syntax),
        ("  word", 2, SyntaxCode::Syntax),
        (" 1.5", 1, SyntaxCode::Float),
        (" ~", 1, SyntaxCode::Bad),
        ("\"", 0, SyntaxCode::Bad),
    ] {
        assert!(rt; text.len() <= TEXT_LIMIT);
        let mut tokens = SliceTokens::new(text.as_bytes());
        let stop = Err(SyntaxStop::At { place, code });
        assert_eq!(rt; expect(&mut tokens, Class::Comma), stop, "{text}");
        assert_eq!(rt; expect_word(&mut tokens, b"words"), stop, "{text}");
        assert_eq!(rt; expect_end(&tokens), stop, "{text}");
        assert_eq!(rt; Err(refused(&tokens)), stop, "{text}");
    }
}

#[test]
fn the_right_tokens_are_taken(rt: HostRuntime) {
    let mut tokens = SliceTokens::new(b" word ,");
    assert!(rt; is_word(&tokens, b"word") && !is_word(&tokens, b"wor"));
    assert_eq!(rt; expect_word(&mut tokens, b"word"), Ok(()));
    assert!(rt; is_class(&tokens, Class::Comma) && !is_class(&tokens, Class::Word));
    assert_eq!(rt; expect(&mut tokens, Class::Comma), Ok(()));
    assert_eq!(rt; expect_end(&tokens), Ok(()));
    assert_eq!(rt; tokens.place(), 7);
}
