//! Format texts that are read, and where others are refused.

use super::*;
use attr_value::IntKind;
use dialect_defs::{RawArg, RawElement, RawKind, RawName};
use ir_lexer::{Class, TEXT_LIMIT};
use std::process::Abort;
use std::slice::Iter;

/// What is read at a place: its kind, and its name, if it has one. The width of a kind of numbers
/// stands in place of its own place, which isn't kept.
type Row = (u32, &'static str, &'static str);

const READ: &[(&str, &[Row])] = &[
    ("", &[]),
    (" \t\n ", &[]),
    ("$_0A$b", &[(0, "variable", "_0A"), (4, "variable", "b")]),
    ("$1a ^", &[(0, "variable", "1a"), (0, "anchor", "")]),
    (
        "attr-dict$a attr-dict-with-keyword",
        &[
            (0, "dictionary", ""),
            (9, "variable", "a"),
            (12, "dictionary with keyword", ""),
        ],
    ),
    (
        "`a` `type``_.$0`",
        &[(0, "word", "a"), (4, "word", "type"), (10, "word", "_.$0")],
    ),
    (
        "`:``,``=``<``>``(``)``{``}``[``]``->``?``+``*`",
        &[
            (0, "sign", ":"),
            (3, "sign", ","),
            (6, "sign", "="),
            (9, "sign", "<"),
            (12, "sign", ">"),
            (15, "sign", "("),
            (18, "sign", ")"),
            (21, "sign", "{"),
            (24, "sign", "}"),
            (27, "sign", "["),
            (30, "sign", "]"),
            (33, "sign", "->"),
            (37, "sign", "?"),
            (40, "sign", "+"),
            (43, "sign", "*"),
        ],
    ),
    // the line feed as that byte, and as a backslash and `n`
    (
        "` ``\n``\\n```",
        &[
            (0, "space", ""),
            (3, "line feed", ""),
            (6, "line feed", ""),
            (10, "empty", ""),
        ],
    ),
    (
        "type($x)type(operands)type( results )^",
        &[
            (0, "types", ""),
            (5, "of", "x"),
            (8, "types", ""),
            (13, "operands", ""),
            (22, "types", ""),
            (28, "results", ""),
            (22, "anchor", ""),
        ],
    ),
    (
        "functional-type(operands, $r)",
        &[
            (0, "functional type", ""),
            (16, "operands", ""),
            (26, "of", "r"),
        ],
    ),
    (
        "symbol($a)^ int($b,i64)int( $c , index )",
        &[
            (0, "symbol", ""),
            (7, "of", "a"),
            (0, "anchor", ""),
            (12, "int", ""),
            (16, "of", "b"),
            (64, "signless", ""),
            (23, "int", ""),
            (28, "of", "c"),
            (0, "index", ""),
        ],
    ),
    (
        "int($a,si1)int($a,ui10)",
        &[
            (0, "int", ""),
            (4, "of", "a"),
            (1, "signed", ""),
            (11, "int", ""),
            (15, "of", "a"),
            (10, "unsigned", ""),
        ],
    ),
    (
        "qualified($x)^ qualified(type($y))",
        &[
            (0, "qualified", ""),
            (10, "of", "x"),
            (0, "anchor", ""),
            (15, "types", ""),
            (30, "of", "y"),
        ],
    ),
    (
        "(`a` $x^)? ()?(`b`):($y)?",
        &[
            (0, "group", ""),
            (1, "word", "a"),
            (5, "variable", "x"),
            (5, "anchor", ""),
            (0, "otherwise", ""),
            (0, "end", ""),
            (11, "group", ""),
            (11, "otherwise", ""),
            (11, "end", ""),
            (14, "group", ""),
            (15, "word", "b"),
            (14, "otherwise", ""),
            (21, "variable", "y"),
            (14, "end", ""),
        ],
    ),
    (
        "(`at` int($a, i64)^ `by` int($b, i64))? attr-dict",
        &[
            (0, "group", ""),
            (1, "word", "at"),
            (6, "int", ""),
            (10, "of", "a"),
            (64, "signless", ""),
            (6, "anchor", ""),
            (20, "word", "by"),
            (25, "int", ""),
            (29, "of", "b"),
            (64, "signless", ""),
            (0, "otherwise", ""),
            (0, "end", ""),
            (40, "dictionary", ""),
        ],
    ),
];

/// Texts that are no format, and the first byte of the first token that no format has there.
const REFUSED: &[(&str, u32)] = &[
    // at the end
    ("($x^", 4),
    ("($x)", 4),
    ("($x) :", 6),
    ("($x):($y", 8),
    ("type", 4),
    ("type($x", 7),
    ("qualified($x", 12),
    ("qualified(type($y)", 18),
    // keywords and bare ids
    ("attr-dictx", 9),
    ("attr-dict-with", 9),
    ("attr-dict-with-keywords", 22),
    ("functional-types", 15),
    ("type.x", 0),
    ("type.x($a)", 0),
    ("attr_dict", 0),
    ("a", 0),
    ("operands", 0),
    // variables
    ("$", 0),
    ("$ a", 0),
    ("$-", 0),
    ("$a.b", 2),
    // literals
    ("`::`", 0),
    ("`->", 0),
    ("`a b`", 0),
    ("`1`", 0),
    ("`-`", 0),
    ("`a", 0),
    ("```", 2),
    ("`\t`", 0),
    ("`\\t`", 0),
    ("`->>`", 0),
    // between tokens
    ("\r", 0),
    ("$a\r", 2),
    ("$a // c", 3),
    ("é", 0),
    // anchors
    ("`a`^", 3),
    ("^", 0),
    ("$a^^", 3),
    ("()?^", 3),
    ("($x)^?", 4),
    // groups
    ("(($x)?)?", 1),
    ("($x):?", 5),
    ("()?:", 3),
    (")", 0),
    ("?", 0),
    // directives
    ("type $x", 5),
    ("type()", 5),
    ("type(x)", 5),
    ("type($x,$y)", 7),
    ("type(type($x))", 5),
    ("functional-type($a)", 18),
    ("symbol(operands)", 7),
    ("int($a)", 6),
    ("int($a,)", 7),
    ("int($a,i65)", 7),
    ("int($a,i0)", 7),
    ("int($a,i01)", 7),
    ("int($a,si064)", 7),
    ("int($a, i)", 8),
    ("int($a,index.)", 7),
    ("int($a,f32)", 7),
    ("qualified(operands)", 10),
    ("qualified(symbol($x))", 10),
    // signs that no element begins with
    ("<$a>", 0),
    (",", 0),
    (":", 0),
];

fn next_is(rt: &impl Abort, rows: &mut Iter<Row>, at: u32, kind: &str, name: &[u8]) {
    match rows.next() {
        Some((want_at, want_kind, want_name)) => {
            assert_eq!(rt; (at, kind), (*want_at, *want_kind));
            assert_eq!(rt; name, want_name.as_bytes(), "at {at}");
        }
        None => assert!(rt; false, "{kind} at {at}"),
    }
}

fn name_is(rt: &impl Abort, rows: &mut Iter<Row>, name: &RawName) {
    next_is(rt, rows, name.at, "of", name.name.bytes());
}

fn argument_is(rt: &impl Abort, rows: &mut Iter<Row>, argument: &RawArg) {
    match argument {
        RawArg::Variable(name) => name_is(rt, rows, name),
        RawArg::AllOperands(at) => next_is(rt, rows, *at, "operands", b""),
        RawArg::AllResults(at) => next_is(rt, rows, *at, "results", b""),
    }
}

fn sign_is(rt: &impl Abort, rows: &mut Iter<Row>, at: u32, class: Class) {
    let sign: &[u8] = match class {
        Class::Colon => b":",
        Class::Comma => b",",
        Class::Equal => b"=",
        Class::Less => b"<",
        Class::Greater => b">",
        Class::LParen => b"(",
        Class::RParen => b")",
        Class::LBrace => b"{",
        Class::RBrace => b"}",
        Class::LSquare => b"[",
        Class::RSquare => b"]",
        Class::Arrow => b"->",
        Class::Question => b"?",
        Class::Plus => b"+",
        Class::Star => b"*",
        _ => b"another",
    };
    next_is(rt, rows, at, "sign", sign);
}

fn numbers_are(rt: &impl Abort, rows: &mut Iter<Row>, kind: IntKind) {
    match kind {
        IntKind::Index => next_is(rt, rows, 0, "index", b""),
        IntKind::Signless(width) => next_is(rt, rows, width, "signless", b""),
        IntKind::Signed(width) => next_is(rt, rows, width, "signed", b""),
        IntKind::Unsigned(width) => next_is(rt, rows, width, "unsigned", b""),
    }
}

/// An element that is no group.
fn item_is(rt: &impl Abort, rows: &mut Iter<Row>, element: &RawElement) {
    let at = element.at;
    match &element.kind {
        RawKind::Word(word) => next_is(rt, rows, at, "word", word.bytes()),
        RawKind::Punct(class) => sign_is(rt, rows, at, *class),
        RawKind::Space => next_is(rt, rows, at, "space", b""),
        RawKind::Newline => next_is(rt, rows, at, "line feed", b""),
        RawKind::Empty => next_is(rt, rows, at, "empty", b""),
        RawKind::Variable(name) => next_is(rt, rows, at, "variable", name.bytes()),
        RawKind::Qualified(name) => {
            next_is(rt, rows, at, "qualified", b"");
            name_is(rt, rows, name);
        }
        RawKind::SymbolName(name) => {
            next_is(rt, rows, at, "symbol", b"");
            name_is(rt, rows, name);
        }
        RawKind::IntText { variable, kind } => {
            next_is(rt, rows, at, "int", b"");
            name_is(rt, rows, variable);
            numbers_are(rt, rows, *kind);
        }
        RawKind::Types(argument) => {
            next_is(rt, rows, at, "types", b"");
            argument_is(rt, rows, argument);
        }
        RawKind::Functional { inputs, outputs } => {
            next_is(rt, rows, at, "functional type", b"");
            argument_is(rt, rows, inputs);
            argument_is(rt, rows, outputs);
        }
        RawKind::Dict => next_is(rt, rows, at, "dictionary", b""),
        RawKind::DictKeyword => next_is(rt, rows, at, "dictionary with keyword", b""),
        RawKind::Group { .. } => next_is(rt, rows, at, "a group in a group", b""),
    }
    if element.anchor {
        next_is(rt, rows, at, "anchor", b"");
    }
}

fn elements_are(rt: &impl Abort, rows: &mut Iter<Row>, elements: &[RawElement]) {
    for element in elements {
        match &element.kind {
            RawKind::Group { first, otherwise } => {
                next_is(rt, rows, element.at, "group", b"");
                for item in first.as_slice() {
                    item_is(rt, rows, item);
                }
                next_is(rt, rows, element.at, "otherwise", b"");
                for item in otherwise.as_slice() {
                    item_is(rt, rows, item);
                }
                next_is(rt, rows, element.at, "end", b"");
            }
            _ => item_is(rt, rows, element),
        }
    }
}

#[test]
fn texts_are_read_or_refused(rt: HostRuntime) -> Result<(), FormatAt> {
    for (text, want) in READ {
        assert!(rt; text.len() <= TEXT_LIMIT);
        let elements = read_format(rt.alloc(), text.as_bytes())?;
        let mut rows = want.iter();
        elements_are(&rt, &mut rows, elements.as_slice());
        assert!(rt; rows.next().is_none(), "in {text}");
    }
    for (text, at) in REFUSED {
        assert!(rt; text.len() <= TEXT_LIMIT);
        assert_eq!(rt;
            read_format(rt.alloc(), text.as_bytes()).err(),
            Some(FormatAt::At(*at)),
            "{text:?}"
        );
    }
    Ok(())
}
