//! The columns of some elements, and formats that are accepted or refused.

use super::*;
use attr_value::{IntKind, List, Text};
use dialect_defs::{
    Arity, AttrEntry, Body, Element, ElementKind, Entry, Format, OpDef, RegionEntry, TypeArg, VarId,
};
use format_reader::{FormatAt, read_format};
use ir_lexer::{Class, TEXT_LIMIT};
use std::alloc::{AllocError, Global};
use std::process::Abort;

/// Three operands, of each arity, and two attributes that may be missing, of which the second is
/// always the unit value.
fn operation(alloc: Global) -> Result<OpDef, AllocError> {
    let mut operands = List::new(alloc);
    operands.push(entry(Arity::Single))?;
    operands.push(entry(Arity::Optional))?;
    operands.push(entry(Arity::Variadic))?;
    let mut attrs = List::new(alloc);
    attrs.push(attribute(alloc, b"a", false)?)?;
    attrs.push(attribute(alloc, b"u", true)?)?;
    Ok(OpDef {
        name: Text::from_slice(alloc, b"d.op")?,
        body: Body {
            vars: List::new(alloc),
        },
        operands,
        results: List::new(alloc),
        attrs,
        regions: List::new(alloc),
        successors: List::new(alloc),
        terminator: false,
        format: None,
    })
}

fn entry(arity: Arity) -> Entry {
    Entry {
        name: None,
        arity,
        var: VarId(0),
    }
}

fn attribute(alloc: Global, name: &[u8], unit: bool) -> Result<AttrEntry, AllocError> {
    Ok(AttrEntry {
        name: Text::from_slice(alloc, name)?,
        optional: true,
        unit,
        var: VarId(0),
    })
}

fn look_is(rt: &impl Abort, look: &Look, want: &str) {
    let name: &[u8] = match look {
        Look::Punct(Class::Colon) => b":",
        Look::Punct(Class::ColonColon) => b"::",
        Look::Punct(Class::Comma) => b",",
        Look::Punct(Class::Less) => b"<",
        Look::Punct(Class::LParen) => b"(",
        Look::Punct(Class::LBrace) => b"{",
        Look::Punct(Class::LSquare) => b"[",
        Look::Punct(Class::Minus) => b"-",
        Look::Punct(_) => b"another sign",
        Look::Value => b"value",
        Look::Block => b"block",
        Look::Symbol => b"symbol",
        Look::TypeName => b"typename",
        Look::AttrName => b"attrname",
        Look::Integer => b"integer",
        Look::Str => b"string",
        Look::IntWord => b"intword",
        Look::Dotted => b"dotted",
        Look::End => b"end",
        Look::Word(word) => word.bytes(),
    };
    assert_eq!(rt; name, want.as_bytes());
}

fn looks_are(rt: &impl Abort, looks: &[Look], want: &[&'static str]) {
    assert_eq!(rt; looks.len(), want.len());
    for (look, want) in looks.iter().zip(want.iter()) {
        look_is(rt, look, want);
    }
}

const OF_ATTRIBUTES: &[&str] = &[
    "(", "typename", "intword", "index", "none", "bf16", "f16", "tf32", "f32", "f64", "f80",
    "f128", "tuple", "vector", "tensor", "memref", "complex", "{", "[", "-", "symbol", "attrname",
    "integer", "string", "true", "false", "unit", "array",
];

#[test]
fn elements_begin_and_go_on(rt: HostRuntime) -> Result<(), AllocError> {
    let alloc = rt.alloc();
    let op = operation(alloc)?;
    let single = Element {
        at: 0,
        kind: ElementKind::Operand(0),
    };
    assert!(rt; !may_be_empty(&op, &single));
    looks_are(&rt, starts(alloc, &op, &single)?.as_slice(), &["value"]);
    looks_are(&rt, continues(alloc, &op, &single)?.as_slice(), &[]);
    let attribute = Element {
        at: 0,
        kind: ElementKind::Attr(0),
    };
    assert!(rt; may_be_empty(&op, &attribute));
    looks_are(
        &rt,
        starts(alloc, &op, &attribute)?.as_slice(),
        OF_ATTRIBUTES,
    );
    looks_are(
        &rt,
        continues(alloc, &op, &attribute)?.as_slice(),
        &["<", ":", "::"],
    );
    let number = Element {
        at: 0,
        kind: ElementKind::IntText {
            attr: 0,
            kind: IntKind::Signless(64),
        },
    };
    looks_are(
        &rt,
        starts(alloc, &op, &number)?.as_slice(),
        &["-", "integer"],
    );

    // ($c^ `:` type($c))?
    let mut first = List::new(alloc);
    first.push(Element {
        at: 1,
        kind: ElementKind::Operand(2),
    })?;
    first.push(Element {
        at: 5,
        kind: ElementKind::Punct(Class::Colon),
    })?;
    first.push(Element {
        at: 9,
        kind: ElementKind::Types(TypeArg::Operand(2)),
    })?;
    let group = Element {
        at: 0,
        kind: ElementKind::Group {
            first,
            otherwise: List::new(alloc),
            anchor: 0,
        },
    };
    assert!(rt; may_be_empty(&op, &group));
    looks_are(&rt, starts(alloc, &op, &group)?.as_slice(), &["value"]);
    looks_are(&rt, continues(alloc, &op, &group)?.as_slice(), &["<", ","]);

    // ($u^):(`no`)?
    let mut first = List::new(alloc);
    first.push(Element {
        at: 1,
        kind: ElementKind::Attr(1),
    })?;
    let mut otherwise = List::new(alloc);
    otherwise.push(Element {
        at: 7,
        kind: ElementKind::Word(Text::from_slice(alloc, b"no")?),
    })?;
    let group = Element {
        at: 0,
        kind: ElementKind::Group {
            first,
            otherwise,
            anchor: 0,
        },
    };
    assert!(rt; !may_be_empty(&op, &group));
    looks_are(&rt, starts(alloc, &op, &group)?.as_slice(), &["no"]);
    looks_are(&rt, continues(alloc, &op, &group)?.as_slice(), &[]);
    Ok(())
}

/// A named entry of an operation.
type Named = (&'static str, Arity);

fn entries(alloc: Global, names: &[Named]) -> Result<List<Entry>, AllocError> {
    let mut entries = List::new(alloc);
    for (name, arity) in names {
        entries.push(Entry {
            name: Some(Text::from_slice(alloc, name.as_bytes())?),
            arity: *arity,
            var: VarId(0),
        })?;
    }
    Ok(entries)
}

/// A required attribute `v`, an optional one `k`, and an optional one `u` that is the unit value.
fn attributes(alloc: Global) -> Result<List<AttrEntry>, AllocError> {
    let mut attrs = List::new(alloc);
    for (name, optional, unit) in [("v", false, false), ("k", true, false), ("u", true, true)] {
        attrs.push(AttrEntry {
            name: Text::from_slice(alloc, name.as_bytes())?,
            optional,
            unit,
            var: VarId(0),
        })?;
    }
    Ok(attrs)
}

fn regions(alloc: Global, names: &[&'static str]) -> Result<List<RegionEntry>, AllocError> {
    let mut regions = List::new(alloc);
    for name in names {
        regions.push(RegionEntry {
            name: Some(Text::from_slice(alloc, name.as_bytes())?),
            args: None,
            size: None,
        })?;
    }
    Ok(regions)
}

/// An operation of the table below.
struct Parts {
    operands: &'static [Named],
    results: &'static [Named],
    regions: &'static [&'static str],
    terminator: bool,
}

fn operation_of(alloc: Global, parts: &Parts) -> Result<OpDef, AllocError> {
    Ok(OpDef {
        name: Text::from_slice(alloc, b"d.op")?,
        body: Body {
            vars: List::new(alloc),
        },
        operands: entries(alloc, parts.operands)?,
        results: entries(alloc, parts.results)?,
        attrs: attributes(alloc)?,
        regions: regions(alloc, parts.regions)?,
        successors: List::new(alloc),
        terminator: parts.terminator,
        format: None,
    })
}

const NOTHING: Parts = Parts {
    operands: &[],
    results: &[],
    regions: &[],
    terminator: false,
};

const ONE_RESULT: Parts = Parts {
    operands: &[],
    results: &[("r", Arity::Single)],
    regions: &[],
    terminator: false,
};

const ONE_OPERAND: Parts = Parts {
    operands: &[("x", Arity::Single)],
    results: &[("r", Arity::Single)],
    regions: &[],
    terminator: false,
};

const MANY_OPERANDS: Parts = Parts {
    operands: &[("args", Arity::Variadic)],
    results: &[],
    regions: &[],
    terminator: false,
};

const LAST: Parts = Parts {
    operands: &[("args", Arity::Variadic)],
    results: &[],
    regions: &[],
    terminator: true,
};

const ONE_REGION: Parts = Parts {
    operands: &[],
    results: &[],
    regions: &["body"],
    terminator: false,
};

/// The number of the rule that is told, or 0; the place; and the look, or `operand` or `result`.
type Answer = (u32, u32, &'static str);

const FINE: Answer = (0, 0, "");

const FORMATS: &[(&Parts, &str, Answer)] = &[
    (&NOTHING, "attr-dict", FINE),
    (&NOTHING, "$y attr-dict", (10, 0, "")),
    (&ONE_OPERAND, "$r attr-dict", (10, 0, "")),
    (&ONE_OPERAND, "functional-type(operands, $x)", (10, 26, "")),
    (&ONE_OPERAND, "$x $y", (10, 3, "")),
    (&NOTHING, "", (11, 0, "")),
    (&ONE_OPERAND, "attr-dict `:` type(operands)", (11, 28, "")),
    (&ONE_OPERAND, "$x attr-dict `:` type($x) $x", (12, 26, "")),
    (&NOTHING, "attr-dict `a` symbol($v) $v", (12, 25, "")),
    (&NOTHING, "$k^ attr-dict", (13, 0, "")),
    (&NOTHING, "`a` (`b` $k)? attr-dict", (13, 4, "")),
    (&NOTHING, "(`b` $k^ $v)? attr-dict", (13, 9, "")),
    (&NOTHING, "($u^)? attr-dict", (13, 0, "")),
    (&ONE_RESULT, "$v `:` type($r) attr-dict", (14, 0, ":")),
    (&ONE_RESULT, "int($v, i64) `:` type($r) attr-dict", FINE),
    (
        &MANY_OPERANDS,
        "attr-dict ($args^ `:` type($args))?",
        (14, 10, "value"),
    ),
    (&LAST, "attr-dict ($args^ `:` type($args))?", FINE),
    (&ONE_REGION, "attr-dict $body", (14, 0, "{")),
    (&ONE_REGION, "attr-dict-with-keyword $body", FINE),
    (
        &ONE_REGION,
        "(`key` $k^)? (`flagged` $u^)? attr-dict-with-keyword $body",
        FINE,
    ),
    // the other branch, and a word that names an integer type
    (&NOTHING, "(`a` $k^):(`a`)? attr-dict", (14, 0, "a")),
    (&NOTHING, "($k^)? `i8` attr-dict", (14, 0, "intword")),
    (
        &ONE_OPERAND,
        "$x attr-dict `:` type($x)",
        (15, 25, "result"),
    ),
    (&ONE_OPERAND, "$x attr-dict", (15, 12, "operand")),
    (
        &ONE_OPERAND,
        "$x attr-dict `:` functional-type(operands, results)",
        FINE,
    ),
];

fn number_of(code: FormatCode) -> u32 {
    match code {
        FormatCode::Unknown => 10,
        FormatCode::Missing => 11,
        FormatCode::Repeated => 12,
        FormatCode::Group => 13,
        FormatCode::Ambiguous => 14,
        FormatCode::NoType => 15,
    }
}

fn detail_is(rt: &impl Abort, look: &Option<Look>, entry: Option<EntryRef>, want: &str) {
    match look {
        Some(look) => look_is(rt, look, want),
        None => match entry {
            Some(EntryRef::Operand(_)) => assert_eq!(rt; want, "operand"),
            Some(EntryRef::Result(_)) => assert_eq!(rt; want, "result"),
            None => assert_eq!(rt; want, ""),
        },
    }
}

fn answer_is(rt: &impl Abort, answer: &Result<Format, FormatStop>, want: Answer) {
    match answer {
        Ok(_) => assert_eq!(rt; want, FINE),
        Err(
            FormatStop::Refused {
                code,
                at,
                look,
                entry,
            },
        ) => {
            assert_eq!(rt; (number_of(*code), *at), (want.0, want.1));
            detail_is(rt, look, *entry, want.2);
        }
        Err(FormatStop::OutOfMemory) => assert!(rt; false),
    }
}

#[test]
fn formats_are_judged(rt: HostRuntime) -> Result<(), FormatAt> {
    let alloc = rt.alloc();
    for (parts, text, want) in FORMATS {
        assert!(rt; text.len() <= TEXT_LIMIT);
        let op = operation_of(alloc, parts)?;
        let raw = read_format(alloc, text.as_bytes())?;
        let answer = check_format(alloc, &op, raw.as_slice(), text.len() as u32);
        answer_is(&rt, &answer, *want);
    }
    Ok(())
}
