//! Definition files that are read, and where others are refused.

use super::*;
use attr_value::List;
use dialect_defs::Arity;
use generic_syntax::{NameCst, SyntaxCode, SyntaxStop, ValueCst, ValueNode};
use ir_lexer::{SliceTokens, TEXT_LIMIT};
use std::alloc::Global;
use std::process::Abort;
use std::slice::Iter;

/// What is read at a place: its kind, and its name or its text, if it has one. The size of a region
/// stands in place of its own place, which isn't kept.
type Row = (u32, &'static str, &'static str);

const ONE_OPERATION: &str =
    "irdl.dialect @a { irdl.operation @o { %0 = irdl.any %1 = irdl.is i32 } }";

const EACH_FORM: &str = "module{irdl.dialect @a{irdl.operation @o{%0=irdl.base @d::@t \
     irdl.operands(single: optional %0,%0)irdl.attributes{\"a\"=optional %0}\
     %r=irdl.region(%0)with size 1 irdl_opt.format \"\"}}}";

const READ: &[(&str, &[Row])] = &[
    ("", &[]),
    (" module { } // none", &[]),
    (
        "module{irdl.dialect @a{}irdl.dialect @b{}}",
        &[(20, "dialect", "a"), (37, "dialect", "b")],
    ),
    (
        "irdl.dialect @a{}irdl.dialect @a{}",
        &[(13, "dialect", "a"), (30, "dialect", "a")],
    ),
    (
        "// none\n irdl.dialect @\"a\\41 \"\t{ } ",
        &[(22, "dialect", "aA ")],
    ),
    (
        "irdl.dialect @d{irdl.type @t irdl.attribute @a irdl.operation @o irdl.type @t{}\
         irdl.operation @o{}}",
        &[
            (13, "dialect", "d"),
            (26, "type", "t"),
            (44, "attribute", "a"),
            (62, "operation", "o"),
            (75, "type", "t"),
            (94, "operation", "o"),
        ],
    ),
    (
        "irdl.dialect @d{irdl.type @t{irdl.parameters(x: %0,%1)%0=irdl.any irdl.parameters()}\
         irdl.attribute @a{irdl.parameters(single: %0)}}",
        &[
            (13, "dialect", "d"),
            (26, "type", "t"),
            (29, "parameters", ""),
            (45, "single", ""),
            (45, "name", "x"),
            (48, "variable", "0"),
            (51, "single", ""),
            (51, "variable", "1"),
            (54, "constraint", "0"),
            (54, "any", ""),
            (66, "parameters", ""),
            (99, "attribute", "a"),
            (102, "parameters", ""),
            (118, "single", ""),
            (118, "name", "single"),
            (126, "variable", "0"),
        ],
    ),
    (
        "irdl.dialect @a{irdl.operation @o{%0=irdl.any %x=irdl.is [1, i8]%1=irdl.is i32 \
         %0=irdl.is -5:i8}}",
        &[
            (13, "dialect", "a"),
            (31, "operation", "o"),
            (34, "constraint", "0"),
            (34, "any", ""),
            (46, "constraint", "x"),
            (57, "array", ""),
            (58, "number", "1"),
            (61, "is", "i8"),
            (64, "constraint", "1"),
            (75, "is", "i32"),
            (79, "constraint", "0"),
            (90, "number", "5"),
        ],
    ),
    (
        "irdl.dialect @a{irdl.operation @o{%0=irdl.c_pred \"a\\n\"%1=irdl.base @t \
         %2=irdl.base @d::@\"t\"%3=irdl.base \"!builtin.integer\"}}",
        &[
            (13, "dialect", "a"),
            (31, "operation", "o"),
            (34, "constraint", "0"),
            (49, "pred", "a\n"),
            (54, "constraint", "1"),
            (67, "base", ""),
            (67, "reference", "t"),
            (70, "constraint", "2"),
            (83, "base", ""),
            (83, "dialect of", "d"),
            (83, "reference", "t"),
            (91, "constraint", "3"),
            (104, "base name", "!builtin.integer"),
        ],
    ),
    (
        "irdl.dialect @a{irdl.operation @o{%0=irdl.parametric @t<>%1=irdl.parametric @d::@t<\
         %0,%0>%2=irdl.any_of(%0)%3=irdl.all_of(%0, %1)}}",
        &[
            (13, "dialect", "a"),
            (31, "operation", "o"),
            (34, "constraint", "0"),
            (53, "parametric", ""),
            (53, "reference", "t"),
            (57, "constraint", "1"),
            (76, "parametric", ""),
            (76, "dialect of", "d"),
            (76, "reference", "t"),
            (83, "variable", "0"),
            (86, "variable", "0"),
            (89, "constraint", "2"),
            (89, "any_of", ""),
            (104, "variable", "0"),
            (107, "constraint", "3"),
            (107, "all_of", ""),
            (122, "variable", "0"),
            (126, "variable", "1"),
        ],
    ),
    (
        "irdl.dialect @a{irdl.operation @o{irdl.results()irdl.operands(x: %0,%1)%0=irdl.any \
         irdl.results(%0,yy:%b)irdl.operands(irdl.results: %0)}}",
        &[
            (13, "dialect", "a"),
            (31, "operation", "o"),
            (34, "results", ""),
            (48, "operands", ""),
            (62, "single", ""),
            (62, "name", "x"),
            (65, "variable", "0"),
            (68, "single", ""),
            (68, "variable", "1"),
            (71, "constraint", "0"),
            (71, "any", ""),
            (83, "results", ""),
            (96, "single", ""),
            (96, "variable", "0"),
            (99, "single", ""),
            (99, "name", "yy"),
            (102, "variable", "b"),
            (105, "operands", ""),
            (119, "single", ""),
            (119, "name", "irdl.results"),
            (133, "variable", "0"),
        ],
    ),
    (
        "irdl.dialect @a{irdl.operation @o{irdl.operands(single %0,optional %0,variadic \
         %0,single: %0,optional: variadic %0,variadic:single %0,single: single \
         %0,x: optional %0)}}",
        &[
            (13, "dialect", "a"),
            (31, "operation", "o"),
            (34, "operands", ""),
            (48, "single", ""),
            (55, "variable", "0"),
            (58, "optional", ""),
            (67, "variable", "0"),
            (70, "variadic", ""),
            (79, "variable", "0"),
            (82, "single", ""),
            (82, "name", "single"),
            (90, "variable", "0"),
            (93, "variadic", ""),
            (93, "name", "optional"),
            (112, "variable", "0"),
            (115, "single", ""),
            (115, "name", "variadic"),
            (131, "variable", "0"),
            (134, "single", ""),
            (134, "name", "single"),
            (149, "variable", "0"),
            (152, "optional", ""),
            (152, "name", "x"),
            (164, "variable", "0"),
        ],
    ),
    (
        "irdl.dialect @a{irdl.operation @o{irdl.attributes{\"a\"=%0,\"\\62 \"= optional %1}\
         irdl.attributes { }}}",
        &[
            (13, "dialect", "a"),
            (31, "operation", "o"),
            (34, "attributes", ""),
            (50, "required", "a"),
            (54, "variable", "0"),
            (57, "optional", "b "),
            (74, "variable", "1"),
            (77, "attributes", ""),
        ],
    ),
    (
        "irdl.dialect @a{irdl.operation @o{%r=irdl.region %s=irdl.region()%t=irdl.region(%0,\
         %1)with size 4294967295 %u=irdl.region with size 007 %v=irdl.region()with size 0x1F \
         irdl.regions(r: %r,%s)irdl.regions()}}",
        &[
            (13, "dialect", "a"),
            (31, "operation", "o"),
            (34, "region", "r"),
            (49, "region", "s"),
            (49, "arguments", ""),
            (65, "region", "t"),
            (65, "arguments", ""),
            (80, "variable", "0"),
            (83, "variable", "1"),
            (4294967295, "size", ""),
            (107, "region", "u"),
            (7, "size", ""),
            (136, "region", "v"),
            (136, "arguments", ""),
            (31, "size", ""),
            (167, "regions", ""),
            (180, "single", ""),
            (180, "name", "r"),
            (183, "variable", "r"),
            (186, "single", ""),
            (186, "variable", "s"),
            (189, "regions", ""),
        ],
    ),
    (
        "irdl.dialect @a{irdl.operation @o{irdl_opt.successors(a, single)irdl_opt.terminator \
         irdl_opt.format \"x\"irdl_opt.successors()}}",
        &[
            (13, "dialect", "a"),
            (31, "operation", "o"),
            (34, "successors", ""),
            (54, "name", "a"),
            (57, "name", "single"),
            (64, "terminator", ""),
            (84, "format", ""),
            (100, "text", "x"),
            (103, "successors", ""),
        ],
    ),
    (
        "irdl.dialect @a{irdl.operation @o{%0=irdl.is \
         [[[[[[[[[[[[[[[[[[[[[[[[[[[[[[[[[[[[[[[[[[[[[[[[[[[[[[[[[[[[[[[[\
         ]]]]]]]]]]]]]]]]]]]]]]]]]]]]]]]]]]]]]]]]]]]]]]]]]]]]]]]]]]]]]]]]}}",
        &[
            (13, "dialect", "a"),
            (31, "operation", "o"),
            (34, "constraint", "0"),
            (45, "array", ""),
            (46, "array", ""),
        ],
    ),
    (
        "irdl.dialect @a{irdl.operation @o{%0=irdl.is \
         [[[[[[[[[[[[[[[[[[[[[[[[[[[[[[[[[[[[[[[[[[[[[[[[[[[[[[[[[[[[[[[\
         {}]]]]]]]]]]]]]]]]]]]]]]]]]]]]]]]]]]]]]]]]]]]]]]]]]]]]]]]]]]]]]]]}}",
        &[
            (13, "dialect", "a"),
            (31, "operation", "o"),
            (34, "constraint", "0"),
            (45, "array", ""),
            (46, "array", ""),
        ],
    ),
];

/// Files, and the ends of their tokens, each but the last.
const CUT: &[(&str, &[u32])] = &[
    (
        ONE_OPERATION,
        &[12, 15, 17, 32, 35, 37, 40, 42, 51, 54, 56, 64, 68, 70],
    ),
    (
        EACH_FORM,
        &[
            6, 7, 19, 22, 23, 37, 40, 41, 43, 44, 53, 56, 58, 60, 74, 75, 81, 82, 91, 94, 95, 97,
            98, 113, 114, 117, 118, 126, 129, 130, 132, 133, 144, 145, 147, 148, 152, 157, 159,
            175, 178, 179, 180,
        ],
    ),
];

fn next_is(rt: &impl Abort, rows: &mut Iter<Row>, place: u32, kind: &str, name: &[u8]) {
    match rows.next() {
        Some((want_place, want_kind, want_name)) => {
            assert_eq!(rt; (place, kind), (*want_place, *want_kind));
            assert_eq!(rt; name, want_name.as_bytes(), "at {place}");
        }
        None => assert!(rt; false, "{kind} at {place}"),
    }
}

fn names_are(rt: &impl Abort, rows: &mut Iter<Row>, kind: &str, names: &[NameCst]) {
    for name in names {
        next_is(rt, rows, name.place, kind, name.name.bytes());
    }
}

fn value_is(rt: &impl Abort, rows: &mut Iter<Row>, value: &ValueCst) {
    let place = value.place;
    match &value.node {
        ValueNode::Word(word) => next_is(rt, rows, place, "is", word.bytes()),
        ValueNode::Number { digits, .. } => next_is(rt, rows, place, "number", digits.bytes()),
        ValueNode::Array(_) => next_is(rt, rows, place, "array", b""),
        _ => assert!(rt; false, "another value"),
    }
}

fn reference_is(rt: &impl Abort, rows: &mut Iter<Row>, kind: &str, reference: &RawRef) {
    let place = reference.place;
    next_is(rt, rows, place, kind, b"");
    if let Some(dialect) = &reference.dialect {
        next_is(rt, rows, place, "dialect of", dialect.bytes());
    }
    next_is(rt, rows, place, "reference", reference.name.bytes());
}

fn expr_is(rt: &impl Abort, rows: &mut Iter<Row>, place: u32, expr: &RawExpr) {
    match expr {
        RawExpr::Is(value) => {
            value_is(rt, rows, value);
            if let ValueNode::Array(items) = &value.node {
                for item in items.as_slice() {
                    value_is(rt, rows, item);
                }
            }
        }
        RawExpr::Any => next_is(rt, rows, place, "any", b""),
        RawExpr::Pred(name) => next_is(rt, rows, name.place, "pred", name.text.bytes()),
        RawExpr::BaseRef(target) => reference_is(rt, rows, "base", target),
        RawExpr::BaseName(name) => next_is(rt, rows, name.place, "base name", name.text.bytes()),
        RawExpr::Parametric { target, parts } => {
            reference_is(rt, rows, "parametric", target);
            names_are(rt, rows, "variable", parts.as_slice());
        }
        RawExpr::AnyOf(members) => {
            next_is(rt, rows, place, "any_of", b"");
            names_are(rt, rows, "variable", members.as_slice());
        }
        RawExpr::AllOf(members) => {
            next_is(rt, rows, place, "all_of", b"");
            names_are(rt, rows, "variable", members.as_slice());
        }
    }
}

fn region_is(
    rt: &impl Abort,
    rows: &mut Iter<Row>,
    place: u32,
    args: &Option<List<NameCst>>,
    size: &Option<u32>,
) {
    if let Some(args) = args {
        next_is(rt, rows, place, "arguments", b"");
        names_are(rt, rows, "variable", args.as_slice());
    }
    if let Some(size) = size {
        next_is(rt, rows, *size, "size", b"");
    }
}

fn entries_are(rt: &impl Abort, rows: &mut Iter<Row>, entries: &[RawEntry]) {
    for entry in entries {
        let arity = match entry.arity {
            Arity::Single => "single",
            Arity::Optional => "optional",
            Arity::Variadic => "variadic",
        };
        next_is(rt, rows, entry.place, arity, b"");
        if let Some(name) = &entry.name {
            next_is(rt, rows, name.place, "name", name.name.bytes());
        }
        let var = &entry.var;
        next_is(rt, rows, var.place, "variable", var.name.bytes());
    }
}

fn attributes_are(rt: &impl Abort, rows: &mut Iter<Row>, entries: &[RawAttr]) {
    for entry in entries {
        let kind = if entry.optional {
            "optional"
        } else {
            "required"
        };
        next_is(rt, rows, entry.name.place, kind, entry.name.text.bytes());
        let var = &entry.var;
        next_is(rt, rows, var.place, "variable", var.name.bytes());
    }
}

fn statement_is(rt: &impl Abort, rows: &mut Iter<Row>, statement: &RawStatement) {
    let place = statement.place;
    match &statement.kind {
        StatementKind::Constraint { name, expr } => {
            assert_eq!(rt; name.place, place);
            next_is(rt, rows, place, "constraint", name.name.bytes());
            expr_is(rt, rows, place, expr);
        }
        StatementKind::Region { name, args, size } => {
            assert_eq!(rt; name.place, place);
            next_is(rt, rows, place, "region", name.name.bytes());
            region_is(rt, rows, place, args, size);
        }
        StatementKind::Parameters(entries) => {
            next_is(rt, rows, place, "parameters", b"");
            entries_are(rt, rows, entries.as_slice());
        }
        StatementKind::Operands(entries) => {
            next_is(rt, rows, place, "operands", b"");
            entries_are(rt, rows, entries.as_slice());
        }
        StatementKind::Results(entries) => {
            next_is(rt, rows, place, "results", b"");
            entries_are(rt, rows, entries.as_slice());
        }
        StatementKind::Attributes(entries) => {
            next_is(rt, rows, place, "attributes", b"");
            attributes_are(rt, rows, entries.as_slice());
        }
        StatementKind::Regions(entries) => {
            next_is(rt, rows, place, "regions", b"");
            entries_are(rt, rows, entries.as_slice());
        }
        StatementKind::Successors(names) => {
            next_is(rt, rows, place, "successors", b"");
            names_are(rt, rows, "name", names.as_slice());
        }
        StatementKind::Terminator => next_is(rt, rows, place, "terminator", b""),
        StatementKind::Format(text) => {
            next_is(rt, rows, place, "format", b"");
            next_is(rt, rows, text.place, "text", text.text.bytes());
        }
    }
}

fn defs_are(rt: &impl Abort, rows: &mut Iter<Row>, defs: &[RawDef]) {
    for def in defs {
        let kind = match def.kind {
            DefKind::OfType => "type",
            DefKind::OfAttr => "attribute",
            DefKind::OfOp => "operation",
        };
        next_is(rt, rows, def.place, kind, def.name.bytes());
        for statement in def.statements.as_slice() {
            statement_is(rt, rows, statement);
        }
    }
}

#[test]
fn these_files_have_these_trees(rt: HostRuntime) -> Result<(), SyntaxStop> {
    for (text, want) in READ {
        assert!(rt; text.len() <= TEXT_LIMIT);
        let defs = read_definitions(rt.alloc(), &mut SliceTokens::new(text.as_bytes()))?;
        let mut rows = want.iter();
        for dialect in defs.dialects.as_slice() {
            let name = dialect.name.bytes();
            next_is(&rt, &mut rows, dialect.place, "dialect", name);
            defs_are(&rt, &mut rows, dialect.defs.as_slice());
        }
        assert!(rt; rows.next().is_none(), "in {text}");
    }
    Ok(())
}

fn is_refused(rt: &impl Abort, alloc: Global, text: &[u8], place: u32, code: SyntaxCode) {
    assert!(rt; text.len() <= TEXT_LIMIT);
    assert_eq!(rt;
        read_definitions(alloc, &mut SliceTokens::new(text)).err(),
        Some(SyntaxStop::At { place, code }),
        "{text:?}"
    );
}

#[test]
fn a_file_that_is_cut_is_refused_at_its_end(rt: HostRuntime) {
    for (file, ends) in CUT {
        for end in *ends {
            assert!(rt; *end as usize <= file.len());
            let text = &file.as_bytes()[..*end as usize];
            is_refused(&rt, rt.alloc(), text, *end, SyntaxCode::Syntax);
        }
    }
}

/// Files, and the first token that no file has there, or that begins a value too deep: its place,
/// and its sort.
const OTHER_FILES: &[(&str, u32, SyntaxCode)] = &[
    ("module", 6, SyntaxCode::Syntax),
    ("module {", 8, SyntaxCode::Syntax),
    ("module {irdl.dialect @a {}", 26, SyntaxCode::Syntax),
    ("module {} irdl.dialect @a {}", 10, SyntaxCode::Syntax),
    ("irdl.dialect @a {} module {}", 19, SyntaxCode::Syntax),
    ("module { module {} }", 9, SyntaxCode::Syntax),
    ("irdl.type @t", 0, SyntaxCode::Syntax),
    ("irdl.dialect cmath {}", 13, SyntaxCode::Syntax),
    ("irdl.dialect 1.5 {}", 13, SyntaxCode::Float),
    ("irdl.dialect ~ {}", 13, SyntaxCode::Bad),
    ("irdl.dialect @a {} x", 19, SyntaxCode::Syntax),
    ("irdl.dialect @a", 15, SyntaxCode::Syntax),
    ("irdl.dialect @a { %0 = irdl.any }", 18, SyntaxCode::Syntax),
    ("irdl.dialect @a { irdl.type t }", 28, SyntaxCode::Syntax),
    (
        "irdl.dialect @a { irdl.operation @o {} {} }",
        39,
        SyntaxCode::Syntax,
    ),
    (
        "irdl.dialect @a{irdl.type @t{irdl.operands()}}",
        29,
        SyntaxCode::Syntax,
    ),
    (
        "irdl.dialect @a{irdl.type @t{%r=irdl.region}}",
        32,
        SyntaxCode::Syntax,
    ),
    (
        "irdl.dialect @a{irdl.type @t{irdl_opt.terminator}}",
        29,
        SyntaxCode::Syntax,
    ),
    (
        "irdl.dialect @a{irdl.type @t{irdl.parameters(x: single %0)}}",
        48,
        SyntaxCode::Syntax,
    ),
    (
        "irdl.dialect @a{irdl.operation @o{%0 irdl.any}}",
        37,
        SyntaxCode::Syntax,
    ),
    (
        "irdl.dialect @a{irdl.operation @o{%0 = irdl.all}}",
        39,
        SyntaxCode::Syntax,
    ),
    (
        "irdl.dialect @a{irdl.operation @o{irdl.parameters()}}",
        34,
        SyntaxCode::Syntax,
    ),
    (
        "irdl.dialect @a{irdl.operation @o{irdl.any}}",
        34,
        SyntaxCode::Syntax,
    ),
    // constraints
    (
        "irdl.dialect @a{irdl.operation @o{%0=irdl.is }}",
        45,
        SyntaxCode::Syntax,
    ),
    (
        "irdl.dialect @a{irdl.operation @o{%0=irdl.is i0}}",
        45,
        SyntaxCode::Syntax,
    ),
    (
        "irdl.dialect @a{irdl.operation @o{%0=irdl.is %1}}",
        45,
        SyntaxCode::Syntax,
    ),
    (
        "irdl.dialect @a{irdl.operation @o{%0=irdl.is tuple<i8}}",
        53,
        SyntaxCode::Syntax,
    ),
    (
        "irdl.dialect @a{irdl.operation @o{%0=irdl.is [1,]}}",
        48,
        SyntaxCode::Syntax,
    ),
    (
        "irdl.dialect @a{irdl.operation @o{%0=irdl.is 1.5}}",
        45,
        SyntaxCode::Float,
    ),
    (
        "irdl.dialect @a{irdl.operation @o{%0=irdl.c_pred @p}}",
        49,
        SyntaxCode::Syntax,
    ),
    (
        "irdl.dialect @a{irdl.operation @o{%0=irdl.base %0}}",
        47,
        SyntaxCode::Syntax,
    ),
    (
        "irdl.dialect @a{irdl.operation @o{%0=irdl.base @a::t}}",
        51,
        SyntaxCode::Syntax,
    ),
    (
        "irdl.dialect @a{irdl.operation @o{%0=irdl.base @a::}}",
        51,
        SyntaxCode::Syntax,
    ),
    (
        "irdl.dialect @a{irdl.operation @o{%0=irdl.parametric @t}}",
        55,
        SyntaxCode::Syntax,
    ),
    (
        "irdl.dialect @a{irdl.operation @o{%0=irdl.parametric \"t\"<>}}",
        53,
        SyntaxCode::Syntax,
    ),
    (
        "irdl.dialect @a{irdl.operation @o{%0=irdl.parametric @t<%1,>}}",
        59,
        SyntaxCode::Syntax,
    ),
    (
        "irdl.dialect @a{irdl.operation @o{%0=irdl.any_of()}}",
        49,
        SyntaxCode::Syntax,
    ),
    (
        "irdl.dialect @a{irdl.operation @o{%0=irdl.any_of(%1,)}}",
        52,
        SyntaxCode::Syntax,
    ),
    (
        "irdl.dialect @a{irdl.operation @o{%0=irdl.any_of %1}}",
        49,
        SyntaxCode::Syntax,
    ),
    (
        "irdl.dialect @a{irdl.operation @o{%0=irdl.all_of()}}",
        49,
        SyntaxCode::Syntax,
    ),
    (
        "irdl.dialect @a{irdl.operation @o{%0=irdl.all_of(%1 %2)}}",
        52,
        SyntaxCode::Syntax,
    ),
    // statements that list
    (
        "irdl.dialect @a{irdl.operation @o{irdl.operands %0)}}",
        48,
        SyntaxCode::Syntax,
    ),
    (
        "irdl.dialect @a{irdl.operation @o{irdl.results}}",
        46,
        SyntaxCode::Syntax,
    ),
    (
        "irdl.dialect @a{irdl.operation @o{irdl.operands(%0,)}}",
        51,
        SyntaxCode::Syntax,
    ),
    (
        "irdl.dialect @a{irdl.operation @o{irdl.results(%0,)}}",
        50,
        SyntaxCode::Syntax,
    ),
    (
        "irdl.dialect @a{irdl.operation @o{irdl.operands(,%0)}}",
        48,
        SyntaxCode::Syntax,
    ),
    (
        "irdl.dialect @a{irdl.operation @o{irdl.operands(%0 %1)}}",
        51,
        SyntaxCode::Syntax,
    ),
    (
        "irdl.dialect @a{irdl.operation @o{irdl.operands(x %0)}}",
        50,
        SyntaxCode::Syntax,
    ),
    (
        "irdl.dialect @a{irdl.operation @o{irdl.operands(x:)}}",
        50,
        SyntaxCode::Syntax,
    ),
    (
        "irdl.dialect @a{irdl.operation @o{irdl.operands(x)}}",
        49,
        SyntaxCode::Syntax,
    ),
    (
        "irdl.dialect @a{irdl.operation @o{irdl.operands(: %0)}}",
        48,
        SyntaxCode::Syntax,
    ),
    (
        "irdl.dialect @a{irdl.operation @o{irdl.operands(single)}}",
        54,
        SyntaxCode::Syntax,
    ),
    (
        "irdl.dialect @a{irdl.operation @o{irdl.operands(single single %0)}}",
        55,
        SyntaxCode::Syntax,
    ),
    (
        "irdl.dialect @a{irdl.operation @o{irdl.operands(variadic each: %0)}}",
        57,
        SyntaxCode::Syntax,
    ),
    (
        "irdl.dialect @a{irdl.operation @o{irdl.operands(x: single: %0)}}",
        57,
        SyntaxCode::Syntax,
    ),
    (
        "irdl.dialect @a{irdl.operation @o{irdl.operands(x: y: %0)}}",
        51,
        SyntaxCode::Syntax,
    ),
    (
        "irdl.dialect @a{irdl.operation @o{irdl.results(optional:)}}",
        56,
        SyntaxCode::Syntax,
    ),
    (
        "irdl.dialect @a{irdl.operation @o{irdl.regions(optional %0)}}",
        56,
        SyntaxCode::Syntax,
    ),
    (
        "irdl.dialect @a{irdl.operation @o{irdl.regions(%0,)}}",
        50,
        SyntaxCode::Syntax,
    ),
    (
        "irdl.dialect @a{irdl.operation @o{irdl.attributes(\"a\"=%0)}}",
        49,
        SyntaxCode::Syntax,
    ),
    (
        "irdl.dialect @a{irdl.operation @o{irdl.attributes{a=%0}}}",
        50,
        SyntaxCode::Syntax,
    ),
    (
        "irdl.dialect @a{irdl.operation @o{irdl.attributes{\"a\" %0}}}",
        54,
        SyntaxCode::Syntax,
    ),
    (
        "irdl.dialect @a{irdl.operation @o{irdl.attributes{\"a\"=single %0}}}",
        54,
        SyntaxCode::Syntax,
    ),
    (
        "irdl.dialect @a{irdl.operation @o{irdl.attributes{\"a\"=%0,}}}",
        57,
        SyntaxCode::Syntax,
    ),
    (
        "irdl.dialect @a{irdl.operation @o{irdl.attributes{\"a\"=optional}}}",
        62,
        SyntaxCode::Syntax,
    ),
    (
        "irdl.dialect @a{irdl.operation @o{irdl_opt.successors(%0)}}",
        54,
        SyntaxCode::Syntax,
    ),
    (
        "irdl.dialect @a{irdl.operation @o{irdl_opt.successors(a,)}}",
        56,
        SyntaxCode::Syntax,
    ),
    (
        "irdl.dialect @a{irdl.operation @o{irdl_opt.terminator()}}",
        53,
        SyntaxCode::Syntax,
    ),
    (
        "irdl.dialect @a{irdl.operation @o{irdl_opt.format x}}",
        50,
        SyntaxCode::Syntax,
    ),
    // regions
    (
        "irdl.dialect @a{irdl.operation @o{%0=irdl.region(%1,)}}",
        52,
        SyntaxCode::Syntax,
    ),
    (
        "irdl.dialect @a{irdl.operation @o{%0=irdl.region(x: %1)}}",
        49,
        SyntaxCode::Syntax,
    ),
    (
        "irdl.dialect @a{irdl.operation @o{%0=irdl.region with 1}}",
        54,
        SyntaxCode::Syntax,
    ),
    (
        "irdl.dialect @a{irdl.operation @o{%0=irdl.region size 1}}",
        49,
        SyntaxCode::Syntax,
    ),
    (
        "irdl.dialect @a{irdl.operation @o{%0=irdl.region with size -1}}",
        59,
        SyntaxCode::Syntax,
    ),
    (
        "irdl.dialect @a{irdl.operation @o{%0=irdl.region with size }}",
        59,
        SyntaxCode::Syntax,
    ),
    (
        "irdl.dialect @a{irdl.operation @o{%0=irdl.region with size 4294967296}}",
        59,
        SyntaxCode::Syntax,
    ),
    (
        "irdl.dialect @a{irdl.operation @o{%0=irdl.region with size 0x100000000}}",
        59,
        SyntaxCode::Syntax,
    ),
    (
        "irdl.dialect @a{irdl.operation @o{%0=irdl.region with size 1 with size 1}}",
        61,
        SyntaxCode::Syntax,
    ),
    // the 65th of arrays in arrays, and a key at nesting 65
    (
        "irdl.dialect @a{irdl.operation @o{%0=irdl.is \
         [[[[[[[[[[[[[[[[[[[[[[[[[[[[[[[[[[[[[[[[[[[[[[[[[[[[[[[[[[[[[[[[[\
         ]]]]]]]]]]]]]]]]]]]]]]]]]]]]]]]]]]]]]]]]]]]]]]]]]]]]]]]]]]]]]]]]]}}",
        109,
        SyntaxCode::Nesting,
    ),
    (
        "irdl.dialect @a{irdl.operation @o{%0=irdl.is \
         [[[[[[[[[[[[[[[[[[[[[[[[[[[[[[[[[[[[[[[[[[[[[[[[[[[[[[[[[[[[[[[\
         {a=1}]]]]]]]]]]]]]]]]]]]]]]]]]]]]]]]]]]]]]]]]]]]]]]]]]]]]]]]]]]]]]]]}}",
        109,
        SyntaxCode::Nesting,
    ),
];

#[test]
fn other_files_are_refused_at_the_first_wrong_token(rt: HostRuntime) {
    for (text, place, code) in OTHER_FILES {
        is_refused(&rt, rt.alloc(), text.as_bytes(), *place, *code);
    }
}
