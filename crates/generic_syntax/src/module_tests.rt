//! Modules in generic form that are read, and where others are refused.

use super::*;
use ir_lexer::{SliceTokens, TEXT_LIMIT};
use std::process::Abort;
use std::slice::Iter;

/// What is read at a place: its kind, and its name, its digits or its key, if it has one. A block
/// without a label has no place.
type Row = (u32, &'static str, &'static str);

/// Texts, and what stands in their operations and, behind these, in the blocks of their regions.
const READ: &[(&str, &[Row])] = &[
    ("", &[]),
    (" // none\n", &[]),
    (
        "!a = i8 #b = 5 !c = !a",
        &[
            (0, "type alias", "a"),
            (5, "value", ""),
            (8, "attribute alias", "b"),
            (13, "value", ""),
            (15, "type alias", "c"),
            (20, "value", ""),
        ],
    ),
    (
        "#a=[{}]\"d.op\"():()->()",
        &[
            (0, "attribute alias", "a"),
            (3, "value", ""),
            (7, "operation", "d.op"),
        ],
    ),
    (
        "%0 = \"a\\41\"() : () -> () \"b\"(%0) : (i8) -> ()",
        &[
            (0, "result", "0"),
            (5, "operation", "aA"),
            (25, "operation", "b"),
            (29, "use", "0"),
            (36, "input", ""),
        ],
    ),
    (
        "%0, %p:0, %q:0x2 = \"d.op\"(%0, %q#1) : (i8, i1) -> (i8, !a)",
        &[
            (0, "result", "0"),
            (4, "result", "p"),
            (7, "pack", "0"),
            (10, "result", "q"),
            (13, "pack", "0x2"),
            (19, "operation", "d.op"),
            (26, "use", "0"),
            (30, "use", "q"),
            (32, "number", "1"),
            (39, "input", ""),
            (43, "input", ""),
            (51, "output", ""),
            (55, "output", ""),
        ],
    ),
    (
        "\"d.op\"()[^a, ^b]<{x = 1, \"y z\"}> ({}, {}) {c} : () -> tuple<>",
        &[
            (0, "operation", "d.op"),
            (9, "successor", "a"),
            (13, "successor", "b"),
            (18, "property", "x"),
            (25, "property", "y z"),
            (34, "region", ""),
            (38, "region", ""),
            (43, "attribute", "c"),
            (54, "output", ""),
        ],
    ),
    ("\"a\"() <{}> {} : () -> ()", &[(0, "operation", "a")]),
    (
        "\"a\"() ({\"b\"() : () -> () %1 = \"c\"() ({}) : () -> i8 ^x: ^y(%2 : i1, %3 : \
         !t): \"d\"() : () -> ()}, {^z():}) : () -> ()",
        &[
            (0, "operation", "a"),
            (7, "region", ""),
            (97, "region", ""),
            (0, "no label", ""),
            (8, "operation", "b"),
            (25, "result", "1"),
            (30, "operation", "c"),
            (37, "region", ""),
            (49, "output", ""),
            (52, "label", "x"),
            (56, "label", "y"),
            (59, "argument", "2"),
            (64, "type", ""),
            (68, "argument", "3"),
            (73, "type", ""),
            (78, "operation", "d"),
            (98, "label", "z"),
        ],
    ),
    (
        "\"a\"()({\"a\"()({\"a\"()({\"a\"()({\"a\"()({\"a\"()({\"a\"()({\"a\"()({\"a\"(\
         )({\"a\"()({\"a\"()({\"a\"()({\"a\"()({\"a\"()({\"a\"()({\"a\"()({\"a\"()({\"a\
         \"()({\"a\"()({\"a\"()({\"a\"()({\"a\"()({\"a\"()({\"a\"()({\"a\"()({\"a\"()({\
         \"a\"()({\"a\"()({\"a\"()({\"a\"()({\"a\"()({\"a\"()({\"a\"()({\"a\"()({\"a\"(\
         )({\"a\"()({\"a\"()({\"a\"()({\"a\"()({\"a\"()({\"a\"()({\"a\"()({\"a\"()({\"a\
         \"()({\"a\"()({\"a\"()({\"a\"()({\"a\"()({\"a\"()({\"a\"()({\"a\"()({\"a\"()({\
         \"a\"()({\"a\"()({\"a\"()({\"a\"()({\"a\"()({\"a\"()({\"a\"()({\"a\"()({\"a\"(\
         )({\"a\"()({\"a\"()({\"a\"()({}):()->()}):()->()}):()->()}):()->()}):()->()}):\
         ()->()}):()->()}):()->()}):()->()}):()->()}):()->()}):()->()}):()->()}):()->()\
         }):()->()}):()->()}):()->()}):()->()}):()->()}):()->()}):()->()}):()->()}):()-\
         >()}):()->()}):()->()}):()->()}):()->()}):()->()}):()->()}):()->()}):()->()}):\
         ()->()}):()->()}):()->()}):()->()}):()->()}):()->()}):()->()}):()->()}):()->()\
         }):()->()}):()->()}):()->()}):()->()}):()->()}):()->()}):()->()}):()->()}):()-\
         >()}):()->()}):()->()}):()->()}):()->()}):()->()}):()->()}):()->()}):()->()}):\
         ()->()}):()->()}):()->()}):()->()}):()->()}):()->()}):()->()",
        &[
            (0, "operation", "a"),
            (6, "region", ""),
            (0, "no label", ""),
            (7, "operation", "a"),
            (13, "region", ""),
        ],
    ),
];

/// Texts that are no module in generic form, and where they are refused for what.
const REFUSED: &[(&str, u32, SyntaxCode)] = &[
    ("module {}", 0, SyntaxCode::Syntax),
    ("d.op", 0, SyntaxCode::Syntax),
    ("!d.t = i8", 0, SyntaxCode::Syntax),
    ("#a.b = 5", 0, SyntaxCode::Syntax),
    ("!a i8", 3, SyntaxCode::Syntax),
    ("!a = 5", 5, SyntaxCode::Syntax),
    ("#a = %0", 5, SyntaxCode::Syntax),
    ("!a = i8 , #b = 5", 8, SyntaxCode::Syntax),
    ("\"a\"() : () -> () !a = i8", 17, SyntaxCode::Syntax),
    ("^a: \"b\"() : () -> ()", 0, SyntaxCode::Syntax),
    ("\"a\"() : () -> () }", 17, SyntaxCode::Syntax),
    ("%0 \"a\"() : () -> ()", 3, SyntaxCode::Syntax),
    ("%0, = \"a\"() : () -> ()", 4, SyntaxCode::Syntax),
    ("%0: = \"a\"() : () -> ()", 4, SyntaxCode::Syntax),
    ("%0#1 = \"a\"()", 2, SyntaxCode::Syntax),
    ("%0:1.5 = \"a\"()", 3, SyntaxCode::Float),
    ("%0 = module {}", 5, SyntaxCode::Syntax),
    ("\"a\" : () -> ()", 4, SyntaxCode::Syntax),
    ("\"a\"(%0,) : (i8) -> ()", 7, SyntaxCode::Syntax),
    ("\"a\"(5) : () -> ()", 4, SyntaxCode::Syntax),
    ("\"a\"()[] : () -> ()", 6, SyntaxCode::Syntax),
    ("\"a\"()[^a ^b] : () -> ()", 9, SyntaxCode::Syntax),
    ("\"a\"()<> : () -> ()", 6, SyntaxCode::Syntax),
    ("\"a\"()<{}", 8, SyntaxCode::Syntax),
    ("\"a\"()() : () -> ()", 6, SyntaxCode::Syntax),
    ("\"a\"()({}, ) : () -> ()", 10, SyntaxCode::Syntax),
    ("\"a\"()({} : () -> ()", 9, SyntaxCode::Syntax),
    ("\"a\"() {} {} : () -> ()", 9, SyntaxCode::Syntax),
    ("\"a\"() ({}) <{}> : () -> ()", 11, SyntaxCode::Syntax),
    ("\"a\"() : i8 -> i8", 8, SyntaxCode::Syntax),
    ("\"a\"() : (i8)", 12, SyntaxCode::Syntax),
    ("\"a\"() : () -> (i8) -> i8", 19, SyntaxCode::Syntax),
    ("\"a\"()({^a \"b\"() : () -> ()})", 10, SyntaxCode::Syntax),
    ("\"a\"()({^a(%0) : })", 12, SyntaxCode::Syntax),
    ("\"a\"()({^a: %0 = }) : () -> ()", 16, SyntaxCode::Syntax),
    ("\"a\"()({!a = i8}) : () -> ()", 7, SyntaxCode::Syntax),
    ("\"a\"()({\"b\"() : () -> ()", 23, SyntaxCode::Syntax),
    ("\"a\"(%0#) : () -> ()", 6, SyntaxCode::Bad),
    ("\"a\"() ~", 6, SyntaxCode::Bad),
    ("\"a\"() {b = 1.5} : () -> ()", 11, SyntaxCode::Float),
    (
        "\"a\"() {b = [[[[[[[[[[[[[[[[[[[[[[[[[[[[[[[[[[[[[[[[[[[[[[[[[[[[[[[[[[[[[[[[5",
        75,
        SyntaxCode::Nesting,
    ),
    (
        "\"a\"()({\"a\"()({\"a\"()({\"a\"()({\"a\"()({\"a\"()({\"a\"()({\"a\"()({\"a\"(\
         )({\"a\"()({\"a\"()({\"a\"()({\"a\"()({\"a\"()({\"a\"()({\"a\"()({\"a\"()({\"a\
         \"()({\"a\"()({\"a\"()({\"a\"()({\"a\"()({\"a\"()({\"a\"()({\"a\"()({\"a\"()({\
         \"a\"()({\"a\"()({\"a\"()({\"a\"()({\"a\"()({\"a\"()({\"a\"()({\"a\"()({\"a\"(\
         )({\"a\"()({\"a\"()({\"a\"()({\"a\"()({\"a\"()({\"a\"()({\"a\"()({\"a\"()({\"a\
         \"()({\"a\"()({\"a\"()({\"a\"()({\"a\"()({\"a\"()({\"a\"()({\"a\"()({\"a\"()({\
         \"a\"()({\"a\"()({\"a\"()({\"a\"()({\"a\"()({\"a\"()({\"a\"()({\"a\"()({\"a\"(\
         )({\"a\"()({\"a\"()({\"a\"()({\"a\"()({",
        454,
        SyntaxCode::Nesting,
    ),
    (
        "\"a\"()({\"a\"()({\"a\"()({\"a\"()({\"a\"()({\"a\"()({\"a\"()({\"a\"()({\"a\"(\
         )({\"a\"()({\"a\"()({\"a\"()({\"a\"()({\"a\"()({\"a\"()({\"a\"()({\"a\"()({\"a\
         \"()({\"a\"()({\"a\"()({\"a\"()({\"a\"()({\"a\"()({\"a\"()({\"a\"()({\"a\"()({\
         \"a\"()({\"a\"()({\"a\"()({\"a\"()({\"a\"()({\"a\"()({\"a\"()({\"a\"()({\"a\"(\
         )({\"a\"()({\"a\"()({\"a\"()({\"a\"()({\"a\"()({\"a\"()({\"a\"()({\"a\"()({\"a\
         \"()({\"a\"()({\"a\"()({\"a\"()({\"a\"()({\"a\"()({\"a\"()({\"a\"()({\"a\"()({\
         \"a\"()({\"a\"()({\"a\"()({\"a\"()({\"a\"()({\"a\"()({\"a\"()({\"a\"()({\"a\"(\
         )({\"a\"()({\"a\"()({\"a\"()({\"a\"()(5",
        454,
        SyntaxCode::Syntax,
    ),
];

fn next_is(rt: &impl Abort, rows: &mut Iter<Row>, place: u32, kind: &str, name: &[u8]) {
    match rows.next() {
        Some((want_place, want_kind, want_name)) => {
            assert_eq!(rt; (place, kind), (*want_place, *want_kind));
            assert_eq!(rt; name, want_name.as_bytes(), "at {place}");
        }
        None => assert!(rt; false, "{kind} at {place}"),
    }
}

fn number_is(rt: &impl Abort, rows: &mut Iter<Row>, kind: &str, number: &Option<NumberCst>) {
    if let Some(number) = number {
        next_is(rt, rows, number.place, kind, number.digits.bytes());
    }
}

fn values_are(rt: &impl Abort, rows: &mut Iter<Row>, kind: &str, values: &[ValueCst]) {
    for value in values {
        next_is(rt, rows, value.place, kind, b"");
    }
}

fn entries_are(rt: &impl Abort, rows: &mut Iter<Row>, kind: &str, entries: &[EntryCst]) {
    for entry in entries {
        next_is(rt, rows, entry.place, kind, entry.key.bytes());
    }
}

fn generic_is(rt: &impl Abort, rows: &mut Iter<Row>, place: u32, generic: &GenericCst) {
    next_is(rt, rows, place, "operation", generic.name.bytes());
    for operand in generic.operands.as_slice() {
        next_is(rt, rows, operand.place, "use", operand.name.bytes());
        number_is(rt, rows, "number", &operand.number);
    }
    for successor in generic.successors.as_slice() {
        next_is(
            rt,
            rows,
            successor.place,
            "successor",
            successor.name.bytes(),
        );
    }
    entries_are(rt, rows, "property", generic.props.as_slice());
    for region in generic.regions.as_slice() {
        next_is(rt, rows, region.place, "region", b"");
    }
    entries_are(rt, rows, "attribute", generic.attrs.as_slice());
    values_are(rt, rows, "input", generic.inputs.as_slice());
    values_are(rt, rows, "output", generic.outputs.as_slice());
}

fn op_is(rt: &impl Abort, rows: &mut Iter<Row>, op: &OpCst) {
    for name in op.results.as_slice() {
        next_is(rt, rows, name.place, "result", name.name.bytes());
        number_is(rt, rows, "pack", &name.pack);
    }
    match &op.form {
        FormCst::Generic(generic) => generic_is(rt, rows, op.place, generic),
        FormCst::Custom(_) => assert!(rt; false, "a custom form"),
    }
}

fn blocks_are(rt: &impl Abort, rows: &mut Iter<Row>, blocks: &[BlockCst]) {
    for block in blocks {
        match &block.label {
            Some(label) => next_is(rt, rows, label.place, "label", label.name.bytes()),
            None => next_is(rt, rows, 0, "no label", b""),
        }
        for arg in block.args.as_slice() {
            next_is(rt, rows, arg.place, "argument", arg.name.bytes());
            next_is(rt, rows, arg.ty.place, "type", b"");
        }
        for op in block.ops.as_slice() {
            op_is(rt, rows, op);
        }
    }
}

fn module_is(rt: &impl Abort, rows: &mut Iter<Row>, module: &ModuleCst) {
    for alias in module.aliases.as_slice() {
        let kind = if alias.is_type {
            "type alias"
        } else {
            "attribute alias"
        };
        next_is(rt, rows, alias.place, kind, alias.name.bytes());
        next_is(rt, rows, alias.value.place, "value", b"");
    }
    for op in module.ops.as_slice() {
        op_is(rt, rows, op);
        if let FormCst::Generic(generic) = &op.form {
            for region in generic.regions.as_slice() {
                blocks_are(rt, rows, region.blocks.as_slice());
            }
        }
    }
}

#[test]
fn a_module_is_read_or_refused_at_its_place(rt: HostRuntime) -> Result<(), SyntaxStop> {
    for (text, rows) in READ {
        assert!(rt; text.len() <= TEXT_LIMIT);
        let mut tokens = SliceTokens::new(text.as_bytes());
        let module = parse_generic(rt.alloc(), &mut tokens)?;
        let mut rows = rows.iter();
        module_is(&rt, &mut rows, &module);
        assert!(rt; rows.next().is_none(), "{text}");
    }
    for (text, place, code) in REFUSED {
        assert!(rt; text.len() <= TEXT_LIMIT);
        let mut tokens = SliceTokens::new(text.as_bytes());
        let stop = SyntaxStop::At {
            place: *place,
            code: *code,
        };
        let answer = parse_generic(rt.alloc(), &mut tokens);
        assert_eq!(rt; answer.err(), Some(stop), "{text}");
    }
    Ok(())
}
