//! Values and their canonical texts, which were written by hand.

mod modules;

ghost use Rattle.std.specs.Prelude.{◌≡◌, ℕ, ◌<◌, length, IsTrue, true};
ghost use Rattle.attr_value.specs.Ids.{at, AreKnown};
ghost use Rattle.derived_printer.specs.Spellable.{IsNamed, NodeIsSpellable, AreSpellable};

use super::*;
use crate::names::is_full_name;
use attr_uniquer::Uniquer;
use attr_value::{DEPTH_LIMIT, Dim, FloatKind, Head, IntKind, List, ShapeKind, Text, ValueId};
use irdl_bytes::{MemSink, Sink};
use std::alloc::{AllocError, Global};
use std::process::Abort;
use std::test::Fail;
use text_layout::{Layout, PrintError};

// A head, as a row has it.
#[derive(Clone, Copy)]
enum Top {
    Int(IntKind),
    NoneType,
    Float(FloatKind),
    Function(usize),
    Tuple,
    Complex,
    Shaped(ShapeKind, &'static [Dim]),
    Number(IntKind, i128),
    Str(&'static [u8]),
    Unit,
    Array,
    Dict(&'static [&'static [u8]]),
    Symbol(&'static [&'static [u8]]),
    Dense(u32, &'static [i64]),
    Type(&'static [u8]),
    Attr(&'static [u8]),
}

// Each row is a head, the numbers of the rows of its kids, and the text. Rows count from 0.
const ROWS: &[(Top, &[usize], &str)] = &[
    // 0
    (Top::Int(IntKind::Index), &[], "index\n"),
    (Top::Int(IntKind::Signless(32)), &[], "i32\n"),
    (Top::Int(IntKind::Signed(1)), &[], "si1\n"),
    (Top::Int(IntKind::Unsigned(16_777_215)), &[], "ui16777215\n"),
    (Top::NoneType, &[], "none\n"),
    // 5
    (Top::Float(FloatKind::Bf16), &[], "bf16\n"),
    (Top::Float(FloatKind::F16), &[], "f16\n"),
    (Top::Float(FloatKind::Tf32), &[], "tf32\n"),
    (Top::Float(FloatKind::F32), &[], "f32\n"),
    (Top::Float(FloatKind::F64), &[], "f64\n"),
    // 10
    (Top::Float(FloatKind::F80), &[], "f80\n"),
    (Top::Float(FloatKind::F128), &[], "f128\n"),
    (Top::Unit, &[], "unit\n"),
    // the results of a function type always stand in parentheses
    (Top::Function(0), &[], "() -> ()\n"),
    (Top::Function(1), &[1, 0], "(i32) -> (index)\n"),
    // 15
    (Top::Function(1), &[14], "((i32) -> (index)) -> ()\n"),
    (
        Top::Function(2),
        &[0, 1, 14, 4],
        "(index, i32) -> ((i32) -> (index), none)\n",
    ),
    (Top::Tuple, &[], "tuple<>\n"),
    (Top::Tuple, &[1, 17, 8], "tuple<i32, tuple<>, f32>\n"),
    (Top::Complex, &[9], "complex<f64>\n"),
    // 20: shapes
    (
        Top::Shaped(ShapeKind::Vector, &[Dim::Known(4), Dim::Known(10)]),
        &[8],
        "vector<4x10xf32>\n",
    ),
    (
        Top::Shaped(
            ShapeKind::Tensor,
            &[Dim::Unknown, Dim::Known(1), Dim::Unknown],
        ),
        &[20],
        "tensor<?x1x?xvector<4x10xf32>>\n",
    ),
    (
        Top::Shaped(ShapeKind::Memref, &[]),
        &[14],
        "memref<(i32) -> (index)>\n",
    ),
    (
        Top::Shaped(ShapeKind::Memref, &[Dim::Known(9_223_372_036_854_775_807)]),
        &[0],
        "memref<9223372036854775807xindex>\n",
    ),
    // numbers, and truth values of `i1` alone
    (Top::Number(IntKind::Signless(64), 0), &[], "0 : i64\n"),
    // 25
    (Top::Number(IntKind::Signless(8), -1), &[], "-1 : i8\n"),
    (Top::Number(IntKind::Signless(1), -1), &[], "true\n"),
    (Top::Number(IntKind::Signless(1), 0), &[], "false\n"),
    (Top::Number(IntKind::Signed(1), -1), &[], "-1 : si1\n"),
    (Top::Number(IntKind::Unsigned(1), 1), &[], "1 : ui1\n"),
    // 30
    (
        Top::Number(IntKind::Index, -9_223_372_036_854_775_808),
        &[],
        "-9223372036854775808 : index\n",
    ),
    (
        Top::Number(IntKind::Unsigned(64), 18_446_744_073_709_551_615),
        &[],
        "18446744073709551615 : ui64\n",
    ),
    // strings
    (Top::Str(b""), &[], "\"\"\n"),
    (Top::Str(b" !#[]~ a.b"), &[], "\" !#[]~ a.b\"\n"),
    (
        Top::Str(b"\"\\\n\t\r\x00\x1f\x7f\x80\xab\xff"),
        &[],
        "\"\\22\\\\\\0A\\09\\0D\\00\\1F\\7F\\80\\AB\\FF\"\n",
    ),
    // 35: symbols
    (Top::Symbol(&[b"a"]), &[], "@a\n"),
    (
        Top::Symbol(&[b"_a$b.c9", b"a-b", b"0", b"", b"\xc3\xa9"]),
        &[],
        "@_a$b.c9::@\"a-b\"::@\"0\"::@\"\"::@\"\\C3\\A9\"\n",
    ),
    // dense arrays
    (Top::Dense(32, &[]), &[], "array<i32>\n"),
    (Top::Dense(1, &[-1, 0]), &[], "array<i1: true, false>\n"),
    (
        Top::Dense(8, &[-128, 0, 127]),
        &[],
        "array<i8: -128, 0, 127>\n",
    ),
    // 40
    (
        Top::Dense(64, &[-9_223_372_036_854_775_808]),
        &[],
        "array<i64: -9223372036854775808>\n",
    ),
    (Top::Array, &[], "[]\n"),
    (Top::Array, &[12, 41, 25], "[unit, [], -1 : i8]\n"),
    // dictionaries
    (Top::Dict(&[]), &[], "{}\n"),
    (Top::Dict(&[b"a"]), &[12], "{a}\n"),
    // 45
    (
        Top::Dict(&[b"", b"0", b"A", b"a b", b"a.b", b"b", b"\xff"]),
        &[12, 26, 24, 12, 41, 44, 32],
        "{\"\", \"0\" = true, A = 0 : i64, \"a b\", a.b = [], b = {a}, \"\\FF\" = \"\"}\n",
    ),
    // dialects' values
    (Top::Type(b"d.t"), &[], "!d.t\n"),
    (Top::Attr(b"d._a$1"), &[], "#d._a$1\n"),
    (Top::Type(b"t.pr"), &[1, 46], "!t.pr<i32, !d.t>\n"),
    (
        Top::Attr(b"d.a.b"),
        &[48, 42, 35],
        "#d.a.b<!t.pr<i32, !d.t>, [unit, [], -1 : i8], @a>\n",
    ),
];

// The texts of a row.
fn texts(alloc: Global, row: &[&[u8]]) -> Result<List<Text>, AllocError> {
    let mut found = List::new(alloc);
    for bytes in row {
        found.push(Text::from_slice(alloc, bytes)?)?;
    }
    Ok(found)
}

// The head of a row.
fn head_of(alloc: Global, top: Top) -> Result<Head, AllocError> {
    Ok(match top {
        Top::Int(kind) => Head::Int(kind),
        Top::NoneType => Head::NoneType,
        Top::Float(kind) => Head::Float(kind),
        Top::Function(inputs) => Head::Function { inputs },
        Top::Tuple => Head::Tuple,
        Top::Complex => Head::Complex,
        Top::Shaped(kind, dims) => Head::Shaped {
            kind,
            dims: List::from_slice(alloc, dims)?,
        },
        Top::Number(kind, n) => Head::Number { kind, n },
        Top::Str(bytes) => Head::Str(Text::from_slice(alloc, bytes)?),
        Top::Unit => Head::Unit,
        Top::Array => Head::Array,
        Top::Dict(keys) => Head::Dict {
            keys: texts(alloc, keys)?,
        },
        Top::Symbol(parts) => Head::Symbol {
            parts: texts(alloc, parts)?,
        },
        Top::Dense(width, items) => Head::Dense {
            width,
            items: List::from_slice(alloc, items)?,
        },
        Top::Type(name) => Head::Dialect {
            is_type: true,
            name: Text::from_slice(alloc, name)?,
        },
        Top::Attr(name) => Head::Dialect {
            is_type: false,
            name: Text::from_slice(alloc, name)?,
        },
    })
}

// Whether all ids are below a bound.
fn are_known(bound: usize, ids: &[ValueId]) -> bool
    ensures { IsTrue result → AreKnown bound ids.now }
{
    match ids {
        [] => true,
        [first, rest @ ..] => first.0 < bound && are_known(bound, rest),
    }
}

// Keeps a value whose kids are there.
fn keep(
    rt: &impl Abort,
    u: &mut Uniquer,
    head: Head,
    kids: &[ValueId],
) -> Result<ValueId, AllocError> {
    let known = are_known(u.len(), kids);
    assert!(rt; known);
    u.intern(head, kids)
}

// Whether a head's name, if it has one, is that of a dialect's value.
fn is_named(head: &Head) -> bool
    ensures { IsTrue result → IsNamed head.now }
{
    match head {
        Head::Dialect { name, .. } => is_full_name(name.bytes()),
        _ => true,
    }
}

// Whether all values of a table can be spelled, their depth apart.
fn are_spellable(u: &Uniquer) -> bool
    ensures nodes { IsTrue result → (i : ℕ) → i < length u.now →
        NodeIsSpellable (at u.now i).head (at u.now i).kids }
    ensures kids { IsTrue result → (i : ℕ) → i < length u.now → AreSpellable (at u.now i).kids }
{
    for i in 0..u.len() {
        let (head, kids) = u.view(ValueId(i));
        if !u.keeps_own_rule(head, kids) {
            return false;
        }
        if !is_named(head) {
            return false;
        }
    }
    true
}

// Prints a value that can be spelled.
fn print<S: Sink>(
    rt: &impl Abort,
    alloc: Global,
    u: &Uniquer,
    id: ValueId,
    layout: &mut Layout<'_, S>,
) -> Result<(), PrintError> {
    let spellable = are_spellable(u);
    assert!(rt; spellable);
    assert!(rt; id.0 < u.len());
    assert!(rt; u.depth(id) <= DEPTH_LIMIT);
    print_value(alloc, u, id, layout)
}

#[test]
fn values_have_these_texts(rt: HostRuntime) -> Result<(), Fail> {
    let mut u = Uniquer::new(rt.alloc());
    let mut ids = Vec::new(rt.alloc());
    for (top, places, want) in ROWS {
        let mut kids = Vec::new(rt.alloc());
        for place in *places {
            assert!(rt; *place < ids.len());
            kids.push(ids[*place])?;
        }
        let head = head_of(rt.alloc(), *top)?;
        let id = keep(&rt, &mut u, head, kids.as_slice())?;
        ids.push(id)?;
        let mut sink = MemSink::new(rt.alloc(), 200)?;
        let mut layout = Layout::new(rt.alloc(), &mut sink);
        print(&rt, rt.alloc(), &u, id, &mut layout)?;
        layout.end()?;
        assert_eq!(rt; sink.bytes(), want.as_bytes(), "{want}");
    }
    Ok(())
}

#[test]
fn a_value_has_its_gaps_and_errors_from_the_layout(rt: HostRuntime) -> Result<(), Fail> {
    let mut u = Uniquer::new(rt.alloc());
    let word = keep(&rt, &mut u, Head::Int(IntKind::Signless(8)), &[])?;
    let pair = keep(&rt, &mut u, Head::Tuple, &[word, word])?;
    for (room, want) in [(0, ""), (10, "i8 tuple<i"), (17, "i8 tuple<i8, i8>\n")] {
        let mut sink = MemSink::new(rt.alloc(), 20)?;
        sink.fail_after(room);
        let mut layout = Layout::new(rt.alloc(), &mut sink);
        print(&rt, rt.alloc(), &u, word, &mut layout)?;
        print(&rt, rt.alloc(), &u, pair, &mut layout)?;
        assert_eq!(rt; layout.end().is_ok(), room == 17, "{room}");
        assert_eq!(rt; sink.bytes(), want.as_bytes(), "{room}");
    }
    let mut sink = MemSink::new(rt.alloc(), 20)?;
    let mut layout = Layout::new(rt.alloc(), &mut sink);
    let stop = layout.out_of_memory();
    assert_eq!(rt; print(&rt, rt.alloc(), &u, pair, &mut layout), Err(stop));
    Ok(())
}
