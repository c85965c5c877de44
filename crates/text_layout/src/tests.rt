//! What no clause says: that calls succeed, and the bytes of rows that were written by hand.

mod lines;

use super::*;
use ir_lexer::{Class, SliceTokens, TEXT_LIMIT, TokenSource, class_of};
use irdl_bytes::{MemSink, Sink};
use std::alloc::Global;
use std::process::Abort;
use std::test::Fail;

// The words of a row are tokens. Those that begin with `|` ask for a gap or break the line, with
// the indent of the next.
fn lay<S: Sink>(rt: &impl Abort, layout: &mut Layout<'_, S>, row: &str) -> Result<(), PrintError> {
    for word in row.split(' ') {
        match word {
            "|plain" => layout.ask(Gap::Plain),
            "|space" => layout.ask(Gap::Space),
            "|empty" => layout.ask(Gap::Empty),
            "|newline" => layout.ask(Gap::Newline),
            "|0" => layout.break_line(0)?,
            "|2" => layout.break_line(2)?,
            "|4" => layout.break_line(4)?,
            _ => lay_token(rt, layout, word.as_bytes())?,
        }
    }
    Ok(())
}

fn lay_token<S: Sink>(
    rt: &impl Abort,
    layout: &mut Layout<'_, S>,
    text: &[u8],
) -> Result<(), PrintError> {
    match class_of(text) {
        Some(class) => layout.token(class, text),
        None => panic!(rt; "no token"),
    }
}

// Lays a row down in a sink, up to the end.
fn lay_all<S: Sink>(
    rt: &impl Abort,
    alloc: Global,
    sink: &mut S,
    row: &str,
) -> Result<(), PrintError> {
    let mut layout = Layout::new(alloc, sink);
    lay(rt, &mut layout, row)?;
    layout.end()
}

// Each gap rule, with what it joins and what it parts.
const GAPS: &[(&str, &str)] = &[
    // behind some tokens
    ("( a + b", "(a + b\n"),
    ("[ a", "[a\n"),
    ("< a", "<a\n"),
    ("{ a", "{a\n"),
    ("@a :: @b", "@a::@b\n"),
    ("a - 5 + 5", "a -5 + 5\n"),
    ("4x?x f32 f32", "4x?xf32 f32\n"),
    // before some tokens
    ("a ) a", "a) a\n"),
    ("a ] a", "a] a\n"),
    ("a > a", "a> a\n"),
    ("a } a", "a} a\n"),
    ("a , b = c", "a, b = c\n"),
    ("%0 -> %1 * ?", "%0 -> %1 * ?\n"),
    // a `(`
    ("\"t.nop\" ( )", "\"t.nop\"()\n"),
    ("@f ( )", "@f()\n"),
    ("t.br ^bb1 ( )", "t.br ^bb1()\n"),
    ("%a ( #b ( f (", "%a (#b (f (\n"),
    // a `<`
    ("vector < a", "vector<a\n"),
    ("!d.t < a", "!d.t<a\n"),
    ("#d.a < a", "#d.a<a\n"),
    ("%a < @b < \"c\" <", "%a <@b <\"c\" <\n"),
    // a `:`
    ("a i1 : b", "a i1: b\n"),
    ("si64 : ui16777215 : b", "si64: ui16777215: b\n"),
    (
        "i0 : i08 : i16777216 : f32 :",
        "i0 : i08 : i16777216 : f32 :\n",
    ),
    ("#a : : :", "#a : : :\n"),
    ("^bb1 ( %0 : i32 ) : :", "^bb1(%0: i32): :\n"),
    ("t.br ^bb1 : a |2 %0 : a", "t.br ^bb1 : a\n  %0 : a\n"),
];

// White-space literals, and lines.
const LITERALS: &[(&str, &str)] = &[
    ("a ( |space b |space ) |space , c", "a ( b ) , c\n"),
    ("\"a\" |empty b |empty ( c", "\"a\"b(c\n"),
    // texts that would join keep the plain gap
    ("a |empty b |empty 1", "a b 1\n"),
    ("0 |empty x |empty 1", "0x 1\n"),
    ("%0 |empty - 1", "%0-1\n"),
    ("%a |empty - 1", "%a -1\n"),
    (": |empty :", ": :\n"),
    // the last of several literals counts
    ("a |newline |space b |space |empty ( c", "a b(c\n"),
    ("a |empty |plain ( c |space |newline d", "a (c\n  d\n"),
    // two in a row
    ("1 |empty \"a\" |empty %b", "1\"a\"%b\n"),
    ("1.5 |empty e |empty *", "1.5e*\n"),
    // a line feed literal goes on with two spaces more than the line's indent
    ("a |newline b |newline c", "a\n  b\n  c\n"),
    ("|4 a |newline { |2 }", "    a\n      {\n  }\n"),
    ("a |newline ^b : c", "a\n  ^b: c\n"),
    // literals at an end are dropped, and so are those at a start
    ("a |newline |0 b |space", "a\nb\n"),
    ("|newline a |0 |space b", "a\nb\n"),
    // lines without tokens have no bytes
    ("|2 |0", ""),
    ("|0 |4 a |0 |2 |0", "    a\n"),
];

// Printed lines of modules.
const LINES: &[(&str, &str)] = &[
    (
        "%0 = cmath.make : !cmath.complex < f32 >",
        "%0 = cmath.make : !cmath.complex<f32>\n",
    ),
    ("t.ret %0 : i32", "t.ret %0 : i32\n"),
    (
        "t.pair a %0 b %1 : ( i32 , i64 ) -> ( )",
        "t.pair a %0 b %1 : (i32, i64) -> ()\n",
    ),
    (
        "%0 , %1 = \"t.two\" ( ) : ( ) -> ( i32 , i64 )",
        "%0, %1 = \"t.two\"() : () -> (i32, i64)\n",
    ),
    (
        "t.nop { a = true , h = - 255 : i16 }",
        "t.nop {a = true, h = -255 : i16}\n",
    ),
    (
        "\"t.box\" ( ) ( { |2 \"t.nop\" ( ) { a = true } : ( ) -> ( ) |0 } ) { k } : ( ) -> ( )",
        "\"t.box\"() ({\n  \"t.nop\"() {a = true} : () -> ()\n}) {k} : () -> ()\n",
    ),
    (
        "t.box flagged { |2 t.br ^bb1 |0 ^bb1 ( %0 : i32 ) : |2 t.ret %0 : i32 |0 }",
        "t.box flagged {\n  t.br ^bb1\n^bb1(%0: i32):\n  t.ret %0 : i32\n}\n",
    ),
    (
        "t.box { |2 t.box { |4 %0 = t.src : vector < 4x?x i1 > |2 } |0 }",
        "t.box {\n  t.box {\n    %0 = t.src : vector<4x?xi1>\n  }\n}\n",
    ),
];

// The tokens of a text are the words of the row that are no marks.
fn has_tokens(rt: &impl Abort, text: &[u8], row: &str) {
    assert!(rt; text.len() <= TEXT_LIMIT);
    let mut tokens = SliceTokens::new(text);
    for word in row.split(' ') {
        if !word.starts_with('|') {
            assert_eq!(rt; tokens.text(), word.as_bytes(), "{row}");
            assert!(rt; tokens.advance().is_ok());
        }
    }
    assert_eq!(rt; tokens.class(), Class::End, "{row}");
}

// Tokens that run together, since no gap parts them, with the bytes and what is read from them.
const CLASHES: &[(&str, &str, &str)] = &[
    ("4x ?x f32", "4x?xf32\n", "4x?x f32"),
    ("4x ?", "4x?\n", "4x ?"),
    ("4x 0 |empty x", "4x0x\n", "4x 0 x"),
    ("4x 1 |empty x", "4x1 x\n", "4x 1 x"),
    ("4x 1x", "4x1x\n", "4x1x"),
    (": :: :", "::::\n", ":: ::"),
    ("- >", "->\n", "->"),
    ("1.5 |empty e |empty - 5", "1.5e-5\n", "1.5e-5"),
    ("1.5 |empty E |empty + |empty 5", "1.5E+5\n", "1.5E+5"),
];

#[test]
fn rows_have_these_bytes_and_their_tokens_again(rt: HostRuntime) -> Result<(), Fail> {
    for rows in [GAPS, LITERALS, LINES] {
        for (row, want) in rows {
            let mut sink = MemSink::new(rt.alloc(), 200)?;
            lay_all(&rt, rt.alloc(), &mut sink, row)?;
            assert_eq!(rt; sink.bytes(), want.as_bytes(), "{row}");
            has_tokens(&rt, sink.bytes(), row);
        }
    }
    Ok(())
}

#[test]
fn some_pairs_run_together(rt: HostRuntime) -> Result<(), Fail> {
    for (row, want, read) in CLASHES {
        let mut sink = MemSink::new(rt.alloc(), 200)?;
        lay_all(&rt, rt.alloc(), &mut sink, row)?;
        assert_eq!(rt; sink.bytes(), want.as_bytes(), "{row}");
        has_tokens(&rt, sink.bytes(), read);
    }
    Ok(())
}

// The bytes of a word, what follows it, the answer, the bytes that the sink gets, and the last.
const LIMITS: &[(usize, &str, Result<(), PrintError>, usize, &str)] = &[
    (16_777_215, "|0 |0", Ok(()), 16_777_216, "aa\n"),
    (
        16_777_216,
        "|0",
        Err(PrintError::OutputLimit),
        16_777_216,
        "aaa",
    ),
    (
        16_777_217,
        "|0",
        Err(PrintError::OutputLimit),
        16_777_216,
        "aaa",
    ),
    (16_777_211, "bcd", Ok(()), 16_777_216, "a bcd\n"),
    (
        16_777_212,
        "bcd",
        Err(PrintError::OutputLimit),
        16_777_216,
        "a bcd",
    ),
    (
        16_777_213,
        "bcd |0 e",
        Err(PrintError::OutputLimit),
        16_777_216,
        "a bc",
    ),
    (
        16_777_213,
        "|newline b",
        Err(PrintError::OutputLimit),
        16_777_216,
        "a\n  ",
    ),
    (
        16_777_214,
        "|empty %00",
        Err(PrintError::OutputLimit),
        16_777_216,
        "a%0",
    ),
];

#[test]
fn the_limit_cuts_a_text_at_its_byte(rt: HostRuntime) -> Result<(), Fail> {
    let word = vec![in rt.alloc(); b'a'; 16_777_217]?;
    for (len, row, answer, bytes, last) in LIMITS {
        assert!(rt; *len <= word.len());
        let mut sink = MemSink::new(rt.alloc(), 16_800_000)?;
        let mut layout = Layout::new(rt.alloc(), &mut sink);
        let laid = lay_token(&rt, &mut layout, &word[..*len]).and_then(|_| lay(
            &rt,
            &mut layout,
            row,
        ));
        if laid.is_err() {
            assert_eq!(rt; laid, *answer, "{row}");
            assert_eq!(rt; lay_token(&rt, &mut layout, b"e"), *answer, "{row}");
            assert_eq!(rt; layout.break_line(0), *answer, "{row}");
        }
        assert_eq!(rt; layout.end(), *answer, "{row}");
        assert_eq!(rt; sink.bytes().len(), *bytes, "{row}");
        assert!(rt; sink.bytes().ends_with(last.as_bytes()), "{row}");
    }
    Ok(())
}

// Lays many lines down, of which a sink gets several pieces.
fn lay_many<S: Sink>(rt: &impl Abort, layout: &mut Layout<'_, S>) -> Result<(), PrintError> {
    for _ in 0..20_000u32 {
        lay(rt, layout, "%0 = t.src : i32 |2")?;
    }
    Ok(())
}

#[test]
fn a_failed_write_ends_a_layout(rt: HostRuntime) -> Result<(), Fail> {
    let fault = Err(PrintError::WriteFault);
    let mut whole = MemSink::new(rt.alloc(), 500_000)?;
    let mut layout = Layout::new(rt.alloc(), &mut whole);
    lay_many(&rt, &mut layout)?;
    layout.end()?;
    for k in 1..=6u64 {
        let mut sink = MemSink::new(rt.alloc(), 500_000)?;
        sink.fail_call(k)?;
        let mut layout = Layout::new(rt.alloc(), &mut sink);
        let laid = lay_many(&rt, &mut layout);
        assert_eq!(rt; laid.is_err(), k < 6, "{k}");
        if laid.is_err() {
            assert_eq!(rt; laid, fault, "{k}");
            assert_eq!(rt; lay_many(&rt, &mut layout), fault, "{k}");
            assert_eq!(rt; layout.break_line(0), fault, "{k}");
        }
        assert_eq!(rt; layout.end(), fault, "{k}");
        assert!(rt; whole.bytes().starts_with(sink.bytes()), "{k}");
        assert_eq!(rt; sink.bytes().len() / 65_536, k as usize - 1, "{k}");
    }
    Ok(())
}

#[test]
fn a_full_sink_has_the_first_bytes(rt: HostRuntime) -> Result<(), Fail> {
    let row = "%0 = cmath.make : !cmath.complex < f32 >";
    for (room, want) in [
        (0, ""),
        (10, "%0 = cmath"),
        (37, "%0 = cmath.make : !cmath.complex<f32>"),
    ] {
        let mut sink = MemSink::new(rt.alloc(), 200)?;
        sink.fail_after(room);
        let answer = lay_all(&rt, rt.alloc(), &mut sink, row);
        assert_eq!(rt; answer, Err(PrintError::WriteFault), "{room}");
        assert_eq!(rt; sink.bytes(), want.as_bytes(), "{room}");
    }
    Ok(())
}

#[test]
fn a_caller_without_memory_ends_a_layout(rt: HostRuntime) -> Result<(), Fail> {
    let memory = Err(PrintError::OutOfMemory);
    let mut sink = MemSink::new(rt.alloc(), 200)?;
    let mut layout = Layout::new(rt.alloc(), &mut sink);
    lay(&rt, &mut layout, "a |0")?;
    assert_eq!(rt; layout.out_of_memory(), PrintError::OutOfMemory);
    assert_eq!(rt; lay(&rt, &mut layout, "b"), memory);
    assert_eq!(rt; layout.end(), memory);
    assert_eq!(rt; sink.bytes(), "".as_bytes());
    Ok(())
}

#[test]
fn errors_are_called_by_their_names(rt: HostRuntime) -> Result<(), Fail> {
    for (error, name) in [
        (PrintError::WriteFault, "WriteFault"),
        (PrintError::OutputLimit, "OutputLimit"),
        (PrintError::OutOfMemory, "OutOfMemory"),
    ] {
        assert_eq!(rt; format!(in rt.alloc(); "{error}")?.as_str(), name);
    }
    Ok(())
}
