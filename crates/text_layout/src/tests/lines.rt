//! Lines that are written in pieces.

use super::super::*;
use ir_lexer::LineCol;
use irdl_bytes::MemSink;
use std::test::Fail;

// The file, line and column, code, name and detail of a refusal, and its line.
const REFUSALS: &[(&str, (u32, u32), (&str, &str, &str), &str)] = &[
    (
        "m.mlir",
        (1, 16),
        ("M16", "IntRange", ""),
        "m.mlir:1:16: error M16 IntRange\n",
    ),
    (
        "f.irdl",
        (5, 21),
        ("9", "FormatSyntax", " at 3"),
        "f.irdl:5:21: error 9 FormatSyntax at 3\n",
    ),
    (
        "f4.irdl",
        (7, 21),
        ("14", "FormatAmbiguous", " at 0 on :"),
        "f4.irdl:7:21: error 14 FormatAmbiguous at 0 on :\n",
    ),
    (
        "f.irdl",
        (5, 21),
        ("15", "FormatNoType", " of operand 0"),
        "f.irdl:5:21: error 15 FormatNoType of operand 0\n",
    ),
    (
        "",
        (4_294_967_295, 16_777_217),
        ("15", "FormatNoType", " of result 31"),
        ":4294967295:16777217: error 15 FormatNoType of result 31\n",
    ),
];

#[test]
fn a_refusal_has_its_line_or_a_front_of_it(rt: HostRuntime) -> Result<(), Fail> {
    for (file, (line, column), (code, name, detail), want) in REFUSALS {
        let place = LineCol {
            line: *line,
            column: *column,
        };
        for room in 0..=want.len() {
            let mut sink = MemSink::new(rt.alloc(), room)?;
            let answer = write_refusal(&mut sink, file, place, code, name, detail.as_bytes());
            assert_eq!(rt; answer.is_ok(), room == want.len(), "{want}");
            assert_eq!(rt; sink.bytes(), &want.as_bytes()[..room], "{want}");
        }
    }
    Ok(())
}

// Pieces, and how many bytes the sink has after each write. At most 128 bytes are one write, and a
// longer piece is one by itself.
const PIECES: &[(&[&[u8]], &[usize])] = &[
    (&[], &[]),
    (&[b"", b""], &[]),
    (&[b"a", b"", b"b"], &[2]),
    (&[&[b'x'; 128]], &[128]),
    (&[b"a", &[b'x'; 127]], &[128]),
    (&[b"a", &[b'x'; 128]], &[1, 129]),
    (&[b"a", &[b'x'; 129], b"b"], &[1, 130, 131]),
    (&[&[b'x'; 129], b"a", b"b"], &[129, 131]),
];

#[test]
fn short_pieces_are_one_write(rt: HostRuntime) -> Result<(), Fail> {
    for (pieces, lens) in PIECES {
        for k in 0..=lens.len() {
            let mut sink = MemSink::new(rt.alloc(), 200)?;
            sink.fail_call(k as u64 + 1)?;
            assert_eq!(rt;
                write_pieces(&mut sink, pieces).is_ok(),
                k == lens.len(),
                "{k}"
            );
            let want = if k == 0 { 0 } else { lens[k - 1] };
            assert_eq!(rt; sink.bytes().len(), want, "{k}");
        }
    }
    Ok(())
}
