//! The line that tells of a refusal.

ghost use Rattle.std.specs.Prelude.{◌≤◌, OnOk, OnErr};
ghost use Rattle.std.specs.Io.KnownBytes.{Appends};
ghost use Rattle.irdl_bytes.specs.Outside.{AppendsPrefix, Rose};
ghost use Rattle.text_layout.specs.Refusal.{refusal_line};

use crate::pieces::write_pieces;
use ir_lexer::LineCol;
use irdl_bytes::{Failed, Sink};
use itoa::Buffer;

/// Writes `FILE:LINE:COLUMN: error CODE NAME`, the detail as it stands, and a line feed. A fault of
/// the sink leaves a front of the line. It takes no memory.
pub fn write_refusal<'a, S: Sink>(
    sink: &mut S,
    file: &'a str,
    place: LineCol,
    code: &'a str,
    name: &'a str,
    detail: &'a [u8],
) -> Result<(), Failed>
    ensures ok { OnOk result (Appends (S.written sink.old) (S.written sink.new)
        (refusal_line file.now place code.now name.now detail.now)) }
    ensures err { OnErr result (AppendsPrefix (S.written sink.old) (S.written sink.new)
        (refusal_line file.now place code.now name.now detail.now)) }
    ensures later { S.faults sink.old ≤ S.faults sink.new }
    ensures cause { OnErr result (Rose (S.faults sink.old) (S.faults sink.new)) }
{
    let mut line = Buffer::new();
    let mut column = Buffer::new();
    write_pieces(
        sink,
        &[
            file.as_bytes(),
            ":".as_bytes(),
            line.format(place.line).as_bytes(),
            ":".as_bytes(),
            column.format(place.column).as_bytes(),
            ": error ".as_bytes(),
            code.as_bytes(),
            " ".as_bytes(),
            name.as_bytes(),
            detail,
            "\n".as_bytes(),
        ],
    )
}
