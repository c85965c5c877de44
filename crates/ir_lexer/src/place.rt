//! Lines and columns.

ghost use Rattle.std.specs.Prelude.{◌≡◌, ◌≤◌, length};
ghost use Rattle.ir_lexer.specs.Place.{line_at, column_at};

use crate::lexer::TEXT_LIMIT;

/// A line and a column, each counted from 1.
#[derive(Clone, Copy, Debug, PartialEq, Eq)]
pub struct LineCol {
    pub line: u32,
    pub column: u32,
}

/// The line and the column of a place in a text. A line ends behind its line feed, and a column
/// counts bytes, not characters. A place is in bytes from 0; one behind the end is taken as the
/// end. It takes no memory.
#[tactic(auto, using(crate::proofs::Columns::columns))]
pub fn line_col(src: &[u8], at: u32) -> LineCol
    requires size { length src.now ≤ TEXT_LIMIT }
    ensures line { result.line ≡ line_at src.now at }
    ensures column { result.column ≡ column_at src.now at }
{
    let mut line = 1;
    let mut column = 1;
    let before = src.len().min(at as usize);
    for b in &src[..before] {
        if *b == b'\n' {
            line += 1;
            column = 1;
        } else {
            column += 1;
        }
    }
    LineCol { line, column }
}
