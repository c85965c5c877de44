//! What a printer may ask of a gap.

/// What is asked of the gap before the next token.
#[derive(Clone, Copy, Debug, PartialEq, Eq)]
pub enum Gap {
    /// One space, or none where the classes of the tokens say so.
    Plain,
    /// One space.
    Space,
    /// None where the two texts stay apart, else as `Plain`.
    Empty,
    /// A line feed, and an indent of two spaces more than that of the line.
    Newline,
}
