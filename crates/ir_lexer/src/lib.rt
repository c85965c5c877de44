//! Bytes to tokens.
//!
//! The lexer never fails: bytes that begin no token are a token of class `Bad`. It knows no keyword
//! and no number's value; the crates above compare texts. Begin at `Lexer::next` and
//! `specs/Tokens.antt`; how each class is spelled stands in `specs/Spelling.antt`.
#![tactic(auto)]

mod class;
mod lexer;
mod names;
mod place;
mod scan;
mod slice;
mod source;
mod state;
mod table;

pub use class::Class;
pub use lexer::{Lexer, TEXT_LIMIT, Token};
pub use names::{hexadecimal_value, literal_bytes, name_bytes};
pub use place::{LineCol, line_col};
pub use scan::class_of;
pub use slice::SliceTokens;
pub use source::{TokenSource, TokenStop};

#[cfg(test)]
mod tests;
