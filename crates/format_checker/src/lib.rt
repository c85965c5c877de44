//! Formats of operations: what their elements are spelled with, and which formats are accepted.
//!
//! `check_format` resolves the names of a format and judges it by rules; begin at
//! `specs/Accepted.antt`. Columns say with which looks the pieces of elements begin and go on, and
//! are proved to be right of the pieces (`specs/Pieces.antt`); where the columns of a format are
//! apart, one token decides in it.
#![tactic(auto)]

mod anchors;
mod check;
mod clash;
mod columns;
mod complete;
mod laws;
mod look;
mod meeting;
mod named;
mod names;
mod shown;
mod stop;
mod word;

pub use check::check_format;
pub use columns::{continues, may_be_empty, starts};
pub use laws::{
    accepted_formats_are_decided, columns_fit, formats_are_decided, told_looks_are_first,
};
pub use look::Look;
pub use stop::{EntryRef, FormatCode, FormatStop};

#[cfg(test)]
mod tests;
