//! Definition files: their raw data, and the reader.
//!
//! The reader accepts exactly the texts that the grammar in `specs/Definitions.antt` derives, and
//! refuses any other at the first token that no such text has there. It compares no names; whether
//! names and references mean anything is judged by the crate above.
#![tactic(auto)]

mod raw;
mod read;

pub use raw::{
    DefKind, RawAttr, RawDef, RawDefs, RawDialect, RawEntry, RawExpr, RawRef, RawStatement,
    RawText, StatementKind,
};
pub use read::read_definitions;

#[cfg(test)]
mod tests;
