//! Definitions of operations, types and attributes as data, with names resolved and constants as
//! values.
//!
//! The crate has no calls. Its `specs/` say what the data means: which assignments meet a body
//! (`Assignments`), which values are good (`Goodness`), how operands fall into segments
//! (`Segments`), and when an operation meets its definition (`Operations`).
#![tactic(auto)]

mod body;
mod definition;
mod entry;
mod format;
mod raw_format;

pub use body::{BaseRef, Body, Constraint, VARIABLE_LIMIT, VarId};
pub use definition::{OpDef, TypeDef};
pub use entry::{Arity, AttrEntry, ENTRY_LIMIT, Entry, RegionEntry};
pub use format::{Element, ElementKind, Format, TypeArg};
pub use raw_format::{RawArg, RawElement, RawKind, RawName};
