//! Whether the tree of an operation stands for an operation: its values are judged, and then the
//! operation.
//!
//! Begin at `judge_op` and `specs/Judged.antt`. No walk over a tree stops at a fault; the first is
//! kept.
#![tactic(auto)]

mod args;
mod arity;
mod entries;
mod env;
mod judge;
mod parts;
mod rule;
mod tree;
mod types;

pub use judge::{Judgement, judge_op};
