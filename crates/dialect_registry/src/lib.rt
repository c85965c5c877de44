//! Definition files, judged and loaded: whether names and references mean anything, and what is
//! defined where they do.
//!
//! Begin at `load` and `specs/Loaded.antt`, which has the stages of the judgement; the rules of the
//! first one, on names, references and limits, stand in `specs/DefFaults.antt`. What a tree of a
//! value means is said in the crate of `value_in`.
#![tactic(auto)]

mod body;
mod code;
mod constants;
mod formats;
mod judging;
mod limits;
mod loading;
mod name;
mod name_shapes;
mod names;
mod operations;
mod refusal;
mod registry;
mod resolve;
mod scope;
mod shape;
mod statement;
mod targets;
mod told;

pub use code::DefCode;
pub use judging::judge;
pub use limits::CHOICE_LIMIT;
pub use loading::{DefStop, load};
pub use operations::Operations;
pub use refusal::{DefRefusal, FileFault};
pub use registry::Registry;
pub use told::detail;
pub use value_meaning::{Aliases, Definitions, ValueStop, define_alias, value_in};

#[cfg(test)]
mod tests;
