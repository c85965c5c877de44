//! Whether values can be given to the variables of a body so that each keeps to its constraint, and
//! whether a value keeps to the rules of its head and to its dialect's definitions.
//!
//! Begin at `solve`, `is_instance` and `good_head`. What an assignment is, and when it meets a
//! body, is said in `specs/Assignments.antt` of `dialect_defs`, and which values are instances and
//! good in its `specs/Goodness.antt`. What is good stays good as the table of values grows
//! (`proofs/Grows.antt`).
#![tactic(auto)]

mod assign;
mod assignment;
mod force;
mod good;
mod search;
mod sound;

pub use assignment::Assignment;
pub use good::{good_head, is_defined_as, is_instance, is_instance_of};
pub use search::solve;
pub use sound::{
    are_below, are_roots, are_sound_defs, is_sound_body, is_sound_def, is_unconstrained,
};

#[cfg(test)]
mod tests;
