//! Whether the operations of a module meet their definitions.
//!
//! Begin at [`meets`], which judges one operation, and [`verify`], which finds the first of a
//! module that fails. When an operation meets a definition is said in `specs/Operations.antt` of
//! `dialect_defs`, and how an operation of a stored module is seen in `specs/Seen.antt`.
//!
//! An operation asks values of the variables of its definition's body, at most one of each. What is
//! asked is collected, and then the solver says whether some assignment has it.
#![tactic(auto)]

mod attrs;
mod entries;
mod listed;
mod operands;
mod operations;
mod parts;
mod regions;
mod roots;
mod sound;
mod view;
mod wanted;

pub use operands::Types;
pub use operations::{OpPlace, meets, meets_definition, verify};
pub use sound::{are_known, are_sound_ops, can_judge, has_ids};
pub use view::{OpRegions, OpView};

#[cfg(test)]
mod tests;
