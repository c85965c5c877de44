//! What completes a tree, by the parts of the tree.
//!
//! Laws alone. A module that was built for a tree without faults completes it (`built_completes`),
//! and a tree that a module completes has no fault (`no_fault`), so one that is refused has no
//! module (`refused_means_nothing`). All is said of the generic form.
#![tactic(auto)]

mod laws;

pub use laws::{built_completes, no_fault, refused_means_nothing, uses_of_one};
