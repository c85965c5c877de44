//! What module the tree of a file means.
//!
//! Definitions and laws alone. A tree tells facts of each operation, in its generic form or in a
//! custom one (`specs/Facts.antt`); an operation is what its facts say (`specs/Says.antt`); and a
//! module completes a tree (`specs/Completes.antt`), at most one (`one_module`). What a custom form
//! tells is a parameter throughout, so the definitions stay as they are where such forms come. How
//! a tree is read and how its module is found is left to the crates above.
#![tactic(auto)]

mod laws;

pub use laws::{generic_form, names_are_in_scope, names_are_right, one_module, one_operation};
