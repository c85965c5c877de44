//! What the notes of a module's tree mean where no name is at fault.
//!
//! Laws alone. Where a module has the shape of a tree, and its operands and successors are what the
//! notes mean, names mean its values and blocks region by region (`OpsNamed` of `completion_laws`).
//! What notes mean fits what stands in a tree, and aliases are new.
#![tactic(auto)]

mod laws;

pub use laws::{aliases_are_new, names_mean, notes_fit};
