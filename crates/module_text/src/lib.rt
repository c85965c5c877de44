//! The canonical text of a module is read as that module.
//!
//! Definitions and laws alone. `specs/WellFormed.antt` says which modules are meant, and
//! `specs/ReadAgain.antt` what it is that a text is read as one: its tokens are a module by the
//! grammar of modules in generic form, and the module completes their tree. The marks of the text
//! are those of `derived_printer`. How a text is read and written is left to other crates.
#![tactic(auto)]

mod laws;

pub use laws::{completed_modules_are_well_formed, module_reads_back};
