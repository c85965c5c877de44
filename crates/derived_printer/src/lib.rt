//! Values and modules to their canonical text.
//!
//! What is written of a value is a function of the value alone: the list of tokens `value_marks` of
//! `specs/ValueMarks.antt`, and `specs/Spelling.antt` has the texts of strings, symbols, keys and
//! numbers. What is written of a module is `module_marks` of `specs/ModuleMarks.antt`, a function
//! of the module and of the form. What stands between the tokens is the layout's business.
//! `src/laws.rt` says that a value's text is read as the value, and that good values can be
//! spelled.
#![tactic(auto)]

mod form;
mod labels;
mod laws;
mod leaf;
mod module;
mod names;
mod number_names;
mod spell;
mod stored;
mod token;
mod value;

pub use form::{Form, REGION_LIMIT};
pub use laws::{good_values_are_spellable, value_reads_back};
pub use module::print;
pub use names::have_full_names;
pub use value::print_value;

#[cfg(test)]
mod tests;
