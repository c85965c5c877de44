//! The store of a module, from its tree and from what is known of it.
//!
//! [`build`] takes the tree, the parts of each operation in ids (`module_faults::OpIds`), and what
//! names mean (`symbol_scopes::Uses`). It numbers the values that names define, makes a row of each
//! operation, and adds the rows to a store in the order of the text. What has to fit the tree is
//! said in `specs/Fit.antt`, and what the module is then in `specs/Built.antt`. Whether the module
//! says what the tree says is left to the crates above.
#![tactic(auto)]

mod fill;
mod firsts;
mod make;
mod numbers;
mod row;
mod store;

pub use store::build;

#[cfg(test)]
mod tests;
