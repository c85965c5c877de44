//! From the tree of a module to its store.
//!
//! Begin at `elaborate` and `specs/Elaborated.antt`. A tree is judged in stages, each a loop over
//! what stands in it (`module_faults`): names, values, operations, and the types of uses. A later
//! stage has a say where the earlier ones have no fault. The store is built before uses are judged,
//! since it has the types of the values that they mean.
#![tactic(auto)]

mod aliases;
mod module;
mod names;
mod operations;
mod regions;
mod stop;
mod uses;
mod values;

pub use module::elaborate;
pub use stop::ModStop;

#[cfg(test)]
mod tests;
