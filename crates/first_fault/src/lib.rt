//! The first of the faults of a text, for every stage that refuses.
//!
//! A stage judges a text by rules, each with a number. Its answer is the broken rule at the least
//! place, and there the one of the lowest number, whatever the order in which faults are met.
//! Begin at `earlier` and `specs/Firsts.antt`; which rules there are is left to the stages.
#![tactic(auto)]

mod fault;

pub use fault::{Fault, earlier};

#[cfg(test)]
mod tests;
