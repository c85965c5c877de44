//! Unique values: equal values are kept once, and an id stands for one value for good.
//!
//! Values hold each other by ids, so a value that stands in many others is kept once, however
//! often it is named, and two values are compared by comparing two numbers.
#![tactic(auto)]

mod row;
mod rule;
mod uniquer;

pub use uniquer::Uniquer;

#[cfg(test)]
mod tests;
