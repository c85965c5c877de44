//! Predicates on values that are handed in as objects.
//!
//! A [`NativePredicate`] has a name and a meaning, which is a property of values. [`Natives`] is
//! the list of those that a program is given, which clauses see by `specs/Lists.antt`.
//! `specs/Meanings.antt` says what the six that are offered here mean.
#![tactic(auto)]

mod natives;
mod offered;
mod predicate;

pub use natives::Natives;
pub use offered::{IsFloat, IsNonempty, IsPositive, IsSignless, IsStatic, IsType};
pub use predicate::NativePredicate;

#[cfg(test)]
mod tests;
