//! What the tree of an operation is judged by.

use dialect_registry::Registry;
use native_predicate::Natives;
use std::alloc::Global;
use value_meaning::Aliases;

/// Definitions, predicates and aliases.
#[derive(Clone, Copy)]
pub struct Env<'a> {
    pub alloc: Global,
    pub registry: &'a Registry,
    pub natives: &'a Natives,
    pub aliases: &'a Aliases,
}
