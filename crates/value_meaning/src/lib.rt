//! What a tree of a value means: the value that it spells, and its faults.
//!
//! Begin at `value_in`, `specs/Meaning.antt` and `specs/Faults.antt`. A tree is judged in `judge`:
//! first what stands in a value, and then its form from what is known of that, in `form` and the
//! modules that it calls.
#![tactic(auto)]

mod code;
mod definitions;
mod dense;
mod dict;
mod digits;
mod entries;
mod env;
mod form;
mod gather;
mod judge;
mod judged;
mod keys;
mod kid;
mod leaf;
mod node;
mod number;
mod part;
mod places;
mod shape;
mod value;
mod word;

pub use code::{ALIAS_UNKNOWN, INT_RANGE, KEY_REPEATED, NAME_UNKNOWN, NESTING, PARAMETERS, SYNTAX};
pub use definitions::{Definitions, have_distinct_names};
pub use dict::{Entry, sort_by_key};
pub use env::Aliases;
pub use keys::KeySet;
pub use value::{ValueStop, define_alias, value_in};

#[cfg(test)]
mod tests;
