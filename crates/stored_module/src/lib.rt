//! What a module in a store has by the way in which a program holds it: what the laws on its text
//! ask for, besides what a tree's meaning gives.
//!
//! Begin at `proper_modules_are_printable` and `module_is_storable`. Texts are bytes and lengths
//! are numbers of 64 bits, and a contract knows this of what a call reads: so `src/texts.rt` and
//! `src/places.rt` go once over the table of values and over the operations of the store, and look
//! at each text and at each list of blocks, but at nothing in them.
#![tactic(auto)]

mod laws;
mod places;
mod storable;
mod texts;

pub use laws::{proper_modules_are_printable, sound_registries_have_spellable_names};
pub use storable::module_is_storable;

#[cfg(test)]
mod tests;
