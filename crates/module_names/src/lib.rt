//! What the tree of a module says of names.
//!
//! `note_module` notes in `Scopes` each name that a tree defines or mentions: aliases, SSA values,
//! and labels of blocks. Whether the names are right is asked of `Scopes` afterwards.
//! `specs/ModuleNotes.antt` says what a tree says of names, region by region.
//!
//! Nothing is copied but what `Scopes` keeps. Where memory runs out, some names are noted.
#![tactic(auto)]

mod mentions;
mod names;
mod note;
mod number;

pub use note::note_module;
pub use number::pack_size;

#[cfg(test)]
mod tests;
