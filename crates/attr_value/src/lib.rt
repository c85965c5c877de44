//! Values: types and attributes, as heads over other values.
//!
//! A value is a [`Head`] and a list of values, its kids; a table of values knows each by a
//! [`ValueId`]. Contracts see a [`Text`] and a [`List`] as plain lists, so a definition can compute
//! them, and a type may hold itself through a [`List`].
//! `specs/Values.antt` says what a value is, and `specs/Heads.antt` what its head keeps to.
#![tactic(auto)]

mod base;
mod head;
mod kind;
mod list;
mod number;
mod rule;
mod text;

pub use base::{BaseKind, base_named, is_base};
pub use head::{DEPTH_LIMIT, Head, ValueId};
pub use kind::{Dim, FloatKind, IntKind, ShapeKind, WIDTH_LIMIT};
pub use list::List;
pub use number::{NUMBER_WIDTH_LIMIT, residue};
pub use text::Text;

#[cfg(test)]
mod tests;
