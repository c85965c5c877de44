//! Tokens to bytes: everything that the tool writes goes through here.
//!
//! A printer hands tokens, asked gaps and breaks of lines to a [`Layout`] over a sink. What stands
//! between the tokens is the layout's business alone: `layout` of `specs/Lines.antt` is the bytes
//! of a list of such marks. Begin there, and at `src/layout.rt`; `specs/Moment.antt` says what a
//! call does, and `src/laws.rt` that the calls add up, and that the bytes have the tokens again.
//! [`write_refusal`] writes the one line of a refusal.
#![tactic(auto)]

mod blank;
mod error;
mod gap;
mod laws;
mod layout;
mod output;
mod page;
mod pieces;
mod refusal;
mod rules;

pub use blank::INDENT_LIMIT;
pub use error::PrintError;
pub use gap::Gap;
pub use laws::{adds_up, reads_back};
pub use layout::Layout;
pub use pieces::write_pieces;
pub use refusal::write_refusal;

#[cfg(test)]
mod tests;
