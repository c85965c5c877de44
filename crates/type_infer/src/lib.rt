//! The types of operands and results that a format hides.
//!
//! `specs/Determined.antt` says which variables' values an operation's text fixes, and
//! `specs/Completes.antt` which types complete it.
#![tactic(auto)]

mod downwards;
mod entries;
mod found;
mod laws;
mod marks;
mod ordered;
mod parts;
mod roots;
mod rounds;
mod rule;
mod shown;
mod upwards;
mod wanted;

pub use entries::{EntryRef, Full, Shown};
pub use laws::{infers_more, one_completion};
pub use ordered::has_ordered_body;
pub use rule::first_untold;
