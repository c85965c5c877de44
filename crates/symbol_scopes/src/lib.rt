//! What the names of a module mean: SSA values, blocks and aliases, by the regions round them.
//!
//! A caller notes in `Scopes` what a text says of names, one call for each thing, and asks at the
//! end: `finish` gives what each use means, or the first rule that is broken. Uses may stand before
//! their definitions. Names are kept once each, and a name is hashed once for each call.
//!
//! Begin at `Scopes` and `specs/ScopeMarks.antt`, which says what was noted; `specs/Meanings.antt`
//! says what names mean then, `specs/Faults.antt` what is wrong with them, and `specs/Regions.antt`
//! both once more, region by region. Which token is a name is left to the caller.
#![tactic(auto)]

mod aliases;
mod blocks;
mod call;
mod calls;
mod judged;
mod laws;
mod listed;
mod names;
mod round;
mod rows;
mod scopes;
mod slots;
mod values;
mod walk;

pub use laws::by_regions;
pub use scopes::{NameStop, Scopes, Uses};

#[cfg(test)]
mod tests;
