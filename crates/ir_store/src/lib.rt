//! The store of a module: its operations, regions, blocks and values by numbers.
//!
//! [`Store`] is built in text order, by three calls, and lends its parts by ids. Contracts see the
//! module itself: `specs/Modules.antt` says what that is, `specs/Numbering.antt` how its parts are
//! numbered, `specs/Named.antt` what ids name, and `specs/Growth.antt` where something may be
//! added. Types and the values of attributes are ids here, and stand for themselves.
#![tactic(auto)]

mod rows;
mod store;
mod tables;

pub use rows::{BlockId, OpId, OpRow, RegionId};
pub use store::Store;

#[cfg(test)]
mod tests;
