//! What stands in the tree of a module, and which rules the tree breaks.
//!
//! A tree is judged in stages: names, values, operations, and the types of uses
//! (`specs/ModuleFaults.antt`). A later stage counts only where no earlier one has a fault anywhere
//! in the module. What stands in a tree is a flat list (`specs/Standings.antt`), so that each stage
//! is a loop over it. How the faults are found is left to the crates above.
#![tactic(auto)]

mod ids;
mod rule;
mod standing;

pub use ids::OpIds;
pub use rule::{OpRule, USE_TYPE};
pub use standing::{Standing, standings};

#[cfg(test)]
mod tests;
