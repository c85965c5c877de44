//! Definition files say one thing: whatever the table over which they are loaded, the same modules
//! have the same meaning, and the same are refused for the same fault.
//!
//! Laws alone. Loadings that say the same of values and of operations are alike
//! (`specs/Alike.antt`). Two loadings of the same files are (`same_loading`), and whatever is said
//! of modules by one of two that are alike is said by the other (`same_operations`, `same_modules`,
//! `same_faults`). So files leave no choice of what a module means and for what it is refused
//! (`one_answer`). How files are loaded and modules are judged is left to other crates.
#![tactic(auto)]

mod laws;

pub use laws::{
    distinct_ops, one_answer, one_refusal, same_faults, same_loading, same_modules, same_operations,
};
