//! Trees of what is read, and the readers of types and attributes, of what stands beside regions in
//! operations, and of modules in generic form.
//!
//! A tree keeps what was written and where; what it means is found by the crates above. Contracts
//! see each tree as plain data, and a grammar makes the very same data, so "the tree of these
//! tokens" is one equation.
#![tactic(auto)]

mod cst;
mod leaf;
mod module;
mod module_cst;
mod name;
mod parse;
mod pieces;
mod text;
mod token;
mod value;

pub use cst::{EntryCst, ItemCst, NameCst, ValueCst, ValueNode};
pub use grammar::{SyntaxCode, SyntaxStop};
pub use module::{
    parse_generic, read_aliases, read_attributes, read_block_arguments, read_operand,
    read_operands, read_properties, read_result_names, read_signature, read_some_uses,
    read_successors, read_uses,
};
pub use module_cst::{
    AliasCst, ArgCst, BlockCst, CustomCst, FormCst, GenericCst, ModuleCst, NumberCst, OpCst,
    PartCst, RegionCst, ResultCst, UseCst,
};
pub use name::{read_name, read_word};
pub use parse::{TOO_DEEP, parse_type, parse_value};
pub use pieces::{
    ROOM, read_attribute, read_dictionary, read_item, read_results, read_type, read_types,
};
pub use token::read_string;

#[cfg(test)]
mod module_tests;
#[cfg(test)]
mod tests;
