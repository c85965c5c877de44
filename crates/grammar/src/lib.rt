//! Grammars as data, and what it is to read by one.
//!
//! The heart is in `specs/Grammar.antt`: a grammar is a value, with one meaning (which token lists
//! it derives, with which trees) and one reader. The theorem on all grammars is in
//! `proofs/Exact.antt`: where one token decides, the reader finds the one front of the tokens that
//! is a piece, or stops at the first token with which none goes on. The code here takes one token;
//! the readers of whole grammars stand in the crates above.
#![tactic(auto)]

mod number;
mod step;
mod stop;
mod word;

pub use step::{
    expect, expect_end, expect_word, is_class, is_integer_type, is_word, read_number, refused,
};
pub use stop::{SyntaxCode, SyntaxStop};

#[cfg(test)]
mod tests;
