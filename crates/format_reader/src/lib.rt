//! Format texts: their tokens, and the reader.
//!
//! The reader accepts exactly the texts that the grammar in `specs/Formats.antt` derives, and
//! refuses any other at the first token that no format has there. It looks up no names; what an
//! element shows, and whether a format is one that can be read back, is judged by the crate above.
#![tactic(auto)]

mod byte;
mod front;
mod read;
mod step;
mod stop;
mod tokens;
mod word;

pub use read::read_format;
pub use stop::FormatAt;
pub use word::is_bare_id;

#[cfg(test)]
mod tests;
