//! The program as one call: from the words and the files to the status and what is written.
//!
//! Begin at `run`. What is to be answered stands in `specs/Answer.antt`, and when definition files
//! are accepted in `specs/Judged.antt`. What the files and streams are is left to the caller, and
//! so are the predicates that definitions may name.
#![tactic(auto)]

mod check;
mod command;
mod definition_files;
mod module_code;
mod module_file;
mod module_reading;
mod print;
mod report;
mod status;
mod stop;
mod texts;
mod top;
mod trees;

pub use command::DEF_LIMIT;
pub use module_reading::read_module_text;
pub use status::Status;
pub use top::run;

#[cfg(test)]
mod tests;
