//! Files that are read and streams that are written.
//!
//! The traits [`Files`] and [`Sink`] say what a call does, and that it fails only where a count of
//! faults rose in that call. They have implementations in memory, whose clauses are exact, and over
//! the machine's files and streams, which tell no content. [`read_whole`] reads a file up to a
//! limit. Begin at `src/outside.rt` and `specs/Outside.antt`.
#![tactic(auto)]

mod host;
mod mem_file;
mod mem_files;
mod mem_sink;
mod outside;
mod plan;
mod whole;

pub use host::{HostFiles, HostSink};
pub use mem_file::MemFile;
pub use mem_files::MemFiles;
pub use mem_sink::MemSink;
pub use outside::{Failed, Files, Sink};
pub use whole::{FILE_LIMIT, ReadError, read_whole};

#[cfg(test)]
mod tests;
