//! Why a text isn't written.

use thiserror::Error;

/// Why a text isn't written whole.
#[derive(Clone, Copy, Debug, PartialEq, Eq, Error)]
pub enum PrintError {
    /// The sink failed, and its count of faults rose.
    #[error("WriteFault")]
    WriteFault,
    /// The text would have more than 16,777,216 bytes, of which the first ones were written.
    #[error("OutputLimit")]
    OutputLimit,
    /// Memory ran out.
    #[error("OutOfMemory")]
    OutOfMemory,
}
