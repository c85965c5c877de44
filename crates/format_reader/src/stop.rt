//! Why the reader stops.

ghost use Rattle.std.specs.Prelude.{◌≡◌};

use std::alloc::AllocError;

/// Why a format text isn't read.
#[derive(Clone, Copy, Debug, PartialEq, Eq)]
pub enum FormatAt {
    /// The first byte of the first token that no format has there; the end of a text is its length.
    At(u32),
    /// Memory ran out.
    OutOfMemory,
}

impl From<AllocError> for FormatAt {
    ghost use Rattle.format_reader.specs.declared.stop.FormatAt.TheVariants.{OutOfMemory};

    ghost from_gives = { λ _ e. e ≡ OutOfMemory };

    fn from(_: AllocError) -> FormatAt {
        FormatAt::OutOfMemory
    }
}
