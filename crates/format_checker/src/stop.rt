//! Why a format is refused.

ghost use Rattle.std.specs.Prelude.{◌≡◌};

use crate::look::Look;
use std::alloc::AllocError;

/// The rule that a format breaks. They are judged in this order.
#[derive(Clone, Copy, Debug, PartialEq, Eq)]
pub enum FormatCode {
    /// A name means nothing, as `$x` where nothing is named so.
    Unknown,
    /// Something that has to be shown isn't.
    Missing,
    /// Something is shown twice, as in `$x $x`.
    Repeated,
    /// A group or an anchor isn't right, as `(attr-dict)?`.
    Group,
    /// One token doesn't decide, as where an attribute stands before `:`.
    Ambiguous,
    /// The type of an entry isn't shown.
    NoType,
}

/// An operand entry or a result entry, by its number.
#[derive(Clone, Copy, Debug, PartialEq, Eq)]
pub enum EntryRef {
    Operand(usize),
    Result(usize),
}

/// Why a format isn't accepted.
#[derive(Debug, Drop)]
pub enum FormatStop {
    /// A rule is broken, at a byte of the format text. With `Ambiguous` comes the look that meets
    /// another, and with `NoType` the entry.
    Refused {
        code: FormatCode,
        at: u32,
        look: Option<Look>,
        entry: Option<EntryRef>,
    },
    /// Memory ran out.
    OutOfMemory,
}

impl From<AllocError> for FormatStop {
    ghost use Rattle.format_checker.specs.declared.stop.FormatStop.TheVariants.{OutOfMemory};

    ghost from_gives = { λ _ e. e ≡ OutOfMemory };

    fn from(_: AllocError) -> FormatStop {
        FormatStop::OutOfMemory
    }
}

/// Why names aren't resolved.
#[derive(Clone, Copy, Debug, PartialEq, Eq)]
pub enum NameStop {
    /// The place of what means nothing.
    Unknown(u32),
    /// Memory ran out.
    OutOfMemory,
}

impl From<AllocError> for NameStop {
    ghost use Rattle.format_checker.specs.declared.stop.NameStop.TheVariants.{OutOfMemory};

    ghost from_gives = { λ _ e. e ≡ OutOfMemory };

    fn from(_: AllocError) -> NameStop {
        NameStop::OutOfMemory
    }
}
