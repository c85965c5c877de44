//! Why a tree has no store.

use first_fault::Fault;
use std::alloc::AllocError;

/// Why a tree has no store.
#[derive(Clone, Copy, Debug, PartialEq, Eq)]
pub enum ModStop {
    /// A rule is broken. The place is one of the tree's, and the code is the number that a refusal
    /// shows.
    Refused(Fault),
    /// Memory ran out.
    OutOfMemory,
}

impl From<AllocError> for ModStop {
    ghost use Rattle.std.specs.Prelude.{◌≡◌};
    ghost use Rattle.elaborate.specs.declared.stop.ModStop.TheVariants.{OutOfMemory};

    ghost from_gives = { λ _ stop. stop ≡ OutOfMemory };

    fn from(_: AllocError) -> ModStop {
        ModStop::OutOfMemory
    }
}
