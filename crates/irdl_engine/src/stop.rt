//! Why the work on definition files and modules stops.

use dialect_registry::DefCode;
use ir_lexer::LineCol;
use std::alloc::AllocError;

/// A rule that is broken, and where: the number of the file, from 0, and the place in it; and what
/// else is told of it.
#[derive(Debug, Drop)]
pub struct Refusal {
    pub file: usize,
    pub place: LineCol,
    pub code: DefCode,
    pub told: Vec<u8>,
}

/// Why the work on definition files stopped. A file is told by its number, from 0.
#[derive(Debug, Drop)]
pub enum Stop {
    /// The file couldn't be opened or read.
    Unreadable(usize),
    /// The file has more bytes than the limit.
    TooLong(usize),
    /// The files break a rule.
    Refused(Refusal),
    /// Memory ran out.
    OutOfMemory,
}

impl From<AllocError> for Stop {
    ghost use Rattle.std.specs.Prelude.{◌≡◌};
    ghost use Rattle.irdl_engine.specs.declared.stop.Stop.TheVariants.{OutOfMemory};

    ghost from_gives = { λ _ stop. stop ≡ OutOfMemory };

    fn from(_: AllocError) -> Stop {
        Stop::OutOfMemory
    }
}

/// A rule on modules that is broken, by its number, and where in the module file.
#[derive(Clone, Copy, Debug)]
pub struct ModuleRefusal {
    pub place: LineCol,
    pub code: u32,
}

/// Why the work on a module stopped.
#[derive(Debug, Drop)]
pub enum ModuleStop {
    /// The definition files aren't accepted.
    Definitions(Stop),
    /// The module file, which has the number 0, isn't read, or memory ran out.
    Module(Stop),
    /// The module breaks a rule.
    Fault(ModuleRefusal),
}
