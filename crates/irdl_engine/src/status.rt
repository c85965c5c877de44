//! How the program ends.

ghost use Rattle.std.specs.Prelude.{◌≡◌};

/// How the program ends.
#[derive(Clone, Copy, Debug, PartialEq, Eq)]
pub enum Status {
    /// The job was done.
    Done,
    /// A definition file was refused, and the refusal line was written.
    DefinitionRefused,
    /// The module was refused, and the refusal line was written.
    ModuleRefused,
    /// The words fit no form, and the usage line was written.
    Usage,
    /// A file couldn't be read, and a line with its name was written.
    ReadFault,
    /// A stream couldn't be written.
    WriteFault,
    /// Memory ran out. Standard output may have got a front of what it was to get.
    OutOfMemory,
    /// A file has more than 16,777,216 bytes, and a line with its name was written.
    InputLimit,
    /// The text of the module has more than 16,777,216 bytes: these first ones were written, and a
    /// line.
    OutputLimit,
}

impl Status {
    ghost use Rattle.irdl_engine.specs.Numbers.{status_number};

    /// The number with which the process ends.
    pub fn number(self) -> u8
        ensures { result ≡ status_number self }
    {
        match self {
            Status::Done => 0,
            Status::DefinitionRefused => 1,
            Status::ModuleRefused => 2,
            Status::Usage => 3,
            Status::ReadFault => 4,
            Status::WriteFault => 5,
            Status::OutOfMemory => 6,
            Status::InputLimit => 7,
            Status::OutputLimit => 8,
        }
    }
}
