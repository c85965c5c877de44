//! The rules on operations and on the types of uses.

ghost use Rattle.std.specs.Prelude.{◌≡◌};
ghost use Rattle.module_faults.specs.OpFaults.{code_of};

/// A use has the type of the value that it means: the use.
pub const USE_TYPE: u32 = 20;

/// A rule on one operation, in the order in which they are judged: the first that an operation
/// breaks counts. The place is that of the operation's name.
#[derive(Clone, Copy, Debug, PartialEq, Eq)]
pub enum OpRule {
    /// A definition has the operation's name.
    Unknown,
    /// As many types stand in each list as uses or names of results.
    Arity,
    /// What is declared a terminator is the last of its block, or of the top level.
    NotLast,
    /// Some operation completes the tree: hidden types and an assignment exist.
    Unsatisfied,
}

impl OpRule {
    /// The number that a refusal shows.
    pub fn code(self) -> u32
        ensures { result ≡ code_of self }
    {
        match self {
            OpRule::Unknown => 17,
            OpRule::Arity => 18,
            OpRule::NotLast => 21,
            OpRule::Unsatisfied => 19,
        }
    }
}
