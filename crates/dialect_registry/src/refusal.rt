//! Where definition files are refused.

ghost use Rattle.std.specs.Prelude.{◌≡◌, None};
ghost use Rattle.dialect_registry.specs.Refusals.{fault_of, IsPlain};

use format_checker::{EntryRef, Look};

/// A rule that is broken in a file: the number of the file, from 0; the place of the token at which
/// it is broken, in bytes from 0; and the number of the rule.
#[derive(Clone, Copy, Debug, PartialEq, Eq)]
pub struct FileFault {
    pub file: usize,
    pub place: u32,
    pub code: u32,
}

/// Why definition files are refused: the number of the file, from 0; the place of the token at
/// which a rule is broken, in bytes from 0; and the number of the rule, from which
/// `DefCode::of_number` gives the rule itself.
///
/// Where a format is refused, `at` is the byte of its text; else it is 0. A look that meets another
/// comes with an ambiguous format, and an entry without a type with one that doesn't show it.
#[derive(Debug, Drop)]
pub struct DefRefusal {
    pub file: usize,
    pub place: u32,
    pub code: u32,
    pub at: u32,
    pub look: Option<Look>,
    pub entry: Option<EntryRef>,
}

impl DefRefusal {
    /// The refusal for a fault outside of formats.
    pub fn plain(fault: FileFault) -> DefRefusal
        ensures fault { fault_of result ≡ fault }
        ensures plain { IsPlain result }
    {
        let FileFault { file, place, code } = fault;
        DefRefusal {
            file,
            place,
            code,
            at: 0,
            look: None,
            entry: None,
        }
    }
}
