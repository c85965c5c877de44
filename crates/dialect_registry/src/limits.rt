//! The limits of a body.

ghost use Rattle.std.specs.Prelude.{map};
ghost use Rattle.dialect_registry.specs.Limits.{IsExtra, variables};
ghost use Rattle.dialect_defs.specs.declared.body.TheConstants.{VARIABLE_LIMIT};
ghost use Rattle.dialect_defs.specs.declared.entry.TheConstants.{ENTRY_LIMIT};
ghost use Rattle.first_fault.specs.Firsts.{IsFirst};

use crate::code::{DefCode, fault_if};
use dialect_defs::{ENTRY_LIMIT, VARIABLE_LIMIT};
use first_fault::Fault;
use irdl_ops::{RawEntry, RawStatement, StatementKind};

/// In how many ways one may choose a member of each `irdl.any_of` of a body at most.
pub const CHOICE_LIMIT: usize = 65_536;

/// The first variable of a body that is one too many.
pub fn judge_variables(statements: &[RawStatement]) -> Option<Fault>
    ensures { IsFirst (IsExtra VARIABLE_LIMIT (variables statements.now)) result }
{
    let mut left = VARIABLE_LIMIT;
    for statement in statements {
        if let StatementKind::Constraint { name, .. } = &statement.kind {
            if left == 0 {
                return fault_if(true, name.place, DefCode::VarLimit);
            }
            left -= 1;
        }
    }
    None
}

/// The first of some operands or results that is one too many.
pub fn judge_entries(entries: &[RawEntry]) -> Option<Fault>
    ensures { IsFirst (IsExtra ENTRY_LIMIT (map (λ e. e.place) entries.now)) result }
{
    match entries.get(ENTRY_LIMIT) {
        Some(entry) => fault_if(true, entry.place, DefCode::VarLimit),
        None => None,
    }
}
