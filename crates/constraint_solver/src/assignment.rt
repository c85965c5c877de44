//! Assignments that the search finds.

ghost use Rattle.std.specs.Prelude.{◌≡◌, ◌≤◌, None, length, take, slice_index_or};

use arrayvec::ArrayVec;
use attr_value::ValueId;
use dialect_defs::{VARIABLE_LIMIT, VarId};
use std::marker::Model;

/// The ids of the values of a body's variables. Contracts see the list of these, one for each
/// variable, which is `None` where a variable has no value.
#[derive(Drop)]
pub struct Assignment {
    ids: ArrayVec<Option<ValueId>, VARIABLE_LIMIT>,
}

impl Model for Assignment {
    ghost use Rattle.std.specs.Prelude.{List as Seq};
    ghost use Rattle.std.specs.Coded.{coded_list, coded_option};
    ghost use Rattle.std.specs.declared.option.Option.{Option as Maybe};
    ghost use Rattle.attr_value.specs.declared.head.ValueId.{ValueId as Id};
    ghost use Rattle.attr_value.specs.contracts.head.ValueId.{the_row};

    ghost Value = { Seq (Maybe Id) };

    ghost coded = { coded_list (coded_option the_row.coded) };

    ghost view = { λ a. a.ids.items };
}

impl Assignment {
    /// The assignment of the first `n` of these ids.
    pub(crate) fn of_first(ids: &[Option<ValueId>; VARIABLE_LIMIT], n: usize) -> Assignment
        requires { n ≤ VARIABLE_LIMIT }
        ensures ids { result ≡ take n ids.now }
        ensures len { length result ≡ n }
    {
        let mut firsts = ArrayVec::new();
        firsts.try_extend_from_slice(&ids[..n]).unwrap();
        Assignment { ids: firsts }
    }

    /// The id of the value of a variable. `None` exactly where the variable has no value, as one
    /// that isn't in the body. It takes no memory.
    pub fn get(&self, v: VarId) -> Option<ValueId>
        ensures { result ≡ slice_index_or self.now v.0 None }
    {
        self.ids.as_slice().get(v.0).copied().flatten()
    }
}
