//! The rows of the table, and what is looked up in them.

ghost use Rattle.std.specs.Prelude.{◌≡◌, ◌+◌, ◌^◌, ◌<◌, [], length, IfOk, OnErr};
ghost use Rattle.attr_value.specs.Values.{greatest_depth};
ghost use Rattle.attr_value.specs.Ids.{kids_at, AreKnown, AreDistinct};
ghost use Rattle.attr_uniquer.specs.Interned.{Interned};
ghost use Rattle.attr_uniquer.specs.Rows.{values, value_of, AreSound, IsNextRow, IsRowAt};

use attr_value::{Head, List, ValueId};
use indexmap::IndexSet;
use std::alloc::AllocError;

/// A value's head, its kids' ids, and its depth, which these determine.
#[derive(PartialEq, Eq, Hash, Drop)]
pub struct Row {
    pub head: Head,
    pub kids: List<ValueId>,
    pub depth: usize,
}

/// The row of an id.
pub fn row_at(rows: &[Row], id: ValueId) -> &Row
    requires sound { AreSound [] rows.now }
    requires known { id.0 < length rows.now }
    ensures { IsRowAt (values rows.now) id.0 result.now }
{
    &rows[id.0]
}

/// One more than the greatest depth of the kids.
pub fn depth_over(rows: &[Row], kids: &[ValueId]) -> usize
    requires sound { AreSound [] rows.now }
    requires known { AreKnown (length rows.now) kids.now }
    requires small { length rows.now < 2 ^ 63 }
    ensures { result ≡ greatest_depth (kids_at (values rows.now) kids.now) + 1 }
{
    let mut most = 0;
    for kid in kids {
        most = most.max(row_at(rows, *kid).depth);
    }
    most + 1
}

/// The id of a row, which is added where it isn't there.
pub fn intern_row(rows: &mut IndexSet<Row>, row: Row) -> Result<ValueId, AllocError>
    requires sound { AreSound [] rows.old.keys }
    requires next { IsNextRow rows.old.keys row }
    ensures ok { IfOk result (λ id. Interned (values rows.old.keys) (values rows.new.keys)
        (value_of (values rows.old.keys) row) id.0) }
    ensures err { OnErr result (rows.new.keys ≡ rows.old.keys) }
    ensures sound { AreSound [] rows.new.keys }
    ensures distinct { AreDistinct (values rows.new.keys) }
{
    let (index, _) = rows.insert_full(row)?;
    Ok(ValueId(index))
}
