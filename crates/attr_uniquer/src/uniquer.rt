//! The table of values.

ghost use Rattle.std.specs.Prelude.{◌≡◌, ◌<◌, ◌≤◌, ◌↔◌, [], length, IsTrue, IfOk, OnErr};
ghost use Rattle.attr_value.specs.Values.{value, depth};
ghost use Rattle.attr_value.specs.Ids.{at, kids_at, AreKnown, AreDistinct};
ghost use Rattle.attr_uniquer.specs.Interned.{Interned};

use crate::row::{Row, depth_over, intern_row, row_at};
use attr_value::{Head, List, ValueId};
use indexmap::IndexSet;
use std::alloc::{AllocError, Global};
use std::marker::Model;

/// The values that are kept, each once. Contracts see the list of these values, in which the place
/// of a value is its id.
#[derive(Drop)]
pub struct Uniquer {
    rows: IndexSet<Row>,
    alloc: Global,
}

impl Model for Uniquer {
    ghost use Rattle.std.specs.Prelude.{List as Seq, []};
    ghost use Rattle.std.specs.Coded.{coded_list};
    ghost use Rattle.attr_value.specs.Values.{Value as Tree};
    ghost use Rattle.attr_value.specs.Code.{value_code};
    ghost use Rattle.attr_uniquer.specs.Rows.{values, AreSound};

    ghost Value = { Seq Tree };

    ghost coded = { coded_list value_code };

    ghost view = { λ u. values u.rows.keys };

    ghost invariant = { λ u. AreSound [] u.rows.keys };
}

impl Uniquer {
    /// No value is kept. It takes no memory.
    pub fn new(alloc: Global) -> Uniquer
        ensures { result ≡ [] }
    {
        Uniquer {
            rows: IndexSet::new(alloc),
            alloc,
        }
    }

    /// How many values are kept. It takes no memory.
    pub fn len(&self) -> usize
        ensures { result ≡ length self.now }
    {
        self.rows.len()
    }

    /// The id of the value with this head and these kids, which is kept from now on. Earlier ids
    /// keep their values. Where memory runs out, nothing has changed.
    ///
    /// Values are equal where their heads and kids are, so a dictionary's keys should ascend.
    pub fn intern(&mut self, head: Head, kids: &[ValueId]) -> Result<ValueId, AllocError>
        requires { AreKnown (length self.old) kids.now }
        ensures ok { IfOk result (λ id.
            Interned self.old self.new (value head (kids_at self.old kids.now)) id.0) }
        ensures known { IfOk result (λ id. id.0 < length self.new) }
        ensures later { length self.old ≤ length self.new }
        ensures distinct { AreDistinct self.new }
        ensures err { OnErr result (self.new ≡ self.old) }
    {
        let depth = depth_over(self.rows.as_slice(), kids);
        let kids = List::from_slice(self.alloc, kids)?;
        intern_row(&mut self.rows, Row { head, kids, depth })
    }

    /// The head and the kids of a value. Kids have lesser ids. It takes no memory.
    pub fn view(&self, id: ValueId) -> (&Head, &[ValueId])
        requires { id.0 < length self.now }
        ensures value { at self.now id.0 ≡ value result.0.now (kids_at self.now result.1.now) }
        ensures known { AreKnown (length self.now) result.1.now }
        ensures earlier { AreKnown id.0 result.1.now }
    {
        let row = row_at(self.rows.as_slice(), id);
        (&row.head, row.kids.as_slice())
    }

    /// Whether two values are equal, which is exactly where their ids are. It takes no memory.
    pub fn same(&self, a: ValueId, b: ValueId) -> bool
        requires a { a.0 < length self.now }
        requires b { b.0 < length self.now }
        ensures same { IsTrue result ↔ (at self.now a.0 ≡ at self.now b.0) }
        ensures ids { IsTrue result ↔ (a ≡ b) }
        ensures distinct { AreDistinct self.now }
    {
        let _ = self.rows.len();
        a == b
    }

    /// The depth of a value: 1 without kids, else one more than the greatest depth of a kid. It
    /// takes no memory.
    pub fn depth(&self, id: ValueId) -> usize
        requires { id.0 < length self.now }
        ensures { result ≡ depth (at self.now id.0) }
    {
        row_at(self.rows.as_slice(), id).depth
    }
}
