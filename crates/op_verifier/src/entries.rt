//! What operands, results and attributes ask of variables.

ghost use Rattle.std.specs.Prelude.{◌≡◌, ◌<◌, ◌≤◌, ◌-◌, ◌^◌, length, false};
ghost use Rattle.std.specs.Prelude.{take, drop, sum, option_copied};
ghost use Rattle.std.specs.List.{AllByRecursion};
ghost use Rattle.attr_value.specs.Ids.{AreKnown};
ghost use Rattle.dialect_defs.specs.Assignments.{Has};
ghost use Rattle.dialect_defs.specs.Operations.{EntriesHave, AttrHas, attr_at};
ghost use Rattle.dialect_defs.specs.Segments.{parts};
ghost use Rattle.op_verifier.specs.Asked.{Asked};
ghost use Rattle.op_verifier.specs.Parts.{HasSegments};
ghost use Rattle.op_verifier.specs.Seen.{values_at};
ghost use Rattle.op_verifier.specs.Sound.{EntriesAreBelow, AttrsAreBelow};
ghost use Rattle.op_verifier.specs.Types.{ids_of};
ghost use Rattle.op_verifier.specs.Views.{IsKnownView, view_attrs};

use crate::attrs::attribute;
use crate::operands::Types;
use crate::view::OpView;
use crate::wanted::Wanted;
use dialect_defs::{AttrEntry, ENTRY_LIMIT, Entry, VarId};
use segment_match::sizes;

impl Wanted<'_> {
    /// Asks the types from `start` to `end` of a variable.
    fn ask_all(&mut self, var: VarId, types: &Types, start: usize, end: usize) -> bool
        requires var { var.0 < length self.old.slots.items }
        requires known { AreKnown (length self.old.u.now) (ids_of types.now) }
        requires order { start ≤ end }
        requires within { end ≤ length (ids_of types.now) }
        ensures { Asked self.old self.new result
            (λ a. AllByRecursion (Has a var)
            (take (end - start) (drop start (values_at self.old.u.now (ids_of types.now))))) }
    {
        for i in start..end {
            if !self.ask(var, types.get(i)) {
                return false;
            }
        }
        true
    }

    /// Asks the types of each segment of its entry's variable.
    fn ask_entries(&mut self, entries: &[Entry], sizes: &[usize], types: &Types) -> bool
        requires vars { EntriesAreBelow (length self.old.slots.items) entries.now }
        requires known { AreKnown (length self.old.u.now) (ids_of types.now) }
        requires count { length sizes.now ≡ length entries.now }
        requires total { sum sizes.now ≡ length (ids_of types.now) }
        requires fits { length (ids_of types.now) < 2 ^ 64 }
        ensures { Asked self.old self.new result
            (λ a. EntriesHave a entries.now
            (parts sizes.now (values_at self.old.u.now (ids_of types.now)))) }
    {
        let mut start = 0;
        for (i, entry) in entries.iter().enumerate() {
            let end = start + sizes[i];
            if !self.ask_all(entry.var, types, start, end) {
                return false;
            }
            start = end;
        }
        true
    }

    /// Asks that the types fall into segments, and those of each segment of its entry's variable.
    pub(crate) fn ask_segments(
        &mut self,
        entries: &[Entry],
        types: &Types,
        given: Option<&[i64]>,
    ) -> bool
        requires vars { EntriesAreBelow (length self.old.slots.items) entries.now }
        requires few { length entries.now ≤ ENTRY_LIMIT }
        requires known { AreKnown (length self.old.u.now) (ids_of types.now) }
        ensures { Asked self.old self.new result
            (λ a. HasSegments a entries.now (values_at self.old.u.now (ids_of types.now))
            (option_copied given.entry)) }
    {
        let Some(sizes) = sizes(entries, types.len(), given) else {
            return false;
        };
        self.ask_entries(entries, sizes.as_slice(), types)
    }

    /// Asks an attribute's value of its entry's variable. One that is missing has to be optional.
    fn ask_attr(&mut self, entry: &AttrEntry, op: &OpView) -> bool
        requires var { entry.now.var.0 < length self.old.slots.items }
        requires op { IsKnownView (length self.old.u.now) op.now }
        ensures { Asked self.old self.new result
            (λ a. AttrHas a entry.now
            (attr_at (view_attrs self.old.u.now op.now) entry.now.name)) }
    {
        match attribute(op, entry.name.bytes()) {
            Some(id) => self.ask(entry.var, id),
            None => entry.optional,
        }
    }

    /// Asks each attribute's value of its entry's variable. Those that are missing have to be
    /// optional.
    pub(crate) fn ask_attrs(&mut self, entries: &[AttrEntry], op: &OpView) -> bool
        requires vars { AttrsAreBelow (length self.old.slots.items) entries.now }
        requires op { IsKnownView (length self.old.u.now) op.now }
        ensures { Asked self.old self.new result
            (λ a. AllByRecursion (λ entry. AttrHas a entry
            (attr_at (view_attrs self.old.u.now op.now) entry.name)) entries.now) }
    {
        for entry in entries {
            if !self.ask_attr(entry, op) {
                return false;
            }
        }
        true
    }
}
