//! What an operation asks of the variables of its definition's body.

ghost use Rattle.std.specs.Prelude.{◌≤◌, length, false};
ghost use Rattle.dialect_defs.specs.Operations.{Operation, attr_at, given_sizes};
ghost use Rattle.dialect_defs.specs.Operations.{operand_sizes_key, result_sizes_key};
ghost use Rattle.op_verifier.specs.Asked.{Asked};
ghost use Rattle.op_verifier.specs.Parts.{HasSegments, HasParts};
ghost use Rattle.op_verifier.specs.Seen.{values_at};
ghost use Rattle.op_verifier.specs.Sound.{EntriesAreBelow, NamesAreBelow};
ghost use Rattle.op_verifier.specs.Types.{ids_of};
ghost use Rattle.op_verifier.specs.Views.{IsKnownView, IsShown, view_attrs};

use crate::attrs::sizes_given;
use crate::operands::Types;
use crate::view::OpView;
use crate::wanted::Wanted;
use dialect_defs::{ENTRY_LIMIT, Entry, OpDef};

impl Wanted<'_> {
    /// Asks the types of the operands of their entries' variables.
    fn ask_operands(&mut self, entries: &[Entry], op: &OpView) -> bool
        requires vars { EntriesAreBelow (length self.old.slots.items) entries.now }
        requires few { length entries.now ≤ ENTRY_LIMIT }
        requires op { IsKnownView (length self.old.u.now) op.now }
        ensures { Asked self.old self.new result
            (λ a. HasSegments a entries.now
            (values_at self.old.u.now (ids_of op.now.operands))
            (given_sizes (attr_at (view_attrs self.old.u.now op.now) operand_sizes_key))) }
    {
        let given = sizes_given(self.u, op, b"operandSegmentSizes");
        self.ask_segments(entries, &op.operands, given)
    }

    /// Asks the types of the results of their entries' variables.
    fn ask_results(&mut self, entries: &[Entry], op: &OpView) -> bool
        requires vars { EntriesAreBelow (length self.old.slots.items) entries.now }
        requires few { length entries.now ≤ ENTRY_LIMIT }
        requires op { IsKnownView (length self.old.u.now) op.now }
        ensures { Asked self.old self.new result
            (λ a. HasSegments a entries.now (values_at self.old.u.now op.now.results.now)
            (given_sizes (attr_at (view_attrs self.old.u.now op.now) result_sizes_key))) }
    {
        let given = sizes_given(self.u, op, b"resultSegmentSizes");
        let types = Types::Listed(op.results);
        self.ask_segments(entries, &types, given)
    }

    /// Asks all that an operation's parts ask.
    pub(crate) fn ask_parts(&mut self, def: &OpDef, op: &OpView) -> bool
        requires names { NamesAreBelow (length self.old.slots.items) def.now }
        requires op { IsKnownView (length self.old.u.now) op.now }
        ensures { (o : Operation) → IsShown self.old.u.now op.now o →
            Asked self.old self.new result (HasParts def.now o) }
    {
        if op.successors != def.successors.as_slice().len() {
            return false;
        }
        if !self.ask_operands(def.operands.as_slice(), op) {
            return false;
        }
        if !self.ask_results(def.results.as_slice(), op) {
            return false;
        }
        if !self.ask_attrs(def.attrs.as_slice(), op) {
            return false;
        }
        self.ask_regions(def.regions.as_slice(), &op.regions)
    }
}
