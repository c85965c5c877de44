//! What regions ask of variables whose blocks' arguments are listed.

ghost use Rattle.std.specs.Prelude.{◌≡◌, ◌<◌, ◌^◌, length, map, sum, false, IfSome, Some};
ghost use Rattle.std.specs.List.{AllByRecursion};
ghost use Rattle.attr_value.specs.Ids.{AreKnown};
ghost use Rattle.dialect_defs.specs.Assignments.{HaveEach};
ghost use Rattle.dialect_defs.specs.Bodies.{AreBelow};
ghost use Rattle.dialect_defs.specs.Operations.{ArgsHave, RegionHas, RegionsHave};
ghost use Rattle.op_verifier.specs.Asked.{Asked};
ghost use Rattle.op_verifier.specs.Seen.{values_at};
ghost use Rattle.op_verifier.specs.Sound.{RegionsAreBelow};
ghost use Rattle.op_verifier.specs.Views.{listed_regions};

use crate::regions::has_size;
use crate::wanted::Wanted;
use attr_value::{List, ValueId};
use dialect_defs::{RegionEntry, VarId};

impl Wanted<'_> {
    /// Asks each type of the variable at its place.
    fn ask_types(&mut self, vars: &[VarId], types: &[ValueId]) -> bool
        requires vars { AreBelow (length self.old.slots.items) vars.now }
        requires known { AreKnown (length self.old.u.now) types.now }
        requires count { length types.now ≡ length vars.now }
        ensures { Asked self.old self.new result
            (λ a. HaveEach a vars.now (values_at self.old.u.now types.now)) }
    {
        for (i, var) in vars.iter().enumerate() {
            if !self.ask(*var, types[i]) {
                return false;
            }
        }
        true
    }

    /// Asks that the first block has as many arguments as there are variables, and their types of
    /// these. Where there is no block, there have to be no variables.
    fn ask_first(&mut self, vars: &[VarId], blocks: &[List<ValueId>]) -> bool
        requires vars { AreBelow (length self.old.slots.items) vars.now }
        requires known { AllByRecursion (AreKnown (length self.old.u.now)) blocks.now }
        ensures { Asked self.old self.new result
            (λ a. ArgsHave a (Some vars.now) (map (values_at self.old.u.now) blocks.now)) }
    {
        let Some(first) = blocks.first() else {
            return vars.is_empty();
        };
        if first.len() != vars.len() {
            return false;
        }
        self.ask_types(vars, first.as_slice())
    }

    /// Asks that a region of these blocks has the declared number of them and the declared
    /// arguments.
    fn ask_blocks(&mut self, entry: &RegionEntry, blocks: &[List<ValueId>]) -> bool
        requires vars { IfSome entry.now.args (AreBelow (length self.old.slots.items)) }
        requires known { AllByRecursion (AreKnown (length self.old.u.now)) blocks.now }
        ensures { Asked self.old self.new result
            (λ a. RegionHas a entry.now (map (values_at self.old.u.now) blocks.now)) }
    {
        if !has_size(entry.size, blocks.len()) {
            return false;
        }
        match &entry.args {
            Some(vars) => self.ask_first(vars.as_slice(), blocks),
            None => true,
        }
    }

    /// Asks that there are as many regions as entries, and of each region what the entry at its
    /// place says.
    pub(crate) fn ask_listed(
        &mut self,
        entries: &[RegionEntry],
        counts: &[usize],
        args: &[List<ValueId>],
    ) -> bool
        requires vars { RegionsAreBelow (length self.old.slots.items) entries.now }
        requires known { AllByRecursion (AreKnown (length self.old.u.now)) args.now }
        requires total { sum counts.now ≡ length args.now }
        ensures { Asked self.old self.new result
            (λ a. RegionsHave a entries.now
            (listed_regions self.old.u.now counts.now args.now)) }
    {
        if counts.len() != entries.len() {
            return false;
        }
        let mut start = 0;
        for (i, entry) in entries.iter().enumerate() {
            let end = start + counts[i];
            if !self.ask_blocks(entry, &args[start..end]) {
                return false;
            }
            start = end;
        }
        true
    }
}
