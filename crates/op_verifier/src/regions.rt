//! What regions ask of variables.

ghost use Rattle.std.specs.Prelude.{◌≡◌, ◌<◌, ◌+◌, ℕ, ◌↔◌, length, IsTrue, false, IfSome, Some};
ghost use Rattle.std.specs.Prelude.{List};
ghost use Rattle.std.specs.Option.{ForSome};
ghost use Rattle.attr_value.specs.Ids.{AreKnown};
ghost use Rattle.dialect_defs.specs.Assignments.{HaveEach};
ghost use Rattle.dialect_defs.specs.Bodies.{AreBelow};
ghost use Rattle.dialect_defs.specs.Operations.{ArgsHave, RegionHas, RegionsHave};
ghost use Rattle.ir_store.specs.Modules.{Blocks, types_in};
ghost use Rattle.ir_store.specs.Named.{op_at, region_at, AreBlocks};
ghost use Rattle.ir_store.specs.Numbering.{Numbers, ops_in, regions_in};
ghost use Rattle.ir_store.specs.Store.{OpName};
ghost use Rattle.attr_value.specs.declared.head.ValueId.{ValueId as Id};
ghost use Rattle.attr_value.specs.Values.{Value};
ghost use Rattle.op_verifier.specs.Asked.{Asked};
ghost use Rattle.op_verifier.specs.Parts.{types_from};
ghost use Rattle.op_verifier.specs.Seen.{values_at, blocks_seen, regions_seen};
ghost use Rattle.op_verifier.specs.Sound.{RegionsAreBelow};
ghost use Rattle.op_verifier.specs.Views.{AreKnownRegions, HasFront};

use crate::operands::type_of;
use crate::view::OpRegions;
use crate::wanted::Wanted;
use dialect_defs::{RegionEntry, VarId};
use ir_store::{BlockId, OpId, RegionId, Store};

impl Wanted<'_> {
    /// Asks the types of as many values as there are variables, from the number `first` on, each
    /// of the variable at its place.
    fn ask_each(&mut self, vars: &[VarId], store: &Store, first: usize) -> bool
        requires vars { AreBelow (length self.old.slots.items) vars.now }
        requires known { AreKnown (length self.old.u.now) (types_in store.now) }
        requires there { (i : ℕ) → i < length vars.now → first + i < length (types_in store.now) }
        ensures { Asked self.old self.new result
            (λ a. HaveEach a vars.now
            (values_at self.old.u.now (types_from store.now first (length vars.now)))) }
    {
        // the numbers of values don't overflow
        let _ = store.values();
        for (i, var) in vars.iter().enumerate() {
            if !self.ask(*var, type_of(store, first + i)) {
                return false;
            }
        }
        true
    }

    /// Asks that the first block has as many arguments as there are variables, and their types of
    /// these. Where there is no block, there have to be no variables.
    fn ask_args(&mut self, vars: &[VarId], store: &Store, blocks: &[BlockId]) -> bool
        requires vars { AreBelow (length self.old.slots.items) vars.now }
        requires known { AreKnown (length self.old.u.now) (types_in store.now) }
        requires blocks { (c : Numbers) × (bs : Blocks OpName Id)
            × AreBlocks store.now c blocks.now bs }
        ensures { (c : Numbers) (bs : Blocks OpName Id) → AreBlocks store.now c blocks.now bs
            → Asked self.old self.new result
            (λ a. ArgsHave a (Some vars.now) (blocks_seen self.old.u.now bs)) }
    {
        let Some(block) = blocks.first() else {
            return vars.is_empty();
        };
        let (first, count) = store.args_of(*block);
        if count != vars.len() {
            return false;
        }
        self.ask_each(vars, store, first)
    }

    /// Asks that a region has the declared number of blocks and the declared arguments.
    fn ask_region(&mut self, entry: &RegionEntry, store: &Store, region: RegionId) -> bool
        requires vars { IfSome entry.now.args (AreBelow (length self.old.slots.items)) }
        requires known { AreKnown (length self.old.u.now) (types_in store.now) }
        requires region { region.0 < length (regions_in store.now) }
        ensures { ForSome (region_at store.now region) (λ x.
            Asked self.old self.new result
            (λ a. RegionHas a entry.now (blocks_seen self.old.u.now x.blocks))) }
    {
        let blocks = store.blocks_of(region);
        if !has_size(entry.size, blocks.len()) {
            return false;
        }
        match &entry.args {
            Some(vars) => self.ask_args(vars.as_slice(), store, blocks),
            None => true,
        }
    }

    /// Asks that there are as many regions of a stored operation as entries, and of each region
    /// what the entry at its place says.
    fn ask_stored(&mut self, entries: &[RegionEntry], store: &Store, op: OpId) -> bool
        requires vars { RegionsAreBelow (length self.old.slots.items) entries.now }
        requires known { AreKnown (length self.old.u.now) (types_in store.now) }
        requires op { op.0 < length (ops_in store.now) }
        ensures { ForSome (op_at store.now op) (λ x.
            Asked self.old self.new result
            (λ a. RegionsHave a entries.now (regions_seen self.old.u.now x.regions))) }
    {
        let regions = store.regions_of(op);
        if regions.len() != entries.len() {
            return false;
        }
        for (i, entry) in entries.iter().enumerate() {
            if !self.ask_region(entry, store, regions[i]) {
                return false;
            }
        }
        true
    }

    /// Asks that there are as many regions as entries, and of each region what the entry at its
    /// place says.
    pub(crate) fn ask_regions(&mut self, entries: &[RegionEntry], regions: &OpRegions) -> bool
        requires vars { RegionsAreBelow (length self.old.slots.items) entries.now }
        requires known { AreKnownRegions (length self.old.u.now) regions.now }
        ensures { (rs : List (List (List Value))) → HasFront self.old.u.now regions.now rs →
            Asked self.old self.new result (λ a. RegionsHave a entries.now rs) }
    {
        match regions {
            OpRegions::Listed { counts, args } => self.ask_listed(entries, counts, args),
            OpRegions::Stored(store, op) => self.ask_stored(entries, store, *op),
        }
    }
}

/// Whether a number of blocks is the declared one, where one is declared.
pub(crate) fn has_size(size: Option<u32>, count: usize) -> bool
    ensures { IsTrue result ↔ IfSome size (λ n. count ≡ n) }
{
    match size {
        Some(n) => count == n as usize,
        None => true,
    }
}
