//! All that is shown of an operation, asked of variables.

ghost use Rattle.std.specs.Prelude.{◌≡◌, length, IsTrue, false, IfSome};
ghost use Rattle.std.specs.List.{AllByRecursion};
ghost use Rattle.dialect_defs.specs.Bodies.{AreBelow};
ghost use Rattle.type_infer.specs.AllShown.{AreKnownShown, HasShown};
ghost use Rattle.type_infer.specs.Asked.{AreKnownSlots, Asks, Refuses};
ghost use Rattle.type_infer.specs.Completes.{IsShownOf};
ghost use Rattle.type_infer.specs.Rule.{HasOrderedBody};

use crate::entries::Shown;
use crate::wanted::Wanted;
use attr_uniquer::Uniquer;
use dialect_defs::OpDef;

impl Wanted {
    /// Asks all that is shown of an operation. `false` exactly where no map has it.
    pub(crate) fn ask_all(&mut self, u: &Uniquer, op: &OpDef, shown: &Shown) -> bool
        requires slots { AreKnownSlots (length u.now) self.old.slots.items }
        requires size { length self.old.slots.items ≡ length op.now.body.vars }
        requires sound { HasOrderedBody op.now }
        requires args { AllByRecursion
            (λ e. IfSome e.args (AreBelow (length op.now.body.vars))) op.now.regions }
        requires shown { IsShownOf op.now shown.now }
        requires known { AreKnownShown (length u.now) shown.now }
        ensures asks { IsTrue result → Asks u.now self.old.slots.items self.new.slots.items
            (HasShown u.now op.now shown.now) }
        ensures refuses { result ≡ false → Refuses u.now self.old.slots.items
            (HasShown u.now op.now shown.now) }
    {
        if !self.ask_types(u, op.operands.as_slice(), shown.operand_types.as_slice()) {
            return false;
        }
        if !self.ask_types(u, op.results.as_slice(), shown.result_types.as_slice()) {
            return false;
        }
        if !self.ask_attrs(u, op.attrs.as_slice(), shown.attrs.as_slice()) {
            return false;
        }
        self.ask_regions(u, op.regions.as_slice(), shown.region_args.as_slice())
    }
}
