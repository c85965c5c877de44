//! Values that are found of variables in rounds over the body, until nothing more follows.

ghost use Rattle.std.specs.Prelude.{◌≡◌, ◌↔◌, ◌<◌, List as Seq, length, IfOk, OnOk};
ghost use Rattle.dialect_defs.specs.Assignments.{Tests};
ghost use Rattle.dialect_defs.specs.Bodies.{AreBelow};
ghost use Rattle.dialect_defs.specs.declared.body.VarId.{VarId as Var};
ghost use Rattle.dialect_defs.specs.declared.definition.TypeDef.{TypeDef as Def};
ghost use Rattle.native_predicate.specs.Lists.{tests, count};
ghost use Rattle.constraint_solver.specs.Definitions.{AreSoundDefs};
ghost use Rattle.constraint_solver.specs.Grown.{Extends};
ghost use Rattle.type_infer.specs.Asked.{AreKnownSlots};
ghost use Rattle.type_infer.specs.Determined.{Forced, named_in};
ghost use Rattle.type_infer.specs.Found.{AreGoodSlots, FoundAll, FoundAt, FoundForced, FoundRound};
ghost use Rattle.type_infer.specs.Found.{HasGoodConstants, IsGoodConstant};
ghost use Rattle.type_infer.specs.Marks.{In};
ghost use Rattle.type_infer.specs.Rule.{HasOrderedBody};

use crate::marks::Marks;
use crate::rule::forced_marks;
use crate::wanted::Wanted;
use attr_uniquer::Uniquer;
use dialect_defs::{Constraint, OpDef, TypeDef, VarId};
use native_predicate::Natives;
use std::alloc::{AllocError, Global};

impl Wanted {
    /// Finds what follows downwards from a variable that is forced.
    fn find_forced(
        &mut self,
        u: &Uniquer,
        forced: &Marks,
        whole: VarId,
        constraint: &Constraint,
    ) -> bool
        requires small { whole.0 < 64 }
        requires whole { whole.0 < length self.old.slots.items }
        requires named { AreBelow (length self.old.slots.items) (named_in constraint.now) }
        requires known { AreKnownSlots (length u.now) self.old.slots.items }
        ensures { (says : Tests) (types : Seq Def)
            → AreGoodSlots u.now says types self.old.slots.items
            → FoundForced says types u.now self.old.slots.items self.new.slots.items result
            forced.now.set whole constraint.now }
    {
        if !forced.has(whole) {
            return false;
        }
        self.find_down(u, whole, constraint)
    }

    /// Finds what follows at one variable, upwards and downwards.
    pub(crate) fn find_at(
        &mut self,
        alloc: Global,
        types: &[TypeDef],
        natives: &Natives,
        u: &mut Uniquer,
        forced: &Marks,
        var: VarId,
        constraint: &Constraint,
    ) -> Result<bool, AllocError>
        requires types { AreSoundDefs (length u.old) (count natives.now) types.now }
        requires small { var.0 < 64 }
        requires var { var.0 < length self.old.slots.items }
        requires named { AreBelow (length self.old.slots.items) (named_in constraint.now) }
        requires constant { IsGoodConstant u.old (tests property natives.now) types.now
            constraint.now }
        requires known { AreKnownSlots (length u.old) self.old.slots.items }
        requires good { AreGoodSlots u.old (tests property natives.now) types.now
            self.old.slots.items }
        ensures grew { Extends u.old u.new }
        ensures found { IfOk result (λ new. FoundAt (tests property natives.now) types.now
            u.old u.new self.old.slots.items self.new.slots.items new forced.now.set var
            constraint.now) }
    {
        let up = self.find_up(alloc, types, natives, u, var, constraint)?;
        let down = self.find_forced(u, forced, var, constraint);
        Ok(up | down)
    }

    /// Finds what follows at each variable of the body, one after the other. Whether any is new.
    fn find_round(
        &mut self,
        alloc: Global,
        types: &[TypeDef],
        natives: &Natives,
        u: &mut Uniquer,
        op: &OpDef,
        forced: &Marks,
    ) -> Result<bool, AllocError>
        requires types { AreSoundDefs (length u.old) (count natives.now) types.now }
        requires ordered { HasOrderedBody op.now }
        requires constants { HasGoodConstants u.old (tests property natives.now) types.now op.now }
        requires size { length self.old.slots.items ≡ length op.now.body.vars }
        requires known { AreKnownSlots (length u.old) self.old.slots.items }
        requires good { AreGoodSlots u.old (tests property natives.now) types.now
            self.old.slots.items }
        requires forced { (v : Var) → In forced.now.set v ↔ Forced op.now v }
        ensures grew { Extends u.old u.new }
        ensures found { IfOk result (λ new. FoundRound (tests property natives.now) types.now
            op.now u.old u.new self.old.slots.items self.new.slots.items new
            (length op.now.body.vars)) }
    {
        let mut changed = false;
        for (v, constraint) in op.body.vars.as_slice().iter().enumerate() {
            changed |= self.find_at(alloc, types, natives, u, forced, VarId(v), constraint)?;
        }
        Ok(changed)
    }

    /// Finds what follows from what is found, until nothing more does.
    pub(crate) fn find_rest(
        &mut self,
        alloc: Global,
        types: &[TypeDef],
        natives: &Natives,
        u: &mut Uniquer,
        op: &OpDef,
    ) -> Result<(), AllocError>
        requires types { AreSoundDefs (length u.old) (count natives.now) types.now }
        requires ordered { HasOrderedBody op.now }
        requires constants { HasGoodConstants u.old (tests property natives.now) types.now op.now }
        requires size { length self.old.slots.items ≡ length op.now.body.vars }
        requires known { AreKnownSlots (length u.old) self.old.slots.items }
        requires good { AreGoodSlots u.old (tests property natives.now) types.now
            self.old.slots.items }
        ensures grew { Extends u.old u.new }
        ensures found { OnOk result (FoundAll (tests property natives.now) types.now op.now
            u.old u.new self.old.slots.items self.new.slots.items) }
    {
        let forced = forced_marks(op);
        while self.find_round(alloc, types, natives, u, op, &forced)? {}
        Ok(())
    }
}
