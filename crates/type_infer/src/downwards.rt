//! Values that are found of variables from that of a variable whose constraint names them.
//!
//! A value that doesn't keep to the constraint of its variable is no fault here: no assignment that
//! gives each forced variable a value has it, as the search for one says in the end.

ghost use Rattle.std.specs.Prelude.{◌≡◌, ◌<◌, List as Seq, length};
ghost use Rattle.std.specs.List.{AllByRecursion};
ghost use Rattle.attr_value.specs.Ids.{at, AreKnown};
ghost use Rattle.attr_value.specs.Values.{Value};
ghost use Rattle.dialect_defs.specs.Assignments.{Tests, Has, HaveEach};
ghost use Rattle.dialect_defs.specs.Bodies.{AreBelow};
ghost use Rattle.dialect_defs.specs.Goodness.{Good};
ghost use Rattle.dialect_defs.specs.declared.definition.TypeDef.{TypeDef as Def};
ghost use Rattle.type_infer.specs.Asked.{AreKnownSlots};
ghost use Rattle.type_infer.specs.Completes.{values_at};
ghost use Rattle.type_infer.specs.Determined.{named_in};
ghost use Rattle.type_infer.specs.Found.{AreGoodIds, AreGoodSlots, FoundDown, FoundEach, FoundUnder};

use crate::wanted::Wanted;
use attr_uniquer::Uniquer;
use attr_value::ValueId;
use dialect_defs::{Constraint, VarId};

impl Wanted {
    /// Finds the values of some variables, one by one. Whether any is new.
    fn find_each(&mut self, vars: &[VarId], ids: &[ValueId]) -> bool
        requires vars { AreBelow (length self.old.slots.items) vars.now }
        requires many { length ids.now ≡ length vars.now }
        ensures { (values : Seq Value) (says : Tests) (types : Seq Def)
            → AreKnownSlots (length values) self.old.slots.items
            → AreGoodSlots values says types self.old.slots.items
            → AreKnown (length values) ids.now → AreGoodIds values says types ids.now
            → FoundEach says types values
            (λ final a. HaveEach a vars.now (values_at final ids.now))
            self.old.slots.items self.new.slots.items result vars.now (length vars.now) }
    {
        let mut changed = false;
        for (i, var) in vars.iter().enumerate() {
            changed |= self.find(*var, ids[i]);
        }
        changed
    }

    /// Finds the one value of some variables. Whether any is new.
    fn find_all(&mut self, vars: &[VarId], id: ValueId) -> bool
        requires { AreBelow (length self.old.slots.items) vars.now }
        ensures { (values : Seq Value) (says : Tests) (types : Seq Def)
            → AreKnownSlots (length values) self.old.slots.items
            → AreGoodSlots values says types self.old.slots.items
            → id.0 < length values → Good values says types (at values id.0)
            → FoundEach says types values
            (λ final a. AllByRecursion (λ w. Has a w (at final id.0)) vars.now)
            self.old.slots.items self.new.slots.items result vars.now (length vars.now) }
    {
        let mut changed = false;
        for var in vars {
            changed |= self.find(*var, id);
        }
        changed
    }

    /// Finds the values of the variables that a constraint names from that of its own variable.
    fn find_under(&mut self, u: &Uniquer, constraint: &Constraint, id: ValueId) -> bool
        requires named { AreBelow (length self.old.slots.items) (named_in constraint.now) }
        requires id { id.0 < length u.now }
        ensures { (says : Tests) (types : Seq Def)
            → AreKnownSlots (length u.now) self.old.slots.items
            → AreGoodSlots u.now says types self.old.slots.items
            → Good u.now says types (at u.now id.0)
            → FoundUnder says types u.now self.old.slots.items self.new.slots.items result id
            constraint.now }
    {
        match constraint {
            Constraint::Parametric { parts, .. } => {
                let (_, kids) = u.view(id);
                let parts = parts.as_slice();
                if kids.len() != parts.len() {
                    return false;
                }
                self.find_each(parts, kids)
            }
            Constraint::AllOf(members) => self.find_all(members.as_slice(), id),
            _ => false,
        }
    }

    /// Finds the values of the variables that a constraint names, where that of its own variable
    /// is found.
    pub(crate) fn find_down(&mut self, u: &Uniquer, whole: VarId, constraint: &Constraint) -> bool
        requires whole { whole.0 < length self.old.slots.items }
        requires named { AreBelow (length self.old.slots.items) (named_in constraint.now) }
        requires known { AreKnownSlots (length u.now) self.old.slots.items }
        ensures { (says : Tests) (types : Seq Def)
            → AreGoodSlots u.now says types self.old.slots.items
            → FoundDown says types u.now self.old.slots.items self.new.slots.items result whole
            constraint.now }
    {
        match self.slots[whole.0] {
            None => false,
            Some(id) => self.find_under(u, constraint, id),
        }
    }
}
