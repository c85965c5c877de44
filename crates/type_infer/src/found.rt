//! Values that are found of variables.

ghost use Rattle.std.specs.Prelude.{◌≡◌, ◌<◌, length, IfOk, IfSome, IfNone, Contains, slice_get, Some};
ghost use Rattle.std.specs.List.{AllByRecursion};
ghost use Rattle.dialect_defs.specs.Bodies.{AreBelow};
ghost use Rattle.dialect_defs.specs.declared.body.VarId.{VarId as Var};
ghost use Rattle.type_infer.specs.Found.{Filled, HaveIds, IsFound};

use crate::wanted::Wanted;
use attr_value::{List, ValueId};
use dialect_defs::VarId;
use std::alloc::{AllocError, Global};

impl Wanted {
    /// Finds a value of a variable, unless one was found of it before. Whether none was.
    pub(crate) fn find(&mut self, var: VarId, id: ValueId) -> bool
        requires { var.0 < length self.old.slots.items }
        ensures { Filled self.old.slots.items self.new.slots.items result var id }
    {
        match self.slots[var.0] {
            None => {
                self.slots[var.0] = Some(id);
                true
            }
            Some(_) => false,
        }
    }

    /// The ids that were found of some variables. `None` where one has none.
    pub(crate) fn ids_of(
        &self,
        alloc: Global,
        vars: &[VarId],
    ) -> Result<Option<List<ValueId>>, AllocError>
        requires { AreBelow (length self.now.slots.items) vars.now }
        ensures some { IfOk result (λ found. IfSome found
            (λ ids. HaveIds self.now.slots.items vars.now ids)) }
        ensures none { IfOk result (λ found. IfNone found
            (AllByRecursion (IsFound self.now.slots.items) vars.now → ⊥)) }
    {
        let mut ids = List::new(alloc);
        for var in vars {
            match self.slots[var.0] {
                None => return Ok(None),
                Some(id) => ids.push(id)?,
            }
        }
        Ok(Some(ids))
    }

    /// The id that was found of one of some variables. `None` where none has one.
    pub(crate) fn id_of_any(&self, vars: &[VarId]) -> Option<ValueId>
        requires { AreBelow (length self.now.slots.items) vars.now }
        ensures some { IfSome result (λ id. (v : Var) × Contains vars.now v
            × (slice_get self.now.slots.items v.0 ≡ Some (Some id))) }
        ensures none { IfNone result ((v : Var) → Contains vars.now v
            → IsFound self.now.slots.items v → ⊥) }
    {
        for var in vars {
            match self.slots[var.0] {
                Some(id) => return Some(id),
                None => {}
            }
        }
        None
    }
}
