//! Values that are found of variables from those of the variables that their constraints name.

ghost use Rattle.std.specs.Prelude.{◌≡◌, ◌<◌, List as Seq, length, IfOk, IfSome, IfNone};
ghost use Rattle.attr_value.specs.declared.head.Head.TheVariants as h;
ghost use Rattle.attr_value.specs.Ids.{at, kids_at, AreKnown};
ghost use Rattle.attr_value.specs.Values.{Value, value};
ghost use Rattle.dialect_defs.specs.Assignments.{Tests};
ghost use Rattle.dialect_defs.specs.Bodies.{AreBelow};
ghost use Rattle.dialect_defs.specs.Goodness.{Good};
ghost use Rattle.dialect_defs.specs.declared.body.Constraint.TheVariants.{Parametric, AllOf};
ghost use Rattle.dialect_defs.specs.declared.definition.TypeDef.{TypeDef as Def};
ghost use Rattle.native_predicate.specs.Lists.{tests, count};
ghost use Rattle.constraint_solver.specs.Definitions.{AreSoundDefs};
ghost use Rattle.constraint_solver.specs.Grown.{Extends};
ghost use Rattle.type_infer.specs.Asked.{AreKnownSlots};
ghost use Rattle.type_infer.specs.Determined.{named_in};
ghost use Rattle.type_infer.specs.Found.{AreGoodIds, AreGoodSlots, FoundUp, IsGoodConstant};

use crate::wanted::Wanted;
use attr_uniquer::Uniquer;
use attr_value::{Head, List, Text, ValueId};
use constraint_solver::good_head;
use dialect_defs::{Constraint, TypeDef, VarId};
use native_predicate::Natives;
use std::alloc::{AllocError, Global};

/// The dialect's type or attribute with these good parameters, which is kept from now on. `None`
/// where it isn't good.
fn good_whole(
    alloc: Global,
    types: &[TypeDef],
    natives: &Natives,
    u: &mut Uniquer,
    is_type: bool,
    name: &Text,
    ids: &List<ValueId>,
) -> Result<Option<ValueId>, AllocError>
    requires types { AreSoundDefs (length u.old) (count natives.now) types.now }
    requires known { AreKnown (length u.old) ids.now }
    requires good { AreGoodIds u.old (tests property natives.now) types.now ids.now }
    ensures grew { Extends u.old u.new }
    ensures value { IfOk result (λ found. IfSome found
        (λ id. at u.new id.0 ≡ value (h.Dialect is_type name.now) (kids_at u.old ids.now))) }
    ensures known { IfOk result (λ found. IfSome found (λ id. id.0 < length u.new)) }
    ensures good { IfOk result (λ found. IfSome found
        (λ id. Good u.new (tests property natives.now) types.now (at u.new id.0))) }
    ensures none { IfOk result (λ found. IfNone found
        (Good u.new (tests property natives.now) types.now
        (value (h.Dialect is_type name.now) (kids_at u.old ids.now)) → ⊥)) }
{
    let name = Text::from_slice(alloc, name.bytes())?;
    let id = u.intern(Head::Dialect { is_type, name }, ids.as_slice())?;
    if good_head(types, natives, u, id) {
        Ok(Some(id))
    } else {
        Ok(None)
    }
}

impl Wanted {
    /// Finds the value of a dialect's type or attribute, where its parameters are found and it is
    /// good. It is kept from now on. Whether none was found of the variable before.
    fn find_whole(
        &mut self,
        alloc: Global,
        types: &[TypeDef],
        natives: &Natives,
        u: &mut Uniquer,
        var: VarId,
        is_type: bool,
        name: &Text,
        parts: &[VarId],
    ) -> Result<bool, AllocError>
        requires types { AreSoundDefs (length u.old) (count natives.now) types.now }
        requires var { var.0 < length self.old.slots.items }
        requires parts { AreBelow (length self.old.slots.items) parts.now }
        requires known { AreKnownSlots (length u.old) self.old.slots.items }
        requires good { AreGoodSlots u.old (tests property natives.now) types.now
            self.old.slots.items }
        ensures grew { Extends u.old u.new }
        ensures found { IfOk result (λ new. FoundUp (tests property natives.now) types.now
            u.old u.new self.old.slots.items self.new.slots.items new var
            (Parametric is_type name.now parts.now)) }
    {
        match self.ids_of(alloc, parts)? {
            None => Ok(false),
            Some(ids) => {
                match good_whole(alloc, types, natives, u, is_type, name, &ids)? {
                    None => Ok(false),
                    Some(id) => Ok(self.find(var, id)),
                }
            }
        }
    }

    /// Finds the value of a variable, where one of its members is found.
    fn find_same(&mut self, var: VarId, members: &[VarId]) -> bool
        requires var { var.0 < length self.old.slots.items }
        requires members { AreBelow (length self.old.slots.items) members.now }
        ensures { (values : Seq Value) (says : Tests) (types : Seq Def)
            → AreKnownSlots (length values) self.old.slots.items
            → AreGoodSlots values says types self.old.slots.items
            → FoundUp says types values values self.old.slots.items self.new.slots.items result
            var (AllOf members.now) }
    {
        match self.id_of_any(members) {
            None => false,
            Some(id) => self.find(var, id),
        }
    }

    /// Finds the value of a variable from those of the variables that its constraint names.
    pub(crate) fn find_up(
        &mut self,
        alloc: Global,
        types: &[TypeDef],
        natives: &Natives,
        u: &mut Uniquer,
        var: VarId,
        constraint: &Constraint,
    ) -> Result<bool, AllocError>
        requires types { AreSoundDefs (length u.old) (count natives.now) types.now }
        requires var { var.0 < length self.old.slots.items }
        requires named { AreBelow (length self.old.slots.items) (named_in constraint.now) }
        requires constant { IsGoodConstant u.old (tests property natives.now) types.now
            constraint.now }
        requires known { AreKnownSlots (length u.old) self.old.slots.items }
        requires good { AreGoodSlots u.old (tests property natives.now) types.now
            self.old.slots.items }
        ensures grew { Extends u.old u.new }
        ensures found { IfOk result (λ new. FoundUp (tests property natives.now) types.now
            u.old u.new self.old.slots.items self.new.slots.items new var constraint.now) }
    {
        match constraint {
            Constraint::Is(id) => Ok(self.find(var, *id)),
            Constraint::Parametric {
                is_type,
                name,
                parts,
            } => self.find_whole(
                alloc,
                types,
                natives,
                u,
                var,
                *is_type,
                name,
                parts.as_slice(),
            ),
            Constraint::AllOf(members) => Ok(self.find_same(var, members.as_slice())),
            Constraint::Any | Constraint::Base(_) | Constraint::AnyOf(_) | Constraint::Native(_) =>
                { Ok(false) }
        }
    }
}
