//! Which values are good, and which are instances of definitions.

ghost use Rattle.std.specs.Prelude.{◌≡◌, ◌<◌, ◌↔◌, length, IsTrue};
ghost use Rattle.attr_value.specs.Ids.{at, kids_at, AreKnown};
ghost use Rattle.attr_value.specs.Values.{list_of};
ghost use Rattle.dialect_defs.specs.Goodness.{Good, IsDefined, IsInstance};
ghost use Rattle.native_predicate.specs.Lists.{tests, count};
ghost use Rattle.constraint_solver.specs.Definitions.{HasSoundBody, IsSoundDef, AreSoundDefs};
ghost use Rattle.constraint_solver.specs.Definitions.{HasGoodKids, IsInstanceOf};

use crate::assign::{assign_params, empty_slots};
use crate::search::solve_below;
use crate::sound::is_unconstrained;
use attr_uniquer::Uniquer;
use attr_value::{DEPTH_LIMIT, Head, Text, ValueId};
use dialect_defs::TypeDef;
use native_predicate::Natives;

/// Whether these kids are the parameters of an instance of this definition: there are as many, and
/// some assignment that meets the definition's body gives each parameter's variable the kid at its
/// place (`IsInstanceOf` in `specs/Definitions.antt`). It doesn't ask whether the kids are good,
/// nor how deep a value of them nests, which `good_head` tests. The body has at most
/// `VARIABLE_LIMIT` variables, or the definition is unconstrained and its kids are counted, as
/// `is_sound_def` tests. It takes no memory.
pub fn is_instance_of(d: &TypeDef, natives: &Natives, u: &Uniquer, kids: &[ValueId]) -> bool
    requires def { IsSoundDef (length u.now) (count natives.now) d.now }
    requires kids { AreKnown (length u.now) kids.now }
    ensures { IsTrue result ↔ IsInstanceOf u.now (tests property natives.now) d.now
        (list_of (kids_at u.now kids.now)) }
{
    if is_unconstrained(d) {
        return d.params.as_slice().len() == kids.len();
    }
    meets_with(d, natives, u, kids)
}

/// Whether some assignment that meets a definition's body gives the parameters these values.
fn meets_with(d: &TypeDef, natives: &Natives, u: &Uniquer, kids: &[ValueId]) -> bool
    requires def { HasSoundBody (length u.now) (count natives.now) d.now }
    requires kids { AreKnown (length u.now) kids.now }
    ensures { IsTrue result ↔ IsInstanceOf u.now (tests property natives.now) d.now
        (list_of (kids_at u.now kids.now)) }
{
    let params = d.params.as_slice();
    if params.len() != kids.len() {
        return false;
    }
    let n = d.body.vars.as_slice().len();
    let mut slots = empty_slots();
    if !assign_params(u, n, &mut slots, params, kids) {
        return false;
    }
    solve_below(u, natives, &d.body, n, &mut slots)
}

/// Whether a definition is of this kind, type or attribute, and has this full name. It takes no
/// memory.
pub fn is_defined_as(d: &TypeDef, is_type: bool, name: &Text) -> bool
    ensures { IsTrue result ↔ ((d.now.is_type ≡ is_type) × (d.now.name ≡ name.now)) }
{
    d.is_type == is_type && d.name == *name
}

/// Whether these kids are the parameters of an instance of some definition of this kind and full
/// name, such as `cmath.complex` (`IsInstance` in `specs/Goodness.antt` of `dialect_defs`). Where
/// several have the name, any of them will do; where none has, the answer is false; where one alone
/// has, it is that of `is_instance_of` (`instance-of-named` in `proofs/Instances.antt`). Like that,
/// it asks nothing of the kids' own rules and of depth. It takes no memory.
pub fn is_instance(
    types: &[TypeDef],
    natives: &Natives,
    u: &Uniquer,
    is_type: bool,
    name: &Text,
    kids: &[ValueId],
) -> bool
    requires types { AreSoundDefs (length u.now) (count natives.now) types.now }
    requires kids { AreKnown (length u.now) kids.now }
    ensures { IsTrue result ↔ IsInstance u.now (tests property natives.now) types.now is_type
        name.now (list_of (kids_at u.now kids.now)) }
{
    for d in types {
        if !is_defined_as(d, is_type, name) {
            continue;
        }
        if is_instance_of(d, natives, u, kids) {
            return true;
        }
    }
    false
}

/// Whether a head and kids are those of an instance of a definition, where the head is a dialect's.
fn is_defined(
    types: &[TypeDef],
    natives: &Natives,
    u: &Uniquer,
    head: &Head,
    kids: &[ValueId],
) -> bool
    requires types { AreSoundDefs (length u.now) (count natives.now) types.now }
    requires kids { AreKnown (length u.now) kids.now }
    ensures { IsTrue result ↔ IsDefined u.now (tests property natives.now) types.now head.now
        (list_of (kids_at u.now kids.now)) }
{
    match head {
        Head::Dialect { is_type, name } => is_instance(types, natives, u, *is_type, name, kids),
        _ => true,
    }
}

/// Whether a value whose kids are good is good with these definitions: it nests no deeper than
/// `DEPTH_LIMIT`, keeps to its head's rule, and is an instance of some definition of its kind and
/// name where it is a dialect's. It takes no memory.
pub fn good_head(types: &[TypeDef], natives: &Natives, u: &Uniquer, id: ValueId) -> bool
    requires types { AreSoundDefs (length u.now) (count natives.now) types.now }
    requires id { id.0 < length u.now }
    requires kids { HasGoodKids u.now (tests property natives.now) types.now (at u.now id.0) }
    ensures { IsTrue result ↔ Good u.now (tests property natives.now) types.now (at u.now id.0) }
{
    if u.depth(id) > DEPTH_LIMIT {
        return false;
    }
    let (head, kids) = u.view(id);
    if !u.keeps_own_rule(head, kids) {
        return false;
    }
    is_defined(types, natives, u, head, kids)
}
