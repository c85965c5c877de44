//! The judgement of forms that ask more of their kids: types, shapes and dialects' values.

ghost use Rattle.std.specs.Prelude.{◌≡◌, ◌<◌, ◌≤◌, ◌↔◌, ℕ, ◌+◌, ◌∷◌, [], ◌++◌, List, Some, None};
ghost use Rattle.std.specs.Prelude.{length, map, Option, IfOk, IfSome, IsTrue, option_map};
ghost use Rattle.std.specs.Prelude.{option_and_then, true, ◌≢◌, if◌then◌else◌};
ghost use Rattle.attr_value.specs.declared.head.Head.TheVariants as h;
ghost use Rattle.attr_value.specs.Ids.{AreKnown, kids_at};
ghost use Rattle.attr_value.specs.Values.{Value, list_of};
ghost use Rattle.dialect_defs.specs.Goodness.{IsInstance};
ghost use Rattle.first_fault.specs.Firsts.{IsFirst};
ghost use Rattle.native_predicate.specs.Lists.{tests};
ghost use Rattle.constraint_solver.specs.Grown.{Extends};
ghost use Rattle.value_meaning.specs.Bases.{basis_of};
ghost use Rattle.value_meaning.specs.Faults.{IsFaultOf};
ghost use Rattle.value_meaning.specs.Judging.{Ground, Judges, JudgesKids, CanJudge};
ghost use Rattle.value_meaning.specs.Judging.{IsOther, IsOfTypes, IsPart, with_table};
ghost use Rattle.value_meaning.specs.Meaning.{Mark, made_of, claim_at, measures, names};
ghost use Rattle.value_meaning.specs.Meaning as claim;
ghost use Rattle.value_meaning.specs.Spelled.{all_some, dim_of};

use crate::code::{NAME_UNKNOWN, PARAMETERS};
use crate::env::Env;
use crate::judged::{Judged, Kids};
use crate::node::{made, types_fault};
use crate::shape::dims_of;
use attr_uniquer::Uniquer;
use attr_value::{Head, ShapeKind, Text};
use constraint_solver::is_instance_of;
use first_fault::{Fault, earlier};
use std::alloc::{AllocError, Global};

/// A type that is made of types.
pub fn of_types(u: &mut Uniquer, place: u32, head: Head, kids: Kids) -> Result<Judged, AllocError>
    requires known { AreKnown (length u.old) kids.ids.items }
    ensures grown { Extends u.old u.new }
    ensures known { IfOk result (λ j. IfSome j.value (λ id. id.0 < length u.new)) }
    ensures judged { (g : Ground) (n : ℕ) (spelled : List (Option Value)) (ms : List Mark) →
        1 ≤ n → IsOther head → IsOfTypes g head (length spelled) →
        JudgesKids g (n + 1) spelled ms u.old kids →
        IfOk result (Judges g n (option_map (made_of head) (all_some spelled))
        (claim_at place (claim.types spelled) ∷ ms) u.new) }
{
    match types_fault(u, place, &kids) {
        Some(fault) => Ok(Judged::bad(fault, kids)),
        None => made(u, head, kids),
    }
}

/// A shaped type.
pub fn shape(
    alloc: Global,
    u: &mut Uniquer,
    place: u32,
    kind: ShapeKind,
    dims: &[Text],
    element: Kids,
) -> Result<Judged, AllocError>
    requires known { AreKnown (length u.old) element.ids.items }
    ensures grown { Extends u.old u.new }
    ensures known { IfOk result (λ j. IfSome j.value (λ id. id.0 < length u.new)) }
    ensures judged { (g : Ground) (n : ℕ) (spelled : Option Value) (ms : List Mark) →
        1 ≤ n → JudgesKids g (n + 1) (spelled ∷ []) ms u.old element →
        IfOk result (Judges g n (option_and_then
        (λ ds. option_map (λ v. made_of (h.Shaped kind ds) (v ∷ [])) spelled)
        (all_some (map (dim_of kind) dims.now)))
        (claim_at place (claim.types (spelled ∷ []))
        ∷ claim_at place (measures kind dims.now spelled) ∷ ms) u.new) }
{
    match dims_of(alloc, kind, dims)? {
        Some(dims) => of_types(u, place, Head::Shaped { kind, dims }, element),
        None => Ok(wrong_shape(u, place, element)),
    }
}

/// A shaped type with a dimension that isn't right. That is asked only where the element type is
/// good.
fn wrong_shape(u: &Uniquer, place: u32, element: Kids) -> Judged
    requires known { AreKnown (length u.now) element.ids.items }
    ensures value { result.value ≡ None }
    ensures judged { (g : Ground) (n : ℕ) (spelled : Option Value) (ms : List Mark)
        (kind : ShapeKind) (dims : List (List ℕ)) → all_some (map (dim_of kind) dims) ≡ None →
        JudgesKids g (n + 1) (spelled ∷ []) ms u.now element →
        Judges g n None (claim_at place (claim.types (spelled ∷ []))
        ∷ claim_at place (measures kind dims spelled) ∷ ms) u.now result }
{
    let fault = types_fault(u, place, &element);
    let first = earlier(parameters_fault(place, element.all_good), element.first);
    Judged {
        value: None,
        first: earlier(fault, first),
    }
}

/// The fault of parameters or dimensions that aren't right, where that is asked.
fn parameters_fault(place: u32, is_asked: bool) -> Option<Fault>
    ensures { result ≡
        if is_asked then Some (record { place = place; code = PARAMETERS }) else None }
{
    if !is_asked {
        return None;
    }
    Some(Fault {
        place,
        code: PARAMETERS,
    })
}

/// The fault of a name that isn't defined, or else of parameters that are those of no instance.
fn dialect_fault(
    env: &Env,
    u: &Uniquer,
    place: u32,
    is_type: bool,
    name: &Text,
    args: &Kids,
) -> Option<Fault>
    requires can { CanJudge (length u.now) (basis_of property env.now) }
    requires known { AreKnown (length u.now) args.now.ids.items }
    ensures first { (table : List Value) (n : ℕ) (spelled : List (Option Value)) (ms : List Mark) →
        IsPart (basis_of property env.now) table u.now n spelled ms args.now →
        IsFirst (IsFaultOf table (tests property env.now.natives.now) env.now.types.now
        (claim_at place (names is_type name.now spelled))) result }
    ensures right { result ≡ None → args.now.all_good ≡ true →
        IsInstance u.now (tests property env.now.natives.now) env.now.types.now is_type name.now
        (list_of (kids_at u.now args.now.ids.items)) }
    ensures wrong { result ≢ None → args.now.all_good ≡ true →
        IsInstance u.now (tests property env.now.natives.now) env.now.types.now is_type name.now
        (list_of (kids_at u.now args.now.ids.items)) → ⊥ }
{
    let Some(d) = env.types.find(is_type, name) else {
        return Some(Fault {
            place,
            code: NAME_UNKNOWN,
        });
    };
    if !args.all_good {
        return None;
    }
    if is_instance_of(d, env.natives, u, &args.ids) {
        return None;
    }
    Some(Fault {
        place,
        code: PARAMETERS,
    })
}

/// A value of a dialect.
pub fn dialect(
    env: &Env,
    u: &mut Uniquer,
    place: u32,
    is_type: bool,
    name: &Text,
    args: Kids,
) -> Result<Judged, AllocError>
    requires can { CanJudge (length u.old) (basis_of property env.now) }
    requires known { AreKnown (length u.old) args.ids.items }
    ensures grown { Extends u.old u.new }
    ensures known { IfOk result (λ j. IfSome j.value (λ id. id.0 < length u.new)) }
    ensures judged { (table : List Value) (n : ℕ) (spelled : List (Option Value)) (ms : List Mark) →
        IsPart (basis_of property env.now) table u.old (n + 1) spelled ms args → 1 ≤ n →
        IfOk result (Judges (with_table (basis_of property env.now) table) n
        (option_map (made_of (h.Dialect is_type name.now)) (all_some spelled))
        (claim_at place (names is_type name.now spelled) ∷ ms) u.new) }
{
    match dialect_fault(env, u, place, is_type, name, &args) {
        Some(fault) => Ok(Judged::bad(fault, args)),
        None => {
            let name = Text::from_slice(env.alloc, name.bytes())?;
            made(u, Head::Dialect { is_type, name }, args)
        }
    }
}
