//! The judgement of numbers and of dense arrays, which have no kids.

ghost use Rattle.std.specs.Prelude.{◌≡◌, ◌<◌, ℕ, ◌∷◌, List as Seq, Some, None, length, map};
ghost use Rattle.std.specs.Prelude.{Bool, Option, IfOk, IfSome, option_map, option_and_then};
ghost use Rattle.attr_value.specs.declared.head.Head.TheVariants as h;
ghost use Rattle.attr_value.specs.Ids.{at};
ghost use Rattle.attr_value.specs.Values.{Value};
ghost use Rattle.constraint_solver.specs.Grown.{Extends};
ghost use Rattle.first_fault.specs.Firsts.{earlier_of, IsFirst};
ghost use Rattle.value_meaning.specs.Faults.{IsFaultAmong};
ghost use Rattle.value_meaning.specs.Judging.{Ground, IsGood, Judges, IsTypeJudged};
ghost use Rattle.value_meaning.specs.Meaning.{Mark, Seen, leaf, claim_at, counts, holds, spells};
ghost use Rattle.value_meaning.specs.Meaning.{type_marks};
ghost use Rattle.value_meaning.specs.Spelled.{all_some, dense_item, kind_of_head, number_head};
ghost use Rattle.value_meaning.specs.Spelled.{residue, signed_number};
ghost use Rattle.value_meaning.specs.Spelled as spec;

use crate::code::{INT_RANGE, SYNTAX};
use crate::dense::{Items, items_of};
use crate::judged::Judged;
use crate::node::leaf_of;
use crate::number::{kept_number, kind_of};
use attr_uniquer::Uniquer;
use attr_value::{Head, IntKind, Text, ValueId};
use first_fault::{Fault, earlier};
use generic_syntax::ItemCst;
use std::alloc::{AllocError, Global};

/// A number whose type is judged so; where no type stands behind it, it is an `i64`.
pub fn number(
    u: &mut Uniquer,
    place: u32,
    negative: bool,
    digits: &Text,
    ty: Option<Judged>,
) -> Result<Judged, AllocError>
    requires known { IfSome ty (λ t. IfSome t.value (λ id. id.0 < length u.old)) }
    ensures grown { Extends u.old u.new }
    ensures known { IfOk result (λ j. IfSome j.value (λ id. id.0 < length u.new)) }
    ensures judged { (g : Ground) (n : ℕ) (type : Option Seen) → IsTypeJudged g n type u.old ty →
        IfOk result (Judges g n
        (option_map leaf (number_head negative digits.now (option_map (λ t. t.value) type)))
        (claim_at place (counts negative digits.now (option_map (λ t. t.value) type))
        ∷ type_marks n type) u.new) }
{
    match ty {
        Some(ty) => {
            let kind = kind_at(u, ty.value);
            number_of(u, place, head_of(kind, negative, digits), ty.first)
        }
        None => {
            let kind = Some(IntKind::Signless(64));
            number_of(u, place, head_of(kind, negative, digits), None)
        }
    }
}

/// The kind of a good value that is an integer type.
fn kind_at(u: &Uniquer, value: Option<ValueId>) -> Option<IntKind>
    requires known { IfSome value (λ id. id.0 < length u.now) }
    ensures { result ≡ option_and_then (λ id. kind_of_head (at u.now id.0).head) value }
{
    match value {
        Some(id) => {
            let (head, _) = u.view(id);
            kind_of(head)
        }
        None => None,
    }
}

/// The head of a number of an integer type, where it may be written there.
fn head_of(kind: Option<IntKind>, negative: bool, digits: &Text) -> Option<Head>
    ensures { result ≡ option_and_then (λ kind. option_map (λ n. h.Number kind n)
        (residue kind (signed_number negative digits.now))) kind }
{
    match kind {
        Some(kind) => match kept_number(kind, negative, digits) {
            Some(n) => Some(Head::Number { kind, n }),
            None => None,
        },
        None => None,
    }
}

/// A number with this head, or without one where it may not be written at its type; beside it
/// stands the type's first fault.
fn number_of(
    u: &mut Uniquer,
    place: u32,
    head: Option<Head>,
    first: Option<Fault>,
) -> Result<Judged, AllocError>
    ensures grown { Extends u.old u.new }
    ensures known { IfOk result (λ j. IfSome j.value (λ id. id.0 < length u.new)) }
    ensures judged { (g : Ground) (n : ℕ) (negative : Bool) (digits : Seq ℕ)
        (type : Option (Option Value)) (ms : Seq Mark) →
        head ≡ number_head negative digits type →
        IsFirst (IsFaultAmong g.table g.tests g.types ms) first →
        IfOk result (Judges g n (option_map leaf (number_head negative digits type))
        (claim_at place (counts negative digits type) ∷ ms) u.new) }
{
    match head {
        Some(head) => leaf_beside(u, head, first),
        None => Ok(refused(place, INT_RANGE, first)),
    }
}

/// A dense array of items of a width in bits.
pub fn dense(
    alloc: Global,
    u: &mut Uniquer,
    place: u32,
    width: u32,
    items: &[ItemCst],
) -> Result<Judged, AllocError>
    ensures grown { Extends u.old u.new }
    ensures known { IfOk result (λ j. IfSome j.value (λ id. id.0 < length u.new)) }
    ensures judged { (g : Ground) (n : ℕ) → IfOk result (Judges g n
        (option_map (λ ns. leaf (h.Dense width ns)) (all_some (map (dense_item width) items.now)))
        (claim_at place (spells (spec.is_dense_width width))
        ∷ map (λ item. claim_at item.place (holds width item)) items.now) u.new) }
{
    let Items { numbers, first } = items_of(alloc, width, items)?;
    if !is_dense_width(width) {
        return Ok(refused(place, SYNTAX, first));
    }
    match numbers {
        Some(items) => leaf_beside(u, Head::Dense { width, items }, first),
        None => Ok(Judged { value: None, first }),
    }
}

/// Whether the items of a dense array may have this width.
fn is_dense_width(width: u32) -> bool
    ensures { result ≡ spec.is_dense_width width }
{
    width == 1 || width == 8 || width == 16 || width == 32 || width == 64
}

/// A good value without kids, beside the first fault of what else stands there.
fn leaf_beside(u: &mut Uniquer, head: Head, first: Option<Fault>) -> Result<Judged, AllocError>
    ensures grown { Extends u.old u.new }
    ensures known { IfOk result (λ j. IfSome j.value (λ id. id.0 < length u.new)) }
    ensures judged { (g : Ground) (n : ℕ) (ms : Seq Mark) → IsGood g (leaf head) →
        IsFirst (IsFaultAmong g.table g.tests g.types ms) first →
        IfOk result (Judges g n (Some (leaf head)) ms u.new) }
{
    let leaf = leaf_of(u, head)?;
    Ok(leaf.and(first))
}

/// Without a good value, for a fault of this rule, beside the first of what else stands there.
fn refused(place: u32, code: u32, first: Option<Fault>) -> Judged
    ensures value { result.value ≡ None }
    ensures first { result.first ≡ earlier_of (Some (record { place = place; code = code })) first }
{
    Judged {
        value: None,
        first: earlier(Some(Fault { place, code }), first),
    }
}
