//! The items of dense arrays.

ghost use Rattle.std.specs.Prelude.{◌≡◌, List as Seq, map, IfOk};
ghost use Rattle.attr_value.specs.Values.{Value};
ghost use Rattle.dialect_defs.specs.declared.definition.TypeDef.{TypeDef};
ghost use Rattle.dialect_defs.specs.Assignments.{Tests};
ghost use Rattle.first_fault.specs.Firsts.{IsFirst};
ghost use Rattle.value_meaning.specs.Faults.{IsFaultAmong, IsFaultOf};
ghost use Rattle.value_meaning.specs.Meaning.{claim_at, holds};
ghost use Rattle.value_meaning.specs.Spelled.{all_some, looked_up, truths};
ghost use Rattle.value_meaning.specs.Spelled as spec;

use crate::code::INT_RANGE;
use crate::number::kept_number;
use attr_value::{IntKind, List};
use first_fault::{Fault, earlier};
use generic_syntax::ItemCst;
use std::alloc::{AllocError, Global};

/// What the items of a dense array spell.
#[derive(Drop)]
pub struct Items {
    /// The numbers that are kept; `None` where an item may not be written.
    pub numbers: Option<List<i64>>,
    /// The first item, by place, that may not be written.
    pub first: Option<Fault>,
}

/// What the items of a dense array of a width spell, and the first that may not be written there.
pub fn items_of(alloc: Global, width: u32, items: &[ItemCst]) -> Result<Items, AllocError>
    ensures numbers { IfOk result
        (λ r. r.numbers ≡ all_some (map (spec.dense_item width) items.now)) }
    ensures first { IfOk result
        (λ r. (values : Seq Value) (tests : Tests) (types : Seq TypeDef)
        → IsFirst (IsFaultAmong values tests types
        (map (λ item. claim_at item.place (holds width item)) items.now)) r.first) }
{
    match numbers_of(alloc, width, items)? {
        Some(numbers) => Ok(Items {
            numbers: Some(numbers),
            first: None,
        }),
        None => Ok(Items {
            numbers: None,
            first: first_wrong(width, items),
        }),
    }
}

/// The numbers that are kept of items; `None` where one may not be written.
fn numbers_of(alloc: Global, width: u32, items: &[ItemCst]) -> Result<Option<List<i64>>, AllocError>
    ensures { IfOk result (λ r. r ≡ all_some (map (spec.dense_item width) items.now)) }
{
    let mut numbers = List::new(alloc);
    for item in items {
        let Some(n) = dense_item(width, item) else {
            return Ok(None);
        };
        numbers.push(n)?;
    }
    Ok(Some(numbers))
}

/// The first of items, by place, that may not be written.
fn first_wrong(width: u32, items: &[ItemCst]) -> Option<Fault>
    ensures { (values : Seq Value) (tests : Tests) (types : Seq TypeDef)
        → IsFirst (IsFaultAmong values tests types
        (map (λ item. claim_at item.place (holds width item)) items.now)) result }
{
    let mut first = None;
    for item in items {
        first = earlier(first, fault_of(width, item));
    }
    first
}

/// The fault of an item, where it may not be written.
fn fault_of(width: u32, item: &ItemCst) -> Option<Fault>
    ensures { (values : Seq Value) (tests : Tests) (types : Seq TypeDef)
        → IsFirst (IsFaultOf values tests types
        (claim_at item.now.place (holds width item.now))) result }
{
    match dense_item(width, item) {
        Some(_) => None,
        None => Some(Fault {
            place: item.place,
            code: INT_RANGE,
        }),
    }
}

/// The number that is kept of an item, where it may be written.
fn dense_item(width: u32, item: &ItemCst) -> Option<i64>
    ensures { result ≡ spec.dense_item width item.now }
{
    let truth = truth_of(item.spelling.bytes());
    if width == 1 {
        return truth;
    }
    if truth.is_some() {
        return None;
    }
    match kept_number(IntKind::Signless(width), item.negative, &item.spelling) {
        Some(n) => Some(n as i64),
        None => None,
    }
}

/// The number that is kept of a truth value, by its word.
fn truth_of(word: &[u8]) -> Option<i64>
    ensures { result ≡ looked_up truths word.now }
{
    match word {
        b"true" => Some(-1),
        b"false" => Some(0),
        _ => None,
    }
}
