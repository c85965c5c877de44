//! The sizes of the segments into which an operation's operands or results fall, one for each
//! entry of its definition.
//!
//! `specs/Segments.antt` of `dialect_defs` says which sizes these are.
#![tactic(auto)]

ghost use Rattle.std.specs.Prelude.{◌≡◌, ◌≤◌, ◌-◌, ◌↔◌, ℕ, List, IsTrue, IfSome, IsSomeAnd};
ghost use Rattle.std.specs.Prelude.{length, sum, map, pos, option_copied, true};
ghost use Rattle.dialect_defs.specs.Segments.{FitEach, Segments};
ghost use Rattle.segment_match.specs.Spread.{flexible, spread};

use arrayvec::ArrayVec;
use dialect_defs::{Arity, ENTRY_LIMIT, Entry};

/// Whether the sizes fit the entries and are `count` in all.
fn fits(entries: &[Entry], sizes: &[usize], count: usize) -> bool
    ensures { IsTrue result ↔ (FitEach entries.now sizes.now × (sum sizes.now ≡ count)) }
{
    if entries.len() != sizes.len() {
        return false;
    }
    let mut left = count;
    for (i, entry) in entries.iter().enumerate() {
        let size = sizes[i];
        let fit = match entry.arity {
            Arity::Single => size == 1,
            Arity::Optional => size <= 1,
            Arity::Variadic => true,
        };
        if !fit || size > left {
            return false;
        }
        left -= size;
    }
    left == 0
}

/// How many entries aren't single.
fn count_flexible(entries: &[Entry]) -> usize
    ensures { result ≡ flexible entries.now }
{
    let mut n = 0;
    for entry in entries {
        match entry.arity {
            Arity::Single => {}
            Arity::Optional | Arity::Variadic => n += 1,
        }
    }
    n
}

/// The sizes where at most one entry isn't single: 1 for a single entry, `rest` for the other.
fn spread_over(entries: &[Entry], rest: usize) -> ArrayVec<usize, ENTRY_LIMIT>
    requires { length entries.now ≤ ENTRY_LIMIT }
    ensures { result.items ≡ spread entries.now rest }
{
    let mut sizes = ArrayVec::new();
    for entry in entries {
        let size = match entry.arity {
            Arity::Single => 1,
            Arity::Optional | Arity::Variadic => rest,
        };
        sizes.push(size);
    }
    sizes
}

/// What the single entries leave of `count`, at least 0.
fn rest_of(entries: &[Entry], count: usize) -> usize
    ensures { result ≡ count - (length entries.now - flexible entries.now) }
{
    let singles = entries.len() - count_flexible(entries);
    count.saturating_sub(singles)
}

/// The sizes, where they fit and are `count` in all.
fn checked(
    entries: &[Entry],
    sizes: ArrayVec<usize, ENTRY_LIMIT>,
    count: usize,
) -> Option<ArrayVec<usize, ENTRY_LIMIT>>
    ensures some { IfSome result (λ v. FitEach entries.now v.items × (sum v.items ≡ count)) }
    ensures same { IfSome result (λ v. v.items ≡ sizes.items) }
    ensures only { FitEach entries.now sizes.items → sum sizes.items ≡ count
        → IsSomeAnd result (λ v. v.items ≡ sizes.items) }
{
    if fits(entries, sizes.as_slice(), count) {
        Some(sizes)
    } else {
        None
    }
}

/// Given sizes, where none of them is negative.
fn read_given(given: &[i64]) -> Option<ArrayVec<usize, ENTRY_LIMIT>>
    requires { length given.now ≤ ENTRY_LIMIT }
    ensures some { IfSome result (λ v. given.now ≡ map pos v.items) }
    ensures only { (s : List ℕ) → given.now ≡ map pos s → IsSomeAnd result (λ v. v.items ≡ s) }
{
    let mut sizes = ArrayVec::new();
    for item in given {
        let item = *item;
        if item < 0 {
            return None;
        }
        sizes.push(item as usize);
    }
    Some(sizes)
}

/// The sizes of the segments of `count` values, one for each entry; `None` where there are none.
/// There is never more than one such list. Where two or more entries aren't single, it is the
/// given one; else `given` isn't looked at. It takes no memory.
pub fn sizes(
    entries: &[Entry],
    count: usize,
    given: Option<&[i64]>,
) -> Option<ArrayVec<usize, ENTRY_LIMIT>>
    requires { length entries.now ≤ ENTRY_LIMIT }
    ensures some { IfSome result (λ s.
        Segments entries.now count (option_copied given.entry) s.items) }
    ensures only { (s : List ℕ) → Segments entries.now count (option_copied given.entry) s
        → IsSomeAnd result (λ found. found.items ≡ s) }
{
    if count_flexible(entries) < 2 {
        return checked(
            entries,
            spread_over(entries, rest_of(entries, count)),
            count,
        );
    }
    let list = given?;
    if list.len() != entries.len() {
        return None;
    }
    checked(entries, read_given(list)?, count)
}

#[cfg(test)]
mod tests;
