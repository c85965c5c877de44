//! The judgement of one form of a value, where that of its parts is known.

ghost use Rattle.std.specs.Prelude.{◌≡◌, ◌<◌, ◌≤◌, ◌≢◌, ℕ, ◌+◌, ◌-◌, ◌∷◌, [], List, Some, None};
ghost use Rattle.std.specs.Prelude.{true, length, Option};
ghost use Rattle.std.specs.Prelude.{IfOk, IfSome, option_map, is_some, nat_lt};
ghost use Rattle.std.specs.List.{AllByRecursion};
ghost use Rattle.attr_value.specs.declared.head.Head.TheVariants as h;
ghost use Rattle.attr_value.specs.Heads.{IsType};
ghost use Rattle.attr_value.specs.Ids.{kids_at, AreKnown};
ghost use Rattle.attr_value.specs.Values.{Value, list_of};
ghost use Rattle.constraint_solver.specs.Grown.{Extends};
ghost use Rattle.first_fault.specs.Firsts.{IsFirst};
ghost use Rattle.generic_syntax.specs.declared.parse.TheConstants.{TOO_DEEP};
ghost use Rattle.value_meaning.specs.Bases.{basis_of};
ghost use Rattle.value_meaning.specs.Judging.{Ground, IsGood, Judges, JudgesKids};
ghost use Rattle.value_meaning.specs.Faults.{IsFaultOf};
ghost use Rattle.value_meaning.specs.Judging.{CanJudge, ByEach, IsOther, Keeps};
ghost use Rattle.value_meaning.specs.Meaning.{Mark, leaf, made_of, claim_at, spells, mentions};
ghost use Rattle.value_meaning.specs.Meaning as claim;
ghost use Rattle.value_meaning.specs.Spelled.{word_head, all_some};

use crate::code::{ALIAS_UNKNOWN, NESTING, SYNTAX};
use crate::env::Env;
use crate::judged::{Judged, Kids};
use crate::word::head_of_word;
use attr_uniquer::Uniquer;
use attr_value::{DEPTH_LIMIT, Head, List, Text};
use first_fault::Fault;
use generic_syntax::TOO_DEEP;
use std::alloc::{AllocError, Global};

/// A value without kids.
pub fn leaf_of(u: &mut Uniquer, head: Head) -> Result<Judged, AllocError>
    ensures grown { Extends u.old u.new }
    ensures known { IfOk result (λ j. IfSome j.value (λ id. id.0 < length u.new)) }
    ensures judged { (g : Ground) (n : ℕ) → IsGood g (leaf head) →
        IfOk result (Judges g n (Some (leaf head)) [] u.new) }
{
    let id = u.intern(head, &[])?;
    Ok(Judged {
        value: Some(id),
        first: None,
    })
}

/// A word.
pub fn word(u: &mut Uniquer, place: u32, word: &Text) -> Result<Judged, AllocError>
    ensures grown { Extends u.old u.new }
    ensures known { IfOk result (λ j. IfSome j.value (λ id. id.0 < length u.new)) }
    ensures judged { (g : Ground) (n : ℕ) → IfOk result (Judges g n
        (option_map leaf (word_head word.now))
        (claim_at place (spells (is_some (word_head word.now))) ∷ []) u.new) }
{
    match head_of_word(word) {
        Some(head) => leaf_of(u, head),
        None => Ok(Judged::wrong(place, SYNTAX)),
    }
}

/// How deep a value may be that stands at a nesting.
fn room(nesting: u32) -> usize
    ensures { result ≡ TOO_DEEP - nesting }
{
    TOO_DEEP.saturating_sub(nesting) as usize
}

/// A mention of an alias.
pub fn mention(
    env: &Env,
    u: &Uniquer,
    is_type: bool,
    name: &Text,
    place: u32,
    nesting: u32,
) -> Judged
    requires can { CanJudge (length u.now) (basis_of property env.now) }
    ensures known { IfSome result.value (λ id. id.0 < length u.now) }
    ensures judged { ByEach (basis_of property env.now) u.now nesting (λ g n aliases.
        Judges g n (aliases is_type name.now)
        (claim_at place (mentions n (aliases is_type name.now)) ∷ []) u.now result) }
{
    let Some(id) = env.aliases.get(is_type, name) else {
        return Judged::wrong(place, ALIAS_UNKNOWN);
    };
    let judged = Judged {
        value: Some(id),
        first: None,
    };
    if u.depth(id) > room(nesting) {
        return judged.and(Some(Fault {
            place,
            code: NESTING,
        }));
    }
    judged
}

/// A string, as its bytes.
pub fn string(alloc: Global, u: &mut Uniquer, bytes: &Text) -> Result<Judged, AllocError>
    ensures grown { Extends u.old u.new }
    ensures known { IfOk result (λ j. IfSome j.value (λ id. id.0 < length u.new)) }
    ensures judged { (g : Ground) (n : ℕ) →
        IfOk result (Judges g n (Some (leaf (h.Str bytes.now))) [] u.new) }
{
    let bytes = Text::from_slice(alloc, bytes.bytes())?;
    leaf_of(u, Head::Str(bytes))
}

/// A symbol, of its parts.
pub fn symbol(
    alloc: Global,
    u: &mut Uniquer,
    place: u32,
    parts: &[Text],
) -> Result<Judged, AllocError>
    ensures grown { Extends u.old u.new }
    ensures known { IfOk result (λ j. IfSome j.value (λ id. id.0 < length u.new)) }
    ensures judged { (g : Ground) (n : ℕ) →
        IfOk result (Judges g n (Some (leaf (h.Symbol parts.now)))
        (claim_at place (spells (nat_lt 0 (length parts.now))) ∷ []) u.new) }
{
    if parts.is_empty() {
        return Ok(Judged::wrong(place, SYNTAX));
    }
    let parts = copied(alloc, parts)?;
    leaf_of(u, Head::Symbol { parts })
}

/// The same texts.
fn copied(alloc: Global, texts: &[Text]) -> Result<List<Text>, AllocError>
    ensures { IfOk result (λ list. list ≡ texts.now) }
{
    let mut list = List::new(alloc);
    for text in texts {
        list.push(Text::from_slice(alloc, text.bytes())?)?;
    }
    Ok(list)
}

/// A value made of others, where these are good and it keeps to its rules.
pub fn made(u: &mut Uniquer, head: Head, kids: Kids) -> Result<Judged, AllocError>
    requires known { AreKnown (length u.old) kids.ids.items }
    ensures grown { Extends u.old u.new }
    ensures known { IfOk result (λ j. IfSome j.value (λ id. id.0 < length u.new)) }
    ensures judged { (g : Ground) (n : ℕ) (spelled : List (Option Value)) (ms : List Mark) →
        1 ≤ n → IsOther head → JudgesKids g (n + 1) spelled ms u.old kids →
        (kids.all_good ≡ true → Keeps g head (list_of (kids_at u.old kids.ids.items))) →
        IfOk result (Judges g n (option_map (made_of head) (all_some spelled)) ms u.new) }
{
    if !kids.all_good {
        return Ok(Judged {
            value: None,
            first: kids.first,
        });
    }
    let id = u.intern(head, &kids.ids)?;
    if u.depth(id) > DEPTH_LIMIT {
        return Ok(Judged {
            value: None,
            first: kids.first,
        });
    }
    Ok(Judged {
        value: Some(id),
        first: kids.first,
    })
}

/// The fault of what stands where types are asked, and isn't one. Types are what a tuple may hold.
pub fn types_fault(u: &Uniquer, place: u32, kids: &Kids) -> Option<Fault>
    requires known { AreKnown (length u.now) kids.now.ids.items }
    ensures first { (g : Ground) (n : ℕ) (spelled : List (Option Value)) (ms : List Mark) →
        JudgesKids g n spelled ms u.now kids.now →
        IsFirst (IsFaultOf g.table g.tests g.types (claim_at place (claim.types spelled))) result }
    ensures types { kids.now.all_good ≡ true → result ≡ None →
        AllByRecursion IsType (list_of (kids_at u.now kids.now.ids.items)) }
    ensures wrong { result ≢ None → (kids.now.all_good ≡ true)
        × (AllByRecursion IsType (list_of (kids_at u.now kids.now.ids.items)) → ⊥) }
{
    if !kids.all_good {
        return None;
    }
    if u.keeps_own_rule(&Head::Tuple, &kids.ids) {
        return None;
    }
    Some(Fault {
        place,
        code: SYNTAX,
    })
}
