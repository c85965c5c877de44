//! The predicates that a program is given.

ghost use Rattle.std.specs.Prelude.{◌≡◌, ◌<◌, length, map, position, bytes_eq};
ghost use Rattle.attr_value.specs.Ids.{at};
ghost use Rattle.native_predicate.specs.Lists.{names, tests, count, says};

use crate::predicate::NativePredicate;
use attr_uniquer::Uniquer;
use attr_value::ValueId;

/// The predicates that a program is given, in order. Clauses see them by `names`, `tests` and
/// `count` of `specs/Lists.antt`.
#[derive(Drop)]
pub struct Natives {
    list: Vec<Box<dyn NativePredicate>>,
}

/// Whether a predicate has this name.
fn is_named(predicate: &Box<dyn NativePredicate>, name: &[u8]) -> bool
    ensures { result ≡ bytes_eq (title predicate.now) name.now }
{
    predicate.name().as_bytes() == name
}

/// The first place of a predicate with this name.
fn find_in(list: &[Box<dyn NativePredicate>], name: &[u8]) -> Option<usize>
    ensures { result ≡ position (λ own. bytes_eq own name.now) (map (λ p. title p) list.now) }
{
    for (i, predicate) in list.iter().enumerate() {
        if is_named(predicate, name) {
            return Some(i);
        }
    }
    None
}

/// Whether a value has the property of a predicate.
fn ask(predicate: &Box<dyn NativePredicate>, u: &Uniquer, v: ValueId) -> bool
    requires { v.0 < length u.now }
    ensures { result ≡ property predicate.now (at u.now v.0) }
{
    predicate.holds(u, v)
}

impl Natives {
    /// The predicates of this list. It takes no memory.
    pub fn new(list: Vec<Box<dyn NativePredicate>>) -> Natives
        ensures names { names (λ p. (⟦<dyn NativePredicate as NativePredicate>⟧ p.0).title p.1)
            result ≡ map (λ p. title p) list.items }
        ensures tests { tests (λ p. (⟦<dyn NativePredicate as NativePredicate>⟧ p.0).property p.1)
            result ≡ map (λ p. property p) list.items }
        ensures count { count result ≡ length list.items }
    {
        Natives { list }
    }

    /// How many predicates there are. It takes no memory.
    pub fn len(&self) -> usize
        ensures { result ≡ count self.now }
    {
        self.list.len()
    }

    /// The first place of this name in the list. `None` exactly where no predicate has it. It takes
    /// no memory.
    pub fn find(&self, name: &[u8]) -> Option<usize>
        ensures { result ≡ position (λ own. bytes_eq own name.now)
            (names (λ p. (⟦<dyn NativePredicate as NativePredicate>⟧ p.0).title p.1) self.now) }
    {
        find_in(&self.list, name)
    }

    /// Whether a value has the property of the predicate at a place. It takes no memory.
    pub fn holds(&self, i: usize, u: &Uniquer, v: ValueId) -> bool
        requires i { i < count self.now }
        requires v { v.0 < length u.now }
        ensures { result ≡ says (tests (λ p.
            (⟦<dyn NativePredicate as NativePredicate>⟧ p.0).property p.1) self.now)
            i (at u.now v.0) }
    {
        ask(&self.list[i], u, v)
    }
}
