//! The rule that each hidden type can be found from what is shown.
//!
//! What is determined is found in rounds over the variables of the body, of which each but the last
//! adds one. A body has at most 64 variables.

ghost use Rattle.std.specs.Prelude.{◌≡◌, ◌↔◌, ℕ, ◌<◌, ◌≤◌, true, false, length, IsTrue, List, Bool};
ghost use Rattle.std.specs.Prelude.{IfSome, IfNone, Contains, slice_index_or};
ghost use Rattle.std.specs.List.{AllByRecursion};
ghost use Rattle.dialect_defs.specs.declared.entry.Arity.TheVariants.{Single};
ghost use Rattle.dialect_defs.specs.Bodies.{AreBelow};
ghost use Rattle.type_infer.specs.Determined.{Determined, Forced, Infers, IsOf, named_in};
ghost use Rattle.type_infer.specs.Marks.{In, Marked, left};
ghost use Rattle.type_infer.specs.Rule.{HasOrderedBody, ShowsBy, IsFirstUntold, Follows, IsClosed};
ghost use Rattle.type_infer.specs.Rule.{IsSingle, IsShownSingle, IsRequired, IsOpenAt, IsFirstOpen, MarkedAt};
ghost use Rattle.dialect_defs.specs.declared.body.Constraint.{Constraint};
ghost use Rattle.dialect_defs.specs.declared.body.VarId.{VarId};

use crate::entries::EntryRef;
use crate::marks::{Marks, no_marks};
use dialect_defs::{Arity, AttrEntry, Constraint, Entry, OpDef, VarId};

/// Adds the variable of a single entry.
fn mark_entry(marks: &mut Marks, entry: &Entry) -> bool
    requires { entry.now.var.0 < 64 }
    ensures { Marked marks.old.set marks.new.set result
        (λ v. (entry.now.arity ≡ Single) × (v ≡ entry.now.var)) }
{
    match entry.arity {
        Arity::Single => marks.mark(entry.var),
        Arity::Optional | Arity::Variadic => false,
    }
}

/// Adds the variable of a required attribute.
fn mark_attr(marks: &mut Marks, entry: &AttrEntry) -> bool
    requires { entry.now.var.0 < 64 }
    ensures { Marked marks.old.set marks.new.set result
        (λ v. (entry.now.optional ≡ false) × (v ≡ entry.now.var)) }
{
    if entry.optional {
        return false;
    }
    marks.mark(entry.var)
}

/// Adds the variable of a single entry whose type is shown.
fn mark_shown_entry(marks: &mut Marks, entry: &Entry, shown: bool) -> bool
    requires { entry.now.var.0 < 64 }
    ensures { Marked marks.old.set marks.new.set result
        (λ v. (entry.now.arity ≡ Single) × (shown ≡ true) × (v ≡ entry.now.var)) }
{
    if !shown {
        return false;
    }
    mark_entry(marks, entry)
}

/// Adds the variables of single entries.
fn mark_single(marks: &mut Marks, entries: &[Entry]) -> bool
    requires { AllByRecursion (λ e. e.var.0 < 64) entries.now }
    ensures { Marked marks.old.set marks.new.set result
        (IsSingle entries.now (length entries.now)) }
{
    let mut changed = false;
    for entry in entries {
        changed |= mark_entry(marks, entry);
    }
    changed
}

/// Adds the variables of single entries whose types are shown.
fn mark_shown(marks: &mut Marks, entries: &[Entry], shows: &[bool]) -> bool
    requires below { AllByRecursion (λ e. e.var.0 < 64) entries.now }
    requires as_many { length shows.now ≡ length entries.now }
    ensures { Marked marks.old.set marks.new.set result
        (IsShownSingle entries.now shows.now (length entries.now)) }
{
    let mut changed = false;
    for (i, entry) in entries.iter().enumerate() {
        changed |= mark_shown_entry(marks, entry, shows[i]);
    }
    changed
}

/// Adds the variables of required attributes.
fn mark_required(marks: &mut Marks, entries: &[AttrEntry]) -> bool
    requires { AllByRecursion (λ e. e.var.0 < 64) entries.now }
    ensures { Marked marks.old.set marks.new.set result
        (IsRequired entries.now (length entries.now)) }
{
    let mut changed = false;
    for entry in entries {
        changed |= mark_attr(marks, entry);
    }
    changed
}

/// Adds the parts or members of a variable that is in a set.
fn mark_under(marks: &mut Marks, whole: VarId, constraint: &Constraint) -> bool
    requires whole { whole.0 < 64 }
    requires named { AreBelow 64 (named_in constraint.now) }
    ensures { Marked marks.old.set marks.new.set result
        (λ v. In marks.old.set whole × Contains (named_in constraint.now) v) }
{
    if !marks.has(whole) {
        return false;
    }
    marks.mark_named(constraint)
}

/// Whether all variables are in a set.
fn are_all_in(marks: &Marks, vars: &[VarId]) -> bool
    requires { AreBelow 64 vars.now }
    ensures { IsTrue result ↔ AllByRecursion (In marks.now.set) vars.now }
{
    for v in vars {
        if !marks.has(*v) {
            return false;
        }
    }
    true
}

/// Whether any variable is in a set.
fn is_any_in(marks: &Marks, vars: &[VarId]) -> bool
    requires { AreBelow 64 vars.now }
    ensures { IsTrue result ↔ ((v : VarId) × Contains vars.now v × In marks.now.set v) }
{
    for v in vars {
        if marks.has(*v) {
            return true;
        }
    }
    false
}

/// Whether the value of a variable of this constraint follows from those of known variables.
fn follows(constraint: &Constraint, known: &Marks) -> bool
    requires { AreBelow 64 (named_in constraint.now) }
    ensures { IsTrue result ↔ Follows constraint.now (In known.now.set) }
{
    match constraint {
        Constraint::Is(_) => true,
        Constraint::Parametric { parts, .. } => are_all_in(known, parts.as_slice()),
        Constraint::AllOf(members) => is_any_in(known, members.as_slice()),
        Constraint::Any | Constraint::Base(_) | Constraint::AnyOf(_) | Constraint::Native(_) =>
            false,
    }
}

/// Adds a variable whose value follows from those of known variables.
fn mark_up(known: &mut Marks, v: VarId, constraint: &Constraint) -> bool
    requires v { v.0 < 64 }
    requires named { AreBelow 64 (named_in constraint.now) }
    ensures { Marked known.old.set known.new.set result
        (λ w. Follows constraint.now (In known.old.set) × (w ≡ v)) }
{
    if !follows(constraint, known) {
        return false;
    }
    known.mark(v)
}

/// Adds what is determined by a known variable that is forced: its parts or members.
fn mark_down(known: &mut Marks, forced: &Marks, whole: VarId, constraint: &Constraint) -> bool
    requires whole { whole.0 < 64 }
    requires named { AreBelow 64 (named_in constraint.now) }
    ensures { Marked known.old.set known.new.set result (λ v. In forced.now.set whole
        × In known.old.set whole × Contains (named_in constraint.now) v) }
{
    if !forced.has(whole) {
        return false;
    }
    mark_under(known, whole, constraint)
}

/// Adds the parts and members of forced variables, from the last variable of the body down: they
/// have lower numbers than their wholes.
fn close_down(d: &OpDef, forced: &mut Marks)
    requires sound { HasOrderedBody d.now }
    requires forced { (v : VarId) → In forced.old.set v → Forced d.now v }
    ensures kept { (v : VarId) → In forced.old.set v → In forced.new.set v }
    ensures forced { (v : VarId) → In forced.new.set v → Forced d.now v }
    ensures closed { (v whole : VarId) (c : Constraint) → IsOf d.now whole c
        → In forced.new.set whole → Contains (named_in c) v → In forced.new.set v }
{
    let vars = d.body.vars.as_slice();
    let mut v = vars.len();
    while v > 0 {
        v -= 1;
        let _ = mark_under(forced, VarId(v), &vars[v]);
    }
}

/// The forced variables of a definition.
pub(crate) fn forced_marks(d: &OpDef) -> Marks
    requires { HasOrderedBody d.now }
    ensures forced { (v : VarId) → In result.set v → Forced d.now v }
    ensures all { (v : VarId) → Forced d.now v → In result.set v }
{
    let mut forced = no_marks();
    let _ = mark_single(&mut forced, d.operands.as_slice());
    let _ = mark_single(&mut forced, d.results.as_slice());
    let _ = mark_required(&mut forced, d.attrs.as_slice());
    close_down(d, &mut forced);
    forced
}

/// Adds what follows at one variable, upwards and downwards.
fn mark_at(known: &mut Marks, forced: &Marks, v: VarId, constraint: &Constraint) -> bool
    requires v { v.0 < 64 }
    requires named { AreBelow 64 (named_in constraint.now) }
    ensures { MarkedAt known.old.set known.new.set result forced.now.set v constraint.now }
{
    let up = mark_up(known, v, constraint);
    let down = mark_down(known, forced, v, constraint);
    up | down
}

/// Adds what follows at each variable of the body, one after the other. Whether any is new.
fn mark_round(d: &OpDef, forced: &Marks, known: &mut Marks) -> bool
    requires sound { HasOrderedBody d.now }
    requires forced { (v : VarId) → In forced.now.set v → Forced d.now v }
    ensures kept { (v : VarId) → In known.old.set v → In known.new.set v }
    ensures sound { (operands : List Bool) (results : List Bool)
        → ((v : VarId) → In known.old.set v → Determined d.now (ShowsBy operands results) v)
        → (v : VarId) → In known.new.set v → Determined d.now (ShowsBy operands results) v }
    ensures fewer { result ≡ true → left known.new.set < left known.old.set }
    ensures closed { result ≡ false → IsClosed d.now (In forced.now.set) (In known.new.set) }
{
    let mut changed = false;
    for (v, constraint) in d.body.vars.as_slice().iter().enumerate() {
        changed |= mark_at(known, forced, VarId(v), constraint);
    }
    changed
}

/// Adds what is determined by known variables.
fn close(d: &OpDef, forced: &Marks, known: &mut Marks)
    requires sound { HasOrderedBody d.now }
    requires forced { (v : VarId) → In forced.now.set v → Forced d.now v }
    ensures kept { (v : VarId) → In known.old.set v → In known.new.set v }
    ensures sound { (operands : List Bool) (results : List Bool)
        → ((v : VarId) → In known.old.set v → Determined d.now (ShowsBy operands results) v)
        → (v : VarId) → In known.new.set v → Determined d.now (ShowsBy operands results) v }
    ensures closed { IsClosed d.now (In forced.now.set) (In known.new.set) }
{
    while mark_round(d, forced, known) {}
}

/// The determined variables of a definition, where these types are shown.
fn determined_marks(d: &OpDef, operands: &[bool], results: &[bool]) -> Marks
    requires sound { HasOrderedBody d.now }
    requires operands { length operands.now ≡ length d.now.operands }
    requires results { length results.now ≡ length d.now.results }
    ensures sound { (v : VarId) → In result.set v
        → Determined d.now (ShowsBy operands.now results.now) v }
    ensures all { (v : VarId) → Determined d.now (ShowsBy operands.now results.now) v
        → In result.set v }
{
    let forced = forced_marks(d);
    let mut known = no_marks();
    let _ = mark_shown(&mut known, d.operands.as_slice(), operands);
    let _ = mark_shown(&mut known, d.results.as_slice(), results);
    let _ = mark_required(&mut known, d.attrs.as_slice());
    close(d, &forced, &mut known);
    known
}

/// Whether an entry's type is hidden and its variable isn't in the set.
fn is_open(entry: &Entry, shown: bool, known: &Marks) -> bool
    requires { entry.now.var.0 < 64 }
    ensures { IsTrue result ↔ ((shown ≡ false)
        × (slice_index_or known.now.set entry.now.var.0 false ≡ false)) }
{
    !shown && !known.has(entry.var)
}

/// The first entry whose type is hidden and whose variable isn't in the set.
fn first_open(entries: &[Entry], shows: &[bool], known: &Marks) -> Option<usize>
    requires below { AllByRecursion (λ e. e.var.0 < 64) entries.now }
    requires as_many { length shows.now ≡ length entries.now }
    ensures some { IfSome result (IsFirstOpen entries.now shows.now known.now.set) }
    ensures none { IfNone result
        ((k : ℕ) → IsOpenAt entries.now shows.now known.now.set k → ⊥) }
{
    for (i, entry) in entries.iter().enumerate() {
        if is_open(entry, shows[i], known) {
            return Some(i);
        }
    }
    None
}

/// The first entry whose type is hidden and can't be found from what is shown: the first such
/// operand, else the first such result. `None` where there is none. It takes no memory.
pub fn first_untold(d: &OpDef, operands: &[bool], results: &[bool]) -> Option<EntryRef>
    requires sound { HasOrderedBody d.now }
    requires operands { length operands.now ≡ length d.now.operands }
    requires results { length results.now ≡ length d.now.results }
    ensures some { IfSome result (IsFirstUntold d.now (ShowsBy operands.now results.now)) }
    ensures none { IfNone result (Infers d.now (ShowsBy operands.now results.now)) }
{
    let known = determined_marks(d, operands, results);
    match first_open(d.operands.as_slice(), operands, &known) {
        Some(i) => Some(EntryRef::Operand(i)),
        None => match first_open(d.results.as_slice(), results, &known) {
            Some(k) => Some(EntryRef::Result(k)),
            None => None,
        },
    }
}
