//! What the columns are of every element, and what they say of formats. These functions do nothing:
//! their clauses are facts on all operations.

ghost use Rattle.std.specs.Prelude.{◌≡◌, ℕ, Bool, List, None, Some, true, false, ◌∷◌, ◌++◌, slice_get};
ghost use Rattle.ir_lexer.specs.Tokens.{Token};
ghost use Rattle.grammar.specs.Grammar.{Tokens};
ghost use Rattle.grammar.specs.Looks.{any};
ghost use Rattle.generic_syntax.specs.declared.module_cst.PartCst.{PartCst};
ghost use Rattle.generic_syntax.specs.declared.module_cst.RegionCst.{RegionCst};
ghost use Rattle.dialect_defs.specs.declared.definition.OpDef.{OpDef};
ghost use Rattle.dialect_defs.specs.declared.format.Element.{Element};
ghost use Rattle.dialect_defs.specs.declared.raw_format.RawElement.{RawElement};
ghost use Rattle.format_checker.specs.Accepted.{IsAccepted, IsReadable};
ghost use Rattle.format_checker.specs.Columns.{Kind, branch_empty};
ghost use Rattle.format_checker.specs.Decided.{AreRegions, AreSound, Shows, follow, is_one_token};
ghost use Rattle.format_checker.specs.declared.look.Look.{Look};
ghost use Rattle.format_checker.specs.Meeting.{IsFirstMeeting, first_meeting, meets_some};
ghost use Rattle.format_checker.specs.Fits.{can_anchor, looks, AnchorFits, Fits, FitsGroup};

/// The columns are those of the pieces: whether a piece may be empty, with which tokens one begins,
/// and, of an element that is no group, which tokens go on with a whole one.
pub fn columns_fit()
    // An element that is no group, by itself, or as the anchor of a taken group.
    ensures elements { (op : OpDef) (anchor : Bool) (k : Kind) →
        (anchor ≡ true → can_anchor k ≡ true) → Fits op anchor k }
    // A group whose first branch isn't empty where its anchor is there.
    ensures groups { (op : OpDef) (first otherwise : List Element) (anchor : ℕ) →
        AnchorFits (Some anchor) 0 first → branch_empty op (Some anchor) 0 first ≡ false →
        FitsGroup op first otherwise anchor }
{}

/// One token decides in a format that meets the condition: its tokens have one tree, and none that
/// may follow an operation goes on with them. What regions are is open.
pub fn formats_are_decided()
    ensures one { (op : OpDef) (es : List Element) (region : Tokens → RegionCst → Bool) →
        AreRegions region → AreSound op es → is_one_token op es (follow op.terminator) ≡ true →
        (ts : Tokens) (a b : List PartCst) →
        Shows region op es ts a → Shows region op es ts b → a ≡ b }
    ensures ends { (op : OpDef) (es : List Element) (region : Tokens → RegionCst → Bool) →
        AreRegions region → AreSound op es → is_one_token op es (follow op.terminator) ≡ true →
        (ts more : Tokens) (next : Token) (a b : List PartCst) →
        Shows region op es ts a → Shows region op es (ts ++ next ∷ more) b →
        any (looks (follow op.terminator)) next ≡ true → ⊥ }
{}

/// One token decides in a format that is accepted, as `check_format` gives it.
pub fn accepted_formats_are_decided()
    ensures readable { (op : OpDef) (raw : List RawElement) (es : List Element) →
        IsAccepted op raw es → IsReadable op es }
    ensures one { (op : OpDef) (raw : List RawElement) (es : List Element)
        (region : Tokens → RegionCst → Bool) → AreRegions region → IsAccepted op raw es →
        (ts : Tokens) (a b : List PartCst) →
        Shows region op es ts a → Shows region op es ts b → a ≡ b }
    ensures ends { (op : OpDef) (raw : List RawElement) (es : List Element)
        (region : Tokens → RegionCst → Bool) → AreRegions region → IsAccepted op raw es →
        (ts more : Tokens) (next : Token) (a b : List PartCst) →
        Shows region op es ts a → Shows region op es (ts ++ next ∷ more) b →
        any (looks (follow op.terminator)) next ≡ true → ⊥ }
{}

/// The look that is told where looks meet is the first of the own, in their order, that meets one of
/// the others; and none is told where none meets.
pub fn told_looks_are_first()
    ensures some { (own others : List Look) (l : Look) →
        first_meeting own others ≡ Some l → IsFirstMeeting own others l }
    ensures none { (own others : List Look) → first_meeting own others ≡ None →
        (i : ℕ) (m : Look) → slice_get own i ≡ Some m → meets_some m others ≡ false }
{}
