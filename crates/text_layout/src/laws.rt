//! What layouts are, whoever writes them. These functions do nothing: their clauses are facts on
//! all lists of marks.

ghost use Rattle.std.specs.Prelude.{◌≡◌, ◌↔◌, ℕ, List, [], ◌++◌, Result, Ok, Err, Option, true, false};
ghost use Rattle.ir_lexer.specs.declared.class.Class.{Class};
ghost use Rattle.ir_lexer.specs.Spelling.{Text, Spells};
ghost use Rattle.ir_lexer.specs.Tokens.{AreTokens};
ghost use Rattle.ir_lexer.specs.Written.{NoneLonger};
ghost use Rattle.text_layout.specs.declared.error.PrintError.{PrintError};
ghost use Rattle.text_layout.specs.Apart.{AreSpelled, are_apart, may_run_together, never_clash, tokens_of};
ghost use Rattle.text_layout.specs.Lines.{Mark, is_tight, stays_apart, layout};
ghost use Rattle.text_layout.specs.Moment.{Moment, first_moment, Lays, Ended, Wrote};

/// Marks that are laid down one after another are laid down together, and from a new layout to its
/// end they are the text of `layout`.
pub fn adds_up()
    // No marks are laid down by doing nothing.
    ensures nothing { (m : Moment) → Lays m [] (Ok tt) m }
    // Marks, and then others, of which all went in or one met an error.
    ensures behind { (a b c : Moment) (ms ns : List Mark) (r : Result (Unit {0}) PrintError) →
        Lays a ms (Ok tt) b → Lays b ns r c → Lays a (ms ++ ns) r c }
    // Behind an error the other marks aren't tried.
    ensures stopped { (a b : Moment) (ms ns : List Mark) (e : PrintError) →
        Lays a ms (Err e) b → Lays a (ms ++ ns) (Err e) b }
    // From a new layout to its end, whose answer tells of all marks, and to an error before it.
    ensures whole { (w v : Option Text) (f n : ℕ) (marks : List Mark) (m : Moment)
        (r s : Result (Unit {0}) PrintError) → Lays (first_moment w f) marks r m →
        Ended m s v n → Wrote w f (layout marks) s v n }
    ensures cut { (w : Option Text) (f : ℕ) (marks : List Mark) (m : Moment) (e : PrintError) →
        Lays (first_moment w f) marks (Err e) m →
        Wrote w f (layout marks) (Err e) m.flow.written m.flow.faults }
{}

/// The bytes have the tokens again. Where no tokens that may run together stand side by side
/// without a gap, the lexer reads from a layout the classes and texts that were handed in, in their
/// order, at their places, and then the end.
pub fn reads_back()
    ensures tokens { (marks : List Mark) → AreSpelled marks → are_apart marks ≡ true →
        AreTokens (layout marks) (tokens_of marks) }
    // Classes alone may tell that it is so.
    ensures classes { (marks : List Mark) → never_clash marks ≡ true → are_apart marks ≡ true }
    // Each gap rule that puts no space keeps two spellings apart, whatever follows, but for the six
    // pairs of classes.
    ensures tight { (first a b : Class) (x y rest : Text) → Spells a x → Spells b y →
        is_tight first a x b ≡ true → may_run_together a b ≡ false → NoneLonger x (y ++ rest) }
    // An empty literal puts no space where no spelling is longer than the first of the two texts.
    ensures empty { (a : Class) (x y : Text) → Spells a x →
        (stays_apart x y ≡ true ↔ NoneLonger x y) }
{}
