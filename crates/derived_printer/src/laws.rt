//! What the canonical text of a value is to whoever reads it, and which values have one. These
//! functions do nothing: their clauses are facts on all values.

ghost use Rattle.std.specs.Prelude.{◌≡◌, false, List, ℤ};
ghost use Rattle.attr_value.specs.declared.kind.IntKind.{IntKind};
ghost use Rattle.attr_value.specs.Heads.{IsType};
ghost use Rattle.attr_value.specs.Numbers.{IsKept};
ghost use Rattle.attr_value.specs.Values.{Value};
ghost use Rattle.dialect_defs.specs.declared.definition.TypeDef.{TypeDef};
ghost use Rattle.dialect_defs.specs.Assignments.{Tests};
ghost use Rattle.dialect_defs.specs.Goodness.{Good};
ghost use Rattle.derived_printer.specs.ReadBack.{is_function, IsReadAs, IsNumberOf, HasTokensOf};
ghost use Rattle.derived_printer.specs.ReadBack.{IsTextOf};
ghost use Rattle.derived_printer.specs.Spellable.{HaveFullNames, Spellable, HasBytes};
ghost use Rattle.derived_printer.specs.ValueMarks.{number_marks, value_marks};
ghost use Rattle.generic_syntax.specs.Values.{a_type, plain, an_attr};
ghost use Rattle.grammar.specs.Grammar.{Tokens};
ghost use Rattle.text_layout.specs.Gives.{MarksSpell};
ghost use Rattle.text_layout.specs.Lines.{layout};
ghost use Rattle.value_meaning.specs.Meaning.{Aliases};

/// The canonical text of a value has the value again, wherever it stands and whatever aliases there
/// are.
pub fn value_reads_back()
    // What is read from the text, where an attribute is asked, is the value and all of the text.
    ensures text { (aliases : Aliases) (v : Value) → Spellable v → HasBytes v →
        IsTextOf aliases v (layout (value_marks v)) }
    // The tokens of the text are those of the value, and the end.
    ensures tokens { (v : Value) → Spellable v → HasBytes v →
        HasTokensOf (value_marks v) (layout (value_marks v)) }
    // At whatever places these tokens stand, they are read as the value: where an attribute is
    // asked, where a type is, and where a type that doesn't begin with a parenthesis is.
    ensures as_attribute { (aliases : Aliases) (v : Value) → Spellable v → HasBytes v →
        (ts : Tokens) → MarksSpell (value_marks v) ts → IsReadAs aliases an_attr v ts }
    ensures as_type { (aliases : Aliases) (v : Value) → Spellable v → HasBytes v → IsType v →
        (ts : Tokens) → MarksSpell (value_marks v) ts → IsReadAs aliases a_type v ts }
    ensures as_plain_type { (aliases : Aliases) (v : Value) → Spellable v → HasBytes v → IsType v →
        is_function v.head ≡ false →
        (ts : Tokens) → MarksSpell (value_marks v) ts → IsReadAs aliases plain v ts }
    // A kept number alone is read as that number of its type.
    ensures as_number { (kind : IntKind) (n : ℤ) → IsKept kind n →
        (ts : Tokens) → MarksSpell (number_marks n) ts → IsNumberOf kind n ts }
    // Values with the same tokens are equal, and so are those with the same text.
    ensures same_tokens { (v w : Value) → Spellable v → HasBytes v → Spellable w → HasBytes w →
        (ts : Tokens) → MarksSpell (value_marks v) ts → MarksSpell (value_marks w) ts → v ≡ w }
    ensures same_text { (v w : Value) → Spellable v → HasBytes v → Spellable w → HasBytes w →
        layout (value_marks v) ≡ layout (value_marks w) → v ≡ w }
{}

/// A good value can be spelled, where the names of definitions have their shape.
pub fn good_values_are_spellable()
    ensures { (values : List Value) (tests : Tests) (types : List TypeDef) (v : Value) →
        HaveFullNames types → Good values tests types v → Spellable v }
{}
