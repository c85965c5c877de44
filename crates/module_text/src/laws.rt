//! What the canonical text of a module is to whoever reads it. These functions do nothing: their
//! clauses are facts on all modules.

ghost use Rattle.std.specs.Prelude.{◌≡◌, [], ◌∷◌, ◌++◌};
ghost use Rattle.derived_printer.specs.ReadBack.{HasTokensOf};
ghost use Rattle.generic_syntax.specs.declared.module_cst.ModuleCst.{ModuleCst};
ghost use Rattle.grammar.specs.Grammar.{Tokens};
ghost use Rattle.ir_lexer.specs.declared.class.Class.TheVariants as class;
ghost use Rattle.ir_lexer.specs.Tokens.{Token};
ghost use Rattle.module_meaning.specs.Completes.{Completes, HaveDistinctOps};
ghost use Rattle.module_meaning.specs.Facts.{CustomForms};
ghost use Rattle.module_meaning.specs.WholeModules.{Loaded, WholeModule};
ghost use Rattle.module_text.specs.ReadAgain.{IsReadAsModule, IsTextOfModule, text_marks};
ghost use Rattle.module_text.specs.WellFormed.{IsStorable, IsWellFormed, NamesAreSpellable};
ghost use Rattle.text_layout.specs.Gives.{MarksSpell};
ghost use Rattle.text_layout.specs.Lines.{layout};

/// The canonical text of a well-formed module, in generic form, is read as that module again.
pub fn module_reads_back()
    // The tokens of the text spell a tree that the module completes, and nothing in it is too deep.
    ensures text { (loaded : Loaded) (m : WholeModule) → NamesAreSpellable loaded →
        IsWellFormed loaded m → IsTextOfModule loaded m (layout (text_marks loaded m)) }
    // The tokens of the text are those of the module, and the end.
    ensures tokens { (loaded : Loaded) (m : WholeModule) → NamesAreSpellable loaded →
        IsWellFormed loaded m → HasTokensOf (text_marks loaded m) (layout (text_marks loaded m)) }
    // At whatever places these tokens stand, with the end behind them, they are read as the module.
    ensures as_module { (loaded : Loaded) (m : WholeModule) → NamesAreSpellable loaded →
        IsWellFormed loaded m → (ts : Tokens) (end : Token) → MarksSpell (text_marks loaded m) ts →
        end.class ≡ class.End → IsReadAsModule loaded m (ts ++ end ∷ []) }
    // Modules with the same text are equal.
    ensures same_text { (loaded : Loaded) (m n : WholeModule) → NamesAreSpellable loaded →
        HaveDistinctOps loaded.ops → IsWellFormed loaded m → IsWellFormed loaded n →
        layout (text_marks loaded m) ≡ layout (text_marks loaded n) → m ≡ n }
{}

/// What completes a tree, with whatever custom forms, is well-formed where it is storable.
pub fn completed_modules_are_well_formed()
    ensures { (loaded : Loaded) (forms : CustomForms) (tree : ModuleCst) (m : WholeModule) →
        Completes loaded forms tree m → IsStorable m → IsWellFormed loaded m }
{}
