//! What notes without faults mean. These functions do nothing: their clauses are facts on all
//! trees.

ghost use Rattle.std.specs.Prelude.{◌≡◌, ℕ, List, map};
ghost use Rattle.std.specs.declared.option.Option.TheVariants.{Some};
ghost use Rattle.std.specs.List.{AllByRecursion, AllZip};
ghost use Rattle.attr_value.specs.Values.{Value};
ghost use Rattle.dialect_defs.specs.declared.definition.TypeDef.{TypeDef};
ghost use Rattle.dialect_defs.specs.Assignments.{Tests};
ghost use Rattle.first_fault.specs.declared.fault.Fault.{Fault};
ghost use Rattle.generic_syntax.specs.declared.module_cst.ModuleCst.{ModuleCst};
ghost use Rattle.module_faults.specs.ModuleFaults.{operands_in};
ghost use Rattle.module_faults.specs.Shape.{HasShape, definitions_in};
ghost use Rattle.module_faults.specs.Standings.{ops_of, standings};
ghost use Rattle.module_meaning.specs.AliasValues.{AreAliases, HaveValues, no_aliases};
ghost use Rattle.module_meaning.specs.Completes.{top_level};
ghost use Rattle.module_meaning.specs.WholeModules.{WholeModule};
ghost use Rattle.module_names.specs.ModuleNotes.{module_notes};
ghost use Rattle.ir_store.specs.Numbering.{ops_in};
ghost use Rattle.module_builder.specs.Built.{successors_at, value_number};
ghost use Rattle.module_builder.specs.Fit.{IdsFit, UsesFit};
ghost use Rattle.module_faults.specs.declared.ids.OpIds.{OpIds};
ghost use Rattle.completion_laws.specs.Named.{OpsNamed};
ghost use Rattle.name_laws.specs.Generic.{IsGenericOp};
ghost use Rattle.name_laws.specs.NewAliases.{AreNewAliases};
ghost use Rattle.symbol_scopes.specs.declared.call.NameKind.TheVariants.{Values, Labels};
ghost use Rattle.symbol_scopes.specs.Regions.{IsWrong, block_meant, told_in, value_meant};
ghost use Rattle.symbol_scopes.specs.Uses.{UseMeanings};

/// Where no name in a tree is at fault, and a module of its shape has the operands and successors
/// that the notes of the tree mean, its names are right.
pub fn names_mean()
    ensures { (tree : ModuleCst) (m : WholeModule) → HasShape tree.ops m →
        ((f : Fault) → IsWrong (module_notes tree) f → ⊥) →
        (values : List (ℕ × ℕ)) (blocks : List ℕ) →
        told_in Values value_meant (module_notes tree) ≡ map Some values →
        told_in Labels block_meant (module_notes tree) ≡ map Some blocks →
        operands_in m ≡ map (value_number (definitions_in 0 tree.ops m)) values →
        successors_at (ops_in m) ≡ blocks → OpsNamed (top_level tree.ops m) 0 tree.ops m }
{}

/// What the notes of a tree mean fits what stands in the tree, where all of it is in generic form:
/// a meaning for each use and for each successor, and each use means a value of one of the
/// definitions.
pub fn notes_fit()
    ensures generic { (tree : ModuleCst) → AllByRecursion IsGenericOp (ops_of (standings tree)) →
        (meanings : UseMeanings) →
        told_in Values value_meant (module_notes tree) ≡ map Some meanings.values →
        told_in Labels block_meant (module_notes tree) ≡ map Some meanings.blocks →
        UsesFit (standings tree) meanings }
    // Operations to which parts in ids fit are in generic form.
    ensures ids { (tree : ModuleCst) (ids : List OpIds) →
        AllZip IdsFit (ops_of (standings tree)) ids → (meanings : UseMeanings) →
        told_in Values value_meant (module_notes tree) ≡ map Some meanings.values →
        told_in Labels block_meant (module_notes tree) ≡ map Some meanings.blocks →
        UsesFit (standings tree) meanings }
{}

/// Where no name in a tree is at fault, each alias is the first of its kind and name.
pub fn aliases_are_new()
    ensures new { (tree : ModuleCst) → ((f : Fault) → IsWrong (module_notes tree) f → ⊥) →
        AreNewAliases no_aliases tree.aliases }
    // So they are right where each has a value.
    ensures right { (values : List Value) (tests : Tests) (types : List TypeDef)
        (tree : ModuleCst) → ((f : Fault) → IsWrong (module_notes tree) f → ⊥) →
        HaveValues values tests types no_aliases tree.aliases →
        AreAliases values tests types no_aliases tree.aliases }
{}
