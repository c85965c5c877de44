//! What two loadings of the same files say of modules, and that a module is refused for one fault.
//! These functions do nothing: their clauses are facts on all loadings.

ghost use Rattle.std.specs.Prelude.{◌≡◌, ◌↔◌, ℕ, Bool, List};
ghost use Rattle.dialect_defs.specs.declared.definition.OpDef.{OpDef};
ghost use Rattle.dialect_defs.specs.Assignments.{Assignment, Tests};
ghost use Rattle.dialect_defs.specs.Operations.{MeetsBy, Operation};
ghost use Rattle.first_fault.specs.declared.fault.Fault.{Fault};
ghost use Rattle.generic_syntax.specs.declared.module_cst.AliasCst.{AliasCst};
ghost use Rattle.generic_syntax.specs.declared.module_cst.ModuleCst.{ModuleCst};
ghost use Rattle.generic_syntax.specs.declared.module_cst.OpCst.{OpCst};
ghost use Rattle.ir_lexer.specs.Spelling.{Text};
ghost use Rattle.irdl_ops.specs.declared.raw.RawDefs.{RawDefs};
ghost use Rattle.loading_laws.specs.Alike.{AreAlike, IsLoaded, IsOpAlike};
ghost use Rattle.module_faults.specs.declared.rule.OpRule.{OpRule};
ghost use Rattle.module_faults.specs.ModuleFaults.{
  IsFaultless,
  IsOperationsFault,
  IsRefusal,
  IsUsesFault,
  IsValuesFault,
};
ghost use Rattle.module_faults.specs.OpFaults.{BreaksOp, IsValueFault};
ghost use Rattle.module_meaning.specs.AliasValues.{AreAliases};
ghost use Rattle.module_meaning.specs.Completes.{
  Completes,
  HaveDistinctOps,
  HaveOneTyping,
  NearlyCompletes,
  OpCompletes,
};
ghost use Rattle.module_meaning.specs.Facts.{CustomForms, no_forms};
ghost use Rattle.module_meaning.specs.WholeModules.{Loaded, Proper, WholeModule};
ghost use Rattle.value_meaning.specs.Meaning.{Aliases};

/// Files that are loaded twice, with the same predicates, define the same, whatever the tables are
/// that hold their constants.
pub fn same_loading()
    ensures alike { (files : List RawDefs) (natives : List Text) (tests : Tests)
        (one two : Loaded) → IsLoaded files natives tests one → IsLoaded files natives tests two →
        AreAlike one two }
    // And the other way round.
    ensures back { (one two : Loaded) → AreAlike one two → AreAlike two one }
{}

/// No two operations that are loaded have the same name.
pub fn distinct_ops()
    ensures { (files : List RawDefs) (natives : List Text) (tests : Tests) (loaded : Loaded) →
        IsLoaded files natives tests loaded → HaveDistinctOps loaded.ops }
{}

/// Loadings that are alike say the same of one operation.
pub fn same_operations()
    // It meets definitions that are alike by the same sizes and the same assignments.
    ensures meets { (one two : Loaded) (d e : OpDef) → IsOpAlike one two d e →
        (o : Operation) (operand_sizes result_sizes : List ℕ) (a : Assignment) →
        (MeetsBy one.values one.tests d o operand_sizes result_sizes a
        ↔ MeetsBy two.values two.tests e o operand_sizes result_sizes a) }
    // It completes the same trees.
    ensures completes { (one two : Loaded) → AreAlike one two →
        (forms : CustomForms) (aliases : Aliases) (c : OpCst) (o : Operation) →
        OpCompletes one forms aliases c o → OpCompletes two forms aliases c o }
{}

/// Loadings that are alike say the same of a module.
pub fn same_modules()
    ensures proper { (one two : Loaded) → AreAlike one two →
        (m : WholeModule) → Proper one m → Proper two m }
    ensures aliases { (one two : Loaded) → AreAlike one two →
        (aliases : Aliases) (xs : List AliasCst) →
        AreAliases one.values one.tests one.types aliases xs →
        AreAliases two.values two.tests two.types aliases xs }
    // The same modules complete the tree of a file.
    ensures completes { (one two : Loaded) → AreAlike one two →
        (forms : CustomForms) (tree : ModuleCst) (m : WholeModule) →
        Completes one forms tree m → Completes two forms tree m }
    ensures nearly { (one two : Loaded) → AreAlike one two →
        (forms : CustomForms) (tree : ModuleCst) (m : WholeModule) →
        NearlyCompletes one forms tree m → NearlyCompletes two forms tree m }
{}

/// Loadings that are alike find the same faults in a tree, and refuse it for the same one.
pub fn same_faults()
    // Of one operation.
    ensures value { (one two : Loaded) → AreAlike one two →
        (forms : CustomForms) (aliases : Aliases) (c : OpCst) (f : Fault) →
        IsValueFault one forms aliases c f → IsValueFault two forms aliases c f }
    ensures operation { (one two : Loaded) → AreAlike one two →
        (forms : CustomForms) (aliases : Aliases) (c : OpCst) (is_last : Bool) (rule : OpRule) →
        BreaksOp one forms aliases c is_last rule → BreaksOp two forms aliases c is_last rule }
    // Of a module, stage by stage. What is wrong with names hangs on no definition.
    ensures values { (one two : Loaded) → AreAlike one two →
        (forms : CustomForms) (tree : ModuleCst) (f : Fault) →
        IsValuesFault one forms tree f → IsValuesFault two forms tree f }
    ensures operations { (one two : Loaded) → AreAlike one two →
        (forms : CustomForms) (tree : ModuleCst) (f : Fault) →
        IsOperationsFault one forms tree f → IsOperationsFault two forms tree f }
    ensures uses { (one two : Loaded) → AreAlike one two →
        (forms : CustomForms) (tree : ModuleCst) (f : Fault) →
        IsUsesFault one forms tree f → IsUsesFault two forms tree f }
    ensures refused { (one two : Loaded) → AreAlike one two →
        (forms : CustomForms) (tree : ModuleCst) (f : Fault) →
        IsRefusal one forms tree f → IsRefusal two forms tree f }
    ensures faultless { (one two : Loaded) → AreAlike one two →
        (forms : CustomForms) (tree : ModuleCst) →
        IsFaultless one forms tree → IsFaultless two forms tree }
{}

/// A module is refused for one fault, and only where it has one.
pub fn one_refusal()
    ensures once { (loaded : Loaded) (forms : CustomForms) (tree : ModuleCst) (f g : Fault) →
        IsRefusal loaded forms tree f → IsRefusal loaded forms tree g → f ≡ g }
    ensures faulty { (loaded : Loaded) (forms : CustomForms) (tree : ModuleCst) (f : Fault) →
        IsFaultless loaded forms tree → IsRefusal loaded forms tree f → ⊥ }
{}

/// Files leave no choice of what is said of a module, over whatever tables they are loaded.
pub fn one_answer()
    // It is refused for the same fault.
    ensures refused { (files : List RawDefs) (natives : List Text) (tests : Tests)
        (one two : Loaded) → IsLoaded files natives tests one → IsLoaded files natives tests two →
        (forms : CustomForms) (tree : ModuleCst) (f g : Fault) →
        IsRefusal one forms tree f → IsRefusal two forms tree g → f ≡ g }
    // It means the same. Without custom forms.
    ensures generic { (files : List RawDefs) (natives : List Text) (tests : Tests)
        (one two : Loaded) → IsLoaded files natives tests one → IsLoaded files natives tests two →
        (tree : ModuleCst) (m n : WholeModule) →
        Completes one no_forms tree m → Completes two no_forms tree n → m ≡ n }
    // With custom forms, where they determine the types that they hide.
    ensures custom { (files : List RawDefs) (natives : List Text) (tests : Tests)
        (one two : Loaded) → IsLoaded files natives tests one → IsLoaded files natives tests two →
        (forms : CustomForms) → HaveOneTyping two forms → (tree : ModuleCst) (m n : WholeModule) →
        Completes one forms tree m → Completes two forms tree n → m ≡ n }
{}
