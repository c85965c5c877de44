//! What the facts of the generic form say, that a tree means at most one module, and what its names
//! mean. These functions do nothing: their clauses are facts on all trees.

ghost use Rattle.std.specs.Prelude.{◌≡◌, ◌↔◌, ℕ, List};
ghost use Rattle.attr_value.specs.Heads.{Ascend};
ghost use Rattle.dialect_defs.specs.declared.definition.OpDef.{OpDef};
ghost use Rattle.dialect_defs.specs.Operations.{Operation};
ghost use Rattle.first_fault.specs.declared.fault.Fault.{Fault};
ghost use Rattle.generic_syntax.specs.declared.module_cst.GenericCst.{GenericCst};
ghost use Rattle.generic_syntax.specs.declared.module_cst.ModuleCst.{ModuleCst};
ghost use Rattle.generic_syntax.specs.declared.module_cst.OpCst.{OpCst};
ghost use Rattle.module_meaning.specs.Completes.{
  Completes,
  HaveDistinctOps,
  HaveOneTyping,
  NearlyCompletes,
  NearlySays,
  OpCompletes,
};
ghost use Rattle.module_meaning.specs.Facts.{
  CustomForms,
  generic_facts,
  no_forms,
  nothing_hidden,
};
ghost use Rattle.module_meaning.specs.Says.{Shows, ShowsGeneric};
ghost use Rattle.module_names.specs.ModuleNotes.{module_notes};
ghost use Rattle.module_meaning.specs.WholeModules.{
  EachOp,
  IsInScope,
  Loaded,
  Proper,
  WholeModule,
  keys_in_order,
  own_numbers,
};
ghost use Rattle.symbol_scopes.specs.Regions.{IsWrong};
ghost use Rattle.value_meaning.specs.Meaning.{Aliases};

/// The facts of the generic form, which hides nothing, say of an operation what can be said without
/// facts, whatever its definition, and however it is cut into segments.
pub fn generic_form()
    ensures { (aliases : Aliases) (d : OpDef) (g : GenericCst) (o : Operation)
        (operand_sizes result_sizes : List ℕ) →
        (Shows aliases d nothing_hidden (generic_facts g) o operand_sizes result_sizes
        ↔ ShowsGeneric aliases g o) }
{}

/// At most one operation completes the tree of an operation, whatever names mean.
pub fn one_operation()
    // Without custom forms, where definitions have distinct names.
    ensures generic { (loaded : Loaded) (aliases : Aliases) → HaveDistinctOps loaded.ops →
        (c : OpCst) (o p : Operation) → OpCompletes loaded no_forms aliases c o →
        OpCompletes loaded no_forms aliases c p →
        Ascend (keys_in_order o) → Ascend (keys_in_order p) → o ≡ p }
    // With custom forms, where they determine the types that they hide.
    ensures custom { (loaded : Loaded) (forms : CustomForms) (aliases : Aliases) →
        HaveDistinctOps loaded.ops → HaveOneTyping loaded forms →
        (c : OpCst) (o p : Operation) → OpCompletes loaded forms aliases c o →
        OpCompletes loaded forms aliases c p →
        Ascend (keys_in_order o) → Ascend (keys_in_order p) → o ≡ p }
{}

/// At most one module completes the tree of a file.
pub fn one_module()
    // Without custom forms, where definitions have distinct names.
    ensures generic { (loaded : Loaded) → HaveDistinctOps loaded.ops →
        (tree : ModuleCst) (m n : WholeModule) → Completes loaded no_forms tree m →
        Completes loaded no_forms tree n → m ≡ n }
    // With custom forms, where they determine the types that they hide.
    ensures custom { (loaded : Loaded) (forms : CustomForms) →
        HaveDistinctOps loaded.ops → HaveOneTyping loaded forms →
        (tree : ModuleCst) (m n : WholeModule) → Completes loaded forms tree m →
        Completes loaded forms tree n → m ≡ n }
    // The types of uses have no part in it.
    ensures generic_nearly { (loaded : Loaded) → HaveDistinctOps loaded.ops →
        (tree : ModuleCst) (m n : WholeModule) → NearlyCompletes loaded no_forms tree m →
        NearlyCompletes loaded no_forms tree n → m ≡ n }
    ensures custom_nearly { (loaded : Loaded) (forms : CustomForms) →
        HaveDistinctOps loaded.ops → HaveOneTyping loaded forms →
        (tree : ModuleCst) (m n : WholeModule) → NearlyCompletes loaded forms tree m →
        NearlyCompletes loaded forms tree n → m ≡ n }
    // What completes a tree does so whatever types uses may have.
    ensures apart { (loaded : Loaded) (forms : CustomForms) (tree : ModuleCst) (m : WholeModule) →
        Completes loaded forms tree m → NearlyCompletes loaded forms tree m }
{}

/// In a module whose operations complete trees, each operand is a value that is defined in the
/// operation's region or in one round it, and each successor is a block of the region: what names
/// mean is so, and no proof that a module is proper has to show it again.
pub fn names_are_in_scope()
    ensures { (loaded : Loaded) (forms : CustomForms) (aliases : Aliases) (cs : List OpCst)
        (m : WholeModule) → NearlySays loaded forms aliases cs m →
        EachOp IsInScope (own_numbers 0 m) 0 0 m }
{}

/// Where a module completes the tree of a file without custom forms, no name in the tree is at
/// fault, and no size of a pack: so what `symbol_scopes` refuses has no module.
pub fn names_are_right()
    ensures { (loaded : Loaded) (tree : ModuleCst) (m : WholeModule) →
        NearlyCompletes loaded no_forms tree m → (f : Fault) → IsWrong (module_notes tree) f → ⊥ }
{}
