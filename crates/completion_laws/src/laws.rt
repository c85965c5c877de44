//! When a module completes a tree, by what stands in the tree. These functions do nothing: their
//! clauses are facts on all trees.

ghost use Rattle.std.specs.Prelude.{◌↔◌};
ghost use Rattle.first_fault.specs.declared.fault.Fault.{Fault};
ghost use Rattle.generic_syntax.specs.declared.module_cst.ModuleCst.{ModuleCst};
ghost use Rattle.ir_store.specs.Modules.{types_in};
ghost use Rattle.completion_laws.specs.Built.{IsBuilt};
ghost use Rattle.module_faults.specs.ModuleFaults.{
  IsFaultless,
  IsRefusal,
  IsUseFault,
  IsUsesFault,
};
ghost use Rattle.module_meaning.specs.Completes.{Completes, HaveDistinctOps, NearlyCompletes};
ghost use Rattle.module_meaning.specs.Facts.{no_forms};
ghost use Rattle.module_meaning.specs.WholeModules.{Loaded, WholeModule};

/// A module that was built for a tree in generic form, of whose names, values and operations none
/// is at fault, completes the tree where no use is.
pub fn built_completes()
    // Whatever the types of uses.
    ensures nearly { (loaded : Loaded) (tree : ModuleCst) (m : WholeModule) →
        IsBuilt loaded tree m → NearlyCompletes loaded no_forms tree m }
    ensures whole { (loaded : Loaded) (tree : ModuleCst) (m : WholeModule) →
        IsBuilt loaded tree m → ((f : Fault) → IsUseFault tree (types_in m) m f → ⊥) →
        Completes loaded no_forms tree m }
{}

/// The faults of uses are those of any module that completes the tree but for the types of uses,
/// since it is the only one.
pub fn uses_of_one()
    ensures { (loaded : Loaded) → HaveDistinctOps loaded.ops →
        (tree : ModuleCst) (m : WholeModule) → NearlyCompletes loaded no_forms tree m →
        (f : Fault) →
        (IsUsesFault loaded no_forms tree f ↔ IsUseFault tree (types_in m) m f) }
{}

/// A tree that a module completes has no fault in any stage.
pub fn no_fault()
    ensures { (loaded : Loaded) → HaveDistinctOps loaded.ops →
        (tree : ModuleCst) (m : WholeModule) → Completes loaded no_forms tree m →
        IsFaultless loaded no_forms tree }
{}

/// No module completes a tree that is refused.
pub fn refused_means_nothing()
    ensures { (loaded : Loaded) → HaveDistinctOps loaded.ops →
        (tree : ModuleCst) (m : WholeModule) → Completes loaded no_forms tree m →
        (f : Fault) → IsRefusal loaded no_forms tree f → ⊥ }
{}
