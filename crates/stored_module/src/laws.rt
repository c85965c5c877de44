//! Facts on all stored modules and on all registries. These functions do nothing.

ghost use Rattle.std.specs.Prelude.{◌≡◌, ℕ, List, length};
ghost use Rattle.attr_value.specs.Values.{Value};
ghost use Rattle.derived_printer.specs.ModuleMarks.{seen_module};
ghost use Rattle.derived_printer.specs.Printable.{IsPrintable};
ghost use Rattle.derived_printer.specs.Spellable.{HaveFullNames};
ghost use Rattle.dialect_registry.specs.Registered.{IsSound, Registered};
ghost use Rattle.ir_store.specs.Store.{Module};
ghost use Rattle.module_meaning.specs.WholeModules.{Loaded, Proper};
ghost use Rattle.module_text.specs.WellFormed.{NamesAreSpellable};
ghost use Rattle.op_verifier.specs.Seen.{HasIds};
ghost use Rattle.stored_module.specs.Held.{NameDefinitions};

/// A stored module can be printed where what it stands for is a proper module, its ids are those of
/// a table of values, and its operations name definitions.
pub fn proper_modules_are_printable()
    ensures { (loaded : Loaded) (values : List Value) (m : Module) → HaveFullNames loaded.types →
        HasIds (length values) m → NameDefinitions (length loaded.ops) m →
        Proper loaded (seen_module loaded.ops values m) → IsPrintable loaded.ops values m }
{}

/// The names of a sound registry's definitions can be spelled.
pub fn sound_registries_have_spellable_names()
    ensures { (len count : ℕ) (r : Registered) (loaded : Loaded) → IsSound len count r →
        loaded.types ≡ r.types → loaded.ops ≡ r.ops → NamesAreSpellable loaded }
{}
