//! What a program holds can be stored.

ghost use Rattle.std.specs.Prelude.{List};
ghost use Rattle.derived_printer.specs.ModuleMarks.{seen_module};
ghost use Rattle.dialect_defs.specs.declared.definition.OpDef.{OpDef};
ghost use Rattle.module_text.specs.WellFormed.{IsStorable};

use crate::places::ops_are_held;
use crate::texts::values_have_bytes;
use attr_uniquer::Uniquer;
use ir_store::Store;

/// The texts of a stored module have bytes, and its values and the blocks of each of its regions
/// are numbered by 64 bits, whatever definitions its operations name and whatever values its ids
/// have in the table.
///
/// It changes nothing and takes no memory: it goes once over the values of the table and over the
/// operations of the module, and each text takes constant time.
pub fn module_is_storable(u: &Uniquer, store: &Store)
    ensures { (defs : List OpDef) → IsStorable (seen_module defs u.now store.now) }
{
    values_have_bytes(u);
    ops_are_held(store);
    let _count = store.values();
}
