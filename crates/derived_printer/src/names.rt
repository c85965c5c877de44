//! Names of dialects' values.

ghost use Rattle.std.specs.Prelude.{◌≡◌, ◌↔◌, IsTrue};
ghost use Rattle.grammar.specs.Looks as look;
ghost use Rattle.derived_printer.specs.Spellable.{IsFullName, HaveFullNames};

use crate::spell::is_bare;
use dialect_defs::TypeDef;

/// Whether a dot stands in a text.
fn has_dot(text: &[u8]) -> bool
    ensures { result ≡ look.has_dot text.now }
{
    for byte in text {
        if *byte == b'.' {
            return true;
        }
    }
    false
}

/// Whether a name is a bare id in which a dot stands.
pub fn is_full_name(name: &[u8]) -> bool
    ensures { IsTrue result ↔ IsFullName name.now }
{
    is_bare(name) && has_dot(name)
}

/// Whether the names of some definitions have their shape: each is a bare id in which a dot stands.
/// It takes no memory.
pub fn have_full_names(types: &[TypeDef]) -> bool
    ensures { IsTrue result ↔ HaveFullNames types.now }
{
    for d in types {
        if !is_full_name(d.name.bytes()) {
            return false;
        }
    }
    true
}
