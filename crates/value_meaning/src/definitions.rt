//! The definitions of types and attributes, with an index of their kinds and names.

ghost use Rattle.std.specs.Prelude.{◌≡◌, ◌↔◌, IfNone, IfOk, IfSome, IsTrue};
ghost use Rattle.constraint_solver.specs.Definitions.{IsOnlyDefinition};
ghost use Rattle.value_meaning.specs.Faults.{IsNamed};
ghost use Rattle.value_meaning.specs.Distinct.{HaveDistinctNames};

use crate::places::Places;
use attr_value::Text;
use dialect_defs::TypeDef;
use std::alloc::{AllocError, Global};
use std::marker::Model;

/// Definitions of types and attributes, of which no two have the same kind and name. Contracts see
/// their list. One is found by its kind and name in constant time.
#[derive(Drop)]
pub struct Definitions {
    list: Vec<TypeDef>,
    places: Places,
}

impl Model for Definitions {
    ghost use Rattle.std.specs.Prelude.{List, length};
    ghost use Rattle.std.specs.Coded.{coded_list};
    ghost use Rattle.dialect_defs.specs.declared.definition.TypeDef.{TypeDef as Definition};
    ghost use Rattle.dialect_defs.specs.contracts.definition.TypeDef.{the_row};
    ghost use Rattle.value_meaning.specs.Places.{ArePlaced, place_of};

    ghost Value = { List Definition };

    ghost coded = { coded_list the_row.coded };

    ghost view = { λ d. d.list.items };

    ghost invariant = { λ d. ArePlaced d.list.items (length d.list.items) (place_of d.places) };
}

/// Whether no two definitions have the same kind and name, as `Definitions::of` asks.
pub fn have_distinct_names(alloc: Global, types: &[TypeDef]) -> Result<bool, AllocError>
    ensures { IfOk result (λ so. IsTrue so ↔ HaveDistinctNames types.now) }
{
    let places = Places::of(alloc, types)?;
    Ok(places.is_some())
}

impl Definitions {
    /// The index of these definitions.
    pub fn of(alloc: Global, list: Vec<TypeDef>) -> Result<Definitions, AllocError>
        requires distinct { HaveDistinctNames list.items }
        ensures { IfOk result (λ types. types ≡ list.items) }
    {
        let places = Places::of(alloc, list.as_slice())?.unwrap();
        Ok(Definitions { list, places })
    }

    /// The definitions, in their order. It takes no memory.
    pub fn types(&self) -> &[TypeDef]
        ensures { result.now ≡ self.now }
    {
        self.list.as_slice()
    }

    /// The definition of this kind, type or attribute, and full name. `None` exactly where there is
    /// none. It takes no memory and constant time.
    pub fn find(&self, is_type: bool, name: &Text) -> Option<&TypeDef>
        ensures some { IfSome result (λ d. IsOnlyDefinition self.now is_type name.now d.now) }
        ensures none { IfNone result (IsNamed self.now is_type name.now → ⊥) }
    {
        let place = self.places.get(is_type, name)?;
        self.list.as_slice().get(place)
    }
}
