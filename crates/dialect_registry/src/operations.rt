//! The definitions of operations, with an index of their names.

ghost use Rattle.std.specs.Prelude.{◌≡◌, List, ℕ, Some, None, IfOk, OnOk, bytes_eq, if◌then◌else◌};
ghost use Rattle.std.specs.HashMap.{get};
ghost use Rattle.std.specs.Option.{option_or};
ghost use Rattle.dialect_registry.specs.Registered.{ArePlaced, place_of};

use crate::name::Name;
use attr_value::Text;
use dialect_defs::OpDef;
use indexmap::IndexMap;
use std::alloc::{AllocError, Global};
use std::marker::Model;

/// Definitions of operations. Contracts see their list. One is found by its name in constant time.
#[derive(Drop)]
pub struct Operations {
    list: Vec<OpDef>,
    places: IndexMap<Text, usize>,
}

impl Model for Operations {
    ghost use Rattle.std.specs.Prelude.{List, bytes_eq};
    ghost use Rattle.std.specs.Coded.{coded_list};
    ghost use Rattle.std.specs.HashMap.{get};
    ghost use Rattle.dialect_defs.specs.contracts.definition.OpDef.{the_row};
    ghost use Rattle.dialect_defs.specs.declared.definition.OpDef.{OpDef as Definition};
    ghost use Rattle.dialect_registry.specs.Registered.{ArePlaced};

    ghost Value = { List Definition };

    ghost coded = { coded_list the_row.coded };

    ghost view = { λ o. o.list.items };

    ghost invariant = { λ o. ArePlaced o.list.items (get bytes_eq o.places) };
}

/// Gives a name a place where it has none.
fn note(
    alloc: Global,
    places: &mut IndexMap<Text, usize>,
    name: &[u8],
    place: usize,
) -> Result<(), AllocError>
    ensures { OnOk result ((other : List ℕ) → get bytes_eq places.new other ≡
        option_or (get bytes_eq places.old other)
        (if bytes_eq name.now other then Some place else None)) }
{
    if places.contains_key(Name { bytes: name }) {
        return Ok(());
    }
    match places.insert(Text::from_slice(alloc, name)?, place) {
        Ok(_) => Ok(()),
        Err(_) => Err(AllocError),
    }
}

/// The place of the first definition of each name.
fn places_of(alloc: Global, list: &[OpDef]) -> Result<IndexMap<Text, usize>, AllocError>
    ensures { IfOk result (λ places. ArePlaced list.now (get bytes_eq places)) }
{
    let mut places = IndexMap::new(alloc);
    for (place, op) in list.iter().enumerate() {
        note(alloc, &mut places, op.name.bytes(), place)?;
    }
    Ok(places)
}

impl Operations {
    /// The index of these definitions.
    pub fn of(alloc: Global, list: Vec<OpDef>) -> Result<Operations, AllocError>
        ensures { IfOk result (λ ops. ops ≡ list.items) }
    {
        let places = places_of(alloc, &list)?;
        Ok(Operations { list, places })
    }

    /// The definitions, in their order. It takes no memory.
    pub fn as_slice(&self) -> &[OpDef]
        ensures { result.now ≡ self.now }
    {
        self.list.as_slice()
    }

    /// The place of the first definition of this name. It takes no memory and constant time.
    pub fn find(&self, name: &[u8]) -> Option<usize>
        ensures { result ≡ place_of self.now name.now }
    {
        self.places.get(Name { bytes: name }).copied()
    }
}
