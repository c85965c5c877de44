//! The places of definitions in a list, by their kinds and names.

ghost use Rattle.std.specs.Prelude.{◌≡◌, ℕ, Bool, List, IfNone, IfOk, IfSome, OnOk, length};
ghost use Rattle.std.specs.declared.option.Option.TheVariants.{None};
ghost use Rattle.value_meaning.specs.Distinct.{HaveDistinctNames};
ghost use Rattle.value_meaning.specs.Places.{ArePlaced, place_of, with_place};

use crate::env::insert;
use attr_value::Text;
use dialect_defs::TypeDef;
use indexmap::IndexMap;
use std::alloc::{AllocError, Global};

/// The place of each definition, by its name.
#[derive(Drop)]
pub struct Places {
    pub types: IndexMap<Text, usize>,
    pub attributes: IndexMap<Text, usize>,
}

impl Places {
    /// The places of these definitions. `None` exactly where two have the same kind and name.
    pub fn of(alloc: Global, types: &[TypeDef]) -> Result<Option<Places>, AllocError>
        ensures some { IfOk result (λ found. IfSome found
            (λ places. ArePlaced types.now (length types.now) (place_of places))) }
        ensures none { IfOk result (λ found. IfNone found (HaveDistinctNames types.now → ⊥)) }
    {
        let mut places = Places::new(alloc);
        for (i, d) in types.iter().enumerate() {
            if places.get(d.is_type, &d.name).is_some() {
                return Ok(None);
            }
            let name = Text::from_slice(alloc, d.name.bytes())?;
            places.note(d.is_type, name, i)?;
        }
        Ok(Some(places))
    }

    /// No place is noted. It takes no memory.
    fn new(alloc: Global) -> Places
        ensures { (is_type : Bool) (name : List ℕ) → place_of result is_type name ≡ None }
    {
        Places {
            types: IndexMap::new(alloc),
            attributes: IndexMap::new(alloc),
        }
    }

    /// Notes the place of a kind and name, instead of an earlier one.
    fn note(&mut self, is_type: bool, name: Text, place: usize) -> Result<(), AllocError>
        ensures { OnOk result ((kind : Bool) (other : List ℕ) → place_of self.new kind other
            ≡ with_place (place_of self.old) is_type name place kind other) }
    {
        if is_type {
            insert(&mut self.types, name, place)
        } else {
            insert(&mut self.attributes, name, place)
        }
    }

    /// The place of a kind and name, where one is noted. It takes no memory.
    pub fn get(&self, is_type: bool, name: &Text) -> Option<usize>
        ensures { result ≡ place_of self.now is_type name.now }
    {
        let named = if is_type {
            &self.types
        } else {
            &self.attributes
        };
        named.get(name).copied()
    }
}
