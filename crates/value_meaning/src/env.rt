//! What trees are judged by.

ghost use Rattle.std.specs.Prelude.{◌≡◌, ℕ, Bool, List, bytes_eq, cond, OnErr, OnOk};
ghost use Rattle.std.specs.HashMap.{get};
ghost use Rattle.std.specs.declared.option.Option.TheVariants.{None, Some};
ghost use Rattle.value_meaning.specs.AliasTable.{id_of, with_alias};

use crate::definitions::Definitions;
use attr_value::{Text, ValueId};
use indexmap::IndexMap;
use native_predicate::Natives;
use std::alloc::{AllocError, Global};

/// The aliases that are known, each with its value.
#[derive(Drop)]
pub struct Aliases {
    pub types: IndexMap<Text, ValueId>,
    pub attributes: IndexMap<Text, ValueId>,
}

impl Aliases {
    /// No alias is known. It takes no memory.
    pub fn new(alloc: Global) -> Aliases
        ensures { (is_type : Bool) (name : List ℕ) → id_of result is_type name ≡ None }
    {
        Aliases {
            types: IndexMap::new(alloc),
            attributes: IndexMap::new(alloc),
        }
    }

    /// Makes an alias of this kind and name known, in the place of an earlier one. The name has no
    /// sign. Where memory runs out, those that were known are known.
    pub fn define(&mut self, is_type: bool, name: Text, id: ValueId) -> Result<(), AllocError>
        ensures ok { OnOk result ((kind : Bool) (other : List ℕ) →
            id_of self.new kind other ≡ with_alias (id_of self.old) is_type name id kind other) }
        ensures err { OnErr result ((kind : Bool) (other : List ℕ) →
            id_of self.new kind other ≡ id_of self.old kind other) }
    {
        if is_type {
            insert(&mut self.types, name, id)
        } else {
            insert(&mut self.attributes, name, id)
        }
    }

    /// The id of the value of an alias of this kind and name, without its sign; `None` where none
    /// is known. It takes no memory.
    pub fn get(&self, is_type: bool, name: &Text) -> Option<ValueId>
        ensures { result ≡ id_of self.now is_type name.now }
    {
        let named = if is_type {
            &self.types
        } else {
            &self.attributes
        };
        named.get(name).copied()
    }
}

/// Puts something at a name, in the place of what was there.
pub fn insert<V: Drop>(
    named: &mut IndexMap<Text, V>,
    name: Text,
    value: V,
) -> Result<(), AllocError>
    ensures ok { OnOk result ((other : List ℕ) → get bytes_eq named.new other
        ≡ cond (bytes_eq name other) (Some value) (get bytes_eq named.old other)) }
    ensures err { OnErr result ((other : List ℕ) →
        get bytes_eq named.new other ≡ get bytes_eq named.old other) }
{
    match named.insert(name, value) {
        Ok(_) => Ok(()),
        Err(_) => Err(AllocError),
    }
}

/// What trees are judged by: definitions, predicates, and aliases.
#[derive(Clone, Copy)]
pub struct Env<'a> {
    pub alloc: Global,
    pub types: &'a Definitions,
    pub natives: &'a Natives,
    pub aliases: &'a Aliases,
}
