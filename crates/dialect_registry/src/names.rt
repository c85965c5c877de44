//! Sets and maps of names.

ghost use Rattle.std.specs.Prelude.{◌≡◌, ◌||◌, false, IfOk, bytes_eq, is_some};
ghost use Rattle.std.specs.Prelude.{List, ℕ, if◌then◌else◌};
ghost use Rattle.std.specs.Option.{option_or, option_copied};
ghost use Rattle.std.specs.declared.option.Option.TheVariants.{Some, None};

use std::alloc::{AllocError, Global};
use std::collections::{HashMap, HashSet};

/// A set of names, which are borrowed from the text's trees.
#[derive(Drop)]
pub struct NameSet<'a> {
    pub names: HashSet<&'a [u8]>,
}

impl<'a> NameSet<'a> {
    ghost use Rattle.dialect_registry.specs.Scopes.{holds};

    /// No name. It takes no memory.
    pub fn new(alloc: Global) -> NameSet<'a>
        ensures { (name : List ℕ) → holds result name ≡ false }
    {
        NameSet {
            names: HashSet::new(alloc),
        }
    }

    /// Adds a name, and says whether it was there already.
    pub fn add(&mut self, name: &'a [u8]) -> Result<bool, AllocError>
        ensures before { IfOk result (λ known. known ≡ holds self.old name.now) }
        ensures after { IfOk result (λ known. (other : List ℕ) →
            holds self.new other ≡ (bytes_eq name.now other || holds self.old other)) }
    {
        match self.names.insert(name) {
            Ok(added) => Ok(!added),
            Err(_) => Err(AllocError),
        }
    }
}

/// Values under names, which are borrowed from the text's trees. The first value of a name stays.
#[derive(Drop)]
pub struct NameMap<'a, V> {
    pub entries: HashMap<&'a [u8], V>,
}

impl<'a, V: Drop> NameMap<'a, V> {
    ghost use Rattle.dialect_registry.specs.Scopes.{value_at};

    /// No name. It takes no memory.
    pub fn new(alloc: Global) -> NameMap<'a, V>
        ensures { (name : List ℕ) → value_at result name ≡ None }
    {
        NameMap {
            entries: HashMap::new(alloc),
        }
    }

    /// The value of a name.
    pub fn get(&self, name: &[u8]) -> Option<&V>
        ensures { option_copied result ≡ value_at self.now name.now }
    {
        self.entries.get(name)
    }

    /// Gives a name a value where it has none, and says whether it had one.
    pub fn add(&mut self, name: &'a [u8], value: V) -> Result<bool, AllocError>
        ensures before { IfOk result (λ known. known ≡ is_some (value_at self.old name.now)) }
        ensures after { IfOk result (λ known. (other : List ℕ) → value_at self.new other ≡
            option_or (value_at self.old other)
            (if bytes_eq name.now other then Some value else None)) }
    {
        if self.entries.contains_key(name) {
            return Ok(true);
        }
        match self.entries.insert(name, value) {
            Ok(_) => Ok(false),
            Err(_) => Err(AllocError),
        }
    }
}
