//! Sets of the keys that were seen.
ghost use Rattle.std.specs.Prelude.{◌↔◌, ◌++◌, ◌∷◌, [], List, ℕ, Contains, IsTrue};
ghost use Rattle.std.specs.Prelude.{IfOk, OnOk, OnErr};

use std::alloc::{AllocError, Global};
use std::collections::HashSet;

/// The keys that were seen, in one list of entries or in several that are judged together. They
/// are borrowed from the trees.
#[derive(Drop)]
pub struct KeySet<'a> {
    keys: HashSet<&'a [u8]>,
}

impl<'a> KeySet<'a> {
    ghost use Rattle.value_meaning.specs.Keys.{HasSeen};

    /// No key was seen. It takes no memory.
    pub fn new(alloc: Global) -> KeySet<'a>
        ensures { HasSeen [] result }
    {
        KeySet {
            keys: HashSet::new(alloc),
        }
    }

    /// Whether the key was seen. It takes no memory.
    pub fn has(&self, key: &[u8]) -> bool
        ensures { (seen : List (List ℕ)) → HasSeen seen self.now
            → IsTrue result ↔ Contains seen key.now }
    {
        self.keys.contains(key)
    }

    /// Sees a key, and says whether it was seen before. Where memory runs out, it isn't seen.
    pub fn add(&mut self, key: &'a [u8]) -> Result<bool, AllocError>
        ensures value { (seen : List (List ℕ)) → HasSeen seen self.old
            → IfOk result (λ known. IsTrue known ↔ Contains seen key.now) }
        ensures ok { (seen : List (List ℕ)) → HasSeen seen self.old
            → OnOk result (HasSeen (seen ++ key.now ∷ []) self.new) }
        ensures err { (seen : List (List ℕ)) → HasSeen seen self.old
            → OnErr result (HasSeen seen self.new) }
    {
        match self.keys.insert(key) {
            Ok(added) => Ok(!added),
            Err(_) => Err(AllocError),
        }
    }
}
