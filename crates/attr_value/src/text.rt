//! Texts: bytes that are made once and not changed.
ghost use Rattle.std.specs.Prelude.{◌≡◌, ◌∷◌, ◌≤◌, [], length, nat_eq, IfOk};
ghost use Rattle.std.specs.Cmp.Lexicographic.{pointwise, same_text};
ghost use Rattle.std.specs.Cmp.Rules.{comparing};
ghost use Rattle.std.proofs.Common.{rules, ap, sym};

use std::alloc::{AllocError, Global};
use std::hash::{Hash, Hasher};
use std::marker::Model;
use std::mem::size_of;

/// How many bytes a text has in place at most.
const SHORT_LIMIT: usize = 14;

/// A text. Contracts see the list of its bytes, which may be any bytes.
///
/// It is 16 bytes large. A short text stands in them, and a longer one on the heap.
#[derive(Debug, Drop)]
pub struct Text {
    bytes: Bytes,
}

const _: () = prove!(size_of::<Text>() == 16);

/// Where the bytes of a text are.
#[derive(Debug, Drop)]
enum Bytes {
    /// The first of an array, so many.
    Short { len: u8, array: [u8; SHORT_LIMIT] },
    /// All of a vector.
    Long(Box<Vec<u8>>),
}

impl Model for Text {
    ghost use Rattle.std.specs.Prelude.{List, ℕ};
    ghost use Rattle.attr_value.specs.Texts.{bytes_of, IsWithin};

    ghost Value = { List ℕ };

    ghost view = { λ t. bytes_of t.bytes };

    ghost invariant = { λ t. IsWithin t.bytes };
}

impl Text {
    /// A text of these bytes, copied. A short one takes no memory.
    pub fn from_slice(alloc: Global, bytes: &[u8]) -> Result<Text, AllocError>
        ensures { IfOk result (λ text. text ≡ bytes.now) }
    {
        if bytes.len() <= SHORT_LIMIT {
            return Ok(short(bytes));
        }
        let bytes = Vec::from_slice(alloc, bytes)?;
        long(alloc, bytes)
    }

    /// The text of these bytes. A short one takes no memory, and the vector is dropped.
    pub fn from_vec(alloc: Global, bytes: Vec<u8>) -> Result<Text, AllocError>
        ensures { IfOk result (λ text. text ≡ bytes.items) }
    {
        if bytes.len() <= SHORT_LIMIT {
            return Ok(short(bytes.as_slice()));
        }
        long(alloc, bytes)
    }

    /// The bytes of the text. It takes no memory.
    pub fn bytes(&self) -> &[u8]
        ensures { result.now ≡ self.now }
    {
        match &self.bytes {
            Bytes::Short { len, array } => &array[..usize::from(*len)],
            Bytes::Long(bytes) => bytes.as_slice(),
        }
    }
}

/// The text of a few bytes, which stand in place.
fn short(bytes: &[u8]) -> Text
    requires { length bytes.now ≤ SHORT_LIMIT }
    ensures { result ≡ bytes.now }
{
    let len = bytes.len();
    let mut array = [0; SHORT_LIMIT];
    let piece = &mut array[..len];
    piece.copy_from_slice(bytes);
    Text {
        bytes: Bytes::Short {
            len: len as u8,
            array,
        },
    }
}

/// The text of these bytes, which stand on the heap.
fn long(alloc: Global, bytes: Vec<u8>) -> Result<Text, AllocError>
    ensures { IfOk result (λ text. text ≡ bytes.items) }
{
    let bytes = Box::new(alloc, bytes)?;
    Ok(Text {
        bytes: Bytes::Long(bytes),
    })
}

impl PartialEq for Text {
    ghost eq = { λ a b. pointwise nat_eq a b };

    ghost laws = { Prim.search (comparing, rules) };

    fn eq(&self, other: &Text) -> bool {
        self.bytes() == other.bytes()
    }
}

impl Eq for Text {
    ghost laws = { Prim.search (comparing, rules) };
}

impl Hash for Text {
    ghost hash_input = { λ t. t ∷ [] };

    ghost respects_eq = { λ x y same. ap (λ t. t ∷ []) (same_text x y (sym same)) };

    fn hash<H: Hasher>(&self, state: &mut H) {
        state.write(self.bytes());
    }
}
