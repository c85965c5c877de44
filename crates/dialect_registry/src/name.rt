//! Names that are looked up among texts.

ghost use Rattle.std.specs.Prelude.{◌≡◌, ◌∷◌, [], bytes_eq};
ghost use Rattle.std.specs.Cmp.Lexicographic.{bytes_decides, nat_list_eq_equiv};
ghost use Rattle.std.proofs.Common.{ap};

use attr_value::Text;
use indexmap::Equivalent;
use std::hash::{Hash, Hasher};

/// Bytes that stand for a text, so that a text is found by what is borrowed.
#[derive(Clone, Copy, PartialEq, Eq)]
pub struct Name<'a> {
    pub bytes: &'a [u8],
}

impl<'a> Hash for Name<'a> {
    ghost hash_input = { λ n. n.bytes.now ∷ [] };

    ghost respects_eq = { λ x y same.
        ap (λ t. t ∷ []) ((bytes_decides x.bytes.now y.bytes.now).0 same) };

    fn hash<H: Hasher>(&self, state: &mut H) {
        state.write(self.bytes);
    }
}

impl<'a> Equivalent<Text> for Name<'a> {
    ghost equivalent = { λ n t. bytes_eq n.bytes.now t };

    ghost respects_hash = { λ n t same. ap (λ b. b ∷ []) ((bytes_decides n.bytes.now t).0 same) };

    ghost respects_eq = { λ n x y. nat_list_eq_equiv.congr n.bytes.now x y };

    fn equivalent(&self, key: &Text) -> bool {
        self.bytes == key.bytes()
    }
}
