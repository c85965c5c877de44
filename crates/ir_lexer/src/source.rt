//! Where tokens come from.

ghost use Rattle.std.specs.Prelude.{◌≡◌, List, Some, []};
ghost use Rattle.ir_lexer.specs.declared.class.Class.TheVariants.{End};
ghost use Rattle.ir_lexer.specs.Source.{Source, Advances, IsInOrder};
ghost use Rattle.ir_lexer.specs.Tokens.{Token};

use crate::class::Class;

/// Why there is no next token.
#[derive(Clone, Copy, Debug, PartialEq, Eq)]
pub enum TokenStop {
    /// Something outside failed, and the source's count of faults rose in this call.
    Failed,
    /// Memory ran out.
    OutOfMemory,
}

/// A row of tokens, of which the present one can be read. What a source means is a `Source` of
/// `specs/Source.antt`. All answers stay the same until the next `advance`.
pub trait TokenSource {
    ghost state: { Self → Source };

    /// The class of the present token. Its text spells it, told or not, and so do the texts of
    /// the tokens that are told behind it theirs; their places ascend.
    fn class(&self) -> Class
        ensures class { result ≡ (state self.now).now.class }
        ensures order { IsInOrder (state self.now) };

    /// The bytes of the present token.
    fn text(&self) -> &[u8]
        ensures { result.now ≡ (state self.now).now.text };

    /// Where the present token begins, in bytes from 0.
    fn place(&self) -> u32
        ensures { result ≡ (state self.now).now.place };

    /// Goes on to the next token; at `End` nothing changes. After an error the present token is
    /// open: only what `Advances` says of every answer holds.
    fn advance(&mut self) -> Result<(), TokenStop>
        ensures { Advances (state self.old) result (state self.new) };

    // The last of the tokens that are told is `End`, and no other one is.
    ghost ends: { (s : Self) → (state s).later ≡ Some [] → (state s).now.class ≡ End };

    ghost end_is_last: { (s : Self) (ts : List Token)
        → (state s).later ≡ Some ts → (state s).now.class ≡ End → ts ≡ [] };
}
