//! Why a reader stops.
//!
//! A refusal is a place and a code. A failed source and want of memory are stops of their own, and
//! nothing turns one into another.

ghost use Rattle.std.specs.Prelude.{◌≡◌};

use ir_lexer::TokenStop;
use std::alloc::AllocError;

/// What is wrong with the first token that no text of the grammar has at its place.
#[derive(Clone, Copy, Debug, PartialEq, Eq)]
pub enum SyntaxCode {
    /// The tokens before the place go on in no text with this token, as with `)` in `(i32,)`.
    Syntax,
    /// The same, where the token is a `Float`.
    Float,
    /// The same, where the token is `Bad`: bytes that spell no token.
    Bad,
    /// The token begins a value or a region nested more than 64 deep.
    Nesting,
}

/// Why a reader stopped.
#[derive(Clone, Copy, Debug, PartialEq, Eq)]
pub enum SyntaxStop {
    /// The text is refused. The place is in bytes from 0; the end of a text is its length.
    At { place: u32, code: SyntaxCode },
    /// The source failed, and its count of faults rose in this call.
    Failed,
    /// Memory ran out.
    OutOfMemory,
}

impl From<AllocError> for SyntaxStop {
    ghost use Rattle.grammar.specs.declared.stop.SyntaxStop.TheVariants.{OutOfMemory};

    ghost from_gives = { λ _ e. e ≡ OutOfMemory };

    fn from(_: AllocError) -> SyntaxStop {
        SyntaxStop::OutOfMemory
    }
}

impl From<TokenStop> for SyntaxStop {
    ghost use Rattle.grammar.specs.Ran.{handed_on};

    ghost from_gives = { λ stop e. e ≡ handed_on stop };

    fn from(stop: TokenStop) -> SyntaxStop {
        match stop {
            TokenStop::Failed => SyntaxStop::Failed,
            TokenStop::OutOfMemory => SyntaxStop::OutOfMemory,
        }
    }
}
