//! The front of a text: its layout, and its longest spelling.

ghost use Rattle.std.specs.Prelude.{
  ◌≡◌,
  ◌+◌,
  ◌≤◌,
  ◌<◌,
  ◌^◌,
  ℕ,
  length,
  drop,
  slice_index,
  true,
  false,
  ◌↔◌,
};
ghost use Rattle.ir_lexer.specs.declared.class.Class.{Class};
ghost use Rattle.ir_lexer.specs.Spelling.{Spells};
ghost use Rattle.ir_lexer.specs.Tokens as spec;
ghost use Rattle.ir_lexer.specs.Tokens.{layout_len};
ghost use Rattle.ir_lexer.specs.Scan.{front};
ghost use Rattle.ir_lexer.specs.Scan as scan;
ghost use Rattle.ir_lexer.specs.declared.table.TheConstants.{STATES};

use crate::class::Class;
use crate::state::{class_at, is_whole, step};
use crate::table::START;

/// A class, and the length of its spelling.
#[derive(Clone, Copy, Debug)]
pub struct Found {
    pub class: Class,
    pub len: usize,
}

fn is_blank(b: u8) -> bool
    ensures { result ≡ spec.is_blank b }
{
    b == b' ' || b == b'\n' || b == b'\t' || b == b'\r'
}

/// The end of the line on which a comment goes on.
fn comment_end(src: &[u8], from: usize) -> usize
    requires { from ≤ length src.now }
    ensures rest { let behind = layout_len false (drop result src.now) in
        result + behind ≡ from + layout_len true (drop from src.now) }
    ensures within { (from ≤ result) × (result ≤ length src.now) }
{
    let mut at = from;
    while at < src.len() {
        at += 1;
        if src[at - 1] == b'\n' {
            return at;
        }
    }
    at
}

/// The end of the layout that begins at `from`.
pub fn layout_end(src: &[u8], from: usize) -> usize
    requires { from ≤ length src.now }
    ensures value { result ≡ from + layout_len false (drop from src.now) }
    ensures within { (from ≤ result) × (result ≤ length src.now) }
{
    let mut at = from;
    while at < src.len() {
        let b = src[at];
        if is_blank(b) {
            at += 1;
        } else if b == b'/' && at + 1 < src.len() && src[at + 1] == b'/' {
            at = comment_end(src, at + 1);
        } else {
            return at;
        }
    }
    at
}

/// The end of the bytes behind `from` that lead from the state to itself, as those of a word do.
///
/// The state stays in a register there, so that no step waits for the one before it.
fn same_state_end(text: &[u8], from: usize, state: u8) -> usize
    requires within { from ≤ length text.now }
    requires known { state < STATES }
    ensures same { (k : ℕ) → from ≤ k → k < result → scan.step state (slice_index text.now k) ≡ state }
    ensures within { (from ≤ result) × (result ≤ length text.now) }
{
    let mut at = from;
    while at < text.len() {
        if step(state, text[at]) != state {
            return at;
        }
        at += 1;
    }
    at
}

/// The token at the front of a text that begins with no layout.
pub fn longest(text: &[u8]) -> Found
    requires { length text.now < 2 ^ 32 }
    ensures value { (result.class, result.len) ≡ front text.now }
    ensures within { result.len ≤ length text.now }
{
    if text.is_empty() {
        return Found {
            class: Class::End,
            len: 0,
        };
    }
    let mut state = START;
    let mut whole = 0;
    let mut end = 1;
    let mut at = 0;
    while at < text.len() {
        state = step(state, text[at]);
        if state == 0 {
            break;
        }
        at = same_state_end(text, at + 1, state);
        if is_whole(state) {
            whole = state;
            end = at;
        }
    }
    Found {
        class: class_at(whole),
        len: end,
    }
}

/// The class that a whole text spells, if there is one. It is never `Bad` or `End`. It takes no
/// memory.
pub fn class_of(text: &[u8]) -> Option<Class>
    ensures { (class : Class) → (result ≡ Some class ↔ Spells class text.now) }
{
    let mut state = START;
    let mut at = 0;
    while at < text.len() {
        state = step(state, text[at]);
        at += 1;
    }
    if is_whole(state) {
        Some(class_at(state))
    } else {
        None
    }
}
