//! Texts have bytes, and so has each value of a table.

ghost use Rattle.std.specs.Prelude.{ℕ, ◌<◌, length};
ghost use Rattle.std.specs.List.{AllByRecursion};
ghost use Rattle.attr_value.specs.Ids.{at};
ghost use Rattle.derived_printer.specs.Spellable.{AreBytes, HasBytes, HeadHasBytes};

use attr_uniquer::Uniquer;
use attr_value::{Head, Text, ValueId};

/// Bytes are numbers below 256.
fn bytes_are_bytes(bytes: &[u8])
    ensures { AreBytes bytes.now }
{}

/// Texts have bytes.
pub fn texts_have_bytes(texts: &[Text])
    ensures { AllByRecursion AreBytes texts.now }
{
    for text in texts {
        bytes_are_bytes(text.bytes());
    }
}

/// The texts of a head have bytes.
fn head_has_bytes(head: &Head)
    ensures { HeadHasBytes head.now }
{
    match head {
        Head::Str(text) => bytes_are_bytes(text.bytes()),
        Head::Dict { keys } => texts_have_bytes(keys.as_slice()),
        Head::Symbol { parts } => texts_have_bytes(parts.as_slice()),
        _ => {}
    }
}

/// The texts of a value have bytes, where those of the values before it in the table do.
fn value_has_bytes(u: &Uniquer, id: ValueId)
    requires known { id.0 < length u.now }
    requires earlier { (i : ℕ) → i < id.0 → HasBytes (at u.now i) }
    ensures { HasBytes (at u.now id.0) }
{
    let (head, _) = u.view(id);
    head_has_bytes(head);
}

/// The texts of all values of a table have bytes.
pub fn values_have_bytes(u: &Uniquer)
    ensures { AllByRecursion HasBytes u.now }
{
    for i in 0..u.len() {
        value_has_bytes(u, ValueId(i));
    }
}
