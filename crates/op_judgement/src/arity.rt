//! Whether lists of an operation in generic form are as long as each other.

ghost use Rattle.std.specs.Prelude.{◌≡◌, ◌↔◌, IsTrue};
ghost use Rattle.module_meaning.specs.Names as meaning;
ghost use Rattle.op_judgement.specs.Arity.{GenericListsDiffer, values_named};

use generic_syntax::{GenericCst, ResultCst};
use module_names::pack_size;

/// How many values the name of a result stands for; 0 for a wrong size.
fn size_of(name: &ResultCst) -> usize
    ensures { result ≡ meaning.pack_size name.now.pack }
{
    match &name.pack {
        None => 1,
        Some(size) => pack_size(size.digits.bytes()).unwrap_or(0) as usize,
    }
}

/// Whether the names of results stand for so many values.
fn are_as_many(named: &[ResultCst], count: usize) -> bool
    ensures { IsTrue result ↔ (values_named named.now ≡ count) }
{
    let mut left = count;
    for name in named {
        let size = size_of(name);
        if size > left {
            return false;
        }
        left -= size;
    }
    left == 0
}

/// Whether there are as many types as uses, and as many as the names of results stand for, if any
/// result is named.
pub fn lists_differ(form: &GenericCst, named: &[ResultCst]) -> bool
    ensures { IsTrue result ↔ GenericListsDiffer form.now named.now }
{
    if form.operands.as_slice().len() != form.inputs.as_slice().len() {
        return true;
    }
    !named.is_empty() && !are_as_many(named, form.outputs.as_slice().len())
}
