//! Numbers of values, and sizes of packs.

ghost use Rattle.std.specs.Prelude.{◌≡◌, ◌+◌, IfOk};
ghost use Rattle.module_meaning.specs.Names as spec;

use generic_syntax::ResultCst;
use module_names::pack_size;
use std::alloc::AllocError;

/// The number that is so many past another. A module with more values than numbers is too large for
/// the memory.
pub(crate) fn past(number: usize, count: usize) -> Result<usize, AllocError>
    ensures { IfOk result (λ sum. sum ≡ number + count) }
{
    match number.checked_add(count) {
        Some(sum) => Ok(sum),
        None => Err(AllocError),
    }
}

/// How many values the name of a result stands for. It takes no memory.
pub(crate) fn size_of(name: &ResultCst) -> u32
    ensures { result ≡ spec.pack_size name.now.pack }
{
    match &name.pack {
        Some(size) => match pack_size(size.digits.bytes()) {
            Some(size) => size,
            None => 0,
        },
        None => 1,
    }
}
