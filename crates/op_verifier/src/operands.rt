//! The types of some values, as of an operation's operands.

ghost use Rattle.std.specs.Prelude.{◌≡◌, ◌<◌, length, slice_get, map};
ghost use Rattle.op_verifier.specs.Seen.{type_in};
ghost use Rattle.op_verifier.specs.Types.{ids_of};

use attr_value::ValueId;
use ir_store::Store;

/// The types of some values, as a list or by the numbers of the values in a module.
#[derive(Clone, Copy, Drop)]
pub enum Types<'a> {
    Listed(&'a [ValueId]),
    Stored(&'a Store, &'a [usize]),
}

impl<'a> Types<'a> {
    /// How many there are.
    pub(crate) fn len(&self) -> usize
        ensures { result ≡ length (ids_of self.now) }
    {
        match self {
            Types::Listed(ids) => ids.len(),
            Types::Stored(_, numbers) => numbers.len(),
        }
    }

    /// The one at a place.
    pub(crate) fn get(&self, i: usize) -> ValueId
        requires { i < length (ids_of self.now) }
        ensures { slice_get (ids_of self.now) i ≡ Some result }
    {
        match self {
            Types::Listed(ids) => id_at(ids, i),
            Types::Stored(store, numbers) => type_at(store, numbers, i),
        }
    }
}

/// The id at a place.
fn id_at(ids: &[ValueId], i: usize) -> ValueId
    requires { i < length ids.now }
    ensures { slice_get ids.now i ≡ Some result }
{
    ids[i]
}

/// The type of the value whose number stands at a place.
fn type_at(store: &Store, numbers: &[usize], i: usize) -> ValueId
    requires { i < length numbers.now }
    ensures { slice_get (map (type_in store.now) numbers.now) i ≡ Some result }
{
    type_of(store, numbers[i])
}

/// The type of a value of the module.
pub(crate) fn type_of(store: &Store, number: usize) -> ValueId
    ensures { result ≡ type_in store.now number }
{
    store.type_of(number).unwrap_or(ValueId(0))
}
