//! The attributes of an operation.

ghost use Rattle.std.specs.Prelude.{◌≡◌, length, option_copied};
ghost use Rattle.std.specs.List.{zip};
ghost use Rattle.std.specs.Ordering.{nat_cmp};
ghost use Rattle.std.specs.Cmp.Lexicographic.{slice_cmp};
ghost use Rattle.attr_value.specs.Heads.{Ascend};
ghost use Rattle.dialect_defs.specs.Operations.{attr_at, given_sizes, sizes_of_head};
ghost use Rattle.op_verifier.specs.Views.{IsKnownView, view_attrs};

use crate::view::OpView;
use attr_uniquer::Uniquer;
use attr_value::{Head, Text, ValueId};
use std::cmp::Ordering;

/// How a key compares with another, by bytes.
fn compare(own: &Text, key: &[u8]) -> Ordering
    ensures { result ≡ slice_cmp nat_cmp own.now key.now }
{
    own.bytes().cmp(key)
}

/// The value at the place of a key, among keys that ascend.
fn id_of(keys: &[Text], values: &[ValueId], key: &[u8]) -> Option<ValueId>
    requires ascend { Ascend keys.now }
    requires counts { length values.now ≡ length keys.now }
    ensures { result ≡ attr_at (zip keys.now values.now) key.now }
{
    match keys.binary_search_by(|own| compare(own, key)) {
        Ok(i) => Some(values[i]),
        Err(_) => None,
    }
}

/// The value of the attribute of a key, if the operation has one.
pub(crate) fn attribute(op: &OpView, key: &[u8]) -> Option<ValueId>
    requires ascend { Ascend op.now.keys.now }
    requires counts { length op.now.values.now ≡ length op.now.keys.now }
    ensures { result ≡ attr_at (zip op.now.keys.now op.now.values.now) key.now }
{
    id_of(op.keys, op.values, key)
}

/// The numbers of a dense array of integers of 32 bits.
fn sizes_of(head: &Head) -> Option<&[i64]>
    ensures { option_copied result ≡ sizes_of_head head.now }
{
    let Head::Dense { width, items } = head else {
        return None;
    };
    if *width == 32 {
        Some(items.as_slice())
    } else {
        None
    }
}

/// The sizes that the attribute of a key gives. It does where it is a dense array of integers of
/// 32 bits.
pub(crate) fn sizes_given<'u>(u: &'u Uniquer, op: &OpView, key: &[u8]) -> Option<&'u [i64]>
    requires { IsKnownView (length u.now) op.now }
    ensures { option_copied result ≡ given_sizes (attr_at (view_attrs u.now op.now) key.now) }
{
    let id = attribute(op, key)?;
    let (head, _) = u.view(id);
    sizes_of(head)
}
