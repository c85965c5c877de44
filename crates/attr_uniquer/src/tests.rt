//! That calls succeed and answer as the values do. Expected ids are counted by hand.
ghost use Rattle.std.specs.Prelude.{◌<◌, ◌≤◌, length, IfOk};

use super::*;
use attr_value::{Head, IntKind, Text, ValueId};
use std::alloc::{AllocError, Global};
use std::test::Fail;

#[test]
fn a_value_is_kept_once(rt: HostRuntime) -> Result<(), Fail> {
    let mut u = Uniquer::new(rt.alloc());
    assert_eq!(rt; u.len(), 0);
    let first = u.intern(Head::Unit, &[])?;
    let again = u.intern(Head::Unit, &[])?;
    assert_eq!(rt; (first, again, u.len()), (ValueId(0), ValueId(0), 1));
    Ok(())
}

// The head of a dialect's type or attribute.
fn dialect(alloc: Global, is_type: bool, name: &[u8]) -> Result<Head, AllocError> {
    Ok(Head::Dialect {
        is_type,
        name: Text::from_slice(alloc, name)?,
    })
}

#[test]
fn ids_tell_heads_apart(rt: HostRuntime) -> Result<(), Fail> {
    let mut u = Uniquer::new(rt.alloc());
    let word = u.intern(Head::Int(IntKind::Signless(32)), &[])?;
    let signed = u.intern(Head::Int(IntKind::Signed(32)), &[])?;
    let box_type = u.intern(dialect(rt.alloc(), true, b"d.box")?, &[])?;
    let box_attr = u.intern(dialect(rt.alloc(), false, b"d.box")?, &[])?;
    let found = u.intern(dialect(rt.alloc(), true, b"d.box")?, &[])?;
    assert_eq!(rt;
        [word, signed, box_type, box_attr],
        [0, 1, 2, 3].map(ValueId)
    );
    assert_eq!(rt; (found, u.len()), (box_type, 4));
    assert!(rt; u.same(box_type, found) && !u.same(box_type, box_attr));
    Ok(())
}

#[test]
fn ids_tell_kids_apart(rt: HostRuntime) -> Result<(), Fail> {
    let mut u = Uniquer::new(rt.alloc());
    let word = u.intern(Head::Int(IntKind::Index), &[])?;
    let other = u.intern(Head::NoneType, &[])?;
    let pair = u.intern(Head::Tuple, &[word, other])?;
    let turned = u.intern(Head::Tuple, &[other, word])?;
    let list = u.intern(Head::Array, &[word, other])?;
    let found = u.intern(Head::Tuple, &[word, other])?;
    assert_eq!(rt;
        [word, other, pair, turned, list],
        [0, 1, 2, 3, 4].map(ValueId)
    );
    assert_eq!(rt; (found, u.len()), (pair, 5));
    let (head, kids) = u.view(turned);
    assert!(rt; *head == Head::Tuple);
    assert_eq!(rt; kids, [other, word].as_slice());
    Ok(())
}

#[test]
fn a_value_keeps_to_the_rule_of_its_head(rt: HostRuntime) -> Result<(), Fail> {
    let mut u = Uniquer::new(rt.alloc());
    let word = u.intern(Head::Int(IntKind::Index), &[])?;
    let unit = u.intern(Head::Unit, &[])?;
    assert!(rt; u.keeps_own_rule(&Head::Tuple, &[word, word]));
    assert!(rt; !u.keeps_own_rule(&Head::Tuple, &[word, unit]));
    assert!(rt; u.keeps_own_rule(&Head::Array, &[word, unit]));
    assert!(rt; !u.keeps_own_rule(&Head::Complex, &[word, word]));
    assert!(rt; !u.keeps_own_rule(&Head::Int(IntKind::Signless(0)), &[]));
    Ok(())
}

// The tuple of the last value twice.
fn twice_the_last(u: &mut Uniquer) -> Result<ValueId, AllocError>
    requires { 0 < length u.old }
    ensures last { IfOk result (λ id. id.0 < length u.new) }
    ensures later { length u.old ≤ length u.new }
{
    let last = ValueId(u.len() - 1);
    u.intern(Head::Tuple, &[last, last])
}

#[test]
fn a_value_that_is_shared_is_kept_once_however_deep(rt: HostRuntime) -> Result<(), Fail> {
    let mut u = Uniquer::new(rt.alloc());
    let leaf = u.intern(Head::Int(IntKind::Signless(32)), &[])?;
    for _ in 0..24 {
        assert!(rt; u.len() > 0);
        twice_the_last(&mut u)?;
    }
    assert!(rt; u.len() > 0);
    let last = twice_the_last(&mut u)?;
    assert_eq!(rt; (u.len(), u.depth(last)), (26, 26));
    let len = u.len();
    assert!(rt; leaf.0 < len);
    let mixed = u.intern(Head::Array, &[leaf, last, leaf])?;
    assert_eq!(rt; (u.depth(leaf), u.depth(mixed)), (1, 27));
    Ok(())
}
