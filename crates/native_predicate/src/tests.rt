//! What the offered predicates are called, and what they say of values that have the property and
//! of values that haven't.
use super::*;
use attr_uniquer::Uniquer;
use attr_value::{Dim, FloatKind, Head, IntKind, List, ShapeKind, Text};
use std::alloc::{AllocError, Global};
use std::test::Fail;

// Whether a predicate is true of a value with this head.
fn says<P: NativePredicate>(alloc: Global, predicate: P, head: Head) -> Result<bool, AllocError> {
    let mut u = Uniquer::new(alloc);
    let v = u.intern(head, &[])?;
    Ok(predicate.holds(&u, v))
}

// A number of the type i32.
fn number(n: i128) -> Head {
    Head::Number {
        kind: IntKind::Signless(32),
        n,
    }
}

#[test]
fn types_are_told_from_attributes(rt: HostRuntime) -> Result<(), Fail> {
    assert!(rt; says(rt.alloc(), IsType::new(), Head::Int(IntKind::Index))?);
    assert!(rt; !says(rt.alloc(), IsType::new(), number(1))?);
    Ok(())
}

#[test]
fn float_types_are_told_from_others(rt: HostRuntime) -> Result<(), Fail> {
    assert!(rt; says(rt.alloc(), IsFloat::new(), Head::Float(FloatKind::Bf16))?);
    assert!(rt; !says(rt.alloc(), IsFloat::new(), Head::Complex)?);
    Ok(())
}

#[test]
fn signless_types_are_told_from_others(rt: HostRuntime) -> Result<(), Fail> {
    for (kind, want) in [
        (IntKind::Signless(32), true),
        (IntKind::Signed(32), false),
        (IntKind::Unsigned(32), false),
        (IntKind::Index, false),
    ] {
        assert_eq!(rt; says(rt.alloc(), IsSignless::new(), Head::Int(kind))?, want);
    }
    Ok(())
}

#[test]
fn positive_numbers_are_greater_than_0(rt: HostRuntime) -> Result<(), Fail> {
    for (n, want) in [(1, true), (0, false), (-1, false)] {
        assert_eq!(rt; says(rt.alloc(), IsPositive::new(), number(n))?, want);
    }
    assert!(rt; !says(rt.alloc(), IsPositive::new(), Head::Unit)?);
    Ok(())
}

#[test]
fn strings_of_one_byte_are_not_empty(rt: HostRuntime) -> Result<(), Fail> {
    for (text, want) in [(b"\x00".as_slice(), true), (b"", false)] {
        let head = Head::Str(Text::from_slice(rt.alloc(), text)?);
        assert_eq!(rt; says(rt.alloc(), IsNonempty::new(), head)?, want);
    }
    assert!(rt; !says(rt.alloc(), IsNonempty::new(), number(1))?);
    Ok(())
}

#[test]
fn shapes_with_an_unknown_dimension_are_not_static(rt: HostRuntime) -> Result<(), Fail> {
    for (dims, want) in [
        ([].as_slice(), true),
        (&[Dim::Known(2), Dim::Known(3)], true),
        (&[Dim::Known(2), Dim::Unknown], false),
    ] {
        let dims = List::from_slice(rt.alloc(), dims)?;
        let kind = ShapeKind::Tensor;
        assert_eq!(rt;
            says(rt.alloc(), IsStatic::new(), Head::Shaped { kind, dims })?,
            want
        );
    }
    assert!(rt; !says(rt.alloc(), IsStatic::new(), Head::Tuple)?);
    Ok(())
}

#[test]
fn a_name_is_found_at_its_first_place(rt: HostRuntime) -> Result<(), Fail> {
    let alloc = rt.alloc();
    let mut list: Vec<Box<dyn NativePredicate>> = Vec::new(alloc);
    list.push(Box::new(alloc, IsFloat::new())?)?;
    list.push(Box::new(alloc, IsType::new())?)?;
    list.push(Box::new(alloc, IsFloat::new())?)?;
    let natives = Natives::new(list);
    for (name, place) in [
        (b"is_float".as_slice(), Some(0)),
        (b"is_type", Some(1)),
        (b"is_types", None),
    ] {
        assert_eq!(rt; natives.find(name), place);
    }
    Ok(())
}

// Whether the predicate at a place is true of a value with this head.
fn says_at(alloc: Global, natives: &Natives, i: usize, head: Head) -> Result<bool, AllocError> {
    let mut u = Uniquer::new(alloc);
    let v = u.intern(head, &[])?;
    Ok(i < natives.len() && natives.holds(i, &u, v))
}

#[test]
fn the_predicate_at_a_place_is_asked(rt: HostRuntime) -> Result<(), Fail> {
    let alloc = rt.alloc();
    let mut list: Vec<Box<dyn NativePredicate>> = Vec::new(alloc);
    list.push(Box::new(alloc, IsFloat::new())?)?;
    list.push(Box::new(alloc, IsPositive::new())?)?;
    let natives = Natives::new(list);
    for (i, want) in [(0, false), (1, true)] {
        assert_eq!(rt; says_at(alloc, &natives, i, number(1))?, want);
    }
    Ok(())
}
