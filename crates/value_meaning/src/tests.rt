//! The values of trees, their first faults, keys that stand twice, and definitions by their names.

ghost use Rattle.std.specs.Prelude.{◌≤◌, length};

use super::*;
use attr_uniquer::Uniquer;
use attr_value::{List, Text, ValueId};
use dialect_defs::{Body, TypeDef};
use first_fault::Fault;
use generic_syntax::parse_value;
use ir_lexer::SliceTokens;
use native_predicate::Natives;
use std::alloc::{AllocError, Global};
use std::test::Fail;

// A text, and the place and the rule of its first fault; 0 and 0 where it has none.
const TEXTS: &[(&str, u32, u32)] = &[
    ("[1, 2]", 0, 0),
    ("{b = 1, a = {b}}", 0, 0),
    ("{b, a, b, a}", 7, KEY_REPEATED),
    ("[128 : i8, {a, a}, !d.t]", 15, KEY_REPEATED),
    ("[1 : i9, 256 : i8]", 9, INT_RANGE),
    ("#a", 0, ALIAS_UNKNOWN),
    ("[i8, !d.t<!e.t>]", 5, NAME_UNKNOWN),
    ("vector<?xi8>", 0, PARAMETERS),
    ("tuple<vector<9223372036854775808xi8>, !d.t>", 6, PARAMETERS),
];

// The value of a text, where no alias is known and nothing is defined.
fn value_of(alloc: Global, u: &mut Uniquer, text: &str) -> Result<ValueId, ValueStop>
    requires { length text.now ≤ 16777216 }
{
    let natives = Natives::new(Vec::new(alloc));
    let aliases = Aliases::new(alloc);
    let mut tokens = SliceTokens::new(text.as_bytes());
    let Ok(tree) = parse_value(alloc, &mut tokens, 1) else {
        return Err(ValueStop::OutOfMemory);
    };
    let Ok(types) = Definitions::of(alloc, Vec::new(alloc)) else {
        return Err(ValueStop::OutOfMemory);
    };
    value_in(alloc, u, &types, &natives, &tree, &aliases)
}

#[test]
fn texts_have_a_value_or_a_first_fault(rt: HostRuntime) -> Result<(), Fail> {
    let mut u = Uniquer::new(rt.alloc());
    for (text, place, code) in TEXTS {
        assert!(rt; text.len() < 100);
        let fault = match value_of(rt.alloc(), &mut u, text) {
            Ok(_) => Fault { place: 0, code: 0 },
            Err(ValueStop::Refused(fault)) => fault,
            Err(ValueStop::OutOfMemory) => return Err(Fail::new(*text)),
        };
        assert_eq!(rt; (fault.place, fault.code), (*place, *code), "{text}");
    }
    Ok(())
}

#[test]
fn a_key_is_known_behind_itself(rt: HostRuntime) -> Result<(), Fail> {
    let mut keys = KeySet::new(rt.alloc());
    for (key, known) in [
        ("a".as_bytes(), false),
        ("b".as_bytes(), false),
        ("a".as_bytes(), true),
        ("".as_bytes(), false),
        ("aa".as_bytes(), false),
        ("b".as_bytes(), true),
        ("".as_bytes(), true),
    ] {
        assert_eq!(rt; keys.has(key), known);
        assert_eq!(rt; keys.add(key)?, known);
        assert!(rt; keys.has(key));
    }
    Ok(())
}

// Definitions without parameters, of these kinds and names.
fn definitions(alloc: Global, names: &[(bool, &str)]) -> Result<Vec<TypeDef>, AllocError> {
    let mut types = Vec::new(alloc);
    for (is_type, name) in names {
        types.push(TypeDef {
            is_type: *is_type,
            name: Text::from_slice(alloc, name.as_bytes())?,
            body: Body {
                vars: List::new(alloc),
            },
            params: List::new(alloc),
        })?;
    }
    Ok(types)
}

#[test]
fn a_definition_is_found_by_its_kind_and_name(rt: HostRuntime) -> Result<(), Fail> {
    let twice = definitions(rt.alloc(), &[(true, "d.t"), (true, "d.u"), (true, "d.t")])?;
    assert!(rt; !have_distinct_names(rt.alloc(), twice.as_slice())?);
    let list = definitions(rt.alloc(), &[(true, "d.t"), (false, "d.t"), (true, "d.u")])?;
    assert!(rt; have_distinct_names(rt.alloc(), list.as_slice())?);
    let types = Definitions::of(rt.alloc(), list)?;
    assert_eq!(rt; types.types().len(), 3);
    for (is_type, name, want) in [
        (true, "d.t", true),
        (false, "d.t", true),
        (true, "d.u", true),
        (false, "d.u", false),
        (true, "d", false),
    ] {
        let name = Text::from_slice(rt.alloc(), name.as_bytes())?;
        assert_eq!(rt; types.find(is_type, &name).is_some(), want);
    }
    Ok(())
}
