//! What names mean, and the first rule that is broken, by tables of what a text says.
//!
//! Expected values follow from the rules alone. The k-th thing said stands at the place 10 k, and
//! the number of a use just behind it.

use super::*;
use std::alloc::{AllocError, Global};
use std::process::Abort;
use std::test::Fail;

/// One thing that a text says of names.
#[derive(Clone, Copy)]
enum Said {
    In,
    Out,
    /// A definition of a pack of so many values.
    Def(&'static str, u32),
    /// A use of a value with a number.
    Use(&'static str, u32),
    /// A label of the block with a number.
    Label(&'static str, usize),
    To(&'static str),
    BadPack,
    /// An alias, of types or else of attributes.
    Alias(bool, &'static str),
    AliasUse(bool, &'static str),
}

use Said::{Alias, AliasUse, BadPack, Def, In, Label, Out, To, Use};

/// What is said, and what uses and successors mean.
type Right = (&'static [Said], &'static [(usize, u32)], &'static [usize]);

/// What is said, and the place and the number of the first fault.
type Wrong = (&'static [Said], (u32, u32));

const RIGHT: &[Right] = &[
    (&[], &[], &[]),
    // a use before its definition
    (
        &[Def("r", 1), Use("x", 0), Use("x", 0), Def("x", 1)],
        &[(1, 0), (1, 0)],
        &[],
    ),
    // sibling regions don't see one another
    (
        &[
            In,
            Def("x", 1),
            Use("x", 0),
            Out,
            In,
            Def("x", 1),
            Use("x", 0),
            Out,
        ],
        &[(0, 0), (1, 0)],
        &[],
    ),
    // a name that is defined inside, and outside only later
    (
        &[In, Def("x", 1), Use("x", 0), Out, Def("x", 1), Use("x", 0)],
        &[(0, 0), (1, 0)],
        &[],
    ),
    // a use inside of a name that is defined later outside
    (
        &[In, In, Use("x", 0), Out, Out, Def("x", 1)],
        &[(0, 0)],
        &[],
    ),
    // a later definition of the use's own region rather than an earlier one of a region beside it
    (
        &[In, Def("x", 1), Out, In, Use("x", 0), Def("x", 1), Out],
        &[(1, 0)],
        &[],
    ),
    // a pack and its numbers
    (
        &[Def("p", 2), Use("p", 0), Use("p", 1)],
        &[(0, 0), (0, 1)],
        &[],
    ),
    // labels and successors, also behind one another
    (
        &[
            In,
            Label("a", 0),
            To("next"),
            Label("next", 1),
            To("next"),
            Out,
        ],
        &[],
        &[1, 1],
    ),
    // the same label in a region and in one inside it
    (
        &[
            In,
            Label("a", 0),
            Label("b", 1),
            In,
            Label("c", 0),
            Label("b", 2),
            To("b"),
            Out,
            To("b"),
            Out,
        ],
        &[],
        &[2, 1],
    ),
    // long names, and large numbers of packs and blocks
    (
        &[
            Def("a_name_that_is_long_1", 70_000),
            Def("a_name_that_is_long_2", 1),
            Use("a_name_that_is_long_2", 0),
            Use("a_name_that_is_long_1", 69_999),
            Use("a_name_that_is_long_1", 255),
            Use("a_name_that_is_long_1", 256),
            In,
            Label("a_block_that_is_late", 70_000),
            To("a_block_that_is_late"),
            Out,
        ],
        &[(1, 0), (0, 69_999), (0, 255), (0, 256)],
        &[70_000],
    ),
    // values, labels and both sorts of aliases have names of their own
    (
        &[
            Alias(true, "x"),
            Alias(false, "x"),
            AliasUse(true, "x"),
            AliasUse(false, "x"),
            Def("x", 1),
            In,
            Label("e", 0),
            Label("x", 1),
            To("x"),
            Use("x", 0),
            Out,
        ],
        &[(0, 0)],
        &[1],
    ),
];

const WRONG: &[Wrong] = &[
    // aliases
    (&[AliasUse(true, "b")], (0, 5)),
    (&[Alias(false, "b"), AliasUse(true, "b")], (10, 5)),
    (&[AliasUse(true, "a"), Alias(true, "a")], (0, 5)),
    (&[Alias(true, "a"), Alias(true, "a")], (10, 6)),
    (&[Alias(false, "a"), Alias(false, "a")], (10, 6)),
    // values that aren't defined
    (&[In, Out, Use("y", 0)], (20, 7)),
    (&[In, Def("x", 1), Out, Use("x", 0)], (30, 7)),
    (&[Label("x", 1), Use("x", 0)], (10, 7)),
    // values that are defined twice
    (&[Def("x", 1), In, Def("x", 1), Out], (20, 8)),
    (&[Def("x", 1), Def("x", 1)], (10, 8)),
    (
        &[In, Def("x", 1), In, In, Def("x", 1), Out, Out, Out],
        (40, 8),
    ),
    // numbers past a pack, also where the name means the first of two definitions
    (&[Def("p", 2), Use("p", 2)], (11, 9)),
    (&[Use("p", 2), Def("p", 1), Def("p", 3)], (1, 9)),
    (&[Use("p", 2), Def("p", 3), Def("p", 1)], (20, 8)),
    (&[Def("p", 70_000), Use("p", 70_000)], (11, 9)),
    // a pack of a wrong size, whose uses aren't judged
    (&[Def("p", 0), Use("p", 7), BadPack], (20, 9)),
    // successors
    (&[To("a")], (0, 10)),
    (
        &[In, Label("a", 0), Label("b", 1), In, To("b"), Out, Out],
        (40, 10),
    ),
    (&[In, Label("a", 0), To("a"), Out], (20, 12)),
    (&[In, To("b"), Label("b", 0), Label("b", 1), Out], (10, 12)),
    // labels that stand twice
    (&[In, Label("a", 0), Label("a", 1), Out], (20, 11)),
    // the first of several faults
    (&[Use("x", 0), AliasUse(true, "a"), To("b")], (0, 7)),
    (&[To("b"), Use("x", 0), AliasUse(true, "a")], (0, 10)),
];

/// Notes one thing, at the place.
fn note(scopes: &mut Scopes, place: u32, said: Said) -> Result<(), AllocError> {
    match said {
        In => scopes.enter(),
        Out => scopes.leave(),
        Def(name, count) => scopes.define(name.as_bytes(), place, count).map(|_| ()),
        Use(name, number) => scopes
            .mention(name.as_bytes(), place, number, place.wrapping_add(1))
            .map(|_| ()),
        Label(name, block) => scopes.define_block(name.as_bytes(), place, block),
        To(name) => scopes.mention_block(name.as_bytes(), place).map(|_| ()),
        BadPack => scopes.note_pack(place),
        Alias(is_type, name) => scopes.define_alias(is_type, name.as_bytes(), place),
        AliasUse(is_type, name) => scopes.mention_alias(is_type, name.as_bytes(), place),
    }
}

/// What was said, noted.
fn scopes_of(alloc: Global, row: &[Said]) -> Result<Scopes, AllocError> {
    let mut scopes = Scopes::new(alloc);
    let mut place = 0u32;
    for said in row {
        note(&mut scopes, place, *said)?;
        place = place.wrapping_add(10);
    }
    Ok(scopes)
}

#[test]
fn names_mean_the_first_definition_of_the_innermost_region(rt: HostRuntime) -> Result<(), Fail> {
    for (row, values, blocks) in RIGHT {
        let uses = scopes_of(rt.alloc(), row)?.finish()?;
        for (at, value) in values.iter().enumerate() {
            assert_eq!(rt; uses.value(at), Some(*value));
        }
        for (at, block) in blocks.iter().enumerate() {
            assert_eq!(rt; uses.block(at), Some(*block));
        }
        assert_eq!(rt; uses.value(values.len()), None);
        assert_eq!(rt; uses.block(blocks.len()), None);
    }
    Ok(())
}

#[test]
fn the_first_broken_rule_is_answered(rt: HostRuntime) -> Result<(), Fail> {
    for (row, want) in WRONG {
        let (place, code) = *want;
        let got = scopes_of(rt.alloc(), row)?.finish().err();
        assert_eq!(rt; got, Some(NameStop::Refused { place, code }));
    }
    Ok(())
}
