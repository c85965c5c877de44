//! What files are loaded, and where others are refused behind the rules of names.

use super::Line::*;
use super::Says::*;
use super::{ATTR, DialectRow, OP, TYPE, files_of, predicates};
use crate::{DefStop, Registry, load};
use attr_uniquer::Uniquer;
use attr_value::Text;
use std::alloc::{AllocError, Global};
use std::test::Fail;

/// How many operations and types there are, or the file, the place and the number of the rule.
type Outcome = Result<(usize, usize), (usize, u32, u32)>;

const LOADED: &[(&[&[DialectRow]], Outcome)] = &[
    (&[], Ok((1, 0))),
    // a type of one parameter, and an operation that names it in another file
    (
        &[
            &[(
                (1, "a"),
                &[(
                    OP,
                    (2, "o"),
                    &[
                        Con((3, "0"), Is(4)),
                        Con((5, "1"), Parametric((6, Some("b"), "t"), &[(7, "0")])),
                        Operands(8, &[(9, None, (9, "1"))]),
                    ],
                )],
            )],
            &[(
                (1, "b"),
                &[
                    (
                        TYPE,
                        (2, "t"),
                        &[Con((3, "0"), Any), Parameters(4, &[(5, None, (5, "0"))])],
                    ),
                    (ATTR, (6, "u"), &[]),
                ],
            )],
        ],
        Ok((2, 2)),
    ),
    // a format in which a name means nothing
    (
        &[&[((1, "a"), &[(OP, (2, "o"), &[Format(3)])])]],
        Err((0, 3, 10)),
    ),
];

/// The registry of some files, or why there is none.
fn loaded(alloc: Global, rows: &[&'static [DialectRow]]) -> Result<Registry, DefStop> {
    let files = files_of(alloc, rows)?;
    let natives = predicates(alloc)?;
    load(alloc, &files, &natives, &mut Uniquer::new(alloc))
}

/// What comes of loading files.
fn outcome(alloc: Global, rows: &[&'static [DialectRow]]) -> Result<Outcome, AllocError> {
    match loaded(alloc, rows) {
        Ok(registry) => Ok(Ok((registry.ops().len(), registry.types().len()))),
        Err(DefStop::Refused(refusal)) => Ok(Err((refusal.file, refusal.place, refusal.code))),
        Err(DefStop::OutOfMemory) => Err(AllocError),
    }
}

#[test]
fn files_are_loaded_or_refused(rt: HostRuntime) -> Result<(), Fail> {
    for (files, want) in LOADED {
        assert_eq!(rt; outcome(rt.alloc(), files)?, *want);
    }
    Ok(())
}

/// An operation in one file, and an attribute and a type in another.
const NAMED: &[&[DialectRow]] = &[
    &[((1, "a"), &[(OP, (2, "o"), &[])])],
    &[((1, "b"), &[(ATTR, (2, "u"), &[]), (TYPE, (3, "t"), &[])])],
];

#[test]
fn definitions_are_found_by_their_names(rt: HostRuntime) -> Result<(), Fail> {
    let alloc = rt.alloc();
    let Ok(registry) = loaded(alloc, NAMED) else {
        panic!(rt; "the files are refused");
    };
    for (name, place) in [
        ("builtin.module", Some(0)),
        ("a.o", Some(1)),
        ("o", None),
        ("a.u", None),
        ("b.t", None),
    ] {
        assert_eq!(rt; registry.op(name.as_bytes()), place, "{name}");
    }
    for (is_type, name, found) in [
        (true, "b.t", true),
        (false, "b.t", false),
        (false, "b.u", true),
    ] {
        let name = Text::from_slice(alloc, name.as_bytes())?;
        assert_eq!(rt; registry.ty(is_type, &name).is_some(), found);
    }
    Ok(())
}
