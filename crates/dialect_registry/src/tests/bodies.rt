//! Bodies of operations, and their first faults.

use super::*;

/// A body of an operation `@o` of a dialect `@a`, and the place and the rule of its first fault.
/// The dialect's name stands at 1 and the operation's at 2.
type Body = (&'static [Line], Option<(u32, u32)>);

const NAMES: &[Body] = &[
    (&[], None),
    (
        &[
            Con((3, "x"), Any),
            Con((4, "y"), Is(5)),
            Region((6, "r"), None),
        ],
        None,
    ),
    // value names of constraints and regions are distinct
    (&[Con((3, "x"), Any), Con((5, "x"), Any)], Some((5, 3))),
    (&[Con((3, "x"), Any), Region((5, "x"), None)], Some((5, 3))),
    (
        &[Region((3, "x"), None), Region((5, "x"), None)],
        Some((5, 3)),
    ),
    (
        &[Con((3, "x"), Any), Con((5, "x"), Any), Con((7, "x"), Any)],
        Some((5, 3)),
    ),
    (&[Con((3, "x"), Any), Con((5, "X"), Any)], None),
    // entries of all lists are distinct together
    (
        &[
            Con((3, "v"), Any),
            Operands(
                4,
                &[(5, Some((5, "x")), (6, "v")), (7, Some((7, "x")), (8, "v"))],
            ),
        ],
        Some((7, 3)),
    ),
    (
        &[
            Con((3, "v"), Any),
            Operands(4, &[(5, Some((5, "x")), (6, "v"))]),
            Results(7, &[(8, Some((8, "x")), (9, "v"))]),
        ],
        Some((8, 3)),
    ),
    (
        &[
            Con((3, "v"), Any),
            Results(4, &[(5, Some((5, "x")), (6, "v"))]),
            Attributes(7, &[((8, "x"), (9, "v"))]),
        ],
        Some((8, 3)),
    ),
    (
        &[
            Con((3, "v"), Any),
            Region((4, "r"), None),
            Attributes(5, &[((6, "x"), (7, "v"))]),
            Regions(8, &[(9, Some((9, "x")), (10, "r"))]),
        ],
        Some((9, 3)),
    ),
    (
        &[
            Region((4, "r"), None),
            Regions(8, &[(9, Some((9, "x")), (10, "r"))]),
            Successors(11, &[(12, "y"), (13, "x")]),
        ],
        Some((13, 3)),
    ),
    // entries without a name, and one that has the name of a value
    (
        &[
            Con((3, "v"), Any),
            Operands(
                4,
                &[
                    (5, None, (5, "v")),
                    (6, None, (6, "v")),
                    (7, Some((7, "v")), (8, "v")),
                ],
            ),
        ],
        None,
    ),
    // a name is used behind its definition
    (
        &[Con((3, "x"), AnyOf(&[(4, "y")])), Con((5, "y"), Any)],
        Some((4, 4)),
    ),
    (&[Con((3, "x"), AllOf(&[(4, "x")]))], Some((4, 4))),
    (&[Con((3, "x"), AnyOf(&[(4, "x"), (5, "y")]))], Some((4, 4))),
    (&[Operands(3, &[(4, None, (4, "v"))])], Some((4, 4))),
    (
        &[
            Con((3, "v"), Any),
            Results(4, &[(5, Some((5, "v")), (6, "w"))]),
        ],
        Some((6, 4)),
    ),
    (&[Attributes(3, &[((4, "k"), (5, "v"))])], Some((5, 4))),
    (&[Region((3, "r"), Some(&[(4, "v")]))], Some((4, 4))),
    (
        &[Con((3, "v"), Any), Region((4, "r"), Some(&[(5, "v")]))],
        None,
    ),
    // and for what it is: a constraint, or a region
    (
        &[Con((3, "v"), Any), Regions(4, &[(5, None, (5, "v"))])],
        Some((5, 4)),
    ),
    (
        &[Region((3, "r"), None), Operands(4, &[(5, None, (5, "r"))])],
        Some((5, 4)),
    ),
    (
        &[Region((3, "r"), None), Con((4, "x"), AnyOf(&[(5, "r")]))],
        Some((5, 4)),
    ),
    (
        &[Region((3, "r"), None), Regions(4, &[(5, None, (5, "r"))])],
        None,
    ),
    // the name of an entry is no value
    (
        &[
            Con((3, "v"), Any),
            Operands(4, &[(5, Some((5, "x")), (6, "v")), (7, None, (7, "x"))]),
        ],
        Some((7, 4)),
    ),
    // statements stand once
    (
        &[Operands(3, &[]), Results(4, &[]), Operands(5, &[])],
        Some((5, 17)),
    ),
    (&[Results(3, &[]), Results(4, &[])], Some((4, 17))),
    (&[Attributes(3, &[]), Attributes(4, &[])], Some((4, 17))),
    (&[Regions(3, &[]), Regions(4, &[])], Some((4, 17))),
    (&[Successors(3, &[]), Successors(4, &[])], Some((4, 17))),
    (&[Terminator(3), Terminator(4)], Some((4, 17))),
    (&[Format(3), Terminator(4), Format(5)], Some((5, 17))),
    (
        &[
            Operands(3, &[]),
            Results(4, &[]),
            Attributes(5, &[]),
            Regions(6, &[]),
            Successors(7, &[]),
            Terminator(8),
            Format(9),
        ],
        None,
    ),
    // what a constraint refers to
    (&[Con((3, "x"), Pred((4, "is_positive")))], None),
    (&[Con((3, "x"), Pred((4, "is_odd")))], Some((4, 6))),
    (&[Con((3, "x"), Named((4, "!builtin.f32")))], None),
    (&[Con((3, "x"), Named((4, "#builtin.dense_array")))], None),
    (
        &[Con((3, "x"), Named((4, "!builtin.dense_array")))],
        Some((4, 16)),
    ),
    (&[Con((3, "x"), Named((4, "builtin.f32")))], Some((4, 16))),
    (&[Con((3, "x"), Named((4, "")))], Some((4, 16))),
    (&[Con((3, "x"), Base((4, None, "t")))], Some((4, 4))),
    (&[Con((3, "x"), Base((4, None, "o")))], Some((4, 4))),
    // reserved names of attributes
    (
        &[
            Con((3, "v"), Any),
            Attributes(4, &[((5, "operandSegmentSizes"), (6, "v"))]),
        ],
        Some((5, 18)),
    ),
    (
        &[
            Con((3, "v"), Any),
            Attributes(
                4,
                &[
                    ((5, "any name"), (6, "v")),
                    ((7, "resultSegmentSizes"), (8, "v")),
                ],
            ),
        ],
        Some((7, 18)),
    ),
    (
        &[
            Con((3, "v"), Any),
            Operands(4, &[(5, Some((5, "operandSegmentSizes")), (6, "v"))]),
        ],
        None,
    ),
    // the least place comes first, and there the least number
    (
        &[
            Con((3, "x"), Pred((4, "is_odd"))),
            Con((5, "y"), Named((6, "z"))),
        ],
        Some((4, 6)),
    ),
    (
        &[
            Con((3, "x"), Named((4, "z"))),
            Con((5, "y"), Pred((6, "is_odd"))),
        ],
        Some((4, 16)),
    ),
    (
        &[Terminator(3), Con((4, "x"), Named((5, "z"))), Terminator(6)],
        Some((5, 16)),
    ),
];

#[test]
fn bodies_have_their_first_fault(rt: HostRuntime) -> Result<(), Fail> {
    for (lines, want) in NAMES {
        let alloc = rt.alloc();
        let mut defs = List::new(alloc);
        defs.push(definition(alloc, (OP, (2, "o"), lines))?)?;
        let got = alone(alloc, defs)?;
        assert_eq!(rt; got, *want);
    }
    Ok(())
}
