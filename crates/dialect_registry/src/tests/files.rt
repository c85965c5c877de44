//! Names, references and parts in one file and in several, and the first of several faults.

use super::*;

/// A type of two parameters, and how a reference to it is judged.
const PAIR: DefRow = (
    TYPE,
    (10, "pair"),
    &[
        Con((11, "x"), Any),
        Parameters(
            12,
            &[
                (13, Some((13, "l")), (14, "x")),
                (15, Some((15, "r")), (16, "x")),
            ],
        ),
    ],
);

/// Names of dialects and definitions.
const NAMED: &[Row] = &[
    (&[], None),
    (&[&[]], None),
    (
        &[&[((1, "a"), &[]), ((2, "b"), &[])], &[((1, "c"), &[])]],
        None,
    ),
    // dialects over all files
    (&[&[((1, "a"), &[]), ((2, "a"), &[])]], Some((0, 2, 3))),
    (
        &[&[((1, "a"), &[])], &[((1, "b"), &[]), ((2, "a"), &[])]],
        Some((1, 2, 3)),
    ),
    // definitions of a dialect share one name space
    (
        &[&[((1, "a"), &[(OP, (2, "x"), &[]), (TYPE, (3, "x"), &[])])]],
        Some((0, 3, 3)),
    ),
    (
        &[&[((1, "a"), &[(ATTR, (2, "x"), &[]), (TYPE, (3, "x"), &[])])]],
        Some((0, 3, 3)),
    ),
    (
        &[&[
            ((1, "a"), &[(OP, (2, "x"), &[])]),
            ((3, "b"), &[(OP, (4, "x"), &[])]),
        ]],
        None,
    ),
    // shapes and reserved names
    (&[&[((1, "a.b"), &[])]], Some((0, 1, 18))),
    (&[&[((1, "a$"), &[])]], Some((0, 1, 18))),
    (&[&[((1, "4"), &[])]], Some((0, 1, 18))),
    (&[&[((1, ""), &[])]], Some((0, 1, 18))),
    (&[&[((1, "builtin"), &[])]], Some((0, 1, 18))),
    (&[&[((1, "irdl"), &[])]], Some((0, 1, 18))),
    (&[&[((1, "irdl_opt"), &[])]], Some((0, 1, 18))),
    (&[&[((1, "irdl_op"), &[]), ((2, "_a9"), &[])]], None),
    (
        &[&[(
            (1, "a"),
            &[(OP, (2, "x.y$9"), &[]), (TYPE, (3, "builtin"), &[])],
        )]],
        None,
    ),
    (&[&[((1, "a"), &[(OP, (2, "x-y"), &[])])]], Some((0, 2, 18))),
    (&[&[((1, "a"), &[(OP, (2, "9"), &[])])]], Some((0, 2, 18))),
    // at one place the least number counts
    (
        &[&[((1, "a"), &[(OP, (2, "9"), &[]), (OP, (3, "9"), &[])])]],
        Some((0, 2, 18)),
    ),
    (
        &[&[((1, "irdl"), &[]), ((1, "irdl"), &[])]],
        Some((0, 1, 3)),
    ),
];

/// References: behind, before, in another file, with and without the dialect.
const REFERENCES: &[Row] = &[
    (
        &[&[(
            (1, "a"),
            &[
                (OP, (2, "o"), &[Con((3, "v"), Base((4, None, "pair")))]),
                PAIR,
            ],
        )]],
        None,
    ),
    (
        &[
            &[(
                (1, "b"),
                &[(OP, (2, "o"), &[Con((3, "v"), Base((4, Some("a"), "pair")))])],
            )],
            &[((1, "a"), &[PAIR])],
        ],
        None,
    ),
    (
        &[
            &[(
                (1, "b"),
                &[(OP, (2, "o"), &[Con((3, "v"), Base((4, None, "pair")))])],
            )],
            &[((1, "a"), &[PAIR])],
        ],
        Some((0, 4, 4)),
    ),
    (
        &[&[(
            (1, "a"),
            &[
                PAIR,
                (
                    ATTR,
                    (20, "k"),
                    &[Con((21, "v"), Base((22, Some("a"), "k")))],
                ),
            ],
        )]],
        None,
    ),
    // a name with a dot is no dialect's
    (
        &[&[(
            (1, "a"),
            &[(
                TYPE,
                (2, "b.c"),
                &[Con((3, "v"), Base((4, Some("a.b"), "c")))],
            )],
        )]],
        Some((0, 4, 4)),
    ),
    // operations aren't referred to, also where a type has the name behind
    (
        &[&[(
            (1, "a"),
            &[(OP, (2, "o"), &[Con((3, "v"), Base((4, None, "o")))])],
        )]],
        Some((0, 4, 4)),
    ),
    (
        &[&[(
            (1, "a"),
            &[
                (OP, (2, "o"), &[Con((3, "v"), Base((4, None, "o")))]),
                (TYPE, (5, "o"), &[]),
            ],
        )]],
        Some((0, 4, 4)),
    ),
    // of two dialects of one name the first is meant
    (
        &[
            &[
                ((1, "a"), &[]),
                (
                    (2, "b"),
                    &[(OP, (3, "o"), &[Con((4, "v"), Base((5, Some("a"), "pair")))])],
                ),
            ],
            &[((1, "a"), &[PAIR])],
        ],
        Some((0, 5, 4)),
    ),
];

/// As many parts as parameters.
const PARTS: &[Row] = &[
    (
        &[&[(
            (1, "a"),
            &[
                (
                    OP,
                    (2, "o"),
                    &[
                        Con((3, "v"), Any),
                        Con(
                            (4, "w"),
                            Parametric((5, None, "pair"), &[(6, "v"), (7, "v")]),
                        ),
                    ],
                ),
                PAIR,
            ],
        )]],
        None,
    ),
    (
        &[&[(
            (1, "a"),
            &[
                (
                    OP,
                    (2, "o"),
                    &[
                        Con((3, "v"), Any),
                        Con((4, "w"), Parametric((5, None, "pair"), &[(6, "v")])),
                    ],
                ),
                PAIR,
            ],
        )]],
        Some((0, 5, 5)),
    ),
    (
        &[&[(
            (1, "a"),
            &[
                (
                    OP,
                    (2, "o"),
                    &[Con((4, "w"), Parametric((5, Some("a"), "none"), &[]))],
                ),
                (TYPE, (6, "none"), &[]),
            ],
        )]],
        None,
    ),
    // the first list of parameters counts
    (
        &[&[(
            (1, "a"),
            &[
                (
                    OP,
                    (2, "o"),
                    &[Con((3, "w"), Parametric((4, None, "twice"), &[]))],
                ),
                (
                    TYPE,
                    (5, "twice"),
                    &[
                        Con((6, "x"), Any),
                        Parameters(7, &[]),
                        Parameters(8, &[(9, None, (9, "x"))]),
                    ],
                ),
            ],
        )]],
        Some((0, 8, 17)),
    ),
    (
        &[&[(
            (1, "a"),
            &[(
                OP,
                (2, "o"),
                &[Con((4, "w"), Parametric((5, None, "t"), &[(6, "v")]))],
            )],
        )]],
        Some((0, 5, 4)),
    ),
    (
        &[&[(
            (1, "a"),
            &[(
                TYPE,
                (2, "t"),
                &[
                    Con((3, "x"), Any),
                    Parameters(
                        4,
                        &[(5, Some((5, "l")), (6, "x")), (7, Some((7, "l")), (8, "x"))],
                    ),
                ],
            )],
        )]],
        Some((0, 7, 3)),
    ),
];

/// Two faults in one file, and in two.
const SEVERAL: &[Row] = &[
    (
        &[&[(
            (1, "a"),
            &[
                (OP, (2, "o"), &[Terminator(3), Terminator(4)]),
                (OP, (5, "o"), &[]),
            ],
        )]],
        Some((0, 4, 17)),
    ),
    (
        &[
            &[((9, "a"), &[(OP, (10, "9"), &[])])],
            &[((1, "irdl"), &[])],
        ],
        Some((0, 10, 18)),
    ),
    (
        &[
            &[((9, "a"), &[])],
            &[((1, "a"), &[])],
            &[((1, "irdl"), &[])],
        ],
        Some((1, 1, 3)),
    ),
];

fn first_faults_are(rt: &impl Abort, alloc: Global, rows: &[Row]) -> Result<(), AllocError> {
    for (files, want) in rows {
        assert_eq!(rt; found(alloc, files)?, *want);
    }
    Ok(())
}

#[test]
fn names_of_dialects_and_definitions_are_judged(rt: HostRuntime) -> Result<(), AllocError> {
    first_faults_are(&rt, rt.alloc(), NAMED)
}

#[test]
fn references_go_to_all_files(rt: HostRuntime) -> Result<(), AllocError> {
    first_faults_are(&rt, rt.alloc(), REFERENCES)
}

#[test]
fn parts_are_counted(rt: HostRuntime) -> Result<(), AllocError> {
    first_faults_are(&rt, rt.alloc(), PARTS)
}

#[test]
fn of_several_faults_the_first_is_given(rt: HostRuntime) -> Result<(), AllocError> {
    first_faults_are(&rt, rt.alloc(), SEVERAL)
}
