//! Which sizes are found. Expected values are written by hand.
use super::*;
use attr_value::List;
use dialect_defs::VarId;
use std::alloc::{AllocError, Global};
use std::test::Fail;

const S: Arity = Arity::Single;

const O: Arity = Arity::Optional;

const V: Arity = Arity::Variadic;

/// The arities of some entries, a count, the given sizes, and the sizes that are wanted.
type Row = (
    &'static [Arity],
    usize,
    Option<&'static [i64]>,
    Option<&'static [usize]>,
);

const ROWS: &[Row] = &[
    (&[], 0, None, Some(&[])),
    (&[], 1, None, None),
    // the single entries leave the rest to the other
    (&[S, V], 3, None, Some(&[1, 2])),
    (&[S, V], 1, None, Some(&[1, 0])),
    (&[S, V], 0, None, None),
    (&[S, V, S], 5, None, Some(&[1, 3, 1])),
    (&[S, S], 2, None, Some(&[1, 1])),
    (&[S, S], 3, None, None),
    (&[S, O], 1, None, Some(&[1, 0])),
    (&[O, S], 2, None, Some(&[1, 1])),
    (&[O, S], 3, None, None),
    // what is given isn't looked at
    (&[S, V], 3, Some(&[2, 1]), Some(&[1, 2])),
    // two that aren't single have the given sizes
    (&[V, V], 3, Some(&[2, 1]), Some(&[2, 1])),
    (&[V, V], 3, Some(&[2, 2]), None),
    (&[V, V], 3, None, None),
    (&[V, V], 3, Some(&[3]), None),
    (&[V, V], 3, Some(&[3, 0, 0]), None),
    (&[V, V], 3, Some(&[-1, 4]), None),
    (&[O, S, V], 4, Some(&[1, 1, 2]), Some(&[1, 1, 2])),
    (&[O, S, V], 4, Some(&[2, 1, 1]), None),
    (&[O, S, V], 4, Some(&[0, 2, 2]), None),
    // sizes that are 2 to the power of 64 in all
    (&[V, V, V], 0, Some(&[i64::MAX, i64::MAX, 2]), None),
    // as many entries as there may be
    (
        &[S; ENTRY_LIMIT],
        ENTRY_LIMIT,
        None,
        Some(&[1; ENTRY_LIMIT]),
    ),
    (
        &[V; ENTRY_LIMIT],
        ENTRY_LIMIT,
        Some(&[1; ENTRY_LIMIT]),
        Some(&[1; ENTRY_LIMIT]),
    ),
];

fn entries(alloc: Global, arities: &[Arity]) -> Result<List<Entry>, AllocError> {
    let mut entries = List::new(alloc);
    for arity in arities {
        entries.push(Entry {
            name: None,
            arity: *arity,
            var: VarId(0),
        })?;
    }
    Ok(entries)
}

#[test]
fn each_row_has_its_sizes(rt: HostRuntime) -> Result<(), Fail> {
    for (arities, count, given, want) in ROWS {
        let entries = entries(rt.alloc(), arities)?;
        assert!(rt; entries.as_slice().len() <= ENTRY_LIMIT);
        let found = sizes(entries.as_slice(), *count, *given);
        assert_eq!(rt; found.as_ref().map(|s| s.as_slice()), *want);
    }
    Ok(())
}
