//! The first fault of small modules, by a table.
//!
//! Places are those of the text above each row. Expected faults follow from the rules alone.

mod tree;

use super::*;
use std::alloc::{AllocError, Global};
use std::test::Fail;
use symbol_scopes::{NameStop, Scopes};
use tree::{BlockRow, Row, tree};

const EMPTY: Row = Row {
    aliases: &[],
    results: &[],
    uses: &[],
    types: &[],
    blocks: &[],
    fault: None,
};

const BLOCK: BlockRow = BlockRow {
    label: None,
    arg: None,
    uses: &[],
    successors: &[],
    inner: &[],
};

const ROWS: &[Row] = &[
    // %x:0 = "t.op"() : () -> ()
    Row {
        results: &[((0, "x"), Some((3, "0")))],
        fault: Some((3, 9)),
        ..EMPTY
    },
    // %x:16777216 = "t.op"(%x#16777215) : ..
    Row {
        results: &[((0, "x"), Some((3, "16777216")))],
        uses: &[((21, "x"), Some((23, "16777215")))],
        ..EMPTY
    },
    // %x:16777217 = "t.op"(%x#16777217) : ..
    Row {
        results: &[((0, "x"), Some((3, "16777217")))],
        uses: &[((21, "x"), Some((23, "16777217")))],
        fault: Some((3, 9)),
        ..EMPTY
    },
    // %x:0x2 = "t.op"() : ..
    Row {
        results: &[((0, "x"), Some((3, "0x2")))],
        fault: Some((3, 9)),
        ..EMPTY
    },
    // %x:02 = "t.op"(%x, %x#01) : ..
    Row {
        results: &[((0, "x"), Some((3, "02")))],
        uses: &[((15, "x"), None), ((19, "x"), Some((21, "01")))],
        ..EMPTY
    },
    // %x:2 = "t.op"(%x#2) : ..
    Row {
        results: &[((0, "x"), Some((3, "2")))],
        uses: &[((14, "x"), Some((16, "2")))],
        fault: Some((16, 9)),
        ..EMPTY
    },
    // %x = "t.op"(%x#18446744073709551616) : ..
    Row {
        results: &[((0, "x"), None)],
        uses: &[((12, "x"), Some((14, "18446744073709551616")))],
        fault: Some((14, 9)),
        ..EMPTY
    },
    // !a = !a "t.op"() : () -> ()
    Row {
        aliases: &[((0, "a"), Ok((5, "a")))],
        fault: Some((5, 5)),
        ..EMPTY
    },
    // !a = !b !b = i8 "t.op"() : () -> ()
    Row {
        aliases: &[((0, "a"), Ok((5, "b"))), ((8, "b"), Err((13, "i8")))],
        fault: Some((5, 5)),
        ..EMPTY
    },
    // !a = i8 !a = !a %x = "t.op"() : () -> !b
    Row {
        aliases: &[((0, "a"), Err((5, "i8"))), ((8, "a"), Ok((13, "a")))],
        results: &[((16, "x"), None)],
        types: &[(38, "b")],
        fault: Some((8, 6)),
        ..EMPTY
    },
    // !a = i8 %x = "t.op"() : () -> !a
    Row {
        aliases: &[((0, "a"), Err((5, "i8")))],
        results: &[((8, "x"), None)],
        types: &[(30, "a")],
        ..EMPTY
    },
    // "t.op"() ({ ^a: "t.op"()[^b] ({ ^a: ^b: }) : .. ^b: }) : ..
    Row {
        blocks: &[
            BlockRow {
                label: Some((12, "a")),
                successors: &[(25, "b")],
                inner: &[(32, "a"), (36, "b")],
                ..BLOCK
            },
            BlockRow {
                label: Some((48, "b")),
                ..BLOCK
            },
        ],
        ..EMPTY
    },
    // "t.op"() ({ ^a: "t.op"()[^b] ({ ^b: }) : .. }) : ..
    Row {
        blocks: &[BlockRow {
            label: Some((12, "a")),
            successors: &[(25, "b")],
            inner: &[(32, "b")],
            ..BLOCK
        }],
        fault: Some((25, 10)),
        ..EMPTY
    },
    // "t.op"() ({ "t.op"()[^a] : .. ^a: "t.op"()[^a] : .. }) : ..
    Row {
        blocks: &[
            BlockRow {
                successors: &[(21, "a")],
                ..BLOCK
            },
            BlockRow {
                label: Some((30, "a")),
                successors: &[(43, "a")],
                ..BLOCK
            },
        ],
        ..EMPTY
    },
    // "t.op"() ({ ^a: "t.op"()[^a] : .. }) : ..
    Row {
        blocks: &[BlockRow {
            label: Some((12, "a")),
            successors: &[(25, "a")],
            ..BLOCK
        }],
        fault: Some((25, 12)),
        ..EMPTY
    },
    // %x = "t.op"() ({ ^a(%x : i8): "t.op"(%x) : .. }) : ..
    Row {
        results: &[((0, "x"), None)],
        blocks: &[BlockRow {
            label: Some((17, "a")),
            arg: Some((20, "x")),
            uses: &[((37, "x"), None)],
            ..BLOCK
        }],
        fault: Some((20, 8)),
        ..EMPTY
    },
    // "t.op"(%x) ({ ^a(%x : i8): "t.op"(%x) : .. }) : ..
    Row {
        uses: &[((7, "x"), None)],
        blocks: &[BlockRow {
            label: Some((14, "a")),
            arg: Some((17, "x")),
            uses: &[((34, "x"), None)],
            ..BLOCK
        }],
        fault: Some((7, 7)),
        ..EMPTY
    },
];

/// The first fault of a row's tree.
fn first_fault(alloc: Global, row: &Row) -> Result<Option<NameStop>, AllocError> {
    let mut scopes = Scopes::new(alloc);
    note_module(&mut scopes, &tree(alloc, row)?)?;
    Ok(scopes.finish().err())
}

#[test]
fn the_first_fault_of_a_tree_is_found(rt: HostRuntime) -> Result<(), Fail> {
    for row in ROWS {
        let want = match row.fault {
            Some((place, code)) => Some(NameStop::Refused { place, code }),
            None => None,
        };
        assert_eq!(rt; first_fault(rt.alloc(), row)?, want);
    }
    Ok(())
}
