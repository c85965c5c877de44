//! What stands in a small module.
//!
//! The expected list follows from the text alone.

use super::*;
use generic_syntax::{SyntaxStop, parse_generic};
use ir_lexer::SliceTokens;
use std::process::Abort;

/// Which kind of thing stands there; of an operation its place and whether it is the last, of a
/// region its place and nesting, and of a block how many arguments and operations it has.
fn told(standing: &Standing<'_>) -> (u8, usize, usize) {
    match standing {
        Standing::Op { op, is_last } => (0, op.place as usize, usize::from(*is_last)),
        Standing::Region { region, nesting } => (1, region.place as usize, *nesting as usize),
        Standing::Block(block) => (2, block.args.len(), block.ops.len()),
    }
}

const TEXT: &[u8] =
    br#""t.a"() ({ ^b(%x: i8): "t.c"() ({}) : () -> () }) : () -> () "t.d"() : () -> ()"#;

const TOLD: [(u8, usize, usize); 6] = [
    (0, 0, 0),
    (1, 9, 1),
    (2, 1, 1),
    (0, 23, 1),
    (1, 32, 2),
    (0, 61, 1),
];

#[test]
fn things_stand_before_what_stands_in_them(rt: HostRuntime) -> Result<(), SyntaxStop> {
    let tree = parse_generic(rt.alloc(), &mut SliceTokens::new(TEXT))?;
    let list = standings(rt.alloc(), &tree)?;
    assert_eq!(rt; list.len(), TOLD.len());
    for (standing, expected) in list.iter().zip(TOLD.iter()) {
        assert_eq!(rt; told(standing), *expected);
    }
    Ok(())
}
