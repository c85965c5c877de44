//! Texts of values, read into trees.

use anyhow::Result;
use generic_syntax::{ValueCst, ValueNode, parse_value};
use ir_lexer::SliceTokens;
use std::alloc::{AllocError, Global};
use std::time::Instant;

/// The most bytes of a text.
const TEXT_LIMIT: usize = 16_777_216;

/// An array of so many groups of attributes of several kinds.
pub(crate) fn attributes(alloc: Global, count: u32) -> Result<Vec<u8>, AllocError> {
    let mut text = Vec::new(alloc);
    text.push(b'[')?;
    for n in 0..count {
        if n > 0 {
            text.extend_from_slice(b", ")?;
        }
        text.extend_from_slice(
            b"{name = \"of some length\", size = 42 : i32, type = tensor<4x?xf32>}, ",
        )?;
        text.extend_from_slice(
            b"@callee::@inner, array<i32: 1, 2, 3>, (i32, f64) -> i1, [true, unit]",
        )?;
    }
    text.push(b']')?;
    Ok(text)
}

/// The tree of the value that stands at the front of a text, if one does.
pub(crate) fn read_tree(alloc: Global, src: &[u8]) -> Option<ValueCst> {
    if src.len() > TEXT_LIMIT {
        return None;
    }
    let mut tokens = SliceTokens::new(src);
    parse_value(alloc, &mut tokens, 1).ok()
}

/// How many values an array has, and 0 where there is none.
fn count_values(tree: &Option<ValueCst>) -> usize {
    match tree {
        Some(
            ValueCst {
                node: ValueNode::Array(values),
                ..
            },
        ) => values.len(),
        _ => 0,
    }
}

/// The values of so many groups of attributes, read. The text is made before the clock starts, and
/// the tree is dropped behind it; a line tells the time between.
pub(crate) fn read_values(rt: HostRuntime, count: u32) -> Result<usize> {
    let text = attributes(rt.alloc(), count)?;
    let start = Instant::now(&rt)?;
    let tree = read_tree(rt.alloc(), text.as_slice());
    let took = Instant::now(&rt)?.duration_since(start).as_micros();
    println!(rt; "{took} microseconds of reading")?;
    Ok(count_values(&tree))
}
