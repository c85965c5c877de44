//! Values: new ones, those found again, and new ones of two kids.

use attr_uniquer::Uniquer;
use attr_value::{Head, IntKind, ValueId};
use std::alloc::{AllocError, Global};

/// Keeps the first numbers of 32 bits, so many.
fn intern_numbers(u: &mut Uniquer, count: u32) -> Result<(), AllocError> {
    for n in 0..count {
        let head = Head::Number {
            kind: IntKind::Signless(32),
            n: i128::from(n),
        };
        u.intern(head, &[])?;
    }
    Ok(())
}

/// Keeps the tuple of each two values that stand side by side.
fn intern_pairs(u: &mut Uniquer, count: u32) -> Result<(), AllocError> {
    for n in 1..count {
        let n = n as usize;
        if n < u.len() {
            u.intern(Head::Tuple, &[ValueId(n), ValueId(n - 1)])?;
        }
    }
    Ok(())
}

/// Three times so many calls of `intern`, and how many values are kept.
pub(crate) fn intern_values(alloc: Global, count: u32) -> Result<usize, AllocError> {
    let mut u = Uniquer::new(alloc);
    intern_numbers(&mut u, count)?;
    intern_numbers(&mut u, count)?;
    intern_pairs(&mut u, count)?;
    Ok(u.len())
}
