//! Assignments: of a body with few choices many times, and of one with many choices.

use attr_uniquer::Uniquer;
use attr_value::{Head, IntKind, List, Text, ValueId};
use constraint_solver::{are_roots, is_sound_body, solve};
use dialect_defs::{Body, Constraint, VarId};
use native_predicate::Natives;
use std::alloc::{AllocError, Global};

/// How many of so many searches find an assignment.
fn count_solved(
    u: &Uniquer,
    body: &Body,
    roots: &[(VarId, ValueId)],
    natives: &Natives,
    count: u32,
) -> usize {
    let mut found = 0usize;
    if is_sound_body(body, u.len(), natives.len()) && are_roots(roots, body, u.len()) {
        for _ in 0..count {
            if solve(u, natives, body, roots).is_some() {
                found = found.wrapping_add(1);
            }
        }
    }
    found
}

/// The constraint of a pair of two variables' values.
fn pair_of(alloc: Global, parts: [VarId; 2]) -> Result<Constraint, AllocError> {
    Ok(Constraint::Parametric {
        is_type: true,
        name: Text::from_slice(alloc, b"t.pr")?,
        parts: List::from_slice(alloc, &parts)?,
    })
}

/// The last of six variables is a pair of the first two values, or of the third and the first.
fn pick(alloc: Global) -> Result<Body, AllocError> {
    let mut vars = List::new(alloc);
    for _ in 0..3u8 {
        vars.push(Constraint::Any)?;
    }
    vars.push(pair_of(alloc, [VarId(0), VarId(1)])?)?;
    vars.push(pair_of(alloc, [VarId(2), VarId(0)])?)?;
    let members = List::from_slice(alloc, &[VarId(3), VarId(4)])?;
    vars.push(Constraint::AnyOf(members))?;
    Ok(Body { vars })
}

/// So many searches over a body of six variables with three roots, of which the second choice fits.
pub(crate) fn solve_pick(alloc: Global, count: u32) -> Result<usize, AllocError> {
    let mut u = Uniquer::new(alloc);
    let small = u.intern(Head::Int(IntKind::Signless(32)), &[])?;
    let large = u.intern(Head::Int(IntKind::Signless(64)), &[])?;
    let head = Head::Dialect {
        is_type: true,
        name: Text::from_slice(alloc, b"t.pr")?,
    };
    let pair = u.intern(head, &[small, large])?;
    let roots = [(VarId(5), pair), (VarId(0), large), (VarId(1), small)];
    let natives = Natives::new(Vec::new(alloc));
    Ok(count_solved(&u, &pick(alloc)?, &roots, &natives, count))
}

/// The first variable is `none`. Two are free, and 16 are each one of these two. The last is the
/// first.
fn many_choices(alloc: Global, none: ValueId) -> Result<Body, AllocError> {
    let mut vars = List::new(alloc);
    vars.push(Constraint::Is(none))?;
    vars.push(Constraint::Any)?;
    vars.push(Constraint::Any)?;
    for _ in 0..16u8 {
        let members = List::from_slice(alloc, &[VarId(1), VarId(2)])?;
        vars.push(Constraint::AnyOf(members))?;
    }
    Ok(Body { vars })
}

/// So many searches over all 65,536 choices, of which none fits.
pub(crate) fn walk_choices(alloc: Global, count: u32) -> Result<usize, AllocError> {
    let mut u = Uniquer::new(alloc);
    let none = u.intern(Head::NoneType, &[])?;
    let index = u.intern(Head::Int(IntKind::Index), &[])?;
    let mut roots = Vec::new(alloc);
    roots.push((VarId(0), index))?;
    for v in 3..19usize {
        roots.push((VarId(v), index))?;
    }
    let natives = Natives::new(Vec::new(alloc));
    let body = many_choices(alloc, none)?;
    Ok(count_solved(&u, &body, &roots, &natives, count))
}
