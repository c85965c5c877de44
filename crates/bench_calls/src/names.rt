//! Names: definitions and uses in regions that stand one inside the other.

use anyhow::{Result, bail};
use std::alloc::{AllocError, Global};
use symbol_scopes::{NameStop, Scopes, Uses};

/// How many regions stand one inside the other.
const DEPTH: u32 = 64;

/// A letter and the digits of a number, the last one first.
pub(crate) fn spell(name: &mut Vec<u8>, number: u32) -> Result<(), AllocError> {
    name.clear();
    name.push(b'v')?;
    let mut left = number;
    for _ in 0..10 {
        name.push(b'0' + (left % 10) as u8)?;
        left /= 10;
        if left == 0 {
            break;
        }
    }
    Ok(())
}

/// Notes a definition with a use before it and one behind it, of a name that is defined outside.
fn note_definition(scopes: &mut Scopes, name: &mut Vec<u8>, number: u32) -> Result<(), AllocError> {
    spell(name, number)?;
    scopes.mention(name.as_slice(), number, 0, number)?;
    scopes.define(name.as_slice(), number, 1)?;
    spell(name, number / 2)?;
    scopes.mention(name.as_slice(), number, 0, number)?;
    Ok(())
}

/// Notes so many definitions, each with two uses, spread over the regions.
fn note_regions(alloc: Global, count: u32) -> Result<Scopes, AllocError> {
    let mut scopes = Scopes::new(alloc);
    let mut name = Vec::new(alloc);
    let mut number = 0u32;
    for _ in 0..DEPTH {
        scopes.enter()?;
        for _ in 0..count / DEPTH {
            note_definition(&mut scopes, &mut name, number)?;
            number = number.wrapping_add(1);
        }
    }
    for _ in 0..DEPTH {
        scopes.leave()?;
    }
    Ok(scopes)
}

/// How many uses there are, as far as `most`.
fn count_uses(uses: &Uses, most: usize) -> usize {
    let mut found = 0usize;
    for at in 0..most {
        if uses.value(at).is_some() {
            found = found.wrapping_add(1);
        }
    }
    found
}

/// How many uses mean something, of twice as many as definitions are noted.
pub fn note_names(alloc: Global, count: u32) -> Result<usize> {
    match note_regions(alloc, count)?.finish() {
        Ok(uses) => Ok(count_uses(&uses, 2 * count as usize)),
        Err(NameStop::Refused { place, code }) => bail!("rule {code} is broken at {place}"),
        Err(NameStop::OutOfMemory) => bail!("memory ran out"),
    }
}
