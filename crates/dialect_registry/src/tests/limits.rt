//! Bodies at their limits, and one past them.

use super::*;

/// The value name of this number.
fn numbered(alloc: Global, number: u8) -> Result<NameCst, AllocError> {
    let place = 10 + u32::from(number);
    let name = Text::from_slice(alloc, &[b'v', number])?;
    Ok(NameCst { place, name })
}

/// So many variables, each any value.
fn variables(alloc: Global, count: u8) -> Result<List<RawStatement>, AllocError> {
    let mut statements = List::new(alloc);
    for number in 0..count {
        let name = numbered(alloc, number)?;
        let (place, expr) = (name.place, RawExpr::Any);
        let kind = StatementKind::Constraint { name, expr };
        statements.push(RawStatement { place, kind })?;
    }
    Ok(statements)
}

/// So many entries that use the first variable.
fn many_entries(alloc: Global, count: u8) -> Result<List<RawEntry>, AllocError> {
    let mut list = List::new(alloc);
    for number in 0..count {
        list.push(RawEntry {
            place: 100 + u32::from(number),
            arity: Arity::Single,
            name: None,
            var: numbered(alloc, 0)?,
        })?;
    }
    Ok(list)
}

/// An `irdl.any_of` of the first variable, so many times.
fn any_of(alloc: Global, count: u32) -> Result<RawExpr, AllocError> {
    let mut members = List::new(alloc);
    for _ in 0..count {
        members.push(numbered(alloc, 0)?)?;
    }
    Ok(RawExpr::AnyOf(members))
}

/// The first fault of an operation with this body, whose name stands at 2.
fn of_body(
    alloc: Global,
    statements: List<RawStatement>,
) -> Result<Option<(u32, u32)>, AllocError> {
    let mut defs = List::new(alloc);
    defs.push(RawDef {
        place: 2,
        kind: DefKind::OfOp,
        name: Text::from_slice(alloc, b"o")?,
        statements,
    })?;
    alone(alloc, defs)
}

#[test]
fn a_body_has_64_variables_at_most(rt: HostRuntime) -> Result<(), Fail> {
    let alloc = rt.alloc();
    for (count, want) in [(64, None), (65, Some((74, 19))), (66, Some((74, 19)))] {
        assert_eq!(rt; of_body(alloc, variables(alloc, count)?)?, want, "{count}");
    }
    Ok(())
}

#[test]
fn a_list_of_operands_or_results_has_32_entries_at_most(rt: HostRuntime) -> Result<(), Fail> {
    let alloc = rt.alloc();
    for (count, want) in [(32, None), (33, Some((132, 19))), (34, Some((132, 19)))] {
        let mut body = variables(alloc, 1)?;
        let kind = StatementKind::Operands(many_entries(alloc, count)?);
        body.push(RawStatement { place: 90, kind })?;
        assert_eq!(rt; of_body(alloc, body)?, want, "{count} operands");
        let mut body = variables(alloc, 1)?;
        let kind = StatementKind::Results(many_entries(alloc, count)?);
        body.push(RawStatement { place: 90, kind })?;
        assert_eq!(rt; of_body(alloc, body)?, want, "{count} results");
    }
    Ok(())
}

#[test]
fn a_body_has_65536_choices_at_most(rt: HostRuntime) -> Result<(), Fail> {
    let alloc = rt.alloc();
    for (count, want) in [(65_536, None), (65_537, Some((2, 7)))] {
        let mut body = variables(alloc, 1)?;
        let (name, expr) = (numbered(alloc, 1)?, any_of(alloc, count)?);
        let kind = StatementKind::Constraint { name, expr };
        body.push(RawStatement { place: 11, kind })?;
        assert_eq!(rt; of_body(alloc, body)?, want, "{count} choices");
    }
    // of a name that stands twice, the first counts
    let mut body = variables(alloc, 2)?;
    let (name, expr) = (numbered(alloc, 1)?, any_of(alloc, 65_537)?);
    let kind = StatementKind::Constraint { name, expr };
    body.push(RawStatement { place: 11, kind })?;
    assert_eq!(rt; of_body(alloc, body)?, Some((11, 3)));
    Ok(())
}

#[test]
fn choices_multiply(rt: HostRuntime) -> Result<(), Fail> {
    let alloc = rt.alloc();
    for (count, want) in [(16, None), (17, Some((2, 7))), (63, Some((2, 7)))] {
        let mut body = variables(alloc, 1)?;
        for number in 1..1 + count {
            let (name, expr) = (numbered(alloc, number)?, any_of(alloc, 2)?);
            let (place, kind) = (name.place, StatementKind::Constraint { name, expr });
            body.push(RawStatement { place, kind })?;
        }
        assert_eq!(rt; of_body(alloc, body)?, want, "{count}");
    }
    Ok(())
}
