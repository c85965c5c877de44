//! Which files are accepted, and where others have their first fault.
//!
//! The rows are raw data as a reader gives it, each thing with its place. Places count up through a
//! file, and need no text.

use super::*;
use attr_value::{List, Text};
use dialect_defs::Arity;
use generic_syntax::{NameCst, ValueCst, ValueNode};
use irdl_ops::{
    DefKind, RawAttr, RawDef, RawDefs, RawDialect, RawEntry, RawExpr, RawRef, RawStatement,
    RawText, StatementKind,
};
use native_predicate::{IsPositive, NativePredicate, Natives};
use std::alloc::{AllocError, Global};
use std::process::Abort;
use std::test::Fail;

/// A name and its place.
type At = (u32, &'static str);
/// A reference: its place, the dialect where it is written, and the name.
type To = (u32, Option<&'static str>, &'static str);
/// An entry: its place, its name where it has one, and the value name that it uses.
type Part = (u32, Option<At>, At);

/// A constraint.
#[derive(Clone, Copy, Drop)]
enum Says {
    Is(u32),
    Any,
    Pred(At),
    Base(To),
    Named(At),
    Parametric(To, &'static [At]),
    AnyOf(&'static [At]),
    AllOf(&'static [At]),
}

/// A statement.
#[derive(Clone, Copy, Drop)]
enum Line {
    Con(At, Says),
    Region(At, Option<&'static [At]>),
    Parameters(u32, &'static [Part]),
    Operands(u32, &'static [Part]),
    Results(u32, &'static [Part]),
    Attributes(u32, &'static [(At, At)]),
    Regions(u32, &'static [Part]),
    Successors(u32, &'static [At]),
    Terminator(u32),
    Format(u32),
}

use Line::{
    Attributes, Con, Format, Operands, Parameters, Region, Regions, Results, Successors, Terminator,
};
use Says::{AllOf, Any, AnyOf, Base, Is, Named, Parametric, Pred};

type DefRow = (DefKind, At, &'static [Line]);

type DialectRow = (At, &'static [DefRow]);
/// Some files, and the number of the file, the place and the number of the rule of the first fault.
type Row = (&'static [&'static [DialectRow]], Option<(usize, u32, u32)>);

const OP: DefKind = DefKind::OfOp;

const TYPE: DefKind = DefKind::OfType;

const ATTR: DefKind = DefKind::OfAttr;

mod bodies;
mod files;
mod limits;
mod loading;

// ---- raw data of rows

fn name(alloc: Global, (place, name): At) -> Result<NameCst, AllocError> {
    let name = Text::from_slice(alloc, name.as_bytes())?;
    Ok(NameCst { place, name })
}

fn names(alloc: Global, rows: &[At]) -> Result<List<NameCst>, AllocError> {
    let mut list = List::new(alloc);
    for row in rows {
        list.push(name(alloc, *row)?)?;
    }
    Ok(list)
}

fn text(alloc: Global, (place, bytes): At) -> Result<RawText, AllocError> {
    let text = Text::from_slice(alloc, bytes.as_bytes())?;
    Ok(RawText { place, text })
}

fn reference(alloc: Global, (place, dialect, name): To) -> Result<RawRef, AllocError> {
    let dialect = match dialect {
        Some(dialect) => Some(Text::from_slice(alloc, dialect.as_bytes())?),
        None => None,
    };
    let name = Text::from_slice(alloc, name.as_bytes())?;
    Ok(RawRef {
        place,
        dialect,
        name,
    })
}

fn constraint(alloc: Global, says: Says) -> Result<RawExpr, AllocError> {
    Ok(match says {
        Is(place) => {
            let node = ValueNode::Word(Text::from_slice(alloc, b"i32")?);
            RawExpr::Is(ValueCst { place, node })
        }
        Any => RawExpr::Any,
        Pred(name) => RawExpr::Pred(text(alloc, name)?),
        Base(to) => RawExpr::BaseRef(reference(alloc, to)?),
        Named(name) => RawExpr::BaseName(text(alloc, name)?),
        Parametric(to, parts) => RawExpr::Parametric {
            target: reference(alloc, to)?,
            parts: names(alloc, parts)?,
        },
        AnyOf(members) => RawExpr::AnyOf(names(alloc, members)?),
        AllOf(members) => RawExpr::AllOf(names(alloc, members)?),
    })
}

fn entry(alloc: Global, (place, label, var): Part) -> Result<RawEntry, AllocError> {
    let label = match label {
        Some(label) => Some(name(alloc, label)?),
        None => None,
    };
    Ok(RawEntry {
        place,
        arity: Arity::Single,
        name: label,
        var: name(alloc, var)?,
    })
}

fn entries(alloc: Global, rows: &[Part]) -> Result<List<RawEntry>, AllocError> {
    let mut list = List::new(alloc);
    for row in rows {
        list.push(entry(alloc, *row)?)?;
    }
    Ok(list)
}

fn attrs(alloc: Global, rows: &[(At, At)]) -> Result<List<RawAttr>, AllocError> {
    let mut list = List::new(alloc);
    for (key, var) in rows {
        list.push(RawAttr {
            name: text(alloc, *key)?,
            optional: false,
            var: name(alloc, *var)?,
        })?;
    }
    Ok(list)
}

fn arguments(
    alloc: Global,
    rows: Option<&'static [At]>,
) -> Result<Option<List<NameCst>>, AllocError> {
    match rows {
        Some(rows) => Ok(Some(names(alloc, rows)?)),
        None => Ok(None),
    }
}

fn kind(alloc: Global, line: Line) -> Result<(u32, StatementKind), AllocError> {
    Ok(match line {
        Con(at, says) => (
            at.0,
            StatementKind::Constraint {
                name: name(alloc, at)?,
                expr: constraint(alloc, says)?,
            },
        ),
        Region(at, args) => (
            at.0,
            StatementKind::Region {
                name: name(alloc, at)?,
                args: arguments(alloc, args)?,
                size: None,
            },
        ),
        Parameters(place, rows) => (place, StatementKind::Parameters(entries(alloc, rows)?)),
        Operands(place, rows) => (place, StatementKind::Operands(entries(alloc, rows)?)),
        Results(place, rows) => (place, StatementKind::Results(entries(alloc, rows)?)),
        Attributes(place, rows) => (place, StatementKind::Attributes(attrs(alloc, rows)?)),
        Regions(place, rows) => (place, StatementKind::Regions(entries(alloc, rows)?)),
        Successors(place, rows) => (place, StatementKind::Successors(names(alloc, rows)?)),
        Terminator(place) => (place, StatementKind::Terminator),
        Format(place) => (place, StatementKind::Format(text(alloc, (place, "$x"))?)),
    })
}

fn definition(alloc: Global, (of, (place, name), lines): DefRow) -> Result<RawDef, AllocError> {
    let mut statements = List::new(alloc);
    for line in lines {
        let (place, kind) = kind(alloc, *line)?;
        statements.push(RawStatement { place, kind })?;
    }
    Ok(RawDef {
        place,
        kind: of,
        name: Text::from_slice(alloc, name.as_bytes())?,
        statements,
    })
}

fn file(alloc: Global, rows: &[DialectRow]) -> Result<RawDefs, AllocError> {
    let mut dialects = List::new(alloc);
    for ((place, name), rows) in rows {
        let mut defs = List::new(alloc);
        for row in *rows {
            defs.push(definition(alloc, *row)?)?;
        }
        dialects.push(RawDialect {
            place: *place,
            name: Text::from_slice(alloc, name.as_bytes())?,
            defs,
        })?;
    }
    Ok(RawDefs { dialects })
}

/// One predicate, `is_positive`.
fn predicates(alloc: Global) -> Result<Natives, AllocError> {
    let mut list: Vec<Box<dyn NativePredicate>> = Vec::new(alloc);
    list.push(Box::new(alloc, IsPositive::new())?)?;
    Ok(Natives::new(list))
}

/// The files of a row.
fn files_of(alloc: Global, rows: &[&'static [DialectRow]]) -> Result<Vec<RawDefs>, AllocError> {
    let mut files = Vec::new(alloc);
    for row in rows {
        files.push(file(alloc, row)?)?;
    }
    Ok(files)
}

/// The first fault of the files of a row.
fn found(
    alloc: Global,
    rows: &[&'static [DialectRow]],
) -> Result<Option<(usize, u32, u32)>, AllocError> {
    let files = files_of(alloc, rows)?;
    let natives = predicates(alloc)?;
    let first = judge(alloc, &files, &natives)?;
    Ok(first.map(|fault| (fault.file, fault.place, fault.code)))
}

/// The first fault of a file with one dialect of these definitions.
fn alone(alloc: Global, defs: List<RawDef>) -> Result<Option<(u32, u32)>, AllocError> {
    let mut dialects = List::new(alloc);
    let name = Text::from_slice(alloc, b"a")?;
    dialects.push(RawDialect {
        place: 1,
        name,
        defs,
    })?;
    let natives = predicates(alloc)?;
    let first = judge(alloc, &[RawDefs { dialects }], &natives)?;
    Ok(first.map(|fault| (fault.place, fault.code)))
}

#[test]
fn each_rule_has_a_number_and_a_name(rt: HostRuntime) {
    for (code, number, name) in [
        (DefCode::Syntax, 1, "Syntax"),
        (DefCode::Nesting, 2, "Nesting"),
        (DefCode::NameRepeated, 3, "NameRepeated"),
        (DefCode::RefUnknown, 4, "RefUnknown"),
        (DefCode::ParamCount, 5, "ParamCount"),
        (DefCode::PredicateUnknown, 6, "PredicateUnknown"),
        (DefCode::ChoiceLimit, 7, "ChoiceLimit"),
        (DefCode::ConstantBad, 8, "ConstantBad"),
        (DefCode::FormatSyntax, 9, "FormatSyntax"),
        (DefCode::FormatUnknown, 10, "FormatUnknown"),
        (DefCode::FormatMissing, 11, "FormatMissing"),
        (DefCode::FormatRepeated, 12, "FormatRepeated"),
        (DefCode::FormatGroup, 13, "FormatGroup"),
        (DefCode::FormatAmbiguous, 14, "FormatAmbiguous"),
        (DefCode::FormatNoType, 15, "FormatNoType"),
        (DefCode::BaseUnknown, 16, "BaseUnknown"),
        (DefCode::StatementRepeated, 17, "StatementRepeated"),
        (DefCode::ReservedName, 18, "ReservedName"),
        (DefCode::VarLimit, 19, "VarLimit"),
    ] {
        assert_eq!(rt; (code.number(), code.name()), (number, name), "{code:?}");
        assert_eq!(rt; DefCode::of_number(number), Some(code), "{number}");
    }
    for number in [0, 20] {
        assert_eq!(rt; DefCode::of_number(number), None, "{number}");
    }
}
