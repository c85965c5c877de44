//! The readers of statements.

ghost use Rattle.grammar.specs.Ran.{Reads};
ghost use Rattle.grammar.specs.Rules.{opt};
ghost use Rattle.std.specs.Prelude.{◌≡◌};
ghost use Rattle.irdl_ops.specs.Entries.{variables};
ghost use Rattle.irdl_ops.specs.Forms.{in_defs, in_parens, Begins};
ghost use Rattle.irdl_ops.specs.Statements as spec;

use crate::raw::{RawStatement, StatementKind};
use crate::read::constraints::expr;
use crate::read::entries::{attr_entries, entries, named_entries, plain_names, string, variables};
use attr_value::List;
use generic_syntax::{NameCst, SyntaxStop, read_name};
use grammar::{expect, expect_word, is_class, is_word, read_number};
use ir_lexer::{Class, TokenSource};
use std::alloc::Global;

/// Whether a statement of a type or an attribute begins with the present token.
pub fn begins_type_statement<T: TokenSource>(t: &T) -> bool
    ensures { result ≡ Begins spec.type_statement (T.state t.now).now }
{
    is_class(t, Class::ValueName) || is_word(t, b"irdl.parameters")
}

pub fn type_statement<T: TokenSource>(alloc: Global, t: &mut T) -> Result<RawStatement, SyntaxStop>
    ensures { Reads in_defs spec.type_statement (T.state t.old) result (T.state t.new) }
{
    if is_class(t, Class::ValueName) {
        return constraint(alloc, t);
    }
    parameters(alloc, t)
}

/// Whether a statement of an operation begins with the present token.
pub fn begins_op_statement<T: TokenSource>(t: &T) -> bool
    ensures { result ≡ Begins spec.op_statement (T.state t.now).now }
{
    is_class(t, Class::ValueName)
        || (is_word(t, b"irdl.operands")
            || (is_word(t, b"irdl.results")
                || (is_word(t, b"irdl.attributes")
                    || (is_word(t, b"irdl.regions")
                        || (is_word(t, b"irdl_opt.successors")
                            || (is_word(t, b"irdl_opt.terminator")
                                || is_word(t, b"irdl_opt.format")))))))
}

pub fn op_statement<T: TokenSource>(alloc: Global, t: &mut T) -> Result<RawStatement, SyntaxStop>
    ensures { Reads in_defs spec.op_statement (T.state t.old) result (T.state t.new) }
{
    if is_class(t, Class::ValueName) {
        return named(alloc, t);
    }
    if is_word(t, b"irdl.operands") {
        return operands(alloc, t);
    }
    if is_word(t, b"irdl.results") {
        return results(alloc, t);
    }
    if is_word(t, b"irdl.attributes") {
        return attributes(alloc, t);
    }
    if is_word(t, b"irdl.regions") {
        return regions(alloc, t);
    }
    if is_word(t, b"irdl_opt.successors") {
        return successors(alloc, t);
    }
    if is_word(t, b"irdl_opt.terminator") {
        return terminator(t);
    }
    format(alloc, t)
}

// ---- statements that define a value name

fn constraint<T: TokenSource>(alloc: Global, t: &mut T) -> Result<RawStatement, SyntaxStop>
    ensures { Reads in_defs spec.constraint (T.state t.old) result (T.state t.new) }
{
    let name = read_name(alloc, t, Class::ValueName)?;
    expect(t, Class::Equal)?;
    let expr = expr(alloc, t)?;
    Ok(RawStatement {
        place: name.place,
        kind: StatementKind::Constraint { name, expr },
    })
}

fn named<T: TokenSource>(alloc: Global, t: &mut T) -> Result<RawStatement, SyntaxStop>
    ensures { Reads in_defs spec.named (T.state t.old) result (T.state t.new) }
{
    let name = read_name(alloc, t, Class::ValueName)?;
    expect(t, Class::Equal)?;
    if is_word(t, b"irdl.region") {
        let (args, size) = region(alloc, t)?;
        return Ok(RawStatement {
            place: name.place,
            kind: StatementKind::Region { name, args, size },
        });
    }
    let expr = expr(alloc, t)?;
    Ok(RawStatement {
        place: name.place,
        kind: StatementKind::Constraint { name, expr },
    })
}

/// Reads the arguments and the size of a region, where they are written.
fn region<T: TokenSource>(
    alloc: Global,
    t: &mut T,
) -> Result<(Option<List<NameCst>>, Option<u32>), SyntaxStop>
    ensures { Reads in_defs spec.region (T.state t.old) result (T.state t.new) }
{
    expect_word(t, b"irdl.region")?;
    let args = region_args(alloc, t)?;
    let size = region_size(t)?;
    Ok((args, size))
}

fn region_args<T: TokenSource>(
    alloc: Global,
    t: &mut T,
) -> Result<Option<List<NameCst>>, SyntaxStop>
    ensures { Reads in_defs (opt (in_parens variables)) (T.state t.old) result (T.state t.new) }
{
    if !is_class(t, Class::LParen) {
        return Ok(None);
    }
    expect(t, Class::LParen)?;
    let args = variables(alloc, t)?;
    expect(t, Class::RParen)?;
    Ok(Some(args))
}

fn region_size<T: TokenSource>(t: &mut T) -> Result<Option<u32>, SyntaxStop>
    ensures { Reads in_defs (opt spec.size) (T.state t.old) result (T.state t.new) }
{
    if !is_word(t, b"with") {
        return Ok(None);
    }
    expect_word(t, b"with")?;
    expect_word(t, b"size")?;
    let size = read_number(t)?;
    Ok(Some(size))
}

// ---- statements that begin with a word

fn parameters<T: TokenSource>(alloc: Global, t: &mut T) -> Result<RawStatement, SyntaxStop>
    ensures { Reads in_defs spec.parameters (T.state t.old) result (T.state t.new) }
{
    let place = t.place();
    expect_word(t, b"irdl.parameters")?;
    let entries = named_entries(alloc, t)?;
    Ok(RawStatement {
        place,
        kind: StatementKind::Parameters(entries),
    })
}

fn operands<T: TokenSource>(alloc: Global, t: &mut T) -> Result<RawStatement, SyntaxStop>
    ensures { Reads in_defs spec.operands (T.state t.old) result (T.state t.new) }
{
    let place = t.place();
    expect_word(t, b"irdl.operands")?;
    let entries = entries(alloc, t)?;
    Ok(RawStatement {
        place,
        kind: StatementKind::Operands(entries),
    })
}

fn results<T: TokenSource>(alloc: Global, t: &mut T) -> Result<RawStatement, SyntaxStop>
    ensures { Reads in_defs spec.results (T.state t.old) result (T.state t.new) }
{
    let place = t.place();
    expect_word(t, b"irdl.results")?;
    let entries = entries(alloc, t)?;
    Ok(RawStatement {
        place,
        kind: StatementKind::Results(entries),
    })
}

fn attributes<T: TokenSource>(alloc: Global, t: &mut T) -> Result<RawStatement, SyntaxStop>
    ensures { Reads in_defs spec.attributes (T.state t.old) result (T.state t.new) }
{
    let place = t.place();
    expect_word(t, b"irdl.attributes")?;
    let entries = attr_entries(alloc, t)?;
    Ok(RawStatement {
        place,
        kind: StatementKind::Attributes(entries),
    })
}

fn regions<T: TokenSource>(alloc: Global, t: &mut T) -> Result<RawStatement, SyntaxStop>
    ensures { Reads in_defs spec.regions (T.state t.old) result (T.state t.new) }
{
    let place = t.place();
    expect_word(t, b"irdl.regions")?;
    let entries = named_entries(alloc, t)?;
    Ok(RawStatement {
        place,
        kind: StatementKind::Regions(entries),
    })
}

fn successors<T: TokenSource>(alloc: Global, t: &mut T) -> Result<RawStatement, SyntaxStop>
    ensures { Reads in_defs spec.successors (T.state t.old) result (T.state t.new) }
{
    let place = t.place();
    expect_word(t, b"irdl_opt.successors")?;
    let names = plain_names(alloc, t)?;
    Ok(RawStatement {
        place,
        kind: StatementKind::Successors(names),
    })
}

fn terminator<T: TokenSource>(t: &mut T) -> Result<RawStatement, SyntaxStop>
    ensures { Reads in_defs spec.terminator (T.state t.old) result (T.state t.new) }
{
    let place = t.place();
    expect_word(t, b"irdl_opt.terminator")?;
    Ok(RawStatement {
        place,
        kind: StatementKind::Terminator,
    })
}

fn format<T: TokenSource>(alloc: Global, t: &mut T) -> Result<RawStatement, SyntaxStop>
    ensures { Reads in_defs spec.format (T.state t.old) result (T.state t.new) }
{
    let place = t.place();
    expect_word(t, b"irdl_opt.format")?;
    let text = string(alloc, t)?;
    Ok(RawStatement {
        place,
        kind: StatementKind::Format(text),
    })
}
