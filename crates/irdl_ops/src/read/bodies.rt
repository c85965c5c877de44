//! The readers of definitions of types, attributes and operations.

ghost use Rattle.grammar.specs.Ran.{Reads};
ghost use Rattle.grammar.specs.Rules.{many};
ghost use Rattle.std.specs.Prelude.{◌≡◌};
ghost use Rattle.irdl_ops.specs.Bodies as spec;
ghost use Rattle.irdl_ops.specs.Forms.{in_defs, Begins};
ghost use Rattle.irdl_ops.specs.Statements.{type_statement, op_statement};

use crate::raw::{DefKind, RawDef, RawStatement};
use crate::read::statements::{
    begins_op_statement, begins_type_statement, op_statement, type_statement,
};
use attr_value::List;
use generic_syntax::{SyntaxStop, read_name};
use grammar::{expect, expect_word, is_class, is_word};
use ir_lexer::{Class, TokenSource};
use std::alloc::Global;

pub fn defs<T: TokenSource>(alloc: Global, t: &mut T) -> Result<List<RawDef>, SyntaxStop>
    ensures { Reads in_defs (many spec.def) (T.state t.old) result (T.state t.new) }
{
    let mut found = List::new(alloc);
    'each: while begins_def(t) {
        found.push(def(alloc, t)?)?;
    }
    found.trim();
    Ok(found)
}

/// Whether a definition begins with the present token.
fn begins_def<T: TokenSource>(t: &T) -> bool
    ensures { result ≡ Begins spec.def (T.state t.now).now }
{
    is_word(t, b"irdl.type") || (is_word(t, b"irdl.attribute") || is_word(t, b"irdl.operation"))
}

fn def<T: TokenSource>(alloc: Global, t: &mut T) -> Result<RawDef, SyntaxStop>
    ensures { Reads in_defs spec.def (T.state t.old) result (T.state t.new) }
{
    if is_word(t, b"irdl.type") {
        return type_def(alloc, t, b"irdl.type", DefKind::OfType);
    }
    if is_word(t, b"irdl.attribute") {
        return type_def(alloc, t, b"irdl.attribute", DefKind::OfAttr);
    }
    operation(alloc, t)
}

/// Reads a definition of a type or an attribute, which begins with this word.
fn type_def<T: TokenSource>(
    alloc: Global,
    t: &mut T,
    word: &[u8],
    kind: DefKind,
) -> Result<RawDef, SyntaxStop>
    ensures { Reads in_defs (spec.type_def word.now kind) (T.state t.old) result (T.state t.new) }
{
    expect_word(t, word)?;
    let name = read_name(alloc, t, Class::SymbolName)?;
    let statements = type_body(alloc, t)?;
    Ok(RawDef {
        place: name.place,
        kind,
        name: name.name,
        statements,
    })
}

fn operation<T: TokenSource>(alloc: Global, t: &mut T) -> Result<RawDef, SyntaxStop>
    ensures { Reads in_defs spec.operation (T.state t.old) result (T.state t.new) }
{
    expect_word(t, b"irdl.operation")?;
    let name = read_name(alloc, t, Class::SymbolName)?;
    let statements = op_body(alloc, t)?;
    Ok(RawDef {
        place: name.place,
        kind: DefKind::OfOp,
        name: name.name,
        statements,
    })
}

fn type_body<T: TokenSource>(alloc: Global, t: &mut T) -> Result<List<RawStatement>, SyntaxStop>
    ensures { Reads in_defs (spec.body type_statement) (T.state t.old) result (T.state t.new) }
{
    if !is_class(t, Class::LBrace) {
        return Ok(List::new(alloc));
    }
    expect(t, Class::LBrace)?;
    let statements = type_statements(alloc, t)?;
    expect(t, Class::RBrace)?;
    Ok(statements)
}

fn op_body<T: TokenSource>(alloc: Global, t: &mut T) -> Result<List<RawStatement>, SyntaxStop>
    ensures { Reads in_defs (spec.body op_statement) (T.state t.old) result (T.state t.new) }
{
    if !is_class(t, Class::LBrace) {
        return Ok(List::new(alloc));
    }
    expect(t, Class::LBrace)?;
    let statements = op_statements(alloc, t)?;
    expect(t, Class::RBrace)?;
    Ok(statements)
}

fn type_statements<T: TokenSource>(
    alloc: Global,
    t: &mut T,
) -> Result<List<RawStatement>, SyntaxStop>
    ensures { Reads in_defs (many type_statement) (T.state t.old) result (T.state t.new) }
{
    let mut found = List::new(alloc);
    'each: while begins_type_statement(t) {
        found.push(type_statement(alloc, t)?)?;
    }
    found.trim();
    Ok(found)
}

fn op_statements<T: TokenSource>(alloc: Global, t: &mut T) -> Result<List<RawStatement>, SyntaxStop>
    ensures { Reads in_defs (many op_statement) (T.state t.old) result (T.state t.new) }
{
    let mut found = List::new(alloc);
    'each: while begins_op_statement(t) {
        found.push(op_statement(alloc, t)?)?;
    }
    found.trim();
    Ok(found)
}
