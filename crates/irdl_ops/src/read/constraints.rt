//! The readers of constraints.

ghost use Rattle.grammar.specs.Ran.{Reads};
ghost use Rattle.irdl_ops.specs.Constraints as spec;
ghost use Rattle.irdl_ops.specs.Entries.{some_variables};
ghost use Rattle.irdl_ops.specs.Forms.{in_defs, in_parens};

use crate::raw::{RawExpr, RawRef};
use crate::read::entries::{some_variables, string, variables};
use attr_value::List;
use generic_syntax::{NameCst, ROOM, SyntaxStop, read_attribute, read_name};
use grammar::{expect, expect_word, is_class, is_word};
use ir_lexer::{Class, TokenSource};
use std::alloc::Global;

pub fn expr<T: TokenSource>(alloc: Global, t: &mut T) -> Result<RawExpr, SyntaxStop>
    ensures { Reads in_defs spec.expr (T.state t.old) result (T.state t.new) }
{
    if is_word(t, b"irdl.is") {
        return is_expr(alloc, t);
    }
    if is_word(t, b"irdl.any") {
        return any_expr(t);
    }
    if is_word(t, b"irdl.c_pred") {
        return pred_expr(alloc, t);
    }
    if is_word(t, b"irdl.base") {
        return base_expr(alloc, t);
    }
    if is_word(t, b"irdl.parametric") {
        return parametric_expr(alloc, t);
    }
    if is_word(t, b"irdl.any_of") {
        return any_of_expr(alloc, t);
    }
    all_of_expr(alloc, t)
}

fn is_expr<T: TokenSource>(alloc: Global, t: &mut T) -> Result<RawExpr, SyntaxStop>
    ensures { Reads in_defs spec.is_expr (T.state t.old) result (T.state t.new) }
{
    expect_word(t, b"irdl.is")?;
    let value = read_attribute(alloc, t, ROOM)?;
    Ok(RawExpr::Is(value))
}

fn any_expr<T: TokenSource>(t: &mut T) -> Result<RawExpr, SyntaxStop>
    ensures { Reads in_defs spec.any_expr (T.state t.old) result (T.state t.new) }
{
    expect_word(t, b"irdl.any")?;
    Ok(RawExpr::Any)
}

fn pred_expr<T: TokenSource>(alloc: Global, t: &mut T) -> Result<RawExpr, SyntaxStop>
    ensures { Reads in_defs spec.pred_expr (T.state t.old) result (T.state t.new) }
{
    expect_word(t, b"irdl.c_pred")?;
    let name = string(alloc, t)?;
    Ok(RawExpr::Pred(name))
}

fn base_expr<T: TokenSource>(alloc: Global, t: &mut T) -> Result<RawExpr, SyntaxStop>
    ensures { Reads in_defs spec.base_expr (T.state t.old) result (T.state t.new) }
{
    expect_word(t, b"irdl.base")?;
    if is_class(t, Class::SymbolName) {
        let target = reference(alloc, t)?;
        return Ok(RawExpr::BaseRef(target));
    }
    let name = string(alloc, t)?;
    Ok(RawExpr::BaseName(name))
}

fn parametric_expr<T: TokenSource>(alloc: Global, t: &mut T) -> Result<RawExpr, SyntaxStop>
    ensures { Reads in_defs spec.parametric_expr (T.state t.old) result (T.state t.new) }
{
    expect_word(t, b"irdl.parametric")?;
    let target = reference(alloc, t)?;
    expect(t, Class::Less)?;
    let parts = variables(alloc, t)?;
    expect(t, Class::Greater)?;
    Ok(RawExpr::Parametric { target, parts })
}

fn any_of_expr<T: TokenSource>(alloc: Global, t: &mut T) -> Result<RawExpr, SyntaxStop>
    ensures { Reads in_defs spec.any_of_expr (T.state t.old) result (T.state t.new) }
{
    expect_word(t, b"irdl.any_of")?;
    let members = members(alloc, t)?;
    Ok(RawExpr::AnyOf(members))
}

fn all_of_expr<T: TokenSource>(alloc: Global, t: &mut T) -> Result<RawExpr, SyntaxStop>
    ensures { Reads in_defs spec.all_of_expr (T.state t.old) result (T.state t.new) }
{
    expect_word(t, b"irdl.all_of")?;
    let members = members(alloc, t)?;
    Ok(RawExpr::AllOf(members))
}

fn members<T: TokenSource>(alloc: Global, t: &mut T) -> Result<List<NameCst>, SyntaxStop>
    ensures { Reads in_defs (in_parens some_variables) (T.state t.old) result (T.state t.new) }
{
    expect(t, Class::LParen)?;
    let found = some_variables(alloc, t)?;
    expect(t, Class::RParen)?;
    Ok(found)
}

fn reference<T: TokenSource>(alloc: Global, t: &mut T) -> Result<RawRef, SyntaxStop>
    ensures { Reads in_defs spec.reference (T.state t.old) result (T.state t.new) }
{
    let first = read_name(alloc, t, Class::SymbolName)?;
    if !is_class(t, Class::ColonColon) {
        return Ok(RawRef {
            place: first.place,
            dialect: None,
            name: first.name,
        });
    }
    expect(t, Class::ColonColon)?;
    let second = read_name(alloc, t, Class::SymbolName)?;
    Ok(RawRef {
        place: first.place,
        dialect: Some(first.name),
        name: second.name,
    })
}
