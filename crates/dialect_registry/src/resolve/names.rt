//! What the names of a body stand for.

ghost use Rattle.std.specs.Prelude.{◌≡◌, ◌++◌, ◌∷◌, [], List, IfOk, OnOk, option_map};
ghost use Rattle.dialect_registry.specs.Resolved as spec;
ghost use Rattle.dialect_registry.specs.Resolving.{constraints_of, named_seen, Names};
ghost use Rattle.dialect_registry.specs.Resolving.{region_at, region_seen};
ghost use Rattle.generic_syntax.specs.declared.cst.ValueNode.{out-ValueNode};
ghost use Rattle.irdl_ops.specs.declared.raw.RawStatement.{RawStatement};

use crate::names::NameMap;
use attr_value::List;
use dialect_defs::VarId;
use generic_syntax::{NameCst, ValueCst, ValueNode};
use irdl_ops::{RawExpr, RawStatement, StatementKind};
use std::alloc::{AllocError, Global};

/// A constraint and its name.
#[derive(Clone, Copy)]
pub struct NamedExpr<'a> {
    pub name: &'a [u8],
    pub expr: &'a RawExpr,
}

/// What a region says: its arguments, where they are declared, and how many blocks, where that is
/// said.
#[derive(Clone, Copy)]
pub struct Region<'a> {
    pub args: &'a Option<List<NameCst>>,
    pub size: Option<u32>,
}

/// What the names of a body stand for. The first of a name counts.
///
/// A body that keeps to the limit has few constraints, so their names are gone through.
#[derive(Drop)]
pub struct BodyNames<'a> {
    pub constraints: Vec<NamedExpr<'a>>,
    pub regions: NameMap<'a, Region<'a>>,
}

/// The number of the first constraint of this name, or how many there are.
fn number_of(constraints: &[NamedExpr], name: &[u8]) -> usize
    ensures { result ≡ spec.number_of (named_seen constraints.now) name.now }
{
    for (number, constraint) in constraints.iter().enumerate() {
        if constraint.name == name {
            return number;
        }
    }
    constraints.len()
}

/// Whether a constraint asks for the unit attribute.
fn is_unit(expr: &RawExpr) -> bool
    ensures { result ≡ spec.is_unit expr.now }
{
    match expr {
        RawExpr::Is(ValueCst { node, .. }) => is_unit_node(node),
        _ => false,
    }
}

fn is_unit_node(node: &ValueNode) -> bool
    ensures { result ≡ spec.is_unit_node (out-ValueNode node.now) }
{
    match node {
        ValueNode::Word(word) => word.bytes() == b"unit".as_slice(),
        _ => false,
    }
}

impl<'a> BodyNames<'a> {
    /// Those of a body.
    pub fn of(alloc: Global, statements: &'a [RawStatement]) -> Result<BodyNames<'a>, AllocError>
        ensures { IfOk result (Names statements.now) }
    {
        let mut names = BodyNames {
            constraints: Vec::new(alloc),
            regions: NameMap::new(alloc),
        };
        for statement in statements {
            names.add(statement)?;
        }
        Ok(names)
    }

    /// Adds those of one more statement.
    fn add(&mut self, statement: &'a RawStatement) -> Result<(), AllocError>
        ensures { OnOk result ((before : List RawStatement) → Names before self.old →
            Names (before ++ statement.now ∷ []) self.new) }
    {
        match &statement.kind {
            StatementKind::Constraint { name, expr } => {
                let name = name.name.bytes();
                self.constraints.push(NamedExpr { name, expr })?;
                Ok(())
            }
            StatementKind::Region { name, args, size } => {
                let size = *size;
                self.regions.add(name.name.bytes(), Region { args, size })?;
                Ok(())
            }
            _ => Ok(()),
        }
    }

    /// The variable of this name; one that isn't in the body where no constraint has the name.
    pub fn variable(&self, name: &NameCst) -> VarId
        ensures { result ≡ spec.variable (constraints_of self.now) name.now }
    {
        VarId(number_of(&self.constraints, name.name.bytes()))
    }

    /// Whether the first constraint of this name asks for the unit attribute.
    pub fn is_unit(&self, name: &[u8]) -> bool
        ensures { result ≡ spec.is_unit_named (constraints_of self.now) name.now }
    {
        for constraint in &self.constraints {
            if constraint.name == name {
                return is_unit(constraint.expr);
            }
        }
        false
    }

    /// What the region of this name says.
    pub fn region(&self, name: &[u8]) -> Option<Region<'a>>
        ensures { option_map region_seen result ≡ region_at self.now name.now }
    {
        self.regions.get(name).copied()
    }
}
