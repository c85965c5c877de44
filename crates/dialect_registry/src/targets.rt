//! What references to definitions name.

ghost use Rattle.std.specs.Prelude.{◌≡◌, ◌++◌, List, ℕ, IfOk, OnOk};
ghost use Rattle.irdl_ops.specs.declared.raw.RawDialect.{RawDialect};
ghost use Rattle.dialect_registry.specs.DefFaults.{dialects_of};
ghost use Rattle.dialect_registry.specs.Scopes.{Finds, found, found_in};
ghost use Rattle.dialect_registry.specs.Targets as spec;

use crate::names::NameMap;
use irdl_ops::{DefKind, RawDef, RawDefs, RawDialect, RawStatement, StatementKind};
use std::alloc::{AllocError, Global};

/// What a reference names: a type or an attribute, with so many parameters.
#[derive(Clone, Copy, Debug, PartialEq, Eq)]
pub struct Target {
    pub is_type: bool,
    pub parameters: usize,
}

/// The definitions of a dialect by their names: what a reference to a type or attribute names, and
/// nothing of an operation, to which nothing refers.
pub type Definitions<'a> = NameMap<'a, Option<Target>>;

/// The dialects by their names, each with its definitions. The first of a name stays.
#[derive(Drop)]
pub struct Targets<'a> {
    pub dialects: NameMap<'a, Definitions<'a>>,
}

/// How many parameters a body lists first.
fn parameter_count(statements: &[RawStatement]) -> usize
    ensures { result ≡ spec.parameter_count statements.now }
{
    for statement in statements {
        if let StatementKind::Parameters(entries) = &statement.kind {
            return entries.len();
        }
    }
    0
}

/// What a reference to a definition names; `None` of an operation.
fn target_of(def: &RawDef) -> Option<Target>
    ensures { result ≡ spec.target_of def.now }
{
    let is_type = match def.kind {
        DefKind::OfType => true,
        DefKind::OfAttr => false,
        DefKind::OfOp => return None,
    };
    Some(Target {
        is_type,
        parameters: parameter_count(def.statements.as_slice()),
    })
}

/// The definitions of a dialect by their names.
fn definitions_of<'a>(alloc: Global, dialect: &'a RawDialect) -> Result<Definitions<'a>, AllocError>
    ensures { IfOk result (λ named. (name : List ℕ) →
        found_in name named ≡ spec.named_in name dialect.now) }
{
    let mut named = NameMap::new(alloc);
    for def in dialect.defs.as_slice() {
        named.add(def.name.bytes(), target_of(def))?;
    }
    Ok(named)
}

impl<'a> Targets<'a> {
    /// What references may name in these files.
    pub fn of(alloc: Global, files: &'a [RawDefs]) -> Result<Targets<'a>, AllocError>
        ensures { IfOk result (Finds (dialects_of files.now)) }
    {
        let mut targets = Targets {
            dialects: NameMap::new(alloc),
        };
        for defs in files {
            targets.add_file(alloc, defs)?;
        }
        Ok(targets)
    }

    /// Adds the dialects of one more file.
    fn add_file(&mut self, alloc: Global, defs: &'a RawDefs) -> Result<(), AllocError>
        ensures { OnOk result ((before : List RawDialect) → Finds before self.old →
            Finds (before ++ defs.now.dialects) self.new) }
    {
        for dialect in defs.dialects.as_slice() {
            let definitions = definitions_of(alloc, dialect)?;
            self.dialects.add(dialect.name.bytes(), definitions)?;
        }
        Ok(())
    }

    /// What a reference to this name in this dialect names; `None` where that is nothing.
    pub fn find(&self, dialect: &[u8], name: &[u8]) -> Option<Target>
        ensures { result ≡ found self.now dialect.now name.now }
    {
        let definitions = self.dialects.get(dialect)?;
        *definitions.get(name)?
    }
}
