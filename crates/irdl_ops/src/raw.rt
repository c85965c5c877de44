//! A definition file as it is written.
//!
//! What names and references mean, and whether they mean anything, is found by the crate above. The
//! place of a dialect or a definition is that of its name; every other place is that of the first
//! token. A place is a byte from 0.

use attr_value::{List, Text};
use dialect_defs::Arity;
use generic_syntax::{NameCst, ValueCst};

/// What a definition defines.
#[derive(Clone, Copy, Debug, PartialEq, Eq)]
pub enum DefKind {
    /// `irdl.type`
    OfType,
    /// `irdl.attribute`
    OfAttr,
    /// `irdl.operation`
    OfOp,
}

/// A definition file.
#[derive(Drop)]
pub struct RawDefs {
    pub dialects: List<RawDialect>,
}

/// `irdl.dialect @d { .. }`
#[derive(Drop)]
pub struct RawDialect {
    pub place: u32,
    pub name: Text,
    pub defs: List<RawDef>,
}

/// `irdl.type @t { .. }`, `irdl.attribute @a { .. }` or `irdl.operation @o { .. }`
#[derive(Drop)]
pub struct RawDef {
    pub place: u32,
    pub kind: DefKind,
    pub name: Text,
    pub statements: List<RawStatement>,
}

/// A statement of a definition's body.
#[derive(Drop)]
pub struct RawStatement {
    pub place: u32,
    pub kind: StatementKind,
}

/// A reference to a definition: `@t`, or `@d::@t` with its dialect.
#[derive(Drop)]
pub struct RawRef {
    pub place: u32,
    pub dialect: Option<Text>,
    pub name: Text,
}

/// The bytes of a string.
#[derive(Drop)]
pub struct RawText {
    pub place: u32,
    pub text: Text,
}

/// `x: optional %0`, an entry of operands, results, parameters or regions. The arity of a parameter
/// or a region is `Single`.
#[derive(Drop)]
pub struct RawEntry {
    pub place: u32,
    pub arity: Arity,
    pub name: Option<NameCst>,
    pub var: NameCst,
}

/// `"a" = optional %0`, an entry of attributes.
#[derive(Drop)]
pub struct RawAttr {
    pub name: RawText,
    pub optional: bool,
    pub var: NameCst,
}

/// What a statement says.
#[derive(Drop)]
pub enum StatementKind {
    /// `%0 = irdl.any`
    Constraint {
        name: NameCst,
        expr: RawExpr,
    },
    /// `%0 = irdl.region(%1) with size 1`
    Region {
        name: NameCst,
        args: Option<List<NameCst>>,
        size: Option<u32>,
    },
    /// `irdl.parameters(..)`
    Parameters(List<RawEntry>),
    /// `irdl.operands(..)`
    Operands(List<RawEntry>),
    /// `irdl.results(..)`
    Results(List<RawEntry>),
    /// `irdl.attributes {..}`
    Attributes(List<RawAttr>),
    /// `irdl.regions(..)`
    Regions(List<RawEntry>),
    /// `irdl_opt.successors(..)`
    Successors(List<NameCst>),
    /// `irdl_opt.terminator`
    Terminator,
    /// `irdl_opt.format ".."`
    Format(RawText),
}

/// A constraint.
#[derive(Drop)]
pub enum RawExpr {
    /// `irdl.is i32`
    Is(ValueCst),
    /// `irdl.any`
    Any,
    /// `irdl.c_pred ".."`
    Pred(RawText),
    /// `irdl.base @d::@t`
    BaseRef(RawRef),
    /// `irdl.base "!builtin.integer"`
    BaseName(RawText),
    /// `irdl.parametric @d::@t<%0>`
    Parametric {
        target: RawRef,
        parts: List<NameCst>,
    },
    /// `irdl.any_of(%0, %1)`
    AnyOf(List<NameCst>),
    /// `irdl.all_of(%0, %1)`
    AllOf(List<NameCst>),
}
