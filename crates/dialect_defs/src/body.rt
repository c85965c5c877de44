//! Constraints on variables.

use attr_value::{BaseKind, List, Text, ValueId};

/// The most variables that a body may have.
pub const VARIABLE_LIMIT: usize = 64;

/// A variable of a body, by its place there from 0.
#[derive(Clone, Copy, Debug, Default, PartialEq, Eq, Drop)]
pub struct VarId(pub usize);

/// The kind of head that a value has to have.
#[derive(Debug, Drop)]
pub enum BaseRef {
    /// One that is built in.
    Builtin(BaseKind),
    /// That of a dialect's type or attribute, by its full name.
    Defined { is_type: bool, name: Text },
}

/// What the value of a variable has to keep to.
#[derive(Debug, Drop)]
pub enum Constraint {
    /// It is this value.
    Is(ValueId),
    /// Nothing.
    Any,
    /// Its head is of this kind.
    Base(BaseRef),
    /// It is of the dialect's type or attribute of this full name, and each parameter is the value
    /// of the variable at its place.
    Parametric {
        is_type: bool,
        name: Text,
        parts: List<VarId>,
    },
    /// It is the value of at least one of these variables.
    AnyOf(List<VarId>),
    /// It is the value of each of these variables.
    AllOf(List<VarId>),
    /// The predicate of this number is true of it.
    Native(usize),
}

/// The constraints of variables. The one at a place is that of the variable of this number.
#[derive(Debug, Drop)]
pub struct Body {
    pub vars: List<Constraint>,
}
