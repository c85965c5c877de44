//! Trees of modules, as they are read.
//!
//! A place is a byte from 0, that of the first token unless a field says another. Names are without
//! their signs.

use crate::cst::{EntryCst, ItemCst, NameCst, ValueCst};
use attr_value::{List, Text};

/// A module: `!a = i8  "d.op"() : () -> ()`.
#[derive(Drop)]
pub struct ModuleCst {
    /// In the order of the text, before all operations: `!a = i8`.
    pub aliases: List<AliasCst>,
    /// The operations at top level: `"d.op"() : () -> ()`.
    pub ops: List<OpCst>,
}

/// The definition of an alias: `!a = i8` of a type, `#a = 5` of another attribute.
#[derive(Drop)]
pub struct AliasCst {
    pub place: u32,
    pub is_type: bool,
    /// `a` of `!a = i8`.
    pub name: Text,
    /// `i8` of `!a = i8`.
    pub value: ValueCst,
}

/// An operation: `%0, %1:2 = "d.op"() : () -> (i8, i8, i8)`, or `d.op %0` by its format.
#[cycle(modules)]
#[derive(Drop)]
pub struct OpCst {
    /// Of the operation's name, `"d.op"` or `d.op`.
    pub place: u32,
    /// `%0, %1:2`, before the `=`.
    pub results: List<ResultCst>,
    pub form: FormCst,
}

/// What stands behind the names of an operation's results.
#[cycle(modules)]
#[derive(Drop)]
pub enum FormCst {
    /// `"d.op"(%0) : (i8) -> ()`.
    Generic(GenericCst),
    /// `d.op %0 : i8`.
    Custom(CustomCst),
}

/// The generic form: `"d.op"(%0)[^a] <{b = 1}> ({}) {c = 2} : (i8) -> i1`.
#[cycle(modules)]
#[derive(Drop)]
pub struct GenericCst {
    /// The bytes of the string: `d.op`.
    pub name: Text,
    /// `(%0)`.
    pub operands: List<UseCst>,
    /// `[^a]`, or none.
    pub successors: List<NameCst>,
    /// `<{b = 1}>`, or none.
    pub props: List<EntryCst>,
    /// `({})`, or none.
    pub regions: List<RegionCst>,
    /// `{c = 2}`, or none.
    pub attrs: List<EntryCst>,
    /// `(i8)`, before the arrow.
    pub inputs: List<ValueCst>,
    /// `i1`, behind the arrow, with or without parentheses.
    pub outputs: List<ValueCst>,
}

/// The form that an operation's format gives it: `d.op %0 : i8`.
#[cycle(modules)]
#[derive(Drop)]
pub struct CustomCst {
    /// The full name, also where a shorter word is spelled: `builtin.module` of `module`.
    pub name: Text,
    /// One for each element of the format that is no literal and no white space, in its order.
    pub parts: List<PartCst>,
}

/// What is shown of an element of a format.
#[cycle(modules)]
#[derive(Drop)]
pub enum PartCst {
    /// Of an operand: `%0, %1#1`; one, one or none, or any number.
    Uses(List<UseCst>),
    /// Of an attribute: `5 : i8`. None where it is left out, or where its presence is all of it.
    Value(Option<ValueCst>),
    /// Of an attribute that is a name: `@f`.
    SymbolName(Option<NameCst>),
    /// Of an attribute that is a number of a known type: `-5`.
    IntText(Option<ItemCst>),
    /// `{ .. }`.
    Region(RegionCst),
    /// `^a`.
    Successor(NameCst),
    /// The types of operands or of results: `i8, i1`.
    Types(List<ValueCst>),
    /// The types of both: `(i8) -> i1`.
    Functional {
        inputs: List<ValueCst>,
        outputs: List<ValueCst>,
    },
    /// Of the attributes that have no element of their own: `{a = 1}`.
    Dict(List<EntryCst>),
    /// The parts of the branch that is there: the first where the group is taken, else the other.
    Group {
        taken: bool,
        parts: List<PartCst>,
    },
}

/// A region: `{ ^a: .. }`.
#[cycle(modules)]
#[derive(Drop)]
pub struct RegionCst {
    pub place: u32,
    /// None of `{}`.
    pub blocks: List<BlockCst>,
}

/// A block: `^a(%0 : i8): ..`, or the operations before the first label of a region.
#[cycle(modules)]
#[derive(Drop)]
pub struct BlockCst {
    /// `^a`; an entry block may have none.
    pub label: Option<NameCst>,
    /// `(%0 : i8)`, or none.
    pub args: List<ArgCst>,
    pub ops: List<OpCst>,
}

/// An argument of a block: `%0 : i8`.
#[derive(Drop)]
pub struct ArgCst {
    pub place: u32,
    /// `0` of `%0 : i8`.
    pub name: Text,
    pub ty: ValueCst,
}

/// A use of a value: `%0`, or `%0#1` of a pack.
#[derive(Drop)]
pub struct UseCst {
    pub place: u32,
    /// `0` of `%0#1`.
    pub name: Text,
    /// `#1` of `%0#1`.
    pub number: Option<NumberCst>,
}

/// The name of a result, `%0`, or of a pack of them, `%0:2`.
#[derive(Drop)]
pub struct ResultCst {
    pub place: u32,
    /// `0` of `%0:2`.
    pub name: Text,
    /// `2` of `%0:2`.
    pub pack: Option<NumberCst>,
}

/// The number of a result, `#1` of `%0#1`, or the size of a pack, `2` of `%0:2`.
#[derive(Drop)]
pub struct NumberCst {
    pub place: u32,
    /// The digits alone, as they are spelled: `1` of `#1`.
    pub digits: Text,
}
