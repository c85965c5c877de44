//! The rules of values, by the numbers that a refusal of a module shows.

/// The form is one that some text has, and types stand where types are asked: the value in which
/// that isn't so. It is meant for trees that are made by hand, and for aliases of types that have
/// another value.
pub const SYNTAX: u32 = 1;

/// Values nest at most 64 deep, aliases expanded: the value at nesting 65, or the mention of an
/// alias whose value nests deeper than there is room for.
pub const NESTING: u32 = 4;

/// A mentioned alias is there: the mention.
pub const ALIAS_UNKNOWN: u32 = 5;

/// The keys of a dictionary are distinct: the key that stands before.
pub const KEY_REPEATED: u32 = 13;

/// A dialect defines the type or attribute: its token.
pub const NAME_UNKNOWN: u32 = 14;

/// Parameters are those of an instance of the definition, and dimensions are right: the value's
/// first token.
pub const PARAMETERS: u32 = 15;

/// A number, or an item of a dense array, may be written at its type: its first token.
pub const INT_RANGE: u32 = 16;
