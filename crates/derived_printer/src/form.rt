//! The form in which a module is printed.

/// How operations are printed.
#[derive(Clone, Copy, Debug, PartialEq, Eq, Drop)]
pub enum Form {
    /// Each operation in the generic form, as `"t.add"(%0, %1) : (i32, i32) -> i32`.
    Generic,
}

/// How deep regions may nest in a module that is printed: a region of an operation at top level is
/// one deep.
pub const REGION_LIMIT: usize = 64;
