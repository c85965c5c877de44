//! The definitions of files, with their names resolved.

mod constraint;
mod definition;
mod entries;
mod lists;
mod names;

ghost use Rattle.std.specs.Prelude.{◌≡◌};

pub use constraint::{Env, full_name};
pub use definition::{Resolved, op_shape, resolve};
pub use lists::{format_in, parameters_in};
use std::alloc::AllocError;

/// Why definitions aren't resolved.
#[derive(Clone, Copy, Debug, PartialEq, Eq)]
pub enum ResolveStop {
    /// A constant means no value.
    BadConstant,
    /// Memory ran out.
    OutOfMemory,
}

impl From<AllocError> for ResolveStop {
    ghost use Rattle.dialect_registry.specs.declared.resolve.ResolveStop.TheVariants.{OutOfMemory};

    ghost from_gives = { λ _ e. e ≡ OutOfMemory };

    fn from(_: AllocError) -> ResolveStop {
        ResolveStop::OutOfMemory
    }
}
