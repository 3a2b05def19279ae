//! Why nothing is read of a C text.

ghost use Rattle.std.specs.Prelude.{◌≡◌};

use std::alloc::{AllocError, AllocFailed};
use thiserror::Error;

/// Why nothing is read.
#[derive(Clone, Copy, Debug, Error)]
pub enum ReadFault {
    /// The text, or what stands first in it, is no part of the C subset.
    #[error("not in the C subset")]
    NotSubset,
    /// Memory ran out.
    #[error("out of memory")]
    NoMemory,
}

impl From<AllocError> for ReadFault {
    ghost use Rattle.c_tokens.specs.declared.fault.ReadFault.TheVariants as faults;

    ghost from_gives = { λ _ fault. fault ≡ faults.NoMemory };

    fn from(_: AllocError) -> ReadFault {
        ReadFault::NoMemory
    }
}

impl<T: Drop> From<AllocFailed<T>> for ReadFault {
    ghost use Rattle.c_tokens.specs.declared.fault.ReadFault.TheVariants as faults;

    ghost from_gives = { λ _ fault. fault ≡ faults.NoMemory };

    fn from(_: AllocFailed<T>) -> ReadFault {
        ReadFault::NoMemory
    }
}
