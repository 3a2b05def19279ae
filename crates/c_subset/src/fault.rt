//! Why no program is read of a text.

ghost use Rattle.std.specs.Prelude.{◌≡◌};
ghost use Rattle.c_subset.specs.ReadFaults.{fault_of};

use c_tokens::ReadFault;
use std::alloc::AllocError;
use thiserror::Error;

/// Why no program is read of a C text.
#[derive(Clone, Copy, Debug, PartialEq, Eq, Error)]
pub enum CFault {
    /// No program spells the text.
    #[error("not in the C subset")]
    NotSubset,
    /// A token of the text stands inside more than 128 open braces.
    #[error("too many open braces")]
    TooDeep,
    /// Memory ran out.
    #[error("out of memory")]
    NoMemory,
}

impl From<AllocError> for CFault {
    ghost use Rattle.c_subset.specs.declared.fault.CFault.TheVariants as faults;

    ghost from_gives = { λ _ fault. fault ≡ faults.NoMemory };

    fn from(_: AllocError) -> CFault {
        CFault::NoMemory
    }
}

impl From<ReadFault> for CFault {
    ghost from_gives = { λ read fault. fault ≡ fault_of read };

    fn from(fault: ReadFault) -> CFault {
        match fault {
            ReadFault::NotSubset => CFault::NotSubset,
            ReadFault::NoMemory => CFault::NoMemory,
        }
    }
}
