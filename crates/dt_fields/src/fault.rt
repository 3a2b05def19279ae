//! Why a line defines nothing: the rule that it breaks, with what a message names beside it.

ghost use Rattle.std.specs.Prelude.{◌≡◌, true, false, OnOk, IfErr};

use crate::rule::Rule;
use dt_lines::Span;
use dt_values::Name;
use std::alloc::{AllocError, AllocFailed};
use thiserror::Error;

/// What a message about a broken rule names beside the rule.
#[derive(Clone, Copy, Debug, PartialEq, Eq)]
pub enum Detail {
    None,
    /// A token, by its place in the bytes of its file.
    Text(Span),
    Named(Name),
    /// A number, printed in decimal.
    Number(u64),
    /// Bits of the word, printed in hexadecimal.
    Mask(u64),
}

/// Why a line defines nothing.
#[derive(Clone, Copy, Debug, Error)]
pub enum DefFault {
    /// The line breaks a rule: the first that it breaks, with its detail.
    #[error("a line breaks a rule")]
    Broken(Rule, Detail),
    #[error("out of memory")]
    NoMemory,
}

impl From<AllocError> for DefFault {
    ghost use Rattle.dt_fields.specs.declared.fault.DefFault.TheVariants as faults;

    ghost from_gives = { λ error fault. fault ≡ faults.NoMemory };

    fn from(_error: AllocError) -> DefFault {
        DefFault::NoMemory
    }
}

impl<T: Drop> From<AllocFailed<T>> for DefFault {
    ghost use Rattle.dt_fields.specs.declared.fault.DefFault.TheVariants as faults;

    ghost from_gives = { λ error fault. fault ≡ faults.NoMemory };

    fn from(_error: AllocFailed<T>) -> DefFault {
        DefFault::NoMemory
    }
}

/// Refuses a line with this rule and detail, where it breaks the rule.
pub fn refuse(is_broken: bool, rule: Rule, detail: Detail) -> Result<(), DefFault>
    ensures kept { OnOk result (is_broken ≡ false) }
    ensures broken { IfErr result (λ fault. (is_broken ≡ true) × (fault ≡ DefFault.Broken rule detail)) }
{
    if is_broken {
        return Err(DefFault::Broken(rule, detail));
    }
    Ok(())
}
