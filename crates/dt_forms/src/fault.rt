//! Why files have no model.

use dt_fields::{Detail, Rule};
use thiserror::Error;

/// A broken rule: the place of the file among all files, from 0, the line, from 1, the rule, and what a
/// message names beside it.
#[derive(Clone, Copy, Debug, PartialEq, Eq)]
pub struct Fault {
    pub file: u16,
    pub line: u32,
    pub rule: Rule,
    pub detail: Detail,
}

/// Why files have no model.
#[derive(Clone, Copy, Debug, PartialEq, Eq, Error)]
pub enum ModelFault {
    /// A line breaks a rule: the rule that files break first, of those that the call looks at.
    #[error("a pattern file breaks a rule")]
    Broken(Fault),
    #[error("out of memory")]
    NoMemory,
}
