//! Patterns.

use crate::value::ValueList;
use dt_values::{Items, Name};

/// A pattern: its name; the place of its file among all files, from 0, and its line, from 1; the number
/// of its format, from 0; how many bits it has; what its fixed bits are, the mask of them and that of its
/// ignored bits, each with the format's; and what the arguments of its own line get.
#[derive(Drop)]
pub struct Pattern {
    pub name: Name,
    pub file: u16,
    pub line: u32,
    pub format: u32,
    pub bits: u32,
    pub fixed_bits: u64,
    pub fixed_mask: u64,
    pub ignored: u64,
    pub values: ValueList,
}

/// Patterns in file order. Contracts see the list of them.
pub type PatternList = Items<Pattern>;
