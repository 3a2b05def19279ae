//! Formats.

use crate::value::ValueList;
use dt_values::{Items, Name};

/// A format: its name; the number of its set, from 0; how many bits it has; what its fixed bits are,
/// the mask of them and that of its ignored bits; and what its arguments get.
#[derive(Drop)]
pub struct Format {
    pub name: Name,
    pub set: u32,
    pub bits: u32,
    pub fixed_bits: u64,
    pub fixed_mask: u64,
    pub ignored: u64,
    pub values: ValueList,
}

/// Formats in order of definition. Contracts see the list of them.
pub type FormatList = Items<Format>;
