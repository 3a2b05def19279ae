//! The limits of a pattern file.

/// The most bytes that a pattern file may have: 4 MiB.
pub const LARGEST_FILE: usize = 4_194_304;

/// The most physical lines that a pattern file may have.
pub const MOST_LINES: usize = 65_535;
