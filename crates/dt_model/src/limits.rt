//! The limits of what pattern files define.

/// The most patterns that all files may have.
pub const MOST_PATTERNS: usize = 8192;

/// The most groups that stand inside one another.
pub const MOST_DEPTH: usize = 16;

/// The most files of one decoder.
pub const MOST_FILES: usize = 16;
