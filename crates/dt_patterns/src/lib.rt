//! The lines of formats and patterns: what they add, what is inferred for them, and the rules that they keep.
#![tactic(auto)]

pub mod format_line;
pub mod infer;
pub mod inferred;
pub mod laws;
pub mod line_arguments;
pub mod line_bits;
pub mod line_names;
pub mod pattern_line;
pub mod pattern_rules;
pub mod same_field;

pub use format_line::add_format_line;
pub use pattern_line::add_pattern_line;
