//! Fields, argument sets, and the rules of pattern files: their types, their tables, and the readers of their lines.
#![tactic(auto)]

pub mod fault;
pub mod field;
pub mod field_lines;
pub mod field_tokens;
pub mod fields;
mod head;
pub mod laws;
pub mod masks;
pub mod number;
pub mod rule;
pub mod segment;
pub mod set_lines;
mod set_tokens;
pub mod sets;

pub use dt_values::{MOST_ARGUMENTS, MemberList, SetDef};
pub use fault::{DefFault, Detail, refuse};
pub use field::FieldDef;
pub use field_lines::field_line;
pub use fields::Fields;
pub use masks::segments_mask;
pub use rule::Rule;
pub use segment::{MOST_SEGMENTS, Segment, Segments};
pub use set_lines::args_line;
pub use sets::Sets;
