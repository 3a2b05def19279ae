//! The expression that the C text has for a field: its text, and the law of its value.
#![tactic(auto)]

mod assignment;
mod expression;
pub mod laws;
mod parts;

pub use assignment::write_assignment;
