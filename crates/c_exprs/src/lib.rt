//! Expressions of the C subset: their forms, how they are spelled, and their reader.
#![tactic(auto)]

pub mod assign;
mod constant;
pub mod expr;
mod fold;
pub mod read;
mod segment;

pub use assign::{assignment_at, set_assignment_at};
pub use expr::{Expr, Input};
pub use read::expr_at;
