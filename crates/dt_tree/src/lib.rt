//! Decision trees of models: which patterns are told apart by the bits that they fix, and which are not.
#![tactic(auto)]

mod common;
mod empty;
pub mod fault;
mod first;
mod fixed;
pub mod laws;
mod list;
mod split;
pub mod tree;

pub use fault::{PositionList, TreeFault};
pub use tree::Tree;
