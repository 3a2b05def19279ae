//! What lines of pattern files define, and what the elements of a line give it.
#![tactic(auto)]

pub mod bits;
mod digits;
mod element;
pub mod formats;
pub mod gather;
pub mod groups;
pub mod kind;
pub mod patterns;
pub mod scope;

pub use bits::{Bits, all_bits};
pub use digits::Digits;
pub use formats::Formats;
pub use kind::{Kind, Opening};
pub use patterns::Patterns;
pub use scope::Scope;
