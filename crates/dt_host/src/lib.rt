//! What answers the calls of a decoder: hosts, and the one that a script is.
#![tactic(auto)]

pub mod host;
pub mod script;

pub use host::Host;
pub use script::{Answer, Call, Script};
