//! The verdict of pattern files: they are kept, or refused for what they break first.
#![tactic(auto)]

pub mod laws;
