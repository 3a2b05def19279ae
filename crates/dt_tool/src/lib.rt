//! What decodetree does with its words: what is read, what is written, and what is said of a run.
#![tactic(auto)]

pub mod evaluate;
pub mod generate;
pub mod inputs;
pub mod laws;
pub mod messages;
pub mod refusal;
pub mod request;
pub mod run;
pub mod run_text;
pub mod status;
pub mod stop;
pub mod tool;

pub use refusal::Refusal;
pub use status::{Outcome, Status};
