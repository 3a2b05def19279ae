//! Why there is no text.

ghost use Rattle.std.specs.Prelude.{◌≡◌, MatchResult};
ghost use Rattle.dt_tool.specs.Refusals.{IsFaultWithin, SaysFault, SaysThis};
ghost use Rattle.dt_tool.specs.Messages as said;
ghost use Rattle.dt_words.specs.View.{value_seen};

use crate::messages;
use crate::messages::Inputs;
use crate::refusal::Refusal;
use dt_forms::ModelFault;
use std::alloc::{AllocError, Global};
use thiserror::Error;

/// Why no text is written, with what is said of it.
#[derive(Debug, Drop, Error)]
pub enum Stop {
    /// A file isn't there, or a read of it failed.
    #[error("an input cannot be read")]
    ReadFault(Vec<u8>),
    /// The files break a rule.
    #[error("an input breaks a rule")]
    Refused(Vec<u8>),
    /// Memory ran out.
    #[error("out of memory")]
    NoMemory,
}

/// What a fault of the inputs says.
pub fn stop_of(alloc: Global, inputs: Inputs, fault: ModelFault) -> Stop
    requires { IsFaultWithin inputs.sources.now fault }
    ensures { SaysFault inputs.entry.width inputs.entry.names.now inputs.entry.sources.now fault result }
{
    match fault {
        ModelFault::Broken(fault) => refusal(messages::fault_message(alloc, inputs, &fault)),
        ModelFault::NoMemory => Stop::NoMemory,
    }
}

/// A refusal with its detail, if it has one.
pub fn refuse(alloc: Global, refused: Refusal, detail: Option<&str>) -> Stop
    ensures { SaysThis result (said.refusal_message refused (value_seen detail.entry)) }
{
    refusal(messages::refusal_message(alloc, refused, detail))
}

/// A refusal, if there is memory for its message.
pub fn refusal(message: Result<Vec<u8>, AllocError>) -> Stop
    ensures { MatchResult message (λ text. result ≡ Stop.Refused text) (λ _. result ≡ Stop.NoMemory) }
{
    match message {
        Ok(message) => Stop::Refused(message),
        Err(_) => Stop::NoMemory,
    }
}

/// A file that isn't read, if there is memory for its message.
pub fn read_fault(message: Result<Vec<u8>, AllocError>) -> Stop
    ensures { MatchResult message (λ text. result ≡ Stop.ReadFault text) (λ _. result ≡ Stop.NoMemory) }
{
    match message {
        Ok(message) => Stop::ReadFault(message),
        Err(_) => Stop::NoMemory,
    }
}
