//! Reads the command words.
#![tactic(auto)]

pub mod command;
pub mod faults;
pub mod laws;
pub mod names;
pub mod numbers;
pub mod operands;
pub mod print;
pub mod read;
pub mod roles;
pub mod rows;
pub mod script;
pub mod settings;
pub mod usage;
pub mod values;

pub use command::{AnswerList, Command, OutcomeList, Text, TextList};
pub use dt_model::MOST_FILES;
pub use print::printed_word;
pub use read::{WordFault, read_words};
pub use usage::Usage;
