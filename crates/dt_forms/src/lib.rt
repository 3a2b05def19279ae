//! The lines of files, and the model that they are: what each line is, the rules of structure, and the reader.
#![tactic(auto)]

pub mod fault;
mod head;
pub mod laws;
pub mod position;
pub mod reader;
pub mod source;
mod structure;

pub use dt_model::{
    Entry, EntryList, FieldValue, Format, FormatList, Group, MOST_DEPTH, MOST_FILES, MOST_PATTERNS,
    Model, Options, Pattern, PatternList, SetList, ValueList,
};
pub use dt_scope::Kind;
pub use fault::{Fault, ModelFault};
pub use position::first_token;
pub use reader::read_model;
pub use source::{ByteList, LineList, Source};
