//! What formats and patterns give to arguments.

use dt_fields::FieldDef;
use dt_values::{Items, Name};

/// What an argument gets: a field of the word, or a constant.
#[derive(Drop)]
pub enum FieldValue {
    Field(FieldDef),
    Constant(i64),
}

/// Arguments with what they get, in the order of their line. Contracts see the list of these pairs.
pub type ValueList = Items<(Name, FieldValue)>;
