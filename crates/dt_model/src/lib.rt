//! Models of pattern files: what the files define, and what holds of every model that is read.
#![tactic(auto)]

pub mod entry;
pub mod format;
pub mod limits;
pub mod model;
pub mod options;
pub mod pattern;
pub mod value;

pub use entry::{Entry, EntryList, Group};
pub use format::{Format, FormatList};
pub use limits::{MOST_DEPTH, MOST_FILES, MOST_PATTERNS};
pub use model::{Model, SetList};
pub use options::Options;
pub use pattern::{Pattern, PatternList};
pub use value::{FieldValue, ValueList};
