//! The logical lines of a pattern file.
#![tactic(auto)]

pub mod fault;
mod gather;
pub mod laws;
pub mod limits;
pub mod line;
pub mod physical;
pub mod scan;
mod token;

pub use fault::LineFault;
pub use limits::{LARGEST_FILE, MOST_LINES};
pub use line::{Logical, Position, Span, TokenList};
pub use physical::line_count;
