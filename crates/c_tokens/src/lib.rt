//! The tokens of a C text, how deep its braces nest, and readers of tokens and words.
#![tactic(auto)]

pub mod cursor;
pub mod depth;
pub mod fault;
pub mod front;
pub mod laws;
mod lexeme;
pub mod read;
pub mod token;
pub mod words;

pub use cursor::Tokens;
pub use depth::{MOST_OPEN, is_too_deep};
pub use fault::ReadFault;
pub use front::{hexadecimal_at, name_at, name_behind_at, number_at};
pub use read::tokens;
pub use token::Token;
pub use words::{decimal_of, hexadecimal_of, name_behind};
