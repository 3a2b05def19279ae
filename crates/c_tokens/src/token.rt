//! Tokens of a C text.

/// A token. A word is a part of the text's bytes.
#[derive(Clone, Copy)]
pub enum Token<'a> {
    /// As many letters, digits and underscores as stand in a row.
    Word(&'a [u8]),
    /// A single byte, as `{`.
    Mark(u8),
    /// `==`
    DoubleEquals,
    /// `->`
    Arrow,
}
