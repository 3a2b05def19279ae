//! A logical line, and where its tokens lie in the file.

ghost use Rattle.std.specs.Prelude.{◌≡◌, length};
ghost use Rattle.dt_lines.specs.Spans.{IsWithin, text_at};

use dt_values::Items;

/// A place in a file: the bytes from `start` up to `end`, counted from 0.
#[derive(Clone, Copy, Debug, PartialEq, Eq)]
pub struct Span {
    pub start: u32,
    pub end: u32,
}

impl Span {
    /// The bytes of the token in those of its file.
    pub fn text(self, bytes: &[u8]) -> &[u8]
        requires { IsWithin (length bytes.now) self }
        ensures { result.now ≡ text_at bytes.now self }
    {
        &bytes[self.start as usize..self.end as usize]
    }
}

/// The tokens of a line, as their places in the file, in order.
pub type TokenList = Items<Span>;

/// A line of one of the files that are read together: the place of its file among them, from 0, and its number in it,
/// from 1.
#[derive(Clone, Copy, Debug, PartialEq, Eq)]
pub struct Position {
    pub file: u16,
    pub line: u32,
}

/// A logical line: the place of its file among all files, from 0; the number of its first physical line in the file,
/// from 1; the column of the first byte there that isn't white space, from 0; its tokens. A comment alone is a line
/// without tokens.
#[derive(Drop)]
pub struct Logical {
    pub file: u16,
    pub line: u32,
    pub indent: u32,
    pub tokens: TokenList,
}
