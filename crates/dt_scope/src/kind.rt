//! The kinds of groups, and where groups open.

/// A kind of group: in braces, tried in order, or in brackets, whose entries exclude one another.
#[derive(Clone, Copy, PartialEq, Eq)]
pub enum Kind {
    Brace,
    Bracket,
}

/// Where a group opens: its kind, the place of its file among all files, from 0, and its line.
#[derive(Clone, Copy)]
pub struct Opening {
    pub kind: Kind,
    pub file: u16,
    pub line: u32,
}
