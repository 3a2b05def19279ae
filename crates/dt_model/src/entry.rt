//! The entries of a decoder: patterns and groups.

use dt_values::Items;

/// A pattern by its number in the list of all patterns, from 0; a group in braces, tried in order; or a group
/// in brackets, whose entries exclude one another.
#[cycle(group)]
#[derive(Drop)]
pub enum Entry {
    One(u32),
    Overlap(Group),
    Exclusive(Group),
}

/// A group of entries: the place of its file among all files, from 0, the line where it opens, and its entries.
#[cycle(group)]
#[derive(Drop)]
pub struct Group {
    pub file: u16,
    pub line: u32,
    pub entries: Vec<Entry>,
}

/// Entries in file order. Contracts see the list of them.
pub type EntryList = Items<Entry>;
