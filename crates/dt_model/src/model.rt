//! The model of pattern files.

use crate::entry::EntryList;
use crate::format::FormatList;
use crate::pattern::PatternList;
use dt_values::{Items, SetDef, Width};

/// Argument sets in order of definition. Contracts see the list of them.
pub type SetList = Items<SetDef>;

/// What pattern files define: the width of a word; whether words have several widths; the sets, formats and
/// patterns in order of definition; and the patterns again with the groups that they stand in.
#[derive(Drop)]
pub struct Model {
    pub width: Width,
    pub variable: bool,
    pub sets: SetList,
    pub formats: FormatList,
    pub patterns: PatternList,
    pub entries: EntryList,
}
