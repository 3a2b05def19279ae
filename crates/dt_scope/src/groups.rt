//! The groups that are open, and the entries.

ghost use Rattle.std.specs.Prelude.{◌≡◌, ◌++◌, ◌-◌, ◌∷◌, [], Some, length, take, OnOk};
ghost use Rattle.dt_scope.specs.Groups.{innermost, innermost_kind, openings_of, spelled_so_far};
ghost use Rattle.dt_scope.specs.Marks.{closes, opens, pattern_mark, spelled, grouped};
ghost use Rattle.dt_model.specs.Trees.{item_of, items_of};

use crate::kind::{Kind, Opening};
use dt_model::{Entry, Group};
use std::alloc::{AllocError, Global};
use std::mem::replace;

/// A group that is open: where it opens, and the entries that stand before it in the list that it stands in.
#[derive(Drop)]
pub struct Open {
    pub opening: Opening,
    pub before: Vec<Entry>,
}

/// The open groups, the innermost last; and the entries of the innermost open group, or the outermost entries where no
/// group is open.
#[derive(Drop)]
pub struct Groups {
    pub open: Vec<Open>,
    pub entries: Vec<Entry>,
}

// Puts an item last.
fn push_last<T: Drop>(items: &mut Vec<T>, item: T) -> Result<(), AllocError>
    ensures { OnOk result (items.new.items ≡ items.old.items ++ item ∷ []) }
{
    items.push(item)?;
    Ok(())
}

// The entry that a group of this kind is.
fn grouped(kind: Kind, group: Group) -> Entry
    ensures { item_of result ≡ grouped kind group.file group.line (items_of group.entries.items) }
{
    match kind {
        Kind::Brace => Entry::Overlap(group),
        Kind::Bracket => Entry::Exclusive(group),
    }
}

impl Groups {
    /// No entry, and no open group.
    pub fn new(alloc: Global) -> Groups
        ensures openings { openings_of result ≡ [] }
        ensures spelled { spelled_so_far result ≡ [] }
    {
        Groups {
            open: Vec::new(alloc),
            entries: Vec::new(alloc),
        }
    }

    /// How many groups are open.
    pub fn depth(&self) -> usize
        ensures { result ≡ length (openings_of self.now) }
    {
        self.open.len()
    }

    /// The innermost open group.
    pub fn innermost(&self) -> Option<Opening>
        ensures { result ≡ innermost (openings_of self.now) }
    {
        let open = self.open.last()?;
        Some(open.opening)
    }

    /// Opens a group.
    pub fn open(&mut self, alloc: Global, opening: Opening) -> Result<(), AllocError>
        ensures spelled { OnOk result (spelled_so_far self.new
            ≡ spelled_so_far self.old ++ opens opening.kind opening.file opening.line ∷ []) }
        ensures openings { OnOk result (openings_of self.new ≡ openings_of self.old ++ opening ∷ []) }
    {
        let before = replace(&mut self.entries, Vec::new(alloc));
        push_last(&mut self.open, Open { opening, before })?;
        Ok(())
    }

    /// Closes the innermost group, which is of this kind.
    pub fn close(&mut self, kind: Kind) -> Result<(), AllocError>
        requires { innermost_kind (openings_of self.old) ≡ Some kind }
        ensures spelled { OnOk result (spelled_so_far self.new ≡ spelled_so_far self.old ++ closes kind ∷ []) }
        ensures openings { OnOk result
            (openings_of self.new ≡ take (length (openings_of self.old) - 1) (openings_of self.old)) }
    {
        let Some(open) = self.open.pop() else {
            return Ok(());
        };
        let entries = replace(&mut self.entries, open.before);
        let group = Group {
            file: open.opening.file,
            line: open.opening.line,
            entries,
        };
        push_last(&mut self.entries, grouped(kind, group))?;
        Ok(())
    }

    /// Adds the pattern of this number.
    #[tactic(auto, using(crate::proofs::Spelling::pattern_added))]
    pub fn add(&mut self, number: u32) -> Result<(), AllocError>
        ensures spelled { OnOk result (spelled_so_far self.new ≡ spelled_so_far self.old ++ pattern_mark number ∷ []) }
        ensures openings { OnOk result (openings_of self.new ≡ openings_of self.old) }
    {
        push_last(&mut self.entries, Entry::One(number))?;
        Ok(())
    }

    /// The entries, where no group is open.
    #[tactic(auto, using(crate::proofs::Spelling::all_closed))]
    pub fn into_entries(self) -> Vec<Entry>
        requires { openings_of self ≡ [] }
        ensures { spelled (items_of result.items) ≡ spelled_so_far self }
    {
        self.entries
    }
}
