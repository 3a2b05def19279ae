//! The decision tree of a model.

ghost use Rattle.std.specs.Prelude.{map, AllPairs, IfErr, OnOk};
ghost use Rattle.dt_model.specs.Trees.{items_of};
ghost use Rattle.dt_model.specs.Sound.{IsEarlier, positions_of};
ghost use Rattle.dt_model.specs.View.{pattern_seen};
ghost use Rattle.dt_tree.specs.Entries.{AreInOrder, patterns_of};
ghost use Rattle.dt_tree.specs.Refusals.{KeepGroupRules, HasCause, IsRefused};

use crate::empty::first_empty;
use crate::fault::{PositionList, TreeFault};
use crate::first::first_of_list;
use dt_model::{Entry, Model, Pattern};
use std::alloc::Global;

/// The tree of a model. It keeps nothing yet: that there is one says that its entries are told apart.
#[derive(Drop)]
pub struct Tree {
    nodes: (),
}

impl Tree {
    /// The tree of a model. Outside of groups and in brackets the entries of a list are exclusive: two or more of them
    /// are a knot where every bit that all of them fix has one value in all of them. Errors: `Empty` where a group has
    /// no entry; else `Knot` where entries of an exclusive list are a knot; `NoMemory` where memory runs out. Where the
    /// model's entries stand in order, as those of files do, the least empty group or knot is shown.
    pub fn build(alloc: Global, model: &Model) -> Result<Tree, TreeFault>
        ensures kept { OnOk result (KeepGroupRules (patterns_of model.now) (items_of model.now.entries)) }
        ensures refused { IfErr result (λ fault. AreInOrder model.now
            → IsRefused (patterns_of model.now) (items_of model.now.entries) fault) }
        ensures cause { IfErr result (λ fault.
            HasCause (patterns_of model.now) (items_of model.now.entries) fault) }
    {
        tree_of(alloc, model.patterns.items(), model.entries.items())
    }
}

// The tree of these entries, whose patterns are among these.
fn tree_of(alloc: Global, patterns: &[Pattern], entries: &[Entry]) -> Result<Tree, TreeFault>
    ensures kept { OnOk result (KeepGroupRules (map pattern_seen patterns.now) (items_of entries.now)) }
    ensures refused { IfErr result (λ fault.
        AllPairs IsEarlier (positions_of patterns.now (items_of entries.now))
        → IsRefused (map pattern_seen patterns.now) (items_of entries.now) fault) }
    ensures cause { IfErr result (λ fault.
        HasCause (map pattern_seen patterns.now) (items_of entries.now) fault) }
{
    if let Some(position) = first_empty(entries) {
        return Err(TreeFault::Empty(position));
    }
    match first_of_list(alloc, patterns, entries) {
        Ok(None) => Ok(Tree { nodes: () }),
        Ok(Some(positions)) => Err(TreeFault::Knot(PositionList::of(positions))),
        Err(_) => Err(TreeFault::NoMemory),
    }
}
