//! The table of argument sets.

ghost use Rattle.std.specs.Prelude.{◌≡◌, ◌++◌, ◌∷◌, [], ℕ, List, None, IfOk, OnOk, OnErr, length, slice_get, true};
ghost use Rattle.std.specs.Option.{option_copied};
ghost use Rattle.dt_fields.specs.Arguments.{IsAmong, has_argument};
ghost use Rattle.dt_values.specs.Members.{has_member};
ghost use Rattle.dt_values.specs.SetsByName.{place_of_set, set_at};

use dt_values::set::has_member;
use dt_values::{Member, Name, SetDef};
use indexmap::{IndexMap, IndexSet};
use std::alloc::{AllocError, Global};
use std::marker::Model;

/// Argument sets by name, with the names of their arguments. Contracts see the sets in the order of definition.
#[derive(Drop)]
pub struct Sets {
    map: IndexMap<Name, SetDef>,
    arguments: IndexSet<Name>,
}

impl Model for Sets {
    ghost use Rattle.std.specs.Prelude.{List};
    ghost use Rattle.std.specs.Map.{values_of};
    ghost use Rattle.dt_fields.specs.Arguments.{AreArgumentsAmong};
    ghost use Rattle.dt_fields.specs.Keys.{Keyed};
    ghost use Rattle.dt_values.specs.declared.set.SetDef.{SetDef};

    ghost Value = { List SetDef };

    ghost view = { λ sets. values_of sets.map.entries };

    ghost invariant = { λ sets.
        Keyed (λ set. set.name) sets.map.entries × AreArgumentsAmong sets.arguments.keys (values_of sets.map.entries) };
}

impl Sets {
    /// No set.
    pub fn new(alloc: Global) -> Sets
        ensures { result ≡ [] }
    {
        Sets {
            map: IndexMap::new(alloc),
            arguments: IndexSet::new(alloc),
        }
    }

    /// How many sets there are.
    pub fn count(&self) -> usize
        ensures { result ≡ length self.now }
    {
        self.map.len()
    }

    /// The set at a place, from 0.
    pub fn at(&self, place: usize) -> Option<&SetDef>
        ensures { option_copied result ≡ slice_get self.now place }
    {
        let (_, set) = self.map.get_index(place)?;
        Some(set)
    }

    /// The set of this name.
    pub fn get(&self, name: Name) -> Option<&SetDef>
        ensures { option_copied result ≡ set_at self.now name }
    {
        self.map.get(&name)
    }

    /// The place of the set of this name, from 0.
    pub fn place(&self, name: Name) -> Option<usize>
        ensures { result ≡ place_of_set self.now name }
    {
        self.map.get_index_of(&name)
    }

    /// Whether a set has an argument of this name. A new name takes no look at the sets.
    pub fn has_argument(&self, name: &Name) -> bool
        ensures { result ≡ has_argument self.now name.now }
    {
        self.arguments.contains(name)
            && self
                .map
                .values()
                .any(|set| has_member(set.members.items(), name))
    }

    /// Puts a set last.
    pub fn add(&mut self, set: SetDef) -> Result<(), AllocError>
        requires { set_at self.old set.name ≡ None }
        ensures added { OnOk result (self.new ≡ self.old ++ set ∷ []) }
        ensures unchanged { OnErr result (self.new ≡ self.old) }
    {
        insert_names(&mut self.arguments, set.members.items())?;
        match self.map.insert(set.name, set) {
            Ok(_) => {}
            Err(_) => return Err(AllocError),
        }
        Ok(())
    }

    /// The sets as a list of their own, in the same order.
    pub fn into_items(self, alloc: Global) -> Result<Vec<SetDef>, AllocError>
        ensures { IfOk result (λ sets. sets.items ≡ self) }
    {
        self.map.into_values().collect(alloc)
    }
}

// Adds the names of these arguments to others.
fn insert_names(names: &mut IndexSet<Name>, members: &[Member]) -> Result<(), AllocError>
    ensures kept { (name : List ℕ) → IsAmong names.old.keys name → IsAmong names.new.keys name }
    ensures added { OnOk result
        ((name : List ℕ) → has_member members.now name ≡ true → IsAmong names.new.keys name) }
{
    let Some((member, rest)) = members.split_first() else {
        return Ok(());
    };
    match names.insert(member.name) {
        Ok(_) => insert_names(names, rest),
        Err(_) => Err(AllocError),
    }
}
