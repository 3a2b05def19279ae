//! The patterns that are read so far.

ghost use Rattle.std.specs.Prelude.{◌≡◌, ◌++◌, ◌∷◌, [], OnOk, OnErr};
ghost use Rattle.std.specs.List.{list_any};
ghost use Rattle.dt_values.specs.Types.{is_text};
ghost use Rattle.dt_scope.specs.Names.{IsSetOf};
ghost use Rattle.dt_scope.specs.Scope.{pattern_names};

use dt_model::Pattern;
use dt_values::Name;
use indexmap::IndexSet;
use std::alloc::{AllocError, Global};
use std::marker::Model;

/// Patterns in file order, with their names beside them, in order and as a set. Contracts see the list of the patterns.
#[derive(Drop)]
pub struct Patterns {
    items: Vec<Pattern>,
    names: Vec<Name>,
    name_set: IndexSet<Name>,
}

impl Model for Patterns {
    ghost use Rattle.std.specs.Prelude.{◌≡◌, List};
    ghost use Rattle.dt_scope.specs.Names.{IsSetOf};
    ghost use Rattle.dt_scope.specs.Scope.{pattern_names};
    ghost use Rattle.dt_model.specs.declared.pattern.Pattern.{Pattern};

    ghost Value = { List Pattern };

    ghost view = { λ patterns. patterns.items.items };

    ghost invariant = { λ patterns.
        (patterns.names.items ≡ pattern_names patterns.items.items)
        × IsSetOf patterns.names.items patterns.name_set.keys };
}

impl Patterns {
    /// No pattern.
    pub fn new(alloc: Global) -> Patterns
        ensures { result ≡ [] }
    {
        Patterns {
            items: Vec::new(alloc),
            names: Vec::new(alloc),
            name_set: IndexSet::new(alloc),
        }
    }

    /// The patterns.
    pub fn items(&self) -> &[Pattern]
        ensures { result.now ≡ self.now }
    {
        self.items.as_slice()
    }

    /// Their names.
    pub fn names(&self) -> &[Name]
        ensures { result.now ≡ pattern_names self.now }
    {
        self.names.as_slice()
    }

    /// Whether a pattern has this name.
    pub fn has_name(&self, name: &Name) -> bool
        ensures { result ≡ list_any (is_text name.now) (pattern_names self.now) }
    {
        self.name_set.contains(name)
    }

    /// The patterns as a list of their own.
    pub fn into_items(self) -> Vec<Pattern>
        ensures { result.items ≡ self }
    {
        self.items
    }

    /// Puts a pattern last. After an Err there is no more to say of the list.
    pub fn push(&mut self, pattern: Pattern) -> Result<(), AllocError>
        ensures { OnOk result (self.new ≡ self.old ++ pattern ∷ []) }
    {
        let name = pattern.name;
        self.items.push(pattern)?;
        match push_name(&mut self.names, &mut self.name_set, name) {
            Ok(()) => Ok(()),
            Err(_) => {
                let _pattern = self.items.pop();
                Err(AllocError)
            }
        }
    }
}

// Puts a name last, and in the set of the names.
fn push_name(
    names: &mut Vec<Name>,
    name_set: &mut IndexSet<Name>,
    name: Name,
) -> Result<(), AllocError>
    requires { IsSetOf names.old.items name_set.old.keys }
    ensures pushed { OnOk result (names.new.items ≡ names.old.items ++ name ∷ []) }
    ensures unchanged { OnErr result (names.new.items ≡ names.old.items) }
    ensures set { IsSetOf names.new.items name_set.new.keys }
{
    names.push(name)?;
    match name_set.insert(name) {
        Ok(_) => Ok(()),
        Err(_) => {
            let _name = names.pop();
            Err(AllocError)
        }
    }
}
