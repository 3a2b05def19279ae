//! The table of formats.

ghost use Rattle.std.specs.Prelude.{◌≡◌, ◌++◌, ◌∷◌, [], None, IfOk, OnOk, OnErr, length, slice_get};
ghost use Rattle.std.specs.Option.{option_copied};
ghost use Rattle.dt_scope.specs.FormatsByName.{format_at, is_format, place_of_format};

use dt_model::Format;
use dt_values::Name;
use indexmap::IndexMap;
use std::alloc::{AllocError, Global};
use std::marker::Model;

/// Formats by name. Contracts see them in the order of definition.
#[derive(Drop)]
pub struct Formats {
    map: IndexMap<Name, Format>,
}

impl Model for Formats {
    ghost use Rattle.std.specs.Prelude.{List};
    ghost use Rattle.std.specs.Map.{values_of};
    ghost use Rattle.dt_fields.specs.Keys.{Keyed};
    ghost use Rattle.dt_model.specs.declared.format.Format.{Format};

    ghost Value = { List Format };

    ghost view = { λ formats. values_of formats.map.entries };

    ghost invariant = { λ formats. Keyed (λ f. f.name) formats.map.entries };
}

impl Formats {
    /// No format.
    pub fn new(alloc: Global) -> Formats
        ensures { result ≡ [] }
    {
        Formats {
            map: IndexMap::new(alloc),
        }
    }

    /// How many formats there are.
    pub fn count(&self) -> usize
        ensures { result ≡ length self.now }
    {
        self.map.len()
    }

    /// The format at a place, from 0.
    pub fn at(&self, place: usize) -> Option<&Format>
        ensures { option_copied result ≡ slice_get self.now place }
    {
        let (_, format) = self.map.get_index(place)?;
        Some(format)
    }

    /// The place of the format of this name, from 0.
    pub fn place(&self, name: Name) -> Option<usize>
        ensures { result ≡ place_of_format self.now name }
    {
        self.map.get_index_of(&name)
    }

    /// The format of this name.
    pub fn get(&self, name: &Name) -> Option<&Format>
        ensures { option_copied result ≡ format_at self.now name.now }
    {
        self.map.get(name)
    }

    /// Whether a format has this name.
    pub fn has(&self, name: &Name) -> bool
        ensures { result ≡ is_format self.now name.now }
    {
        self.get(name).is_some()
    }

    /// Puts a format last.
    pub fn add(&mut self, format: Format) -> Result<(), AllocError>
        requires { format_at self.old format.name ≡ None }
        ensures added { OnOk result (self.new ≡ self.old ++ format ∷ []) }
        ensures unchanged { OnErr result (self.new ≡ self.old) }
    {
        match self.map.insert(format.name, format) {
            Ok(_) => Ok(()),
            Err(_) => Err(AllocError),
        }
    }

    /// The formats as a list of their own, in the same order.
    pub fn into_items(self, alloc: Global) -> Result<Vec<Format>, AllocError>
        ensures { IfOk result (λ formats. formats.items ≡ self) }
    {
        self.map.into_values().collect(alloc)
    }
}
