//! What a field is made of.

ghost use Rattle.std.specs.Prelude.{◌≡◌, IfOk};

use crate::segment::Segments;
use dt_values::Name;
use smallvec::SmallVec;
use std::alloc::{AllocError, Global};

/// A field: its segments, and the function that its value is handed to, if there is one.
#[derive(Drop)]
pub struct FieldDef {
    pub segments: Segments,
    pub function: Option<Name>,
}

impl FieldDef {
    /// The same field again.
    pub fn copied(&self, alloc: Global) -> Result<FieldDef, AllocError>
        ensures { IfOk result (λ field. field ≡ self.now) }
    {
        let items = SmallVec::from_slice(alloc, self.segments.items())?;
        Ok(FieldDef {
            segments: Segments::of(items),
            function: self.function,
        })
    }
}
