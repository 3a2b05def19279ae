//! A law of inference: a public function whose contract is the law, and whose body is empty.

ghost use Rattle.std.specs.Prelude.{◌≡◌, true};
ghost use Rattle.dt_fields.specs.declared.field.FieldDef.{FieldDef};
ghost use Rattle.dt_patterns.specs.Inference.{same_field};

/// The test of two fields that decides which format a pattern takes is true exactly where they are the same.
pub fn law_same_field()
    ensures { (f g : FieldDef) → (same_field f g ≡ true → f ≡ g) × (f ≡ g → same_field f g ≡ true) }
{}
