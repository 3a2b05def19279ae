//! Laws of the lines of fields and sets: public functions whose contracts are the laws, and whose bodies are empty.

ghost use Rattle.std.specs.Prelude.{◌≡◌, ◌≢◌, ℕ, List, [], IsTrue, All};
ghost use Rattle.dt_values.specs.Names.{IsName};
ghost use Rattle.dt_fields.specs.FieldLines.{begins_field, field_line_faults, line_field};
ghost use Rattle.dt_fields.specs.SetLines.{begins_set, line_set, set_line_faults};
ghost use Rattle.dt_fields.specs.SoundFields.{IsSoundField};
ghost use Rattle.dt_fields.specs.SoundSets.{IsSoundSet};
ghost use Rattle.dt_fields.specs.Tables.{FieldTable};
ghost use Rattle.dt_values.specs.declared.set.SetDef.{SetDef};

/// A field line that breaks no rule defines a sound field. It names it by a name, and by no earlier field's.
pub fn law_unbroken_field_is_sound()
    ensures sound { (width : ℕ) (fields : FieldTable) (tokens : List (List ℕ)) → IsTrue (begins_field tokens)
        → field_line_faults width fields tokens ≡ [] → IsSoundField width (line_field tokens).1 }
    ensures named { (tokens : List (List ℕ)) → IsTrue (begins_field tokens) → IsName (line_field tokens).0 }
    ensures new { (width : ℕ) (fields : FieldTable) (tokens : List (List ℕ)) → IsTrue (begins_field tokens)
        → field_line_faults width fields tokens ≡ [] → All (λ f. f.0 ≢ (line_field tokens).0) fields }
{}

/// A set line that breaks no rule defines a sound set. Its name is no earlier set's and no earlier pattern's.
pub fn law_unbroken_set_is_sound()
    ensures sound { (sets : List SetDef) (patterns tokens : List (List ℕ)) → IsTrue (begins_set tokens)
        → set_line_faults sets patterns tokens ≡ [] → IsSoundSet (line_set tokens) }
    ensures new { (sets : List SetDef) (patterns tokens : List (List ℕ)) → IsTrue (begins_set tokens)
        → set_line_faults sets patterns tokens ≡ [] → All (λ s. s.name ≢ (line_set tokens).name) sets }
    ensures no_pattern { (sets : List SetDef) (patterns tokens : List (List ℕ)) → IsTrue (begins_set tokens)
        → set_line_faults sets patterns tokens ≡ [] → All (λ p. p ≢ (line_set tokens).name) patterns }
{}
