//! Laws of the expressions of fields: public functions whose contracts are the laws, and whose bodies are empty.

ghost use Rattle.std.specs.Prelude.{◌≡◌, ℕ, ℤ, ◌<◌, ◌^◌, List, Option, Some, is_some};
ghost use Rattle.dt_values.specs.Widths.{width_bits};
ghost use Rattle.dt_values.specs.declared.width.Width.{Width};
ghost use Rattle.dt_fields.specs.SoundFields.{IsSoundField};
ghost use Rattle.dt_fields.specs.declared.field.FieldDef.{FieldDef};
ghost use Rattle.dt_model.specs.declared.value.FieldValue.{FieldValue};
ghost use Rattle.c_exprs.specs.Forms.{StandsIn, TermKeeps};
ghost use Rattle.dt_match.specs.Arguments.{value_of};
ghost use Rattle.dt_match.specs.FieldValues.{field_value};
ghost use Rattle.c_eval.specs.Meaning.{Place, helper_bits, value_at};
ghost use Rattle.c_fields.specs.Examples.{LineExamples, TermExamples, ValueExamples};
ghost use Rattle.c_fields.specs.Values.{AreNamed, HasRoom, KeepsValueRules, IsValueNamed, ShowsValue};
ghost use Rattle.c_fields.specs.Written.{Shows, field_term, value_term};

/// The expression of a sound field has the field's value on each word, and is never stuck. The same of all values.
pub fn law_field_expression()
    ensures field { (w : Width) (set : Option (List ℕ)) (field : FieldDef) (held : List ℕ → ℤ) (at : Place)
        → IsSoundField (width_bits w) field → at.bits ≡ helper_bits w → at.word < 2 ^ width_bits w
        → Shows set at held field.segments
        → value_at at (field_term (helper_bits w) set field) ≡ Some (field_value at.answer held at.word field) }
    ensures value { (w : Width) (set : Option (List ℕ)) (value : FieldValue) (held : List ℕ → ℤ) (at : Place)
        → KeepsValueRules (width_bits w) value → at.bits ≡ helper_bits w → at.word < 2 ^ width_bits w
        → ShowsValue set at held value
        → value_at at (value_term (helper_bits w) set value) ≡ Some (value_of at.answer held at.word value) }
{}

/// The expression of a sound field keeps the rules of the C subset, where what it names are names. The same of all
/// values. The arguments in it are named with the set where there is one, as in the decoder, and else alone, as in an
/// extraction.
pub fn law_expression_keeps_rules()
    ensures field { (w : Width) (set : Option (List ℕ)) (field : FieldDef) → IsSoundField (width_bits w) field
        → AreNamed set field.segments → TermKeeps (field_term (helper_bits w) set field) }
    ensures value { (w : Width) (set : Option (List ℕ)) (value : FieldValue) → KeepsValueRules (width_bits w) value
        → IsValueNamed set value → TermKeeps (value_term (helper_bits w) set value) }
    ensures field_place { (n : ℕ) (set : Option (List ℕ)) (field : FieldDef)
        → StandsIn (is_some set) (field_term n set field) }
    ensures value_place { (n : ℕ) (set : Option (List ℕ)) (value : FieldValue)
        → StandsIn (is_some set) (value_term n set value) }
{}

/// A sound value has room in the helpers of its width, so that its line can be written.
pub fn law_sound_value_has_room()
    ensures { (w : Width) (value : FieldValue) → KeepsValueRules (width_bits w) value
        → HasRoom (helper_bits w) value }
{}

/// Fields with their expressions, their values and their lines.
pub fn examples()
    ensures terms { TermExamples }
    ensures values { ValueExamples }
    ensures lines { LineExamples }
{}
