//! Laws of files and their flat lists: public functions whose contracts are the laws, and whose bodies are empty.

ghost use Rattle.std.specs.Prelude.{◌≡◌, ◌<◌, ◌≤◌, ◌^◌, ℕ, List, None, Some, true, length, get_or, All};
ghost use Rattle.dt_values.specs.Widths.{width_bits};
ghost use Rattle.dt_model.specs.declared.options.Options.{Options};
ghost use Rattle.dt_model.specs.declared.limits.TheConstants.{MOST_FILES};
ghost use Rattle.dt_forms.specs.FileFaults.{HaveNoFileFault, file_fault, first_broken};
ghost use Rattle.dt_forms.specs.Models.{IsModelOf, entries_in_files, flat_list, marks_in_files};
ghost use Rattle.dt_model.specs.Trees.{items_of};
ghost use Rattle.dt_model.specs.declared.model.Model.{Model};
ghost use Rattle.dt_model.specs.Options.{IsOptionName};
ghost use Rattle.dt_model.specs.Patterns.{position_of};
ghost use Rattle.dt_forms.specs.Positions.{OpensWith, first_token_at};
ghost use Rattle.dt_forms.specs.Rules.{Fault, first_fault};
ghost use Rattle.dt_model.specs.Sound.{IsSoundPattern};

/// Each pattern of the flat list of files that break no rule of lines is sound.
pub fn law_flat_list_is_sound()
    ensures { (options : Options) (texts : List (List ℕ)) → IsOptionName options.decode → length texts ≤ MOST_FILES
        → All (λ t. length t < 2 ^ 32) texts → first_fault options texts ≡ None
        → All (IsSoundPattern (width_bits options.width)) (flat_list options texts) }
{}

/// The first token at the position of a pattern of the flat list is the pattern's name.
pub fn law_first_token_is_the_name()
    ensures { (options : Options) (texts : List (List ℕ))
        → All (λ p. first_token_at texts (position_of p) ≡ p.name) (flat_list options texts) }
{}

/// The first token at the position of a group is what opens it.
pub fn law_first_token_opens_the_group()
    ensures { (options : Options) (texts : List (List ℕ)) → All (OpensWith texts) (marks_in_files options texts) }
{}

/// Where no file has too many lines or a long name, files break first what their lines do; else what the first such
/// file does.
pub fn law_first_broken()
    ensures lines { (options : Options) (texts : List (List ℕ)) → HaveNoFileFault texts
        → first_broken options texts ≡ first_fault options texts }
    ensures file { (options : Options) (place : ℕ) (texts : List (List ℕ)) (text : List ℕ) (fault : Fault)
        → ((earlier : ℕ) → earlier < place → file_fault earlier (get_or texts earlier text) ≡ None)
        → place < length texts → file_fault place (get_or texts place text) ≡ Some fault
        → first_broken options texts ≡ Some fault }
{}

/// The entries of a model of files are those of the files.
pub fn law_model_entries()
    ensures { (options : Options) (texts : List (List ℕ)) (model : Model) → IsModelOf options texts model
        → items_of model.entries ≡ entries_in_files options texts }
{}
