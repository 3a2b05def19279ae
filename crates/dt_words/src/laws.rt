//! Laws of words, and examples: public functions whose contracts are the laws, and whose bodies are empty.

ghost use Rattle.std.specs.Prelude.{◌≡◌, ◌≤◌, ℕ, List, [], ◌∷◌, ◌++◌, Ok, Err, Some, None, true, false, pos, negsuc, codes, length};
ghost use Rattle.std.specs.Option.{option_or};
ghost use Rattle.dt_model.specs.Options.{default_options};
ghost use Rattle.dt_words.specs.Commands.{command_of};
ghost use Rattle.dt_words.specs.Roles.{Role};
ghost use Rattle.dt_words.specs.Settings.{last_setting, setting_in};
ghost use Rattle.dt_model.specs.declared.limits.TheConstants.{MOST_FILES};

use crate::command::Command;
use crate::usage::Usage;

/// Words behind `--` are files, whatever they look like.
#[tactic(auto, using(crate::proofs::OnlyOperands::files_behind_dashes))]
pub fn law_files_behind_dashes()
    ensures { (files : List (List ℕ)) → 1 ≤ length files → length files ≤ MOST_FILES
        → command_of (codes "gen" ∷ codes "--" ∷ files) ≡ Ok (Command.Gen default_options None files false) }
{}

/// The last word that sets an option, or one of two that say the same, decides; words before it hold where it is none.
#[tactic(auto, using(crate::proofs::LastSetting::last_word_first))]
pub fn law_last_word_decides()
    ensures { (name other : List ℕ) (roles : List Role) (role : Role)
        → last_setting name other (roles ++ role ∷ [])
        ≡ option_or (setting_in name other role) (last_setting name other roles) }
{}

/// Words that are no command, and why.
pub fn law_faulty_words()
    ensures no_words { command_of [] ≡ Err (Usage.U1, None) }
    ensures no_command { command_of (codes "make" ∷ []) ≡ Err (Usage.U1, Some 0) }
    ensures unknown { command_of (codes "gen" ∷ codes "--frob" ∷ codes "t" ∷ []) ≡ Err (Usage.U2, Some 1) }
    ensures flag_value { command_of (codes "gen" ∷ codes "--test-for-error=1" ∷ []) ≡ Err (Usage.U2, Some 1) }
    ensures no_value { command_of (codes "gen" ∷ codes "-o" ∷ []) ≡ Err (Usage.U3, Some 1) }
    ensures no_width { command_of (codes "gen" ∷ codes "-w" ∷ codes "t" ∷ []) ≡ Err (Usage.U4, Some 2) }
    ensures width { command_of (codes "gen" ∷ codes "-w" ∷ codes "24" ∷ []) ≡ Err (Usage.U5, Some 2) }
    ensures no_file { command_of (codes "gen" ∷ []) ≡ Err (Usage.U6, None) }
    ensures keyword { command_of (codes "gen" ∷ codes "--decode=int" ∷ []) ≡ Err (Usage.U8, Some 1) }
{}

/// Two ways to say the same.
pub fn law_same_commands()
    ensures operands_behind_dashes { command_of (codes "gen" ∷ codes "--" ∷ codes "--" ∷ codes "-w" ∷ [])
        ≡ command_of (codes "gen" ∷ codes "-w32" ∷ codes "--" ∷ codes "--" ∷ codes "-w" ∷ []) }
    ensures width { command_of (codes "gen" ∷ codes "-w16" ∷ codes "t" ∷ codes "--insnwidth=0x40" ∷ [])
        ≡ command_of (codes "gen" ∷ codes "t" ∷ codes "-w" ∷ codes "64" ∷ []) }
    ensures decoder { command_of (codes "gen" ∷ codes "--static-decode=a" ∷ codes "t" ∷ codes "--decode=b" ∷ [])
        ≡ command_of (codes "gen" ∷ codes "t" ∷ codes "--decode" ∷ codes "b" ∷ []) }
{}

/// Words of `eval`, and what they ask for.
pub fn law_eval_words()
    ensures no_items { command_of (codes "eval" ∷ codes "c" ∷ codes "0" ∷ codes "-" ∷ [])
        ≡ Ok (Command.Eval (codes "c") 0 2 [] []) }
    ensures outcomes { command_of (codes "eval" ∷ codes "-" ∷ codes "--" ∷ codes "0x1F" ∷ codes "t,f,t" ∷ [])
        ≡ Ok (Command.Eval (codes "-") 31 3 (true ∷ false ∷ true ∷ []) []) }
    ensures answers { command_of (codes "eval" ∷ codes "c" ∷ codes "0" ∷ codes "2:ex:-7:9,f,0:g:-:-1" ∷ [])
        ≡ Ok (Command.Eval (codes "c") 0 2 (false ∷ [])
        (record { calls = 2; function = codes "ex"; arg = Some (negsuc 6); answer = pos 9 }
        ∷ record { calls = 0; function = codes "g"; arg = None; answer = negsuc 0 }
        ∷ [])) }
{}

/// Words of `eval` that are no command, and why.
pub fn law_faulty_eval_words()
    ensures no_script { command_of (codes "eval" ∷ codes "c" ∷ codes "0" ∷ []) ≡ Err (Usage.U6, None) }
    ensures no_number { command_of (codes "eval" ∷ codes "c" ∷ codes "x" ∷ codes "-" ∷ []) ≡ Err (Usage.U4, Some 2) }
    ensures no_item { command_of (codes "eval" ∷ codes "c" ∷ codes "0" ∷ codes "t,,f" ∷ [])
        ≡ Err (Usage.U4, Some 3) }
    ensures too_many { command_of (codes "eval" ∷ codes "c" ∷ codes "0" ∷ codes "-" ∷ codes "d" ∷ [])
        ≡ Err (Usage.U7, Some 4) }
    ensures no_option { command_of (codes "eval" ∷ codes "-q" ∷ []) ≡ Err (Usage.U2, Some 1) }
{}
