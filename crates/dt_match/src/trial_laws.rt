//! Laws of trials: public functions that do nothing, whose contracts are the laws.

ghost use Rattle.std.specs.Prelude.{◌≡◌, ℕ, List};
ghost use Rattle.dt_host.specs.Scripts.{memory_host, plain_script, up_to_end};
ghost use Rattle.dt_model.specs.Patterns.{TrialPattern};
ghost use Rattle.dt_match.specs.ScriptTrials.{IsPlainTrial};
ghost use Rattle.dt_match.specs.Trial.{trial_of};

use dt_host::Script;
use dt_host::script::law_script;

/// A trial with a script, of any patterns, is that with the plain script of its lists, whose state is the number of
/// calls.
pub fn law_script_trial(script: &Script)
    ensures { (ps : List TrialPattern) (word k : ℕ) → script.now.count ≡ up_to_end k
        → IsPlainTrial script.now (trial_of memory_host ps word script.now)
        (trial_of (plain_script script.now) ps word k) }
{
    law_script(script);
}
