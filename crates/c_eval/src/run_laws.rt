//! Laws of runs: public functions that do nothing, whose contracts are the laws.

ghost use Rattle.std.specs.Prelude.{◌≡◌, ◌≤◌, ℕ, List, [], length, map};
ghost use Rattle.dt_values.specs.declared.set.SetDef.{SetDef};
ghost use Rattle.c_subset.specs.Programs.{Program};
ghost use Rattle.c_subset.specs.Sites.{call_sites, statements_in};
ghost use Rattle.dt_host.specs.Hosts.{Host};
ghost use Rattle.dt_host.specs.Scripts.{kept_call, memory_host, plain_script, up_to_end};
ghost use Rattle.c_eval.specs.Runs.{run_of};
ghost use Rattle.c_eval.specs.ScriptRuns.{IsPlainRun};

use dt_host::Script;
use dt_host::script::law_script;

/// A run with a script, of any program, is that with the plain script of its lists, whose state is the number of calls:
/// the same calls, the same end and the same tests. A new script that has room for a call at each call site keeps every
/// call, in order.
pub fn law_script_run(script: &Script)
    ensures run { (program : Program) (outside : List SetDef) (word k : ℕ) → script.now.count ≡ up_to_end k
        → IsPlainRun script.now (run_of program outside memory_host word script.now)
        (run_of program outside (plain_script script.now) word k) }
    ensures kept { (program : Program) (outside : List SetDef) (word : ℕ) → script.now.calls ≡ []
        → script.now.count ≡ 0 → length (call_sites program.body) ≤ script.now.room
        → (run_of program outside memory_host word script.now).state.calls
        ≡ map kept_call (run_of program outside (plain_script script.now) word 0).calls }
{
    law_script(script);
}

/// No statement runs twice, whatever the host answers: a run makes at most one call for each call site, and at most one
/// test for each statement.
pub fn law_calls_within<S>()
    ensures calls { (program : Program) (outside : List SetDef) (host : Host S) (word : ℕ) (state : S)
        → length (run_of program outside host word state).calls ≤ length (call_sites program.body) }
    ensures tests { (program : Program) (outside : List SetDef) (host : Host S) (word : ℕ) (state : S)
        → (run_of program outside host word state).tests ≤ statements_in program.body }
{}
