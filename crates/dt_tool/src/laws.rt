//! Laws of the definitions: public functions whose contracts are the laws, and whose bodies are empty.

ghost use Rattle.std.specs.Prelude.{◌≡◌};
ghost use Rattle.dt_io.specs.Files.{Files};
ghost use Rattle.dt_tool.specs.Due.{Asked, gen_task};
ghost use Rattle.dt_tool.specs.Evaluations.{Evaluation, eval_task};
ghost use Rattle.dt_tool.specs.Tasks.{Due, IsDue};

/// Exactly one thing is due for what `gen` is asked for, over files.
pub fn law_one_due()
    ensures one { (asked : Asked) (files : Files) (one other : Due) → IsDue (gen_task asked) files one
        → IsDue (gen_task asked) files other → one ≡ other }
    ensures some { (asked : Asked) (files : Files) → (what : Due) × IsDue (gen_task asked) files what }
{}

/// Exactly one thing is due for what `eval` is asked for, over files.
pub fn law_one_evaluation_due()
    ensures one { (e : Evaluation) (files : Files) (one other : Due) → IsDue (eval_task e) files one
        → IsDue (eval_task e) files other → one ≡ other }
    ensures some { (e : Evaluation) (files : Files) → (what : Due) × IsDue (eval_task e) files what }
{}
