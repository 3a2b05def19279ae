//! A law of verdicts: a public function whose contract is the law, and whose body is empty.

ghost use Rattle.std.specs.Prelude.{◌≡◌, ℕ, List};
ghost use Rattle.dt_model.specs.declared.options.Options.{Options};
ghost use Rattle.dt_verdict.specs.Verdicts.{Verdict, IsVerdict};

/// Files have exactly one verdict.
pub fn law_one_verdict()
    ensures one { (options : Options) (texts : List (List ℕ)) (one other : Verdict) → IsVerdict options texts one
        → IsVerdict options texts other → one ≡ other }
    ensures some { (options : Options) (texts : List (List ℕ)) → (verdict : Verdict) × IsVerdict options texts verdict }
{}
