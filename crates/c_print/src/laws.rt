//! Laws of printed programs: public functions that do nothing, whose contracts are the laws.

ghost use Rattle.std.specs.Prelude.{◌≡◌, ℕ, List, Option, Some};
ghost use Rattle.dt_values.specs.declared.width.Width.{Width};
ghost use Rattle.c_tokens.specs.Tokens.{tokens_of};
ghost use Rattle.c_exprs.specs.Exprs.{Term};
ghost use Rattle.c_exprs.specs.Forms.{ArgumentNamed, HasNames};
ghost use Rattle.c_exprs.specs.Spelling.{assign_spelled};
ghost use Rattle.c_subset.specs.Keeps.{KeepsRules};
ghost use Rattle.c_subset.specs.Programs.{Program};
ghost use Rattle.c_subset.specs.Spells.{Spells};
ghost use Rattle.c_print.specs.Examples.{AssignmentExamples, TextExamples};
ghost use Rattle.c_print.specs.ExprLayout.{assign_line};
ghost use Rattle.c_print.specs.Marked.{Block, erase, MarksFit};
ghost use Rattle.c_print.specs.Printed.{text_of};

/// The text of a program that keeps the rules spells it, whatever marks stand before its statements.
pub fn law_text_spells()
    ensures { (p : Program) (body : Block) → KeepsRules p → erase body ≡ p.body → MarksFit body
        → Spells (text_of p body) p }
{}

/// The line of an assignment has the tokens that spell it.
pub fn law_assignment_is_spelled()
    ensures { (w : Width) (level : ℕ) (set : Option (List ℕ)) (argument : List ℕ) (e : Term) → HasNames e
        → ArgumentNamed set argument
        → tokens_of (assign_line w level set argument e) ≡ Some (assign_spelled w set argument e) }
{}

/// Texts that are written out.
pub fn examples()
    ensures texts { TextExamples }
    ensures assignments { AssignmentExamples }
{}
