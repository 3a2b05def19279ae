//! Laws of the C subset's texts. Each function does nothing: its contract is the law.

ghost use Rattle.std.specs.Prelude.{◌≡◌, ℕ, List};
ghost use Rattle.c_subset.specs.Programs.{Program};
ghost use Rattle.c_subset.specs.Readings.{Reading, IsReading};
ghost use Rattle.c_subset.specs.Spells.{Spells};
ghost use Rattle.c_subset.specs.Examples.{Nop, Empty, Arguments, Branch, Assigned, Placed};

/// A text spells one program at most.
pub fn law_text_spells_one()
    ensures { (text : List ℕ) (p q : Program) → Spells text p → Spells text q → p ≡ q }
{}

/// Each text is exactly one of three things: too deep, no text of the subset, or the text of one program.
pub fn law_one_reading()
    ensures one { (text : List ℕ) (a b : Reading) → IsReading text a → IsReading text b → a ≡ b }
    ensures some { (text : List ℕ) → (reading : Reading) × IsReading text reading }
{}

/// Texts with their programs.
pub fn examples()
    ensures empty { Empty }
    ensures nop { Nop }
    ensures arguments { Arguments }
    ensures branch { Branch }
    ensures assigned { Assigned }
    ensures placed { Placed }
{}
