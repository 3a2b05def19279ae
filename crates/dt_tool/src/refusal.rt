//! What the program refuses beside the rules of pattern files, with its texts.

ghost use Rattle.std.specs.Prelude.{◌≡◌};

/// The refusals of files, C texts and words, by their codes: K of files, C of C texts and E of what `eval` is asked for.
/// Each says when it comes.
#[derive(Clone, Copy)]
pub enum Refusal {
    /// A file has more bytes than it may have. The detail is its name.
    K0,
    /// A C text isn't in the subset.
    C1,
    /// The braces of a C text nest too deep.
    C2,
    /// A word has more bits than the words of the C text. The detail is the word as it was given.
    E1,
    /// A C text doesn't declare the set of a pattern. The detail is the set's name.
    E2,
}

impl Refusal {
    ghost use Rattle.dt_tool.specs.RefusalTexts.{refusal_text};

    /// The code of the refusal with its text, as a message shows them.
    pub fn text(self) -> &'static str
        ensures { result.now ≡ refusal_text self }
    {
        match self {
            Refusal::K0 => "K0 file too large",
            Refusal::C1 => "C1 not in the subset",
            Refusal::C2 => "C2 too deep",
            Refusal::E1 => "E1 word too wide",
            Refusal::E2 => "E2 undeclared set",
        }
    }
}
