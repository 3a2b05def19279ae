//! What can be wrong with a word.

ghost use Rattle.std.specs.Prelude.{◌≡◌};

/// What is wrong with the command words: the codes that are printed.
#[derive(Clone, Copy, PartialEq, Eq)]
pub enum Usage {
    /// There is no word, or the first is no command.
    U1,
    /// The command has no such option, or the option takes no value.
    U2,
    /// The words end where an option's value is due.
    U3,
    /// A number or a script can't be read.
    U4,
    /// A width is another number than 16, 32 and 64.
    U5,
    /// An operand is missing.
    U6,
    /// There is an operand too many.
    U7,
    /// A name can't stand in the C text.
    U8,
}

impl Usage {
    ghost use Rattle.dt_words.specs.PrintedWords.{usage_code};

    /// The code that is printed.
    pub fn code(self) -> &'static str
        ensures { result.now ≡ usage_code self }
    {
        match self {
            Usage::U1 => "U1",
            Usage::U2 => "U2",
            Usage::U3 => "U3",
            Usage::U4 => "U4",
            Usage::U5 => "U5",
            Usage::U6 => "U6",
            Usage::U7 => "U7",
            Usage::U8 => "U8",
        }
    }
}
