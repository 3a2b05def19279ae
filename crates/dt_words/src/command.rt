//! What the words ask for.

use dt_host::Answer;
use dt_model::Options;
use dt_values::Items;
use std::marker::Model;

/// A text. Contracts see the list of its bytes.
#[derive(Drop)]
pub struct Text {
    text: String,
}

impl Model for Text {
    ghost use Rattle.std.specs.Prelude.{ℕ, List};
    ghost use Rattle.std.specs.String.{string_bytes};

    ghost Value = { List ℕ };

    ghost view = { λ text. string_bytes text.text };
}

impl Text {
    ghost use Rattle.std.specs.Prelude.{◌≡◌};
    ghost use Rattle.std.specs.String.{string_bytes};

    /// This text.
    pub fn of(text: String) -> Text
        ensures { result ≡ string_bytes text }
    {
        Text { text }
    }

    /// The text's bytes.
    pub fn items(&self) -> &[u8]
        ensures { result.now ≡ self.now }
    {
        self.text.as_bytes()
    }

    /// The text.
    pub fn as_str(&self) -> &str
        ensures { result.now ≡ self.now }
    {
        self.text.as_str()
    }
}

/// Texts in order.
pub type TextList = Items<Text>;

/// Outcomes of calls in order.
pub type OutcomeList = Items<bool>;

/// Answers of functions in order: of two that fit the first one counts.
pub type AnswerList = Items<Answer>;

/// What the words ask for.
#[derive(Drop)]
pub enum Command {
    /// The C text of 1 to `MOST_FILES` pattern files, for the standard output or a file of the name `output`. Under
    /// `test` the statuses of success and of a refusal change places.
    Gen {
        options: Options,
        output: Option<Text>,
        files: TextList,
        test: bool,
    },
    /// What a C text does with a word, where calls have these outcomes and functions give these answers. `word_place`
    /// is the place of the word among all words; the command's name has the place 0.
    Eval {
        text: Text,
        word: u64,
        word_place: usize,
        outcomes: OutcomeList,
        answers: AnswerList,
    },
}
