//! What the commands are asked for.

use dt_host::Answer;
use dt_model::Options;
use dt_words::Text;

/// What `gen` is asked for: with these options, of these pattern files, for standard output or the file of this name.
#[derive(Clone, Copy)]
pub struct Request<'a> {
    pub options: &'a Options,
    pub output: &'a Option<Text>,
    pub files: &'a [Text],
}

/// What `eval` is asked for: the run of the text in a file at a word, as it was given, with a script.
#[derive(Clone, Copy)]
pub struct Evaluation<'a> {
    /// The name of the file that holds the text.
    pub text: &'a Text,
    pub word: u64,
    pub given: &'a str,
    pub outcomes: &'a [bool],
    pub answers: &'a [Answer],
}
