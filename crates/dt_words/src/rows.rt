//! The commands: their options and operands.

ghost use Rattle.std.specs.Prelude.{◌≡◌, map};
ghost use Rattle.dt_words.specs.Rows.{least_operands, operands_of, options_of, verb_of};
ghost use Rattle.dt_words.specs.View.{row_seen};

use dt_model::MOST_FILES;

/// A command by its name.
#[derive(Clone, Copy)]
pub enum Verb {
    Gen,
    Eval,
}

/// What a word must be that is an operand or an option's value.
#[derive(Clone, Copy)]
pub enum ValueKind {
    /// There is no value: the option stands for itself.
    Flag,
    /// Any text, as a file's name.
    Text,
    /// A name for the C text.
    Name,
    /// A width of instruction words.
    Width,
    /// A number below 2^64.
    Number,
    /// Outcomes of calls and answers of functions.
    Script,
}

/// An option of a command: its long name, its short one (empty where it has none), and what its value must be.
#[derive(Clone, Copy)]
pub struct Row {
    pub name: &'static str,
    pub short: &'static str,
    pub kind: ValueKind,
}

const GEN: [Row; 6] = [
    Row {
        name: "--translate",
        short: "",
        kind: ValueKind::Name,
    },
    Row {
        name: "--decode",
        short: "",
        kind: ValueKind::Name,
    },
    Row {
        name: "--static-decode",
        short: "",
        kind: ValueKind::Name,
    },
    Row {
        name: "--insnwidth",
        short: "-w",
        kind: ValueKind::Width,
    },
    Row {
        name: "--output",
        short: "-o",
        kind: ValueKind::Text,
    },
    Row {
        name: "--test-for-error",
        short: "",
        kind: ValueKind::Flag,
    },
];

const EVAL: &[Row] = &[];

const FILES: [ValueKind; MOST_FILES] = [ValueKind::Text; MOST_FILES];

const TEXT_WORD_SCRIPT: [ValueKind; 3] = [ValueKind::Text, ValueKind::Number, ValueKind::Script];

/// The command of this name.
pub fn verb_of(name: &str) -> Option<Verb>
    ensures { result ≡ verb_of name.now }
{
    match name {
        "gen" => Some(Verb::Gen),
        "eval" => Some(Verb::Eval),
        _ => None,
    }
}

/// The options of a command.
pub fn options_of(verb: Verb) -> &'static [Row]
    ensures { map row_seen result.now ≡ options_of verb }
{
    match verb {
        Verb::Gen => GEN.as_slice(),
        Verb::Eval => EVAL,
    }
}

/// What each operand of a command must be, for as many as it takes.
pub fn operands_of(verb: Verb) -> &'static [ValueKind]
    ensures { result.now ≡ operands_of verb }
{
    match verb {
        Verb::Gen => FILES.as_slice(),
        Verb::Eval => TEXT_WORD_SCRIPT.as_slice(),
    }
}

/// How many operands a command takes at least.
pub fn least_operands(verb: Verb) -> usize
    ensures { result ≡ least_operands verb }
{
    match verb {
        Verb::Gen => 1,
        Verb::Eval => 3,
    }
}
