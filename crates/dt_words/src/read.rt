//! From words to a command.

ghost use Rattle.std.specs.Prelude.{◌≡◌, ◌+◌, ◌≤◌, [], Some, Ok, map, length, is_none, IfOk};
ghost use Rattle.dt_model.specs.Options.{IsOptionName, IsOptions};
ghost use Rattle.dt_words.specs.Commands as meant;
ghost use Rattle.dt_words.specs.Operands.{operands};
ghost use Rattle.dt_words.specs.Numbers.{number_of};
ghost use Rattle.dt_words.specs.Rows.{least_operands, operands_of};
ghost use Rattle.dt_words.specs.Scripts as scripts;
ghost use Rattle.dt_words.specs.Settings.{text_of};
ghost use Rattle.dt_words.specs.Values as values;
ghost use Rattle.dt_words.specs.View.{Answers, IsWithin, role_seen, setting_seen, texts, value_seen};

use crate::command::{AnswerList, Command, OutcomeList, Text, TextList};
use crate::faults::first_fault;
use crate::names::option_name;
use crate::numbers::number_of;
use crate::operands::{copy_of, operand_at, operand_place, operands};
use crate::roles::{Role, roles_of};
use crate::rows::{Verb, least_operands, options_of, verb_of};
use crate::script::{no_items, script_of};
use crate::settings::{is_set, last_setting, last_value};
use crate::usage::Usage;
use crate::values::width_of;
use dt_model::Options;
use dt_values::{Name, Width};
use std::alloc::{AllocError, Global};

/// Why the words are no command.
#[derive(Clone, Copy, PartialEq, Eq)]
pub enum WordFault {
    /// What is wrong, and the place of the faulty word among all words, from 0. There is none where a word is missing.
    Bad(Usage, Option<usize>),
    NoMemory,
}

impl From<AllocError> for WordFault {
    ghost use Rattle.dt_words.specs.declared.read.WordFault.TheVariants.{NoMemory};

    ghost from_gives = { λ _ fault. fault ≡ NoMemory };

    fn from(_: AllocError) -> WordFault {
        WordFault::NoMemory
    }
}

/// The command that the words are. The program's own name isn't among them.
pub fn read_words(alloc: Global, words: &[String]) -> Result<Command, WordFault>
    ensures answer { Answers result (meant.command_of (texts words.now)) }
    ensures within { IsWithin (length words.now) result }
    ensures kept { IfOk result meant.IsCommand }
    ensures placed { IfOk result (meant.IsPlaced (texts words.now)) }
{
    let Some((name, words)) = words.split_first() else {
        return Err(WordFault::Bad(Usage::U1, None));
    };
    match verb_of(name.as_str()) {
        Some(verb) => command_with(alloc, verb, words),
        None => Err(WordFault::Bad(Usage::U1, Some(0))),
    }
}

// The command with these words behind its name.
#[tactic(auto, using(crate::proofs::FewOperands::few_operands))]
fn command_with(alloc: Global, verb: Verb, words: &[String]) -> Result<Command, WordFault>
    ensures answer { Answers result (meant.command_with (Some verb) (texts words.now)) }
    ensures within { IsWithin (length words.now + 1) result }
    ensures kept { IfOk result meant.IsCommand }
{
    let roles = roles_of(alloc, options_of(verb), words)?;
    if let Some((usage, place)) = first_fault(verb, roles.as_slice()) {
        return Err(WordFault::Bad(usage, Some(place)));
    }
    unless_missing(alloc, verb, roles.as_slice())
}

// The command, if no operand is missing.
fn unless_missing(alloc: Global, verb: Verb, roles: &[Role<'_>]) -> Result<Command, WordFault>
    requires few { length (operands (map role_seen roles.now)) ≤ length (operands_of verb) }
    ensures answer { Answers result (meant.unless_missing verb (map role_seen roles.now)) }
    ensures within { IsWithin (length roles.now + 1) result }
    ensures kept { IfOk result meant.IsCommand }
{
    let operands = operands(alloc, roles)?;
    if operands.len() < least_operands(verb) {
        return Err(WordFault::Bad(Usage::U6, None));
    }
    match command_from(alloc, verb, roles, operands) {
        Ok(command) => Ok(command),
        Err(_) => Err(WordFault::NoMemory),
    }
}

fn command_from(
    alloc: Global,
    verb: Verb,
    roles: &[Role<'_>],
    given: Vec<Text>,
) -> Result<Command, AllocError>
    requires given { given.items ≡ operands (map role_seen roles.now) }
    requires some { least_operands verb ≤ length (operands (map role_seen roles.now)) }
    requires few { length (operands (map role_seen roles.now)) ≤ length (operands_of verb) }
    ensures command { IfOk result (λ command. command ≡ meant.command_from verb (map role_seen roles.now)) }
    ensures kept { IfOk result meant.IsCommand }
    ensures within { IfOk result (λ command. IsWithin (length roles.now + 1) (Ok command)) }
{
    match verb {
        Verb::Gen => Ok(Command::Gen {
            options: options_from(roles),
            output: copy_of_value(alloc, last_value(roles, "--output"))?,
            files: TextList::of(given),
            test: is_set(roles, "--test-for-error"),
        }),
        Verb::Eval => eval_from(alloc, roles, given.as_slice()),
    }
}

fn eval_from(alloc: Global, roles: &[Role<'_>], given: &[Text]) -> Result<Command, AllocError>
    requires given { given.now ≡ operands (map role_seen roles.now) }
    ensures command { IfOk result (λ command. command ≡ meant.command_from Verb.Eval (map role_seen roles.now)) }
    ensures kept { IfOk result meant.IsCommand }
    ensures within { IfOk result (λ command. IsWithin (length roles.now + 1) (Ok command)) }
{
    let text = copy_of(alloc, operand_at(given, 0))?;
    let word = word_of(operand_at(given, 1));
    let (outcomes, answers) = lists_of(alloc, operand_at(given, 2))?;
    Ok(Command::Eval {
        text,
        word,
        word_place: operand_place(roles, 1),
        outcomes,
        answers,
    })
}

fn word_of(text: &str) -> u64
    ensures { result ≡ meant.or_default number_of 0 (Some text.now) }
{
    number_of(text.as_bytes()).unwrap_or(0)
}

fn lists_of(alloc: Global, text: &str) -> Result<(OutcomeList, AnswerList), AllocError>
    ensures { IfOk result (λ lists. lists ≡ scripts.lists_of (meant.or_default scripts.script_of [] (Some text.now))) }
{
    match script_of(alloc, text)? {
        Some(lists) => Ok(lists),
        None => Ok(no_items(alloc)),
    }
}

// What the words say of the decoder.
fn options_from(roles: &[Role<'_>]) -> Options
    ensures value { result ≡ meant.options_from (map role_seen roles.now) }
    ensures kept { IsOptions result }
{
    let default = Options::default();
    let decode = last_setting(roles, "--static-decode", "--decode");
    let translate = last_value(roles, "--translate");
    Options {
        width: width_or(default.width, last_value(roles, "--insnwidth")),
        variable: false,
        decode: name_or(default.decode, text_of(decode)),
        decode_static: is_first(decode),
        translate: name_or(default.translate, translate),
        translate_static: is_absent(translate),
    }
}

fn width_or(default: Width, text: Option<&str>) -> Width
    ensures { result ≡ meant.or_default values.width_of default (value_seen text.entry) }
{
    match text {
        Some(text) => match width_of(text) {
            Some(width) => width,
            None => default,
        },
        None => default,
    }
}

fn name_or(default: Name, text: Option<&str>) -> Name
    requires { IsOptionName default }
    ensures value { result ≡ meant.or_default values.option_name default (value_seen text.entry) }
    ensures kept { IsOptionName result }
{
    match text {
        Some(text) => match option_name(text.as_bytes()) {
            Some(name) => name,
            None => default,
        },
        None => default,
    }
}

fn text_of<'a>(setting: Option<(bool, &'a str)>) -> Option<&'a str>
    ensures { value_seen result ≡ text_of (setting_seen setting.entry) }
{
    match setting {
        Some((_, text)) => Some(text),
        None => None,
    }
}

// Whether the last of two options is the first of them; so where there is none.
fn is_first(setting: Option<(bool, &str)>) -> bool
    ensures { result ≡ meant.is_first (setting_seen setting.entry) }
{
    match setting {
        Some((first, _)) => first,
        None => true,
    }
}

fn is_absent(text: Option<&str>) -> bool
    ensures { result ≡ is_none (value_seen text.entry) }
{
    match text {
        Some(_) => false,
        None => true,
    }
}

fn copy_of_value(alloc: Global, text: Option<&str>) -> Result<Option<Text>, AllocError>
    ensures { IfOk result (λ copy. copy ≡ value_seen text.entry) }
{
    match text {
        Some(text) => Ok(Some(copy_of(alloc, text)?)),
        None => Ok(None),
    }
}
