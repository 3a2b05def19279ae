//! Scripts: the outcomes of calls and the answers of functions that a word gives.

ghost use Rattle.std.specs.Prelude.{◌≡◌, ◌-◌, ◌^◌, ◌≤◌, ◌∷◌, [], IfOk, IfSome, MatchOption, is_some, map, option_map, pos};
ghost use Rattle.std.specs.List.{slice_split};
ghost use Rattle.dt_words.specs.Scripts as meant;

use crate::command::{AnswerList, OutcomeList};
use crate::numbers::{number_in, number_of};
use dt_host::Answer;
use dt_values::Name;
use std::alloc::{AllocError, Global};

/// An item of a script.
#[derive(Clone, Copy)]
pub enum Item {
    /// The outcome of a call.
    Outcome(bool),
    Answer(Answer),
}

/// Whether the text is a script.
pub fn is_script(text: &str) -> bool
    ensures { result ≡ is_some (meant.script_of text.now) }
{
    text == "-" || text.split(',').all(|item| item_of(item).is_some())
}

/// The outcomes and the answers of the script that the text is.
pub fn script_of(alloc: Global, text: &str) -> Result<Option<(OutcomeList, AnswerList)>, AllocError>
    ensures { IfOk result (λ lists. lists ≡ option_map meant.lists_of (meant.script_of text.now)) }
{
    if text == "-" {
        return Ok(Some(no_items(alloc)));
    }
    let items = item_texts(alloc, text)?;
    lists_of(alloc, items.as_slice())
}

/// The lists of the script that has no items.
pub fn no_items(alloc: Global) -> (OutcomeList, AnswerList)
    ensures { result ≡ meant.lists_of [] }
{
    (
        OutcomeList::of(Vec::new(alloc)),
        AnswerList::of(Vec::new(alloc)),
    )
}

fn item_texts(alloc: Global, text: &str) -> Result<Vec<&str>, AllocError>
    ensures { IfOk result (λ items. map (λ item. item.now) items.items ≡ meant.item_texts text.now) }
{
    text.split(',').collect(alloc)
}

fn lists_of(alloc: Global, texts: &[&str]) -> Result<Option<(OutcomeList, AnswerList)>, AllocError>
    ensures { IfOk result (λ lists. lists
        ≡ option_map meant.lists_of (meant.all_read (map meant.item_of (map (λ text. text.now) texts.now)))) }
{
    let (mut outcomes, mut answers) = no_items(alloc);
    for text in texts {
        match item_of(text) {
            Some(Item::Outcome(outcome)) => outcomes.push(outcome)?,
            Some(Item::Answer(answer)) => answers.push(answer)?,
            None => return Ok(None),
        }
    }
    Ok(Some((outcomes, answers)))
}

fn item_of(text: &str) -> Option<Item>
    ensures { result ≡ meant.item_of text.now }
{
    match text {
        "t" => Some(Item::Outcome(true)),
        "f" => Some(Item::Outcome(false)),
        _ => answer_item(text),
    }
}

fn answer_item(text: &str) -> Option<Item>
    ensures { result ≡ option_map Item.Answer (meant.answer_of text.now) }
{
    match answer_of(text) {
        Some(answer) => Some(Item::Answer(answer)),
        None => None,
    }
}

// An answer has four parts between colons.
fn answer_of(text: &str) -> Option<Answer>
    ensures { result ≡ meant.answer_of text.now }
{
    let (calls, rest) = first_part(text)?;
    let (function, rest) = first_part(rest)?;
    let (arg, answer) = first_part(rest)?;
    if first_part(answer).is_some() {
        return None;
    }
    answer_from(
        number_of(calls.as_bytes()),
        Name::from_bytes(function.as_bytes()),
        argument_of(arg),
        integer_of(answer),
    )
}

fn answer_from(
    calls: Option<u64>,
    function: Option<Name>,
    arg: Option<Option<i32>>,
    answer: Option<i32>,
) -> Option<Answer>
    ensures { result ≡ meant.answer_from calls function arg answer }
{
    match (calls, function, arg, answer) {
        (Some(calls), Some(function), Some(arg), Some(answer)) => Some(Answer {
            calls,
            function,
            arg,
            answer,
        }),
        _ => None,
    }
}

// What stands before the first colon and behind it.
fn first_part(text: &str) -> Option<(&str, &str)>
    ensures { MatchOption result (slice_split meant.is_colon text.now ≡ text.now ∷ [])
        (λ parts. slice_split meant.is_colon text.now ≡ parts.0.now ∷ slice_split meant.is_colon parts.1.now) }
{
    text.split_once(':')
}

// What a function is asked with. A dash stands for no argument.
fn argument_of(text: &str) -> Option<Option<i32>>
    ensures { result ≡ meant.argument_of text.now }
{
    if text == "-" {
        return Some(None);
    }
    match integer_of(text) {
        Some(integer) => Some(Some(integer)),
        None => None,
    }
}

fn integer_of(text: &str) -> Option<i32>
    ensures { result ≡ meant.integer_of text.now }
{
    match text.as_bytes().strip_prefix(b"-") {
        Some(digits) => negative(digits),
        None => positive(text.as_bytes()),
    }
}

fn negative(digits: &[u8]) -> Option<i32>
    ensures { result ≡ option_map meant.negative (meant.decimal_up_to (2 ^ 31) digits.now) }
{
    match decimal_up_to(1 << 31, digits) {
        Some(number) => Some(-(number as i64) as i32),
        None => None,
    }
}

fn positive(digits: &[u8]) -> Option<i32>
    ensures { result ≡ option_map pos (meant.decimal_up_to (2 ^ 31 - 1) digits.now) }
{
    match decimal_up_to((1 << 31) - 1, digits) {
        Some(number) => Some(number as i32),
        None => None,
    }
}

fn decimal_up_to(most: u64, digits: &[u8]) -> Option<u64>
    ensures value { result ≡ meant.decimal_up_to most digits.now }
    ensures bound { IfSome result (λ number. number ≤ most) }
{
    match number_in(10, digits) {
        Some(number) if number <= most => Some(number),
        _ => None,
    }
}
