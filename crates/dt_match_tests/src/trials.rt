//! Trials by example: with scripts, and with a host that answers by the values that it was handed.

ghost use Rattle.dt_model.specs.Sound.{IsSound};

use crate::echo::Echo;
use crate::models::{NESTED, SHIFTS, SIZES, model, name};
use dt_host::{Answer, Call, Script};
use dt_match::{call_one, first_match, trial};
use dt_model::Model;
use dt_values::Width;
use std::alloc::Global;
use std::process::Abort;
use std::test::Fail;

// What is done with a script: a trial of a word, or the call of the pattern at a place on a word.
#[derive(Clone, Copy)]
enum Act {
    Trial(u64),
    One(usize, u64),
}

// The name of a pattern, and the values that it is called with.
type Handed<'a> = (&'a str, &'a [i128]);

// What is done; its outcome; how many calls the script has counted then, and which it has kept.
type Step<'a> = (Act, bool, u64, &'a [Handed<'a>]);

// A model, a script over it, and steps.
#[derive(Clone, Copy)]
struct Run<'a> {
    width: Width,
    text: &'a str,
    outcomes: &'a [bool],
    // After so many calls this function answers so to this number.
    answers: &'a [(u64, &'a str, i32, i32)],
    room: usize,
    steps: &'a [Step<'a>],
}

fn answers_of(alloc: Global, rows: &[(u64, &str, i32, i32)]) -> Result<Vec<Answer>, Fail> {
    let mut answers = Vec::new(alloc);
    for (calls, function, arg, answer) in rows {
        answers.push(Answer {
            calls: *calls,
            function: name(function.as_bytes())?,
            arg: Some(*arg),
            answer: *answer,
        })?;
    }
    Ok(answers)
}

// The outcome of a step. Nothing where there is no such pattern.
fn outcome_of(model: &Model, act: Act, script: &mut Script) -> Option<bool>
    requires { IsSound model.now }
{
    match act {
        Act::Trial(word) => Some(trial(model, word, script)),
        Act::One(place, word) => {
            if place >= model.patterns.items().len() {
                return None;
            }
            Some(call_one(model, place, word, script))
        }
    }
}

// Whether the values stand first, with zeros behind them.
fn are_items(items: &[i128; 32], values: &[i128]) -> bool {
    if values.len() > 32 {
        return false;
    }
    let (given, rest) = items.split_at(values.len());
    given == values && rest.iter().all(|item| *item == 0)
}

fn is_call(call: &Call, name: &[u8], values: &[i128]) -> bool {
    let is_named = call.name.bytes() == name && call.count as usize == values.len();
    is_named && are_items(&call.items, values)
}

fn are_calls(calls: &[Call], expected: &[Handed]) -> bool {
    let mut found = calls.iter();
    for (name, values) in expected {
        match found.next() {
            None => return false,
            Some(call) => {
                if !is_call(call, name.as_bytes(), values) {
                    return false;
                }
            }
        }
    }
    found.next().is_none()
}

fn script_of(alloc: Global, run: &Run) -> Result<Script, Fail> {
    let answers = answers_of(alloc, run.answers)?;
    let script = Script::new(alloc, run.outcomes, answers.as_slice(), run.room)?;
    Ok(script)
}

fn check_steps(rt: &impl Abort, model: &Model, script: &mut Script, steps: &[Step])
    requires { IsSound model.now }
{
    for (act, outcome, count, calls) in steps {
        assert!(rt;
            outcome_of(model, *act, script) == Some(*outcome),
            "{count} calls"
        );
        assert!(rt; script.count() == *count, "{count} calls");
        assert!(rt; are_calls(script.calls(), calls), "{count} calls");
    }
}

fn check_run(rt: &(impl Abort + AllocGlobal), run: &Run) -> Result<(), Fail> {
    let model = model(rt.alloc(), run.width, run.text)?;
    let mut script = script_of(rt.alloc(), run)?;
    check_steps(rt, &model, &mut script, run.steps);
    Ok(())
}

#[test]
fn false_goes_on_to_the_next_pattern(rt: HostRuntime) -> Result<(), Fail> {
    let calls: &[Handed] = &[("nop", &[]), ("copy", &[3, 0]), ("or", &[0, 3, 0, 0])];
    let run = Run {
        width: Width::W32,
        text: SHIFTS,
        outcomes: &[false, false, true],
        answers: &[],
        room: 4,
        steps: &[(Act::Trial(0x0803_0240), true, 3, calls)],
    };
    check_run(&rt, &run)
}

#[test]
fn true_ends_the_trial(rt: HostRuntime) -> Result<(), Fail> {
    let run = Run {
        width: Width::W32,
        text: SHIFTS,
        outcomes: &[true],
        answers: &[],
        room: 4,
        steps: &[(Act::Trial(0x0803_0240), true, 1, &[("nop", &[])])],
    };
    check_run(&rt, &run)
}

#[test]
fn a_script_keeps_its_first_calls(rt: HostRuntime) -> Result<(), Fail> {
    let calls: &[Handed] = &[("y", &[])];
    let run = Run {
        width: Width::W16,
        text: NESTED,
        outcomes: &[false],
        answers: &[],
        room: 1,
        steps: &[
            (Act::Trial(1), true, 2, calls),
            (Act::One(2, 1), true, 3, calls),
        ],
    };
    check_run(&rt, &run)
}

#[test]
fn functions_answer_by_the_number_of_calls(rt: HostRuntime) -> Result<(), Fail> {
    let calls: &[Handed] = &[("p", &[5]), ("q", &[-7])];
    let run = Run {
        width: Width::W16,
        text: SIZES,
        outcomes: &[false, false],
        answers: &[(1, "f", 5, -7)],
        room: 2,
        steps: &[(Act::Trial(5), false, 2, calls)],
    };
    check_run(&rt, &run)
}

fn check_matches(
    rt: &(impl Abort + AllocGlobal),
    text: &str,
    table: &[(u64, Option<usize>)],
) -> Result<(), Fail> {
    let model = model(rt.alloc(), Width::W16, text)?;
    for (word, place) in table {
        assert!(rt; first_match(&model, *word) == *place, "{word}");
    }
    Ok(())
}

#[test]
fn the_first_match_is_the_least_place(rt: HostRuntime) -> Result<(), Fail> {
    check_matches(&rt, NESTED, &[(1, Some(1)), (2, Some(2)), (0x100, None)])
}

#[test]
fn a_host_answers_by_its_state_and_the_values(rt: HostRuntime) -> Result<(), Fail> {
    let model = model(rt.alloc(), Width::W16, SIZES)?;
    let mut echo = Echo { last: 7 };
    let first = trial(&model, 5, &mut echo);
    assert!(rt; !first && echo.last == 2);
    let second = trial(&model, 5, &mut echo);
    assert!(rt; second && echo.last == 2);
    Ok(())
}
