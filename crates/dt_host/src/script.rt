//! The host that a script is.

ghost use Rattle.std.specs.Prelude.{◌≡◌, ℕ, ◌+◌, ◌<◌, ◌≤◌, ◌^◌, ◌-◌, ◌++◌, ◌∷◌, [], All, IfOk, List, OnOk, length, map, min};
ghost use Rattle.dt_host.specs.Alike.{AreAlike, state_after};
ghost use Rattle.dt_host.specs.Calls.{handed};
ghost use Rattle.dt_host.specs.Hosts.{Call as Called, answer_at, fits, outcome_at};
ghost use Rattle.dt_host.specs.Scripts.{IsAfter, IsWithin, after_calls, answer_seen, kept_call};
ghost use Rattle.dt_host.specs.Scripts.{memory_host, one_more, plain_script, up_to_end};

use crate::host::Host;
use dt_values::{Name, Values};
use std::alloc::{AllocError, Global};
use std::marker::Model;

/// What a function answers to a number, or without one, after so many calls.
#[derive(Clone, Copy, PartialEq, Eq)]
pub struct Answer {
    pub calls: u64,
    pub function: Name,
    pub arg: Option<i32>,
    pub answer: i32,
}

/// A call that was made: how many values were handed over, and these in the order of their set, with zeros behind them.
#[derive(Clone, Copy, PartialEq, Eq)]
pub struct Call {
    pub name: Name,
    pub count: u8,
    pub items: [i128; 32],
}

/// A host that answers by lists, and keeps the first of its calls.
#[derive(Drop)]
pub struct Script {
    outcomes: Vec<bool>,
    answers: Vec<Answer>,
    room: usize,
    calls: Vec<Call>,
    // It stands still at 2^64, which no answer speaks of and no list reaches.
    count: u128,
}

impl Model for Script {
    ghost use Rattle.std.specs.Prelude.{◌≤◌, ◌^◌, All, map, vec_len, vec_capacity};
    ghost use Rattle.dt_host.specs.Scripts.{IsWithin, ScriptMemory, answer_seen};

    ghost Value = { ScriptMemory };

    ghost view = { λ s. record {
      outcomes = s.outcomes.items;
      answers = map answer_seen s.answers.items;
      room = s.room;
      calls = s.calls.items;
      count = s.count;
    } };

    ghost invariant = { λ s.
        (vec_len s.calls ≤ s.room)
        × (s.room ≤ vec_capacity s.calls)
        × (s.count ≤ 2 ^ 64)
        × (vec_len s.outcomes ≤ 2 ^ 64)
        × All IsWithin s.answers.items };
}

impl Script {
    /// A script of these outcomes and answers, which keeps the first `room` calls.
    pub fn new(
        alloc: Global,
        outcomes: &[bool],
        answers: &[Answer],
        room: usize,
    ) -> Result<Script, AllocError>
        ensures { IfOk result (λ s. s ≡ record {
          outcomes = outcomes.now;
          answers = map answer_seen answers.now;
          room = room;
          calls = [];
          count = 0;
        }) }
    {
        Ok(Script {
            outcomes: Vec::from_slice(alloc, outcomes)?,
            answers: answer_list(alloc, answers)?,
            room,
            calls: Vec::with_capacity(alloc, room)?,
            count: 0,
        })
    }

    /// The first calls, in order.
    pub fn calls(&self) -> &[Call]
        ensures { result.now ≡ self.now.calls }
    {
        self.calls.as_slice()
    }

    /// How many calls were made. It stands still at 2^64 - 1.
    pub fn count(&self) -> u64
        ensures { result ≡ min self.now.count (2 ^ 64 - 1) }
    {
        self.count.min(u128::from(u64::MAX)) as u64
    }
}

impl Host for Script {
    ghost use Rattle.dt_host.specs.Scripts.{ScriptMemory, memory_host};

    ghost State = { ScriptMemory };

    ghost host = { λ _. memory_host };

    ghost state = { λ s. s };

    fn translate(&mut self, name: Name, values: &Values) -> bool {
        let outcome = outcome_at(&self.outcomes, self.count);
        if self.calls.len() < self.room {
            self.calls.push(kept_call(name, values)).unwrap();
        }
        raise(&mut self.count);
        outcome
    }

    fn function(&self, name: Name, arg: Option<i32>) -> i32 {
        answer_at(&self.answers, self.count, name, arg)
    }
}

/// A script answers as the plain one of its lists does, whose state is the number of calls, and keeps the first of all
/// calls and their number.
pub fn law_script(script: &Script)
    ensures alike { AreAlike (IsAfter script.now) memory_host (plain_script script.now) }
    ensures calls { (calls : List Called) (k : ℕ) → script.now.count ≡ up_to_end k
        → state_after memory_host script.now calls ≡ after_calls script.now calls (k + length calls) }
{
    let _outcomes = script.outcomes.as_slice();
    let _calls = script.calls.as_slice();
}

// The answers as a list of their own.
fn answer_list(alloc: Global, answers: &[Answer]) -> Result<Vec<Answer>, AllocError>
    ensures same { IfOk result (λ list. list.items ≡ answers.now) }
    ensures within { IfOk result (λ list. All IsWithin list.items) }
{
    let mut list = Vec::new(alloc);
    for answer in answers {
        push_answer(&mut list, *answer)?;
    }
    Ok(list)
}

fn push_answer(list: &mut Vec<Answer>, answer: Answer) -> Result<(), AllocError>
    requires { All IsWithin list.old.items }
    ensures pushed { OnOk result (list.new.items ≡ list.old.items ++ answer ∷ []) }
    ensures within { OnOk result (All IsWithin list.new.items) }
{
    match list.push(answer) {
        Ok(()) => Ok(()),
        Err(_) => Err(AllocError),
    }
}

// A call of these values, as it is kept.
fn kept_call(name: Name, values: &Values) -> Call
    ensures { result ≡ kept_call (handed name values.now.members.now values.now.items) }
{
    Call {
        name,
        count: values.members.len() as u8,
        items: values.items,
    }
}

fn outcome_at(outcomes: &[bool], count: u128) -> bool
    ensures { result ≡ outcome_at outcomes.now count }
{
    match usize::try_from(count) {
        Ok(place) => outcomes.get(place).copied().unwrap_or(true),
        Err(_) => true,
    }
}

fn answer_at(answers: &[Answer], count: u128, name: Name, arg: Option<i32>) -> i32
    ensures { result ≡ answer_at (map answer_seen answers.now) count name arg }
{
    for answer in answers {
        if fits(answer, count, name, arg) {
            return answer.answer;
        }
    }
    arg.unwrap_or(0)
}

fn fits(answer: &Answer, count: u128, name: Name, arg: Option<i32>) -> bool
    ensures { result ≡ fits count name arg (answer_seen answer.now) }
{
    u128::from(answer.calls) == count && name == answer.function && arg == answer.arg
}

fn raise(count: &mut u128)
    requires { count.old ≤ 2 ^ 64 }
    ensures { count.new ≡ one_more count.old }
{
    if *count <= u128::from(u64::MAX) {
        *count += 1;
    }
}
