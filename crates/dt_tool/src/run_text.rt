//! What is written of the run of a C text.

ghost use Rattle.std.specs.Prelude.{◌≡◌, ◌<◌, ◌≤◌, ◌^◌, [], flat_map, map, option_map, take, unwrap_or, IfOk};
ghost use Rattle.dt_host.specs.Scripts.{answer_seen};
ghost use Rattle.dt_text.specs.Puts.{Puts};
ghost use Rattle.dt_values.specs.Widths.{width_bits};
ghost use Rattle.c_eval.specs.Lists.{members_at};
ghost use Rattle.c_eval.specs.Loads.{load_of};
ghost use Rattle.c_eval.specs.Turns.{ended_seen};
ghost use Rattle.c_subset.specs.Keeps.{KeepsRules};
ghost use Rattle.c_subset.specs.Sites.{calls_in, statements_in};
ghost use Rattle.c_subset.specs.View.{pattern_of, program_of};
ghost use Rattle.dt_tool.specs.RunTexts as said;
ghost use Rattle.dt_tool.specs.View.{call_seen};

use crate::request::Evaluation;
use c_eval::run_laws::law_script_run;
use c_eval::{Bytes, Ended, run_decode, run_load};
use c_subset::{Program, call_sites};
use dt_host::{Call, Script};
use dt_text::{GrowingSink, Out, Part, write_parts};
use dt_values::{Member, Name, SetDef, Width};
use itoa::Buffer;
use std::alloc::{AllocError, Global};

/// What is written of the run of a program at a word: with a load function the word stands for the bytes at the place of
/// an instruction, the most significant first.
pub fn run_text(
    alloc: Global,
    request: Evaluation,
    program: &Program,
) -> Result<Vec<u8>, AllocError>
    requires rules { KeepsRules (program_of program.now) }
    requires few { statements_in (program_of program.now).body < 2 ^ 64 }
    requires word { request.word < 2 ^ width_bits program.now.width }
    ensures { IfOk result (λ text. text.items ≡ said.run_text request.entry.outcomes.now
        (map answer_seen request.entry.answers.now) (program_of program.now) request.entry.word) }
{
    let mut script = Script::new(
        alloc,
        request.outcomes,
        request.answers,
        call_sites(program),
    )?;
    let mut out = GrowingSink::new(alloc);
    match program.load {
        None => write_run(&mut out, program, request.word, &mut script),
        Some(_) => write_loaded(&mut out, program, request.word, &mut script),
    }
    out.into_text()
}

// The run at the word that the load function makes of these bytes, and how many of them it took.
fn write_loaded<W: Out>(out: &mut W, program: &Program, word: u64, script: &mut Script)
    requires rules { KeepsRules (program_of program.now) }
    requires few { statements_in (program_of program.now).body < 2 ^ 64 }
    requires word { word < 2 ^ width_bits program.now.width }
    requires fresh { (script.old.calls ≡ []) × (script.old.count ≡ 0) }
    requires room { calls_in (program_of program.now).body ≤ script.old.room }
    ensures { Puts (W.state out.old) (W.state out.new) (said.loaded_text script.old.outcomes script.old.answers
        (program_of program.now) (load_of (program_of program.now) (said.bytes_of_word (width_bits program.now.width) word))) }
{
    let mut bytes = bytes_of_word(program.width, word);
    match run_load(program, &mut bytes) {
        Some(word) => {
            write_number(out, b"loaded ", u64::from(bytes.loaded));
            write_run(out, program, word, script);
        }
        None => write_end(out, Ended::Stuck, 0),
    }
}

// The bytes of a word, with zeros behind them.
fn bytes_of_word(width: Width, word: u64) -> Bytes
    requires { word < 2 ^ width_bits width }
    ensures { result.items ≡ said.bytes_of_word (width_bits width) word }
{
    let first = match width {
        Width::W16 => word << 48,
        Width::W32 => word << 32,
        Width::W64 => word,
    };
    Bytes {
        items: first.to_be_bytes(),
        loaded: 0,
    }
}

// The calls that a run makes, how it ended, and the number of its tests.
fn write_run<W: Out>(out: &mut W, program: &Program, word: u64, script: &mut Script)
    requires rules { KeepsRules (program_of program.now) }
    requires few { statements_in (program_of program.now).body < 2 ^ 64 }
    requires fresh { (script.old.calls ≡ []) × (script.old.count ≡ 0) }
    requires room { calls_in (program_of program.now).body ≤ script.old.room }
    ensures { Puts (W.state out.old) (W.state out.new) (said.run_lines (program_of program.now)
        (said.run_with script.old.outcomes script.old.answers (program_of program.now) word)) }
{
    law_script_run(script);
    let ran = run_decode(program, &[], word, script);
    write_calls(out, program, script.calls());
    write_end(out, ran.ended, ran.tests);
}

fn write_calls<W: Out>(out: &mut W, program: &Program, calls: &[Call])
    ensures { Puts (W.state out.old) (W.state out.new)
        (flat_map (λ call. said.call_line (program_of program.now) (call_seen call)) calls.now) }
{
    for call in calls {
        write_call(out, program, call);
    }
}

fn write_call<W: Out>(out: &mut W, program: &Program, call: &Call)
    ensures { Puts (W.state out.old) (W.state out.new)
        (said.call_line (program_of program.now) (call_seen call.now)) }
{
    write_parts(out, &[Part::Name(&call.name)]);
    write_arguments(out, members_of_pattern(program, call.name), values_of(call));
    write_parts(out, &[Part::Text(b"\n")]);
}

// The values that were handed over.
fn values_of(call: &Call) -> &[i128]
    ensures { result.now ≡ take call.now.count call.now.items }
{
    let items = call.items.as_slice();
    &items[..usize::from(call.count).min(items.len())]
}

// Arguments, each with its value.
#[tactic(auto, using(dt_text::proofs::Putting::puts_more, dt_text::proofs::Putting::puts_nothing))]
fn write_arguments<W: Out>(out: &mut W, members: &[Member], values: &[i128])
    ensures { Puts (W.state out.old) (W.state out.new) (said.arguments_text members.now values.now) }
{
    let Some((member, members)) = members.split_first() else {
        return;
    };
    let Some((value, values)) = values.split_first() else {
        return;
    };
    write_argument(out, member, *value);
    write_arguments(out, members, values);
}

fn write_argument<W: Out>(out: &mut W, member: &Member, value: i128)
    ensures { Puts (W.state out.old) (W.state out.new) (said.argument_text (member.now, value)) }
{
    let mut buffer = Buffer::new();
    write_parts(
        out,
        &[
            Part::Text(b" "),
            Part::Name(&member.name),
            Part::Text(b"="),
            Part::Text(buffer.format(value).as_bytes()),
        ],
    );
}

// The arguments of a pattern's set.
fn members_of_pattern(program: &Program, name: Name) -> &[Member]
    ensures { result.now ≡ said.members_of_pattern (program_of program.now) name }
{
    match set_of_pattern(program.patterns.items(), name) {
        Some(set) => members_of_set(program.sets.items(), set),
        None => &[],
    }
}

fn set_of_pattern(patterns: &[(Name, Name)], name: Name) -> Option<Name>
    ensures { result ≡ option_map (λ p. p.set) (said.pattern_named (map pattern_of patterns.now) name) }
{
    for (pattern, set) in patterns {
        if name == *pattern {
            return Some(*set);
        }
    }
    None
}

fn members_of_set(sets: &[SetDef], name: Name) -> &[Member]
    ensures { result.now ≡ unwrap_or (members_at sets.now name) [] }
{
    for set in sets {
        if name == set.name {
            return set.members.items();
        }
    }
    &[]
}

// How a run ended, and the number of its tests.
fn write_end<W: Out>(out: &mut W, ended: Ended, tests: u64)
    ensures { Puts (W.state out.old) (W.state out.new) (said.end_lines (ended_seen ended) tests) }
{
    write_parts(out, &[Part::Text(ended_line(ended))]);
    write_number(out, b"tests ", tests);
}

fn ended_line(ended: Ended) -> &'static [u8]
    ensures { result.now ≡ said.ended_line (ended_seen ended) }
{
    match ended {
        Ended::True => b"result true\n",
        Ended::False => b"result false\n",
        Ended::Stuck => b"result stuck\n",
    }
}

// A number behind these words.
fn write_number<W: Out>(out: &mut W, words: &[u8], number: u64)
    ensures { Puts (W.state out.old) (W.state out.new) (said.number_line words.now number) }
{
    write_parts(
        out,
        &[Part::Text(words), Part::Decimal(number), Part::Text(b"\n")],
    );
}
