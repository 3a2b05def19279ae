//! From a pattern file by `gen` to `eval`: the calls that are listed are those of trying the model's patterns.
ghost use Rattle.std.specs.Prelude.{◌≤◌, IfOk, length};
ghost use Rattle.dt_model.specs.Sound.{IsSound};
ghost use Rattle.dt_model.specs.Options.{IsOptions};

use crate::runs::{NOTHING_FAILS, Ran, run};
use dt_forms::{Source, read_model};
use dt_host::{Answer, Call, Script};
use dt_match::trial;
use dt_model::{Model, Options};
use dt_values::{Member, Name, Width};
use itoa::Buffer;
use std::alloc::{AllocError, Global};
use std::process::Abort;
use std::test::Fail;

const FILE: &[u8] = b"\
%imm 13:s1 0:4
%off 4:s8 !function=f
%wide 0:12
&two a b:int8_t
@form ................ &two a=%imm
{
  p 00.-............ @form b=%off
  q 0---............ a=%wide
  [
    r 10.---------.... @form b=-3
    s 110-........---- c=%off
  ]
  t --.---------.... b=%imm
}
";

fn options() -> Options
    ensures { IsOptions result }
{
    Options {
        width: Width::W16,
        ..Options::default()
    }
}

fn model_of(alloc: Global, text: &[u8]) -> Result<Model, Fail>
    requires { length text.now ≤ 1000 }
    ensures { IfOk result IsSound }
{
    let files = [Source::read(alloc, 0, Vec::from_slice(alloc, text)?)?];
    match read_model(alloc, &options(), files.as_slice()) {
        Ok(model) => Ok(model),
        Err(_) => Err("no model".into()),
    }
}

/// The arguments of the set of the first pattern of this name.
fn members_of(model: &Model, name: Name) -> Option<&[Member]> {
    for pattern in model.patterns.items() {
        if pattern.name == name {
            let format = model.formats.items().get(pattern.format as usize)?;
            let set = model.sets.items().get(format.set as usize)?;
            return Some(set.members.items());
        }
    }
    None
}

fn push_call(lines: &mut String, members: &[Member], call: &Call) -> Result<(), AllocError> {
    lines.push_str(call.name.as_str())?;
    for (member, value) in members.iter().zip(call.items.iter()) {
        lines.push_str(" ")?;
        lines.push_str(member.name.as_str())?;
        lines.push_str("=")?;
        let mut buffer = Buffer::new();
        lines.push_str(buffer.format(*value))?;
    }
    lines.push_str("\n")
}

/// What is listed of the trial of the model's patterns, but for the tests.
fn trial_lines(
    alloc: Global,
    model: &Model,
    word: u64,
    outcomes: &[bool],
    answers: &[Answer],
) -> Result<String, Fail>
    requires { IsSound model.now }
{
    let mut script = Script::new(alloc, outcomes, answers, 16)?;
    let found = trial(model, word, &mut script);
    let mut lines = String::new(alloc);
    for call in script.calls() {
        let members = members_of(model, call.name).ok_or("a pattern")?;
        push_call(&mut lines, members, call)?;
    }
    lines.push_str(if found {
        "result true\ntests "
    } else {
        "result false\ntests "
    })?;
    Ok(lines)
}

/// A run of `eval` on a C text.
fn run_eval(rt: &(impl Abort + AllocGlobal), text: &[u8], word: &str, script: &str) -> Ran {
    let words = &["eval", "t", word, script];
    run(rt, words, [text, b""], NOTHING_FAILS)
}

/// The next word of the generator whose first word is 1.
fn after(word: u64) -> u64 {
    word.wrapping_mul(25173).wrapping_add(13849) % 65536
}

#[test]
fn the_calls_of_a_text_are_those_of_its_patterns(rt: HostRuntime) -> Result<(), Fail> {
    let model = model_of(rt.alloc(), FILE)?;
    let made = run(&rt, &["gen", "-w16", "t"], [FILE, b""], NOTHING_FAILS);
    let answers = [Answer {
        calls: 0,
        function: Name::from_bytes(b"f").expect(&rt, "a name"),
        arg: Some(-1),
        answer: 300,
    }];
    let scripts: &[(&str, &[bool])] = &[
        ("0:f:-1:300", &[]),
        ("f,0:f:-1:300", &[false]),
        ("f,f,0:f:-1:300", &[false, false]),
        ("0:f:-1:300,f,f,f,f", &[false, false, false, false]),
    ];
    let mut word = 1;
    for _ in 0..50 {
        for (script, outcomes) in scripts {
            let mut buffer = Buffer::new();
            let ran = run_eval(&rt, made.out.bytes(), buffer.format(word), script);
            let lines = trial_lines(rt.alloc(), &model, word, outcomes, &answers)?;
            assert!(rt;
                ran.out.bytes().starts_with(lines.as_bytes()),
                "{word} {script}"
            );
        }
        word = after(word);
    }
    Ok(())
}
