//! What a script answers and keeps, call after call.

use dt_host::{Answer, Host, Script};
use dt_values::{Name, Values};
use std::process::Abort;
use std::test::Fail;

// What a script is asked, and what it answers: a call of this name, or the function of this name with this number.
#[derive(Clone, Copy)]
enum Ask<'a> {
    Call(&'a [u8], bool),
    Function(&'a [u8], Option<i32>, i32),
}

fn name(rt: &impl Abort, bytes: &[u8]) -> Name {
    Name::from_bytes(bytes).expect(rt, "a name")
}

fn answer(name: Name, calls: u64, arg: Option<i32>, answer: i32) -> Answer {
    Answer {
        calls,
        function: name,
        arg,
        answer,
    }
}

// Whether the script answers so.
fn is_answered(script: &mut Script, name: Name, ask: &Ask) -> bool {
    match ask {
        Ask::Call(_, outcome) => script.translate(name, &Values::zeros(&[])) == *outcome,
        Ask::Function(_, arg, answer) => script.function(name, *arg) == *answer,
    }
}

fn check_asks(rt: &impl Abort, script: &mut Script, asks: &[Ask]) {
    for (step, ask) in asks.iter().enumerate() {
        let (Ask::Call(bytes, _) | Ask::Function(bytes, _, _)) = ask;
        assert!(rt; is_answered(script, name(rt, bytes), ask), "step {step}");
    }
}

// The calls that are kept have these names and no values, and so many were made.
fn check_calls(rt: &impl Abort, script: &Script, names: &[&str], count: u64) {
    assert!(rt; script.count() == count);
    assert!(rt; script.calls().len() == names.len());
    for (call, name) in script.calls().iter().zip(names) {
        assert!(rt; call.name.as_str() == *name && call.count == 0);
        assert!(rt; call.items == [0; 32]);
    }
}

#[test]
fn outcomes_and_answers_go_by_the_number_of_calls(rt: HostRuntime) -> Result<(), Fail> {
    let f = name(&rt, b"f");
    let answers = [
        answer(f, 1, Some(5), -7),
        answer(f, 0, None, 3),
        answer(f, 1, Some(5), 8),
    ];
    let mut script = Script::new(rt.alloc(), &[false, true, false], &answers, 2)?;
    let asks: &[Ask] = &[
        Ask::Function(b"f", Some(5), 5),
        Ask::Function(b"f", None, 3),
        Ask::Function(b"g", None, 0),
        Ask::Call(b"one", false),
        Ask::Function(b"f", Some(5), -7),
        Ask::Function(b"f", Some(-5), -5),
        Ask::Function(b"f", None, 0),
        Ask::Function(b"g", Some(9), 9),
        Ask::Call(b"two", true),
        Ask::Call(b"one", false),
        Ask::Call(b"one", true),
        Ask::Call(b"one", true),
    ];
    check_asks(&rt, &mut script, asks);
    check_calls(&rt, &script, &["one", "two"], 5);
    Ok(())
}

#[test]
fn a_script_without_room_keeps_no_call(rt: HostRuntime) -> Result<(), Fail> {
    let mut script = Script::new(rt.alloc(), &[], &[], 0)?;
    check_calls(&rt, &script, &[], 0);
    check_asks(&rt, &mut script, &[Ask::Call(b"one", true)]);
    check_calls(&rt, &script, &[], 1);
    Ok(())
}
