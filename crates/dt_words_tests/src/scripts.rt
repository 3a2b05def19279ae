//! The words of `eval`: scripts and what they hold, and faulty words.

use crate::words::words_of;
use dt_host::Answer;
use dt_words::{Command, Usage, WordFault, read_words};
use std::alloc::{AllocError, Global};
use std::process::Abort;
use std::test::Fail;

// An answer of a script: after how many calls, of which function, on which argument, and the answer.
type Wanted<'a> = (u64, &'a str, Option<i32>, i32);

// A script with its outcomes and its answers.
type Row<'a> = (&'a str, &'a [bool], &'a [Wanted<'a>]);

// The words of an `eval` of this script.
fn words_with(alloc: Global, script: &str) -> Result<Vec<String>, AllocError> {
    let mut words = words_of(alloc, "eval c 0")?;
    words.push(String::from_str(alloc, script)?)?;
    Ok(words)
}

fn is_answer(answer: &Answer, wanted: &Wanted) -> bool {
    let (calls, function, arg, number) = wanted;
    answer.calls == *calls
        && answer.function.as_str() == *function
        && answer.arg == *arg
        && answer.answer == *number
}

fn are_answers(answers: &[Answer], wanted: &[Wanted]) -> bool {
    answers.len() == wanted.len()
        && answers
            .iter()
            .zip(wanted.iter())
            .all(|(answer, wanted)| is_answer(answer, wanted))
}

// Whether a command is an `eval` with these outcomes and answers.
fn holds(command: &Command, outcomes: &[bool], answers: &[Wanted]) -> bool {
    match command {
        Command::Eval {
            outcomes: found,
            answers: given,
            ..
        } => found.items() == outcomes && are_answers(given.items(), answers),
        _ => false,
    }
}

// Whether words are a command with these outcomes and answers.
fn read_holds(alloc: Global, words: &[String], outcomes: &[bool], answers: &[Wanted]) -> bool {
    match read_words(alloc, words) {
        Ok(command) => holds(&command, outcomes, answers),
        Err(_) => false,
    }
}

// Scripts with what they hold.
fn check_scripts(rt: &(impl Abort + AllocGlobal), table: &[Row]) -> Result<(), Fail> {
    for &(script, outcomes, answers) in table {
        let words = words_with(rt.alloc(), script)?;
        assert!(rt;
            read_holds(rt.alloc(), words.as_slice(), outcomes, answers),
            "at {script}"
        );
    }
    Ok(())
}

fn fault_of(alloc: Global, words: &[String]) -> Option<WordFault> {
    read_words(alloc, words).err()
}

// Scripts that are none.
fn check_unread(rt: &(impl Abort + AllocGlobal), table: &[&str]) -> Result<(), Fail> {
    for &script in table {
        let words = words_with(rt.alloc(), script)?;
        let fault = fault_of(rt.alloc(), words.as_slice());
        assert!(rt;
            fault == Some(WordFault::Bad(Usage::U4, Some(3))),
            "at {script}"
        );
    }
    Ok(())
}

// Lines of words with what is wrong with them.
fn check_faults(rt: &(impl Abort + AllocGlobal), table: &[(&str, WordFault)]) -> Result<(), Fail> {
    for &(line, wanted) in table {
        let words = words_of(rt.alloc(), line)?;
        let fault = fault_of(rt.alloc(), words.as_slice());
        assert!(rt; fault == Some(wanted), "at {line}");
    }
    Ok(())
}

// Whether words are an `eval` with these outcomes and no answer.
fn has_outcomes(alloc: Global, words: &[String], wanted: &[bool]) -> bool {
    match read_words(alloc, words) {
        Ok(command) => are_outcomes(&command, wanted),
        Err(_) => false,
    }
}

fn are_outcomes(command: &Command, wanted: &[bool]) -> bool {
    match command {
        Command::Eval {
            outcomes,
            answers,
            ..
        } => outcomes.items() == wanted && answers.items().is_empty(),
        _ => false,
    }
}

#[test]
fn outcomes_are_in_order(rt: HostRuntime) -> Result<(), Fail> {
    let table: &[(&str, &[bool])] = &[
        ("-", &[]),
        ("t", &[true]),
        ("f,t", &[false, true]),
        ("t,t,f", &[true, true, false]),
    ];
    for &(script, outcomes) in table {
        let words = words_with(rt.alloc(), script)?;
        assert!(rt;
            has_outcomes(rt.alloc(), words.as_slice(), outcomes),
            "at {script}"
        );
    }
    Ok(())
}

#[test]
fn answers_have_four_parts(rt: HostRuntime) -> Result<(), Fail> {
    let table: &[Row] = &[
        ("0:ex:-:5", &[], &[(0, "ex", None, 5)]),
        (
            "0x10:f_1:-2147483648:2147483647",
            &[],
            &[(16, "f_1", Some(-2_147_483_648), 2_147_483_647)],
        ),
        ("007:9:-0:-007", &[], &[(7, "9", Some(0), -7)]),
        (
            "18446744073709551615:_:00000000000000000000001:0",
            &[],
            &[(18_446_744_073_709_551_615, "_", Some(1), 0)],
        ),
    ];
    check_scripts(&rt, table)
}

#[test]
fn outcomes_and_answers_mix(rt: HostRuntime) -> Result<(), Fail> {
    let table: &[Row] = &[
        (
            "t,0:a:1:2,f,1:b:-:3",
            &[true, false],
            &[(0, "a", Some(1), 2), (1, "b", None, 3)],
        ),
        ("0xA:t:0:-1,t", &[true], &[(10, "t", Some(0), -1)]),
        (
            "0:a:1:2,0:a:1:3",
            &[],
            &[(0, "a", Some(1), 2), (0, "a", Some(1), 3)],
        ),
    ];
    check_scripts(&rt, table)
}

#[test]
fn items_are_not_empty(rt: HostRuntime) -> Result<(), Fail> {
    let table: &[&str] = &["", ",", "t,", ",t", "t,,f", "t,-"];
    check_unread(&rt, table)
}

#[test]
fn items_are_outcomes_or_answers(rt: HostRuntime) -> Result<(), Fail> {
    let table: &[&str] = &["T", "tt", "0:f:-", "0:f:-:5:6", "0:f:-:5:"];
    check_unread(&rt, table)
}

#[test]
fn counts_and_names_are_read(rt: HostRuntime) -> Result<(), Fail> {
    let table: &[&str] = &[
        "x:f:-:0",
        ":f:-:0",
        "t,-1:f:-:0",
        "18446744073709551616:f:-:0",
        "0::-:0",
        "0:f-:-:0",
    ];
    check_unread(&rt, table)
}

#[test]
fn arguments_and_answers_are_integers(rt: HostRuntime) -> Result<(), Fail> {
    let table: &[&str] = &[
        "0:f:2147483648:0",
        "0:f:-2147483649:0",
        "0:f:--1:0",
        "0:f:+1:0",
        "0:f:0x1:0",
        "0:f:-:-",
        "0:f:-:",
    ];
    check_unread(&rt, table)
}

#[test]
fn names_have_at_most_128_bytes(rt: HostRuntime) -> Result<(), Fail> {
    let read: &[Row] = &[(
        "0:aaaaaaaaaaaaaaaaaaaaaaaaaaaaaaaaaaaaaaaaaaaaaaaaaaaaaaaaaaaaaaaaaaaaaaaaaaaaaaaaaaaaaaaaaaaaaaaaaaaaaaaaaaaaaaaaaaaaaaaaaaaaaaaa:-:0",
        &[],
        &[(
            0,
            "aaaaaaaaaaaaaaaaaaaaaaaaaaaaaaaaaaaaaaaaaaaaaaaaaaaaaaaaaaaaaaaaaaaaaaaaaaaaaaaaaaaaaaaaaaaaaaaaaaaaaaaaaaaaaaaaaaaaaaaaaaaaaaaa",
            None,
            0,
        )],
    )];
    check_scripts(&rt, read)?;
    let unread: &[&str] = &[
        "0:aaaaaaaaaaaaaaaaaaaaaaaaaaaaaaaaaaaaaaaaaaaaaaaaaaaaaaaaaaaaaaaaaaaaaaaaaaaaaaaaaaaaaaaaaaaaaaaaaaaaaaaaaaaaaaaaaaaaaaaaaaaaaaaaa:-:0",
    ];
    check_unread(&rt, unread)
}

#[test]
fn an_eval_has_three_operands(rt: HostRuntime) -> Result<(), Fail> {
    let table: &[(&str, WordFault)] = &[
        ("eval", WordFault::Bad(Usage::U6, None)),
        ("eval c 0", WordFault::Bad(Usage::U6, None)),
        ("eval c 0 - d", WordFault::Bad(Usage::U7, Some(4))),
        ("eval c 0 - -", WordFault::Bad(Usage::U7, Some(4))),
        ("eval -q", WordFault::Bad(Usage::U2, Some(1))),
        (
            "eval c 0 --test-for-error",
            WordFault::Bad(Usage::U2, Some(3)),
        ),
    ];
    check_faults(&rt, table)
}

#[test]
fn the_word_of_an_eval_is_a_number(rt: HostRuntime) -> Result<(), Fail> {
    let table: &[(&str, WordFault)] = &[
        ("eval c x -", WordFault::Bad(Usage::U4, Some(2))),
        ("eval c  -", WordFault::Bad(Usage::U4, Some(2))),
        ("eval c - -", WordFault::Bad(Usage::U4, Some(2))),
        ("eval c x t,,f", WordFault::Bad(Usage::U4, Some(2))),
        (
            "eval -- c 18446744073709551616 -",
            WordFault::Bad(Usage::U4, Some(3)),
        ),
    ];
    check_faults(&rt, table)
}

// Whether words are an `eval` of this text at this word, which stands at this place.
fn is_eval(alloc: Global, words: &[String], text: &str, word: u64, place: usize) -> bool {
    match read_words(alloc, words) {
        Ok(command) => is_at(&command, text, word, place),
        Err(_) => false,
    }
}

fn is_at(command: &Command, text: &str, word: u64, place: usize) -> bool {
    match command {
        Command::Eval {
            text: found,
            word: number,
            word_place,
            ..
        } => found.as_str() == text && *number == word && *word_place == place,
        _ => false,
    }
}

#[test]
fn an_eval_knows_the_place_of_its_word(rt: HostRuntime) -> Result<(), Fail> {
    let table: &[(&str, &str, u64, usize)] = &[
        ("eval c 7 -", "c", 7, 2),
        (
            "eval - 0xFFFFffffFFFFffff t",
            "-",
            18_446_744_073_709_551_615,
            2,
        ),
        ("eval -- c 010 -", "c", 10, 3),
        ("eval c -- 0x10 f", "c", 16, 3),
        ("eval c 1 -- t", "c", 1, 2),
    ];
    for &(line, text, word, place) in table {
        let words = words_of(rt.alloc(), line)?;
        assert!(rt;
            is_eval(rt.alloc(), words.as_slice(), text, word, place),
            "at {line}"
        );
    }
    Ok(())
}
