//! Words that are a command, and what they ask for.

use crate::words::words_of;
use dt_words::{Command, MOST_FILES, Text, read_words};
use std::alloc::{AllocError, Global};
use std::process::Abort;
use std::test::Fail;

// What a command asks for, as `32 static decode static trans: t`.
fn summary(alloc: Global, command: &Command) -> Result<String, AllocError> {
    let Command::Gen {
        options,
        output,
        files,
        test,
    } = command
    else {
        return String::from_str(alloc, "another command");
    };
    let mut text = format!(in alloc; "{}", options.width.bits())?;
    text.push_str(if options.decode_static {
        " static "
    } else {
        " "
    })?;
    text.push_str(options.decode.as_str())?;
    text.push_str(if options.translate_static {
        " static "
    } else {
        " "
    })?;
    text.push_str(options.translate.as_str())?;
    if let Some(name) = output {
        text.push_str(" > ")?;
        text.push_str(name.as_str())?;
    }
    text.push_str(if *test { " test:" } else { ":" })?;
    for file in files.items() {
        text.push_str(" ")?;
        text.push_str(file.as_str())?;
    }
    Ok(text)
}

fn summary_of(alloc: Global, line: &str) -> Result<String, Fail> {
    let words = words_of(alloc, line)?;
    match read_words(alloc, words.as_slice()) {
        Ok(command) => Ok(summary(alloc, &command)?),
        Err(_) => Err(Fail::from("no command")),
    }
}

// Lines of words with what they ask for.
fn check_commands(rt: &(impl Abort + AllocGlobal), table: &[(&str, &str)]) -> Result<(), Fail> {
    for &(line, wanted) in table {
        let summary = summary_of(rt.alloc(), line)?;
        assert!(rt; summary.as_str() == wanted, "at {line}");
    }
    Ok(())
}

#[test]
fn each_option_has_two_spellings(rt: HostRuntime) -> Result<(), Fail> {
    let table: &[(&str, &str)] = &[
        ("gen t", "32 static decode static trans: t"),
        ("gen --decode=d t", "32 d static trans: t"),
        ("gen --decode d t", "32 d static trans: t"),
        ("gen --static-decode=d t", "32 static d static trans: t"),
        ("gen --static-decode d t", "32 static d static trans: t"),
        ("gen --translate=x t", "32 static decode x: t"),
        ("gen --translate x t", "32 static decode x: t"),
        ("gen -w 16 t", "16 static decode static trans: t"),
        ("gen -w16 t", "16 static decode static trans: t"),
        ("gen --insnwidth=16 t", "16 static decode static trans: t"),
        ("gen --insnwidth 16 t", "16 static decode static trans: t"),
        ("gen -o c t", "32 static decode static trans > c: t"),
        ("gen -oc t", "32 static decode static trans > c: t"),
        ("gen --output=c t", "32 static decode static trans > c: t"),
        ("gen --output c t", "32 static decode static trans > c: t"),
        (
            "gen --test-for-error t",
            "32 static decode static trans test: t",
        ),
    ];
    check_commands(&rt, table)
}

#[test]
fn widths_are_decimal_or_hexadecimal(rt: HostRuntime) -> Result<(), Fail> {
    let table: &[(&str, &str)] = &[
        ("gen -w 32 t", "32 static decode static trans: t"),
        ("gen -w 64 t", "64 static decode static trans: t"),
        ("gen -w 0x10 t", "16 static decode static trans: t"),
        ("gen -w0x20 t", "32 static decode static trans: t"),
        ("gen --insnwidth=0x40 t", "64 static decode static trans: t"),
        ("gen -w 016 t", "16 static decode static trans: t"),
        (
            "gen -w 0000000000000000000000064 t",
            "64 static decode static trans: t",
        ),
        (
            "gen -w 0x00000000000000000000040 t",
            "64 static decode static trans: t",
        ),
    ];
    check_commands(&rt, table)
}

#[test]
fn options_and_files_mix(rt: HostRuntime) -> Result<(), Fail> {
    let table: &[(&str, &str)] = &[
        ("gen t -w 16 s", "16 static decode static trans: t s"),
        (
            "gen t s --test-for-error",
            "32 static decode static trans test: t s",
        ),
        ("gen -o -w t", "32 static decode static trans > -w: t"),
        ("gen -o -- t", "32 static decode static trans > --: t"),
        (
            "gen --output --frob t",
            "32 static decode static trans > --frob: t",
        ),
        ("gen -o  t", "32 static decode static trans > : t"),
        ("gen --output= t", "32 static decode static trans > : t"),
        (
            "gen --output=a=b t",
            "32 static decode static trans > a=b: t",
        ),
        ("gen -o=c t", "32 static decode static trans > =c: t"),
        ("gen -o- t", "32 static decode static trans > -: t"),
        ("gen - t", "32 static decode static trans: - t"),
        ("gen  t", "32 static decode static trans:  t"),
        ("gen gen", "32 static decode static trans: gen"),
        (
            "gen -- -w 24 --frob",
            "32 static decode static trans: -w 24 --frob",
        ),
        (
            "gen t -- -- - -o",
            "32 static decode static trans: t -- - -o",
        ),
        ("gen --decode=_ --translate=_9 t", "32 _ _9: t"),
        ("gen --decode=Int --translate=trans t", "32 Int trans: t"),
    ];
    check_commands(&rt, table)
}

#[test]
fn the_last_repeat_holds(rt: HostRuntime) -> Result<(), Fail> {
    let table: &[(&str, &str)] = &[
        (
            "gen --decode=a --static-decode=b t",
            "32 static b static trans: t",
        ),
        ("gen --static-decode=b --decode a t", "32 a static trans: t"),
        ("gen --decode=a --decode=b t", "32 b static trans: t"),
        ("gen --translate=a t --translate b", "32 static decode b: t"),
        (
            "gen -w16 --insnwidth=64 t",
            "64 static decode static trans: t",
        ),
        (
            "gen --insnwidth 64 t -w 16",
            "16 static decode static trans: t",
        ),
        (
            "gen -o a t -ob --output=c",
            "32 static decode static trans > c: t",
        ),
        (
            "gen --test-for-error --test-for-error t",
            "32 static decode static trans test: t",
        ),
        ("gen t t", "32 static decode static trans: t t"),
    ];
    check_commands(&rt, table)
}

#[test]
fn names_have_up_to_100_bytes(rt: HostRuntime) -> Result<(), Fail> {
    let table: &[(&str, &str)] = &[
        (
            "gen --decode=aaaaaaaaaaaaaaaaaaaaaaaaaaaaaaaaaaaaaaaaaaaaaaaaaaaaaaaaaaaaaaaaaaaaaaaaaaaaaaaaaaaaaaaaaaaaaaaaaaaa t",
            "32 aaaaaaaaaaaaaaaaaaaaaaaaaaaaaaaaaaaaaaaaaaaaaaaaaaaaaaaaaaaaaaaaaaaaaaaaaaaaaaaaaaaaaaaaaaaaaaaaaaaa static trans: t",
        ),
        (
            "gen --static-decode=aaaaaaaaaaaaaaaaaaaaaaaaaaaaaaaaaaaaaaaaaaaaaaaaaaaaaaaaaaaaaaaaaaaaaaaaaaaaaaaaaaaaaaaaaaaaaaaaaaaa t",
            "32 static aaaaaaaaaaaaaaaaaaaaaaaaaaaaaaaaaaaaaaaaaaaaaaaaaaaaaaaaaaaaaaaaaaaaaaaaaaaaaaaaaaaaaaaaaaaaaaaaaaaa static trans: t",
        ),
        (
            "gen --translate=aaaaaaaaaaaaaaaaaaaaaaaaaaaaaaaaaaaaaaaaaaaaaaaaaaaaaaaaaaaaaaaaaaaaaaaaaaaaaaaaaaaaaaaaaaaaaaaaaaaa t",
            "32 static decode aaaaaaaaaaaaaaaaaaaaaaaaaaaaaaaaaaaaaaaaaaaaaaaaaaaaaaaaaaaaaaaaaaaaaaaaaaaaaaaaaaaaaaaaaaaaaaaaaaaa: t",
        ),
    ];
    check_commands(&rt, table)
}

#[test]
fn sixteen_files_are_taken(rt: HostRuntime) -> Result<(), Fail> {
    let table: &[(&str, &str)] = &[(
        "gen a b c d e f g h -w 16 i j k l m n o -- -p",
        "16 static decode static trans: a b c d e f g h i j k l m n o -p",
    )];
    assert!(rt; MOST_FILES == 16);
    check_commands(&rt, table)
}

#[test]
fn a_text_shows_its_bytes(rt: HostRuntime) -> Result<(), Fail> {
    let text = Text::of(String::from_str(rt.alloc(), "t.é")?);
    assert!(rt; text.items() == "t.é".as_bytes());
    assert!(rt; text.as_str() == "t.é");
    Ok(())
}
