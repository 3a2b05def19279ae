//! Words that are no command: the code and the word that is printed.

use crate::words::words_of;
use dt_words::{Usage, WordFault, printed_word, read_words};
use std::alloc::Global;
use std::process::Abort;
use std::test::Fail;

// Whether this is what is printed of a fault of the words: its code and its word, as `U5 24`.
fn prints(words: &[String], fault: WordFault, wanted: &str) -> bool {
    let WordFault::Bad(usage, place) = fault else {
        return false;
    };
    let Some(place) = place else {
        return wanted == usage.code();
    };
    let (Some(word), Some((number, printed))) = (words.get(place), wanted.split_once(' ')) else {
        return false;
    };
    number == usage.code() && printed_word(usage, word.as_str()) == printed.as_bytes()
}

fn fault_of(alloc: Global, words: &[String]) -> Option<WordFault> {
    read_words(alloc, words).err()
}

// Whether this is what is printed of a line of words.
fn is_message(alloc: Global, line: &str, wanted: &str) -> Result<bool, Fail> {
    let words = words_of(alloc, line)?;
    match fault_of(alloc, words.as_slice()) {
        Some(fault) => Ok(prints(words.as_slice(), fault, wanted)),
        None => Ok(false),
    }
}

// Lines of words with what is printed of them.
fn check_messages(rt: &(impl Abort + AllocGlobal), table: &[(&str, &str)]) -> Result<(), Fail> {
    for &(line, printed) in table {
        let is_printed = is_message(rt.alloc(), line, printed)?;
        assert!(rt; is_printed, "at {line}");
    }
    Ok(())
}

#[test]
fn no_words_are_no_command(rt: HostRuntime) {
    let words: [String; 0] = [];
    let fault = fault_of(rt.alloc(), words.as_slice());
    assert!(rt; fault == Some(WordFault::Bad(Usage::U1, None)));
}

#[test]
fn the_first_word_is_the_command(rt: HostRuntime) -> Result<(), Fail> {
    let table: &[(&str, &str)] = &[
        ("", "U1 "),
        ("make", "U1 make"),
        ("Gen t", "U1 Gen"),
        ("generate t", "U1 generate"),
        ("evaluate t 0 -", "U1 evaluate"),
        ("table --templates=m t", "U1 table"),
        ("disas a b", "U1 disas"),
        ("run a b c", "U1 run"),
        ("sample 1 1", "U1 sample"),
        ("asm a b", "U1 asm"),
        ("-- gen t", "U1 --"),
        (" gen t", "U1 "),
    ];
    check_messages(&rt, table)
}

#[test]
fn options_that_the_command_lacks_are_named_without_a_value(rt: HostRuntime) -> Result<(), Fail> {
    let table: &[(&str, &str)] = &[
        ("gen --frob t", "U2 --frob"),
        ("gen --frob=1 t", "U2 --frob"),
        ("gen t --frob", "U2 --frob"),
        ("gen --varinsnwidth=32 t", "U2 --varinsnwidth"),
        ("gen --varinsnwidth 32 t", "U2 --varinsnwidth"),
        ("gen --templates=m t", "U2 --templates"),
        ("gen --mem=4 t", "U2 --mem"),
        ("gen --out=c t", "U2 --out"),
        ("gen --Output=c t", "U2 --Output"),
        ("gen --w=16 t", "U2 --w"),
        ("gen --=c t", "U2 --"),
        ("gen ---o c t", "U2 ---o"),
        ("gen --test-for-error=1 t", "U2 --test-for-error"),
        ("gen --test-for-error= t", "U2 --test-for-error"),
        ("gen -x t", "U2 -x"),
        ("gen -x1 t", "U2 -x"),
        ("gen -W16 t", "U2 -W"),
        ("gen -=16 t", "U2 -="),
        ("gen -é1 t", "U2 -é"),
        ("gen -€ t", "U2 -€"),
    ];
    check_messages(&rt, table)
}

#[test]
fn options_want_their_values(rt: HostRuntime) -> Result<(), Fail> {
    let table: &[(&str, &str)] = &[
        ("gen -o", "U3 -o"),
        ("gen t --output", "U3 --output"),
        ("gen t -w", "U3 -w"),
        ("gen t --insnwidth", "U3 --insnwidth"),
        ("gen t --decode", "U3 --decode"),
        ("gen t --static-decode", "U3 --static-decode"),
        ("gen t --translate", "U3 --translate"),
        ("gen t -o c -o", "U3 -o"),
        ("gen -w 16 -w", "U3 -w"),
    ];
    check_messages(&rt, table)
}

#[test]
fn widths_are_numbers(rt: HostRuntime) -> Result<(), Fail> {
    let table: &[(&str, &str)] = &[
        ("gen -w x t", "U4 x"),
        ("gen -wx t", "U4 -wx"),
        ("gen --insnwidth=x t", "U4 --insnwidth=x"),
        ("gen --insnwidth x t", "U4 x"),
        ("gen --insnwidth= t", "U4 --insnwidth="),
        ("gen -w=16 t", "U4 -w=16"),
        ("gen -w  t", "U4 "),
        ("gen -w -16 t", "U4 -16"),
        ("gen -w -- t", "U4 --"),
        ("gen -w --decode=d t", "U4 --decode=d"),
        ("gen -w +16 t", "U4 +16"),
        ("gen -w 0x t", "U4 0x"),
        ("gen -w 0X10 t", "U4 0X10"),
        ("gen -w 0x1g t", "U4 0x1g"),
        ("gen -w 1f t", "U4 1f"),
        ("gen -w 18446744073709551616 t", "U4 18446744073709551616"),
        ("gen -w 0x10000000000000000 t", "U4 0x10000000000000000"),
        (
            "gen -w99999999999999999999999 t",
            "U4 -w99999999999999999999999",
        ),
    ];
    check_messages(&rt, table)
}

#[test]
fn widths_are_16_32_or_64(rt: HostRuntime) -> Result<(), Fail> {
    let table: &[(&str, &str)] = &[
        ("gen -w 24 t", "U5 24"),
        ("gen -w24 t", "U5 -w24"),
        ("gen -w0x18 t", "U5 -w0x18"),
        ("gen --insnwidth=0 t", "U5 --insnwidth=0"),
        ("gen --insnwidth 8 t", "U5 8"),
        ("gen -w 128 t", "U5 128"),
        ("gen -w 0x16 t", "U5 0x16"),
        ("gen -w 18446744073709551615 t", "U5 18446744073709551615"),
        ("gen -w 0xFFFFffffFFFFffff t", "U5 0xFFFFffffFFFFffff"),
    ];
    check_messages(&rt, table)
}

#[test]
fn a_missing_file_is_named_last(rt: HostRuntime) -> Result<(), Fail> {
    let table: &[(&str, &str)] = &[
        ("gen", "U6"),
        ("gen --", "U6"),
        ("gen -o t", "U6"),
        ("gen --decode d", "U6"),
        ("gen --test-for-error", "U6"),
        ("gen -w 24", "U5 24"),
        ("gen --frob", "U2 --frob"),
    ];
    check_messages(&rt, table)
}

#[test]
fn the_seventeenth_file_is_too_many(rt: HostRuntime) -> Result<(), Fail> {
    let table: &[(&str, &str)] = &[
        ("gen a b c d e f g h i j k l m n o p q", "U7 q"),
        ("gen a b c d e f g h i j k l m n o p q r", "U7 q"),
        (
            "gen a b c d e f g h -w 16 i j k l m n o p -- -q -w",
            "U7 -q",
        ),
        ("gen a b c d e f g h i j k l m n o p -", "U7 -"),
        ("gen a b c d e f g h i j k l m n o p ", "U7 "),
        ("gen a b c d e f g h i j k l m n o p q --frob", "U7 q"),
        ("gen a b c d e f g h i j k l m n o p --frob q", "U2 --frob"),
    ];
    check_messages(&rt, table)
}

#[test]
fn names_stand_in_the_c_text(rt: HostRuntime) -> Result<(), Fail> {
    let table: &[(&str, &str)] = &[
        ("gen --decode=int t", "U8 --decode=int"),
        ("gen --decode int t", "U8 int"),
        ("gen --static-decode=while t", "U8 --static-decode=while"),
        ("gen --static-decode 9a t", "U8 9a"),
        ("gen --translate=a-b t", "U8 --translate=a-b"),
        ("gen --translate a.b t", "U8 a.b"),
        ("gen --translate= t", "U8 --translate="),
        ("gen --decode  t", "U8 "),
        ("gen --decode -o t", "U8 -o"),
        ("gen --decode -- t", "U8 --"),
        ("gen --decode=é t", "U8 --decode=é"),
    ];
    check_messages(&rt, table)
}

#[test]
fn names_have_at_most_100_bytes(rt: HostRuntime) -> Result<(), Fail> {
    let table: &[(&str, &str)] = &[
        (
            "gen --decode=aaaaaaaaaaaaaaaaaaaaaaaaaaaaaaaaaaaaaaaaaaaaaaaaaaaaaaaaaaaaaaaaaaaaaaaaaaaaaaaaaaaaaaaaaaaaaaaaaaaaa t",
            "U8 --decode=aaaaaaaaaaaaaaaaaaaaaaaaaaaaaaaaaaaaaaaaaaaaaaaaaaaaaaaaaaaaaaaaaaaaaaaaaaaaaaaaaaaaaaaaaaaaaaaaaaaaa",
        ),
        (
            "gen --static-decode=aaaaaaaaaaaaaaaaaaaaaaaaaaaaaaaaaaaaaaaaaaaaaaaaaaaaaaaaaaaaaaaaaaaaaaaaaaaaaaaaaaaaaaaaaaaaaaaaaaaaa t",
            "U8 --static-decode=aaaaaaaaaaaaaaaaaaaaaaaaaaaaaaaaaaaaaaaaaaaaaaaaaaaaaaaaaaaaaaaaaaaaaaaaaaaaaaaaaaaaaaaaaaaaaaaaaaaaa",
        ),
        (
            "gen --translate=aaaaaaaaaaaaaaaaaaaaaaaaaaaaaaaaaaaaaaaaaaaaaaaaaaaaaaaaaaaaaaaaaaaaaaaaaaaaaaaaaaaaaaaaaaaaaaaaaaaaa t",
            "U8 --translate=aaaaaaaaaaaaaaaaaaaaaaaaaaaaaaaaaaaaaaaaaaaaaaaaaaaaaaaaaaaaaaaaaaaaaaaaaaaaaaaaaaaaaaaaaaaaaaaaaaaaa",
        ),
    ];
    check_messages(&rt, table)
}

#[test]
fn the_first_faulty_word_is_refused(rt: HostRuntime) -> Result<(), Fail> {
    let table: &[(&str, &str)] = &[
        ("gen --frob -w 24 t", "U2 --frob"),
        ("gen -w 24 --frob t", "U5 24"),
        ("gen -w 24 -w 16 t", "U5 24"),
        ("gen --decode=int --decode=d t", "U8 --decode=int"),
        ("gen --decode=int -o", "U8 --decode=int"),
        ("gen t -wx --translate=1 -o", "U4 -wx"),
    ];
    check_messages(&rt, table)
}
