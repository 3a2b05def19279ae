//! Texts with their tokens, after the rules of docs/C_SUBSET.md, texts that nest deep, and what words spell.

use c_tokens::{ReadFault, Token, decimal_of, hexadecimal_of, is_too_deep, name_behind, tokens};
use dt_values::Width;
use std::alloc::{AllocError, Global};
use std::process::Abort;
use std::test::Fail;

// The token, and a space behind it.
fn push_token(shown: &mut String, token: Token) -> Result<(), AllocError> {
    match token {
        Token::Word(bytes) => {
            for byte in bytes {
                shown.push(char::from(*byte))?;
            }
        }
        Token::Mark(byte) => shown.push(char::from(byte))?,
        Token::DoubleEquals => shown.push_str("==")?,
        Token::Arrow => shown.push_str("->")?,
    }
    shown.push(' ')?;
    Ok(())
}

// The tokens with a space behind each, or `none`.
fn summary(alloc: Global, text: &str) -> Result<String, Fail> {
    let mut shown = String::new(alloc);
    match tokens(alloc, text.as_bytes()) {
        Ok(found) => {
            for token in &found {
                push_token(&mut shown, *token)?;
            }
        }
        Err(ReadFault::NotSubset) => shown.push_str("none")?,
        Err(ReadFault::NoMemory) => return Err("no memory".into()),
    }
    Ok(shown)
}

fn check_tokens(rt: &(impl Abort + AllocGlobal), table: &[(&str, &str)]) -> Result<(), Fail> {
    for (text, wanted) in table {
        let shown = summary(rt.alloc(), text)?;
        assert!(rt; shown.as_str() == *wanted, "{text}");
    }
    Ok(())
}

#[test]
fn each_kind_of_token_is_read(rt: HostRuntime) -> Result<(), Fail> {
    check_tokens(
        &rt,
        &[
            ("", ""),
            (" \t\n\r", ""),
            ("a", "a "),
            ("_A9z", "_A9z "),
            ("9a", "9a "),
            ("0x7f", "0x7f "),
            ("{}();:,*&.", "{ } ( ) ; : , * & . "),
            ("=", "= "),
            ("==", "== "),
            ("===", "== = "),
            ("====", "== == "),
            ("= =", "= = "),
            ("-", "- "),
            ("->", "-> "),
            ("-->", "- -> "),
            ("=-", "= - "),
            ("-5", "- 5 "),
        ],
    )
}

#[test]
fn tokens_stand_close_together(rt: HostRuntime) -> Result<(), Fail> {
    check_tokens(
        &rt,
        &[
            ("a b", "a b "),
            ("a;b", "a ; b "),
            ("a->b=c", "a -> b = c "),
            ("if((insn&0x1)==0x1){", "if ( ( insn & 0x1 ) == 0x1 ) { "),
            ("u.f_r.imm = -3;", "u . f_r . imm = - 3 ; "),
        ],
    )
}

#[test]
fn comments_are_dropped(rt: HostRuntime) -> Result<(), Fail> {
    check_tokens(
        &rt,
        &[
            ("/**/", ""),
            ("/***/", ""),
            ("/****/", ""),
            ("/*/*/", ""),
            ("/* a */", ""),
            ("a/* b */c", "a c "),
            ("a/**/b/***/", "a b "),
            ("=/**/=", "= = "),
            ("-/* * / */>", "none"),
            ("/* ** /* # */ a", "a "),
            ("/**/*/**/", "* "),
        ],
    )
}

#[test]
fn other_texts_have_no_tokens(rt: HostRuntime) -> Result<(), Fail> {
    check_tokens(
        &rt,
        &[
            ("/", "none"),
            ("//", "none"),
            ("/ *", "none"),
            ("a /* b", "none"),
            ("/*", "none"),
            ("/*/", "none"),
            ("/**", "none"),
            ("/**/ */", "none"),
            ("#", "none"),
            ("a#", "none"),
            ("a > b", "none"),
            ("- >", "none"),
            (">", "none"),
            ("a+b", "none"),
            ("\"a\"", "none"),
        ],
    )
}

// What stands in front of opening braces, how many there are, what stands behind them, and whether that is too deep.
type DeepRow<'a> = (&'a str, usize, &'a str, bool);

fn nested(alloc: Global, front: &str, count: usize, behind: &str) -> Result<String, AllocError> {
    let mut text = String::from_str(alloc, front)?;
    for _ in 0..count {
        text.push('{')?;
    }
    text.push_str(behind)?;
    Ok(text)
}

fn check_depths(rt: &(impl Abort + AllocGlobal), table: &[DeepRow]) -> Result<(), Fail> {
    for (front, count, behind, deep) in table {
        let text = nested(rt.alloc(), front, *count, behind)?;
        let found = is_too_deep(text.as_str().as_bytes());
        assert!(rt; found == *deep, "{front} and {count} braces and {behind}");
    }
    Ok(())
}

#[test]
fn a_token_stands_inside_128_braces(rt: HostRuntime) -> Result<(), Fail> {
    check_depths(
        &rt,
        &[
            ("", 0, "", false),
            ("", 128, "a}{", false),
            ("", 129, "", false),
            ("", 129, " /* a */ ", false),
            ("", 129, "a", true),
            ("", 129, "}", true),
            ("", 130, "", true),
        ],
    )
}

#[test]
fn tokens_count_up_to_the_first_place_without_one(rt: HostRuntime) -> Result<(), Fail> {
    check_depths(
        &rt,
        &[
            ("", 129, "#a", false),
            ("", 129, "a#", true),
            ("", 129, "/a", false),
            ("", 129, "/* a", false),
            ("", 129, "=/* a", true),
        ],
    )
}

#[test]
fn a_closing_brace_too_many_opens_nothing(rt: HostRuntime) -> Result<(), Fail> {
    check_depths(&rt, &[("", 1, "}}}}{", false), ("}}", 129, ";", true)])
}

fn check_decimals(rt: &impl Abort, table: &[(&str, Option<u64>)]) {
    for (word, wanted) in table {
        assert!(rt; decimal_of(word.as_bytes()) == *wanted, "{word}");
    }
}

fn check_hexadecimals(rt: &impl Abort, table: &[(Width, &str, Option<u64>)]) {
    for (width, word, wanted) in table {
        assert!(rt;
            hexadecimal_of(*width, word.as_bytes()) == *wanted,
            "{word}"
        );
    }
}

#[test]
fn numbers_are_spelled_in_one_way(rt: HostRuntime) {
    check_decimals(
        &rt,
        &[
            ("0", Some(0)),
            ("7", Some(7)),
            ("120", Some(120)),
            ("18446744073709551615", Some(u64::MAX)),
            ("18446744073709551616", None),
            ("99999999999999999999999999999999999999999", None),
            ("", None),
            ("00", None),
            ("012", None),
            ("1a", None),
        ],
    );
    check_hexadecimals(
        &rt,
        &[
            (Width::W16, "0x00ff", Some(255)),
            (Width::W16, "0xff", None),
            (Width::W16, "0x000ff", None),
            (Width::W16, "0x00FF", None),
            (Width::W16, "000xff", None),
            (Width::W16, "0x00g0", None),
            (Width::W32, "0x80000001", Some(0x8000_0001)),
            (Width::W64, "0xffffffffffffffff", Some(u64::MAX)),
            (Width::W64, "", None),
        ],
    );
}

fn has_behind(fixed: &str, word: &str, wanted: Option<&str>) -> bool {
    match (name_behind(fixed.as_bytes(), word.as_bytes()), wanted) {
        (None, None) => true,
        (Some(name), Some(text)) => name.as_str() == text,
        _ => false,
    }
}

fn check_names(rt: &impl Abort, table: &[(&str, &str, Option<&str>)]) {
    for (fixed, word, wanted) in table {
        assert!(rt; has_behind(fixed, word, *wanted), "{fixed} before {word}");
    }
}

#[test]
fn names_stand_behind_fixed_bytes(rt: HostRuntime) {
    check_names(
        &rt,
        &[
            ("arg_", "arg_r", Some("r")),
            ("arg_", "arg_arg_", Some("arg_")),
            ("arg_", "arg_", None),
            ("arg_", "arg", None),
            ("f_", "arg_r", None),
            ("", "9z", Some("9z")),
            ("", "", None),
            ("f_", "f_a.b", None),
        ],
    );
}
