//! Texts with the load function that they spell, after the rules of docs/C_SUBSET.md, and texts that spell none.

use crate::shown::{load_shown, push};
use c_subset::LoadBlock;
use c_subset::loads::load_function_at;
use c_tokens::{ReadFault, Tokens, tokens};
use dt_values::{Name, Width};
use std::process::Abort;

// What is shown of a text that spells no function, and what of no text.
const NONE: &str = "";

const NO_FUNCTION: &str = "no function";

fn decoder(rt: &impl Abort) -> Name {
    Name::from_bytes(b"d").expect(rt, "a name")
}

// What the whole text spells, of the decoder `d` of 32 bits: a function or nothing.
fn read(
    rt: &(impl Abort + AllocGlobal),
    is_static: bool,
    braces: u32,
    text: &str,
) -> Option<Option<LoadBlock>> {
    let decoder = decoder(rt);
    let found = tokens(rt.alloc(), text.as_bytes()).expect(rt, "tokens");
    let mut left = Tokens::of(&found);
    match load_function_at(
        rt.alloc(),
        Width::W32,
        &decoder,
        is_static,
        braces,
        &mut left,
    ) {
        Ok(function) if left.is_empty() => Some(function),
        Ok(_) => None,
        Err(fault) => {
            assert!(rt; matches!(fault, ReadFault::NotSubset), "memory");
            None
        }
    }
}

fn function_shown(
    rt: &(impl Abort + AllocGlobal),
    is_static: bool,
    braces: u32,
    text: &str,
) -> String {
    match read(rt, is_static, braces, text) {
        Some(Some(block)) => load_shown(rt, &block),
        Some(None) => made(rt, NO_FUNCTION),
        None => made(rt, NONE),
    }
}

fn made(rt: &(impl Abort + AllocGlobal), part: &str) -> String {
    let mut text = String::new(rt.alloc());
    push(rt, &mut text, part);
    text
}

// A function with these lines.
fn function(rt: &(impl Abort + AllocGlobal), lines: &str) -> String {
    let mut text = made(
        rt,
        "uint32_t d_load(DisasContext *ctx) { uint32_t insn = 0; ",
    );
    push(rt, &mut text, lines);
    push(rt, &mut text, " }");
    text
}

// Rows of a function's lines inside at most two braces.
fn check_lines(rt: &(impl Abort + AllocGlobal), table: &[(&str, &str)]) {
    for (lines, wanted) in table {
        let text = function(rt, lines);
        let shown = function_shown(rt, false, 2, text.as_str());
        assert!(rt; shown.as_str() == *wanted, "{lines}");
    }
}

#[test]
fn a_block_loads_and_returns(rt: HostRuntime) {
    let table: &[(&str, &str)] = &[
        ("return insn;", "{ }"),
        (
            "insn = d_load_bytes(ctx, insn, 0, 4); return insn;",
            "{ load 0 4 }",
        ),
        (
            "insn = d_load_bytes(ctx, insn, 4294967295, 10); return insn;",
            "{ load 4294967295 10 }",
        ),
    ];
    check_lines(&rt, table)
}

#[test]
fn a_switch_goes_on_in_its_cases(rt: HostRuntime) {
    let table: &[(&str, &str)] = &[(
        "insn = d_load_bytes(ctx, insn, 0, 2);
        switch (insn & 0x000000c0) {
        case 0x000000c0:
            return insn;
        case 0x00000040:
            switch (insn & 0x00000001) {
            case 0x00000001:
                insn = d_load_bytes(ctx, insn, 2, 3);
                return insn;
            }
            return insn;
        }
        return insn;",
        "{ load 0 2 switch c0 { case c0 { } case 40 { switch 1 { case 1 { load 2 3 } } } } }",
    )];
    check_lines(&rt, table)
}

#[test]
fn other_blocks_are_none(rt: HostRuntime) {
    let table: &[(&str, &str)] = &[
        // No return, bytes without a return, two returns, and another return.
        ("", NONE),
        ("insn = d_load_bytes(ctx, insn, 0, 4);", NONE),
        ("return insn; return insn;", NONE),
        ("return 0;", NONE),
        // A leading zero, in front and behind.
        ("insn = d_load_bytes(ctx, insn, 00, 4); return insn;", NONE),
        ("insn = d_load_bytes(ctx, insn, 0, 04); return insn;", NONE),
        // 33 bits.
        (
            "insn = d_load_bytes(ctx, insn, 0, 4294967296); return insn;",
            NONE,
        ),
        // One number.
        ("insn = d_load_bytes(ctx, insn, 0); return insn;", NONE),
        // Another decoder, and another function.
        ("insn = e_load_bytes(ctx, insn, 0, 4); return insn;", NONE),
        ("insn = d_load_byte(ctx, insn, 0, 4); return insn;", NONE),
        // Bytes that are lost.
        ("d_load_bytes(ctx, insn, 0, 4); return insn;", NONE),
        // A switch without a case.
        ("switch (insn & 0x00000001) { } return insn;", NONE),
        // A case without a return, and with a break.
        (
            "switch (insn & 0x00000001) { case 0x00000000: } return insn;",
            NONE,
        ),
        (
            "switch (insn & 0x00000001) { case 0x00000000: break; } return insn;",
            NONE,
        ),
        // Four digits of eight.
        (
            "switch (insn & 0x0001) { case 0x0000: return insn; } return insn;",
            NONE,
        ),
        // A switch without a return.
        (
            "switch (insn & 0x00000001) { case 0x00000000: return insn; }",
            NONE,
        ),
    ];
    check_lines(&rt, table)
}

// Rows of static or not, how many braces at most, a text, and what it spells.
fn check_texts(rt: &(impl Abort + AllocGlobal), table: &[(bool, u32, &str, &str)]) {
    for (is_static, braces, text, wanted) in table {
        let shown = function_shown(rt, *is_static, *braces, text);
        assert!(rt; shown.as_str() == *wanted, "{text}");
    }
}

#[test]
fn no_text_is_no_function(rt: HostRuntime) {
    let table: &[(bool, u32, &str, &str)] = &[(true, 2, "", NO_FUNCTION)];
    check_texts(&rt, table)
}

const STATIC: &str =
    "static uint32_t d_load(DisasContext *ctx) { uint32_t insn = 0; return insn; }";

#[test]
fn the_head_is_that_of_the_decoder(rt: HostRuntime) {
    let table: &[(bool, u32, &str, &str)] = &[
        (true, 0, STATIC, "{ }"),
        (false, 2, STATIC, NONE),
        (
            true,
            2,
            "uint32_t d_load(DisasContext *ctx) { uint32_t insn = 0; return insn; }",
            NONE,
        ),
        (
            false,
            2,
            "uint16_t d_load(DisasContext *ctx) { uint32_t insn = 0; return insn; }",
            NONE,
        ),
        (
            false,
            2,
            "uint32_t d_load(DisasContext *ctx) { uint64_t insn = 0; return insn; }",
            NONE,
        ),
        (
            false,
            2,
            "uint32_t e_load(DisasContext *ctx) { uint32_t insn = 0; return insn; }",
            NONE,
        ),
        (
            false,
            2,
            "uint32_t d_loads(DisasContext *ctx) { uint32_t insn = 0; return insn; }",
            NONE,
        ),
        (
            false,
            2,
            "uint32_t d_load(DisasContext *ctx) { uint32_t insn = 1; return insn; }",
            NONE,
        ),
        (
            false,
            2,
            "uint32_t d_load(DisasContext *ctx) { return insn; }",
            NONE,
        ),
        (
            false,
            2,
            "uint32_t d_load(DisasContext *ctx) { uint32_t insn = 0; return insn;",
            NONE,
        ),
        (
            false,
            2,
            "uint32_t d_load(DisasContext *ctx) { uint32_t insn = 0; return insn; } }",
            NONE,
        ),
    ];
    check_texts(&rt, table)
}

// A switch in so many others.
fn nested(rt: &(impl Abort + AllocGlobal), count: usize) -> String {
    let mut lines = String::new(rt.alloc());
    for _ in 0..count {
        push(
            rt,
            &mut lines,
            "switch (insn & 0x00000001) { case 0x00000001:",
        );
    }
    push(rt, &mut lines, "return insn;");
    for _ in 0..count {
        push(rt, &mut lines, "} return insn;");
    }
    function(rt, lines.as_str())
}

// Rows of a bound, of how many switches, and whether a function is read.
fn check_nested(rt: &(impl Abort + AllocGlobal), table: &[(u32, usize, bool)]) {
    for (braces, count, wanted) in table {
        let text = nested(rt, *count);
        let found = read(rt, false, *braces, text.as_str());
        assert!(rt; found.is_some() == *wanted, "{count} in {braces}");
    }
}

#[test]
fn switches_nest_as_deep_as_the_bound(rt: HostRuntime) {
    let table: &[(u32, usize, bool)] = &[
        (0, 0, true),
        (1, 1, true),
        (2, 2, true),
        (127, 127, true),
        (0, 1, false),
        (1, 2, false),
        (127, 128, false),
    ];
    check_nested(&rt, table)
}
