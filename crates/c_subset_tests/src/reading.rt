//! Whole texts: those that spell a program, each rule broken once, and how deep braces may nest.

use crate::shown::push;
use c_subset::{CFault, read_c};
use std::process::Abort;

/// A program with a set, a pattern, an extraction and a load function.
pub const WHOLE: &str =
    "typedef struct { int rd; uint8_t imm; } arg_r;\ntypedef arg_r arg_p;\nstatic bool t_p(DisasContext *ctx, arg_p *a);\nstatic void g_extract_x(DisasContext *ctx, arg_r *a, uint16_t insn) { a->rd = extract32(insn, 0, 4); a->imm = -5; }\nstatic bool g(DisasContext *ctx, uint16_t insn) { union { arg_r f_r; } u; switch (insn & 0x000f) { case 0x0001: g_extract_x(ctx, &u.f_r, insn); if (t_p(ctx, &u.f_r)) return true; break; } return false; }\nstatic uint16_t g_load(DisasContext *ctx) { uint16_t insn = 0; insn = g_load_bytes(ctx, insn, 0, 1); switch (insn & 0x8000) { case 0x8000: insn = g_load_bytes(ctx, insn, 1, 2); return insn; } return insn; }\n";

/// The text with the one pattern `nop`.
pub const NOP_TEXT: &str =
    "/* Made from pattern files. */\n\ntypedef struct {\n} arg_decode0;\n\ntypedef arg_decode0 arg_nop;\nstatic bool trans_nop(DisasContext *ctx, arg_nop *a);\n\nstatic void decode_extract_decode_Fmt_0(DisasContext *ctx, arg_decode0 *a, uint32_t insn)\n{\n}\n\nstatic bool decode(DisasContext *ctx, uint32_t insn)\n{\n    union {\n        arg_decode0 f_decode0;\n    } u;\n\n    if ((insn & 0xffffffff) == 0x00000000) {\n        /* 1:1 */\n        decode_extract_decode_Fmt_0(ctx, &u.f_decode0, insn);\n        if (trans_nop(ctx, &u.f_decode0)) return true;\n    }\n    return false;\n}\n";

/// What a text is answered.
#[derive(Clone, Copy, PartialEq)]
enum Answer {
    /// A program is read.
    Program,
    /// No program spells the text.
    Nothing,
    /// It is too deep.
    TooDeep,
    /// Memory ran out.
    NoMemory,
}

fn answered(rt: &(impl Abort + AllocGlobal), text: &[u8]) -> Answer {
    match read_c(rt.alloc(), text) {
        Ok(_) => Answer::Program,
        Err(CFault::NotSubset) => Answer::Nothing,
        Err(CFault::TooDeep) => Answer::TooDeep,
        Err(CFault::NoMemory) => Answer::NoMemory,
    }
}

fn check(rt: &(impl Abort + AllocGlobal), table: &[(&str, Answer)]) {
    for (text, wanted) in table {
        assert!(rt; answered(rt, text.as_bytes()) == *wanted, "{text}");
    }
}

// The answer to the whole program's text with a part of it in the place of another.
fn answered_replaced(rt: &(impl Abort + AllocGlobal), old: &str, new: &str) -> Answer {
    let text: String = WHOLE.replace(rt.alloc(), old, new).expect(rt, "memory");
    answered(rt, text.as_bytes())
}

// Rows of a part that stands in the whole program's text, what takes its place, and the answer.
fn check_replaced(rt: &(impl Abort + AllocGlobal), table: &[(&str, &str, Answer)]) {
    for (old, new, wanted) in table {
        assert!(rt; WHOLE.contains(*old), "{old}");
        assert!(rt;
            answered_replaced(rt, old, new) == *wanted,
            "{new} for {old}"
        );
    }
}

// The texts of docs/C_SUBSET.md, one with a branch's immediate, and the first with a digit less.
#[test]
fn texts_of_the_page_are_read(rt: HostRuntime) {
    let table: &[(&str, Answer)] = &[
        (NOP_TEXT, Answer::Program),
        (
            "/* Made from pattern files. */\n\nstatic bool decode(DisasContext *ctx, uint32_t insn)\n{\n    return false;\n}\n",
            Answer::Program,
        ),
        (
            "typedef struct {\n    int imm;\n} arg_b;\n\ntypedef arg_b arg_beq;\nstatic bool trans_beq(DisasContext *ctx, arg_beq *a);\n\nstatic void decode_extract_b(DisasContext *ctx, arg_b *a, uint32_t insn)\n{\n    a->imm = (int32_t)deposit32(deposit32(deposit32(extract32(insn, 8, 4), 4, 28, extract32(insn, 25, 6)), 10, 22, extract32(insn, 7, 1)), 11, 21, sextract32(insn, 31, 1));\n}\n\nstatic bool decode(DisasContext *ctx, uint32_t insn)\n{\n    union {\n        arg_b f_b;\n    } u;\n\n    if ((insn & 0x0000707f) == 0x00000063) {\n        /* 1:5 */\n        decode_extract_b(ctx, &u.f_b, insn);\n        if (trans_beq(ctx, &u.f_b)) return true;\n    }\n    return false;\n}\n",
            Answer::Program,
        ),
        (
            "/* Made from pattern files. */\n\ntypedef struct {\n} arg_decode0;\n\ntypedef arg_decode0 arg_nop;\nstatic bool trans_nop(DisasContext *ctx, arg_nop *a);\n\nstatic void decode_extract_decode_Fmt_0(DisasContext *ctx, arg_decode0 *a, uint32_t insn)\n{\n}\n\nstatic bool decode(DisasContext *ctx, uint32_t insn)\n{\n    union {\n        arg_decode0 f_decode0;\n    } u;\n\n    if ((insn & 0xffffffff) == 0x0000000) {\n        /* 1:1 */\n        decode_extract_decode_Fmt_0(ctx, &u.f_decode0, insn);\n        if (trans_nop(ctx, &u.f_decode0)) return true;\n    }\n    return false;\n}\n",
            Answer::Nothing,
        ),
    ];
    check(&rt, table)
}

// Each text breaks one rule of the subset, and no other.
#[test]
fn each_rule_of_sets_and_patterns_is_asked(rt: HostRuntime) {
    let table: &[(&str, &str, Answer)] = &[
        ("int rd;", "int rd", Answer::Nothing),
        ("int rd;", "int rd; int rd;", Answer::Nothing),
        ("int rd;", "int rd; word_t other;", Answer::Program),
        ("} arg_r;", "} r;", Answer::Nothing),
        ("} arg_r;", "} arg_;", Answer::Nothing),
        (
            "typedef arg_r arg_p;",
            "typedef struct { } arg_r; typedef arg_r arg_p;",
            Answer::Nothing,
        ),
        ("typedef arg_r arg_p;", "typedef arg_r p;", Answer::Nothing),
        ("arg_p *a);", "arg_q *a);", Answer::Nothing),
        ("bool t_p(", "bool tp(", Answer::Nothing),
        ("bool t_p(", "bool _p(", Answer::Nothing),
        (
            "arg_p *a);",
            "arg_p *a); typedef arg_r arg_q; static bool t_q(DisasContext *ctx, arg_q *a);",
            Answer::Program,
        ),
        (
            "arg_p *a);",
            "arg_p *a); typedef arg_r arg_q; static bool u_q(DisasContext *ctx, arg_q *a);",
            Answer::Nothing,
        ),
        (
            "arg_p *a);",
            "arg_p *a); typedef arg_r arg_q; bool t_q(DisasContext *ctx, arg_q *a);",
            Answer::Nothing,
        ),
        (
            "arg_p *a);",
            "arg_p *a); typedef arg_r arg_p; static bool t_p(DisasContext *ctx, arg_p *a);",
            Answer::Nothing,
        ),
    ];
    check_replaced(&rt, table)
}

#[test]
fn each_rule_of_extractions_is_asked(rt: HostRuntime) {
    let table: &[(&str, &str, Answer)] = &[
        (
            "static void g_extract_x",
            "void g_extract_x",
            Answer::Nothing,
        ),
        (
            "static void g_extract_x",
            "static void h_extract_x",
            Answer::Nothing,
        ),
        (
            "arg_r *a, uint16_t insn",
            "arg_r *a, uint32_t insn",
            Answer::Nothing,
        ),
        ("a->imm = -5;", "a->imm = -05;", Answer::Nothing),
        ("a->imm = -5;", "a->imm = -0;", Answer::Nothing),
        ("a->imm = -5;", "a->imm = - 5;", Answer::Program),
        ("a->imm = -5;", "a->imm = -5", Answer::Nothing),
        ("a->imm = -5;", "u.f_r.imm = -5;", Answer::Nothing),
        (
            "a->imm = -5;",
            "a->imm = extract32(a->rd, 0, 4);",
            Answer::Program,
        ),
        (
            "a->imm = -5;",
            "a->imm = extract32(a->rd, 1, 4);",
            Answer::Nothing,
        ),
        (
            "a->imm = -5;",
            "a->imm = extract64(insn, 0, 4);",
            Answer::Nothing,
        ),
        ("a->imm = -5;", "a->imm = f(ctx, f(ctx));", Answer::Nothing),
        (
            "a->imm = -5;",
            "a->imm = 9223372036854775807;",
            Answer::Program,
        ),
        (
            "a->imm = -5;",
            "a->imm = 9223372036854775808;",
            Answer::Nothing,
        ),
        (
            "extract32(insn, 0, 4)",
            "extract32(insn, 0, 4294967295)",
            Answer::Program,
        ),
        (
            "extract32(insn, 0, 4)",
            "extract32(insn, 0, 4294967296)",
            Answer::Nothing,
        ),
    ];
    check_replaced(&rt, table)
}

#[test]
fn each_rule_of_the_decoder_is_asked(rt: HostRuntime) {
    let table: &[(&str, &str, Answer)] = &[
        ("union { arg_r f_r; } u;", "", Answer::Nothing),
        ("union { arg_r f_r; } u;", "union { } u;", Answer::Program),
        (
            "union { arg_r f_r; } u;",
            "union { arg_r f_q; } u;",
            Answer::Nothing,
        ),
        (
            "union { arg_r f_r; } u;",
            "union { arg_r f_r; arg_r f_r; } u;",
            Answer::Nothing,
        ),
        ("case 0x0001:", "case 0x001:", Answer::Nothing),
        ("case 0x0001:", "case 0x00001:", Answer::Nothing),
        ("(insn & 0x000f)", "(insn & 0x000F)", Answer::Nothing),
        ("(insn & 0x000f)", "(insn & 15)", Answer::Nothing),
        ("break;", "", Answer::Nothing),
        ("break;", "break; case 0x0001: break;", Answer::Program),
        ("g_extract_x(ctx, &u", "g_extract_(ctx, &u", Answer::Nothing),
        ("return true;", "return false;", Answer::Nothing),
        ("return false;", "return true;", Answer::Nothing),
        ("static bool g(", "bool g(", Answer::Nothing),
    ];
    check_replaced(&rt, table)
}

#[test]
fn each_rule_of_the_load_function_is_asked(rt: HostRuntime) {
    let table: &[(&str, &str, Answer)] = &[
        (
            "static uint16_t g_load(",
            "uint16_t g_load(",
            Answer::Nothing,
        ),
        (
            "static uint16_t g_load(",
            "static uint32_t g_load(",
            Answer::Nothing,
        ),
        (
            "static uint16_t g_load(",
            "static uint16_t h_load(",
            Answer::Nothing,
        ),
        ("uint16_t insn = 0;", "uint16_t insn = 1;", Answer::Nothing),
        (
            "g_load_bytes(ctx, insn, 0, 1)",
            "g_load_bytes(ctx, insn, 00, 1)",
            Answer::Nothing,
        ),
        (
            "g_load_bytes(ctx, insn, 0, 1)",
            "g_load_bytes(ctx, insn, 7, 3)",
            Answer::Program,
        ),
        (
            "g_load_bytes(ctx, insn, 0, 1)",
            "h_load_bytes(ctx, insn, 0, 1)",
            Answer::Nothing,
        ),
        ("insn = g_load_bytes(ctx, insn, 1, 2);", "", Answer::Program),
        (
            "case 0x8000: insn = g_load_bytes(ctx, insn, 1, 2); return insn;",
            "",
            Answer::Nothing,
        ),
        ("return insn; }\n", "}\n", Answer::Nothing),
        ("return insn; }\n", "return insn; } }\n", Answer::Nothing),
        ("return insn; }\n", "return insn; } ;\n", Answer::Nothing),
    ];
    check_replaced(&rt, table)
}

#[test]
fn programs_without_patterns_have_no_union_and_no_call(rt: HostRuntime) {
    let table: &[(&str, Answer)] = &[
        (
            "bool g(DisasContext *ctx, uint32_t insn) { return false; }",
            Answer::Program,
        ),
        (
            "bool g(DisasContext *ctx, uint32_t insn) { union { } u; return false; }",
            Answer::Nothing,
        ),
        (
            "bool g(DisasContext *ctx, uint32_t insn) { if (t_p(ctx, &u.f_r)) return true; return false; }",
            Answer::Nothing,
        ),
        (
            "bool g(DisasContext *ctx, uint32_t insn) { u.f_r.a = 1; return false; }",
            Answer::Program,
        ),
        (
            "bool g(DisasContext *ctx, uint8_t insn) { return false; }",
            Answer::Nothing,
        ),
        (
            "bool g(DisasContext *ctx, uint32_t insn) { }",
            Answer::Nothing,
        ),
        ("", Answer::Nothing),
        ("int x;", Answer::Nothing),
    ];
    check(&rt, table)
}

#[test]
fn comments_stand_between_tokens(rt: HostRuntime) {
    let table: &[(&str, Answer)] = &[
        (
            "/**/bool/* a */g(DisasContext/***/*ctx,uint32_t insn)/* { */{return false;}/* } */",
            Answer::Program,
        ),
        (
            "bool g(DisasContext *ctx, uint32_t insn) { return/**/false; }",
            Answer::Program,
        ),
        (
            "bool g(DisasContext *ctx, uint32_t insn) { ret/**/urn false; }",
            Answer::Nothing,
        ),
        (
            "bool g(DisasContext *ctx, uint32_t insn) { return false; } // end",
            Answer::Nothing,
        ),
        (
            "bool g(DisasContext *ctx, uint32_t insn) { return false; } /* end",
            Answer::Nothing,
        ),
        (
            "bool g(DisasContext *ctx, uint32_t insn) { return false; } /",
            Answer::Nothing,
        ),
    ];
    check(&rt, table)
}

// The text ends with a brace and a line feed: without the line feed it spells the same program, and up to the end of
// the decoder it spells one without a load function.
#[test]
fn a_text_that_is_cut_elsewhere_spells_nothing(rt: HostRuntime) {
    let bytes = WHOLE.as_bytes();
    let load = WHOLE
        .find("static uint16_t g_load")
        .expect(&rt, "a load function");
    for length in 0..bytes.len() {
        let (front, _) = bytes.split_at(length);
        let ends = length + 1 == load || length == load || length + 1 == bytes.len();
        let is_read = answered(&rt, front) == Answer::Program;
        assert!(rt; is_read == ends, "cut at {length}");
        assert!(rt;
            is_read || answered(&rt, front) == Answer::Nothing,
            "cut at {length}"
        );
    }
}

// A decoder with so many blocks in one another.
fn nested(rt: &(impl Abort + AllocGlobal), count: usize) -> String {
    let mut text = String::new(rt.alloc());
    push(rt, &mut text, "bool g(DisasContext *ctx, uint32_t insn) { ");
    for _ in 0..count {
        push(rt, &mut text, "if ((insn & 0x00000001) == 0x00000001) { ");
    }
    for _ in 0..count {
        push(rt, &mut text, "} ");
    }
    push(rt, &mut text, "return false; }");
    text
}

fn check_nested(rt: &(impl Abort + AllocGlobal), table: &[(usize, Answer)]) {
    for (count, wanted) in table {
        let text = nested(rt, *count);
        assert!(rt; answered(rt, text.as_bytes()) == *wanted, "{count} blocks");
    }
}

#[test]
fn braces_nest_128_deep(rt: HostRuntime) {
    let table: &[(usize, Answer)] = &[(127, Answer::Program), (128, Answer::TooDeep)];
    check_nested(&rt, table)
}
