//! Texts with what they declare and with the union's sets, after the rules of docs/C_SUBSET.md, and texts that no
//! program spells. What is behind is the end of a decoder without statements.

use crate::shown::{declared_shown, push, union_shown};
use c_subset::{CFault, Program, read_c};
use std::process::Abort;

const HEAD: &str = "bool d(DisasContext *ctx, uint32_t insn) {";

// What is shown of a text that no program spells.
const NONE: &str = "none";

// A text of so many parts.
fn joined(rt: &(impl Abort + AllocGlobal), parts: &[&str]) -> String {
    let mut text = String::new(rt.alloc());
    for part in parts {
        push(rt, &mut text, part);
    }
    text
}

// Whether a program has nothing but declarations.
fn is_bare(program: &Program) -> bool {
    program.body.items().is_empty()
        && program.union_sets.items().is_empty()
        && program.load.is_none()
}

// What a text declares that has nothing else, where a program spells it.
fn bare_shown(rt: &(impl Abort + AllocGlobal), text: &str) -> Option<String> {
    match read_c(rt.alloc(), text.as_bytes()) {
        Ok(program) => {
            assert!(rt; is_bare(&program), "{text}");
            Some(declared_shown(rt, &program))
        }
        Err(fault) => {
            assert!(rt; matches!(fault, CFault::NotSubset), "{text}");
            None
        }
    }
}

// What a text up to the decoder's head declares, where it is the front of a program: an empty union stands behind it
// exactly where a pattern is declared.
fn declared(rt: &(impl Abort + AllocGlobal), text: &str) -> String {
    let without = joined(rt, &[text, " return false; }"]);
    let within = joined(rt, &[text, " union { } u; return false; }"]);
    match bare_shown(rt, without.as_str()) {
        Some(shown) => shown,
        None => match bare_shown(rt, within.as_str()) {
            Some(shown) => shown,
            None => joined(rt, &[NONE]),
        },
    }
}

// Rows of a text up to the decoder's head.
fn check_heads(rt: &(impl Abort + AllocGlobal), table: &[(&str, &str)]) {
    for (text, wanted) in table {
        let shown = declared(rt, text);
        assert!(rt; shown.as_str() == *wanted, "{text}");
    }
}

// Rows of what stands before the head of the decoder `d` of 32 bits that isn't static.
fn check(rt: &(impl Abort + AllocGlobal), table: &[(&str, &str)]) {
    for (text, wanted) in table {
        let whole = joined(rt, &[text, " ", HEAD]);
        let shown = declared(rt, whole.as_str());
        assert!(rt; shown.as_str() == *wanted, "{text}");
    }
}

#[test]
fn a_decoder_stands_alone(rt: HostRuntime) {
    let table: &[(&str, &str)] = &[
        (HEAD, "decoder d 32"),
        (
            "static bool decode_16(DisasContext *ctx, uint16_t insn) {",
            "decoder static decode_16 16",
        ),
        ("bool d(DisasContext *ctx, uint64_t insn) {", "decoder d 64"),
    ];
    check_heads(&rt, table)
}

#[test]
fn sets_have_any_number_of_arguments(rt: HostRuntime) {
    let table: &[(&str, &str)] = &[(
        "typedef struct { } arg_0; typedef struct { int rd; uint64_t 9_imm; } arg_r_2;",
        "set 0 { }; set r_2 { Int rd; U64 9_imm; }; decoder d 32",
    )];
    check(&rt, table)
}

fn check_types(rt: &(impl Abort + AllocGlobal), table: &[(&str, &str)]) {
    for (text, ctype) in table {
        let whole = joined(rt, &["typedef struct { ", text, " a; } arg_s; ", HEAD]);
        let wanted = joined(rt, &["set s { ", ctype, " a; }; decoder d 32"]);
        let shown = declared(rt, whole.as_str());
        assert!(rt; shown.as_str() == wanted.as_str(), "{text}");
    }
}

#[test]
fn each_type_is_read(rt: HostRuntime) {
    let table: &[(&str, &str)] = &[
        ("int", "Int"),
        ("int8_t", "I8"),
        ("int16_t", "I16"),
        ("int32_t", "I32"),
        ("int64_t", "I64"),
        ("uint8_t", "U8"),
        ("uint16_t", "U16"),
        ("uint32_t", "U32"),
        ("uint64_t", "U64"),
        ("TCGv", "Other TCGv"),
        ("int128_t", "Other int128_t"),
    ];
    check_types(&rt, table)
}

#[test]
fn patterns_share_their_prefix(rt: HostRuntime) {
    let table: &[(&str, &str)] = &[(
        "typedef arg_r arg_0a; static bool trans_x_0a(DisasContext *ctx, arg_0a *a);
         typedef arg_s arg_a_b; static bool trans_x_a_b(DisasContext *ctx, arg_a_b *a);
         typedef arg_r arg__; static bool trans_x__(DisasContext *ctx, arg__ *a);",
        "prefix static trans_x; pattern 0a r; pattern a_b s; pattern _ r; decoder d 32",
    )];
    check(&rt, table)
}

#[test]
fn prototypes_need_not_be_static(rt: HostRuntime) {
    let table: &[(&str, &str)] = &[(
        "typedef arg_s arg_p; bool __p(DisasContext *ctx, arg_p *a);
         typedef arg_s arg_q; bool __q(DisasContext *ctx, arg_q *a);",
        "prefix _; pattern p s; pattern q s; decoder d 32",
    )];
    check(&rt, table)
}

#[test]
fn extractions_are_those_of_the_decoder(rt: HostRuntime) {
    let table: &[(&str, &str)] = &[
        (
            "static void d_extract_x_extract_9(DisasContext *ctx, arg_s *a, uint32_t insn) { }
             bool d(DisasContext *ctx, uint32_t insn) {",
            "extraction x_extract_9 s { }; decoder d 32",
        ),
        (
            "static void d_extract_x_extract_9(DisasContext *ctx, arg_s *a, uint32_t insn) { }
             bool d_extract_x(DisasContext *ctx, uint32_t insn) {",
            "extraction 9 s { }; decoder d_extract_x 32",
        ),
    ];
    check_heads(&rt, table)
}

#[test]
fn extractions_assign(rt: HostRuntime) {
    let table: &[(&str, &str)] = &[(
        "static void d_extract_x(DisasContext *ctx, arg_s *a, uint32_t insn) { a->a = -7; a->b = f(ctx); }
         static void d_extract_y(DisasContext *ctx, arg_t *a, uint32_t insn) { }",
        "extraction x s { a = (-7); b = (f); }; extraction y t { }; decoder d 32",
    )];
    check(&rt, table)
}

const HALF: &str = "xxxxxxxxxxxxxxxxxxxxxxxxxxxxxxxxxxxxxxxxxxxxxxxxxxxxxxxxxxxxxxxx";

// A set whose name is two halves and more.
fn set_shown(rt: &(impl Abort + AllocGlobal), more: &str) -> String {
    let text = joined(
        rt,
        &["typedef struct { } arg_", HALF, HALF, more, "; ", HEAD],
    );
    declared(rt, text.as_str())
}

#[test]
fn a_name_has_128_bytes_at_most(rt: HostRuntime) {
    let wanted = joined(&rt, &["set ", HALF, HALF, " { }; decoder d 32"]);
    assert!(rt; set_shown(&rt, "").as_str() == wanted.as_str());
    assert!(rt; set_shown(&rt, "x").as_str() == NONE);
}

#[test]
fn other_sets_and_patterns_are_none(rt: HostRuntime) {
    let table: &[(&str, &str)] = &[
        // A set without arg_.
        ("typedef struct { int a; } r;", NONE),
        // An argument without its semicolon.
        ("typedef struct { int a } arg_r;", NONE),
        // An argument without a name.
        ("typedef struct { int; } arg_r;", NONE),
        // A type of two words.
        ("typedef struct { unsigned int a; } arg_r;", NONE),
        // A set without typedef.
        ("struct { int a; } arg_r;", NONE),
        // Another prefix.
        (
            "typedef arg_s arg_p; bool t_p(DisasContext *ctx, arg_p *a);
             typedef arg_s arg_q; bool u_q(DisasContext *ctx, arg_q *a);",
            NONE,
        ),
        // One prototype that isn't static.
        (
            "typedef arg_s arg_p; static bool t_p(DisasContext *ctx, arg_p *a);
             typedef arg_s arg_q; bool t_q(DisasContext *ctx, arg_q *a);",
            NONE,
        ),
        // One prototype that is static.
        (
            "typedef arg_s arg_p; bool t_p(DisasContext *ctx, arg_p *a);
             typedef arg_s arg_q; static bool t_q(DisasContext *ctx, arg_q *a);",
            NONE,
        ),
        // The function of another name.
        (
            "typedef arg_s arg_p; bool t_q(DisasContext *ctx, arg_p *a);",
            NONE,
        ),
        // The parameter of another name.
        (
            "typedef arg_s arg_p; bool t_p(DisasContext *ctx, arg_q *a);",
            NONE,
        ),
        // The prototype of another name.
        (
            "typedef arg_s arg_p; bool t_q(DisasContext *ctx, arg_q *a);",
            NONE,
        ),
        // No prefix.
        (
            "typedef arg_s arg_p; bool p(DisasContext *ctx, arg_p *a);",
            NONE,
        ),
        // An empty prefix.
        (
            "typedef arg_s arg_p; bool _p(DisasContext *ctx, arg_p *a);",
            NONE,
        ),
        // A typedef without its prototype.
        ("typedef arg_s arg_p;", NONE),
        // A prototype without its typedef.
        ("bool t_p(DisasContext *ctx, arg_p *a);", NONE),
    ];
    check(&rt, table)
}

#[test]
fn other_extractions_are_none(rt: HostRuntime) {
    let table: &[(&str, &str)] = &[
        // One that isn't static.
        (
            "void d_extract_x(DisasContext *ctx, arg_s *a, uint32_t insn) { }",
            NONE,
        ),
        // Another width.
        (
            "static void d_extract_x(DisasContext *ctx, arg_s *a, uint64_t insn) { }",
            NONE,
        ),
        // No width.
        (
            "static void d_extract_x(DisasContext *ctx, arg_s *a, uint8_t insn) { }",
            NONE,
        ),
        // Another decoder.
        (
            "static void e_extract_x(DisasContext *ctx, arg_s *a, uint32_t insn) { }",
            NONE,
        ),
        // No format.
        (
            "static void d_extract_(DisasContext *ctx, arg_s *a, uint32_t insn) { }",
            NONE,
        ),
        // An assignment of the decoder.
        (
            "static void d_extract_x(DisasContext *ctx, arg_s *a, uint32_t insn) { u.f_s.a = 5; }",
            NONE,
        ),
        // A set behind an extraction.
        (
            "static void d_extract_x(DisasContext *ctx, arg_s *a, uint32_t insn) { }
             typedef struct { } arg_s;",
            NONE,
        ),
    ];
    check(&rt, table)
}

// The decoder's head with a pattern before it.
const PATTERN_AND_HEAD: &str =
    "typedef arg_s arg_p; bool t_p(DisasContext *ctx, arg_p *a); bool d(DisasContext *ctx, uint32_t insn) {";

// The union's sets in a program with these texts.
fn union_of(rt: &(impl Abort + AllocGlobal), front: &str, text: &str) -> String {
    let whole = joined(rt, &[front, " ", text, " return false; }"]);
    match read_c(rt.alloc(), whole.as_bytes()) {
        Ok(program) => union_shown(rt, &program),
        Err(fault) => {
            assert!(rt; matches!(fault, CFault::NotSubset), "{text}");
            joined(rt, &[NONE])
        }
    }
}

fn check_unions(rt: &(impl Abort + AllocGlobal), front: &str, table: &[(&str, &str)]) {
    for (text, wanted) in table {
        let shown = union_of(rt, front, text);
        assert!(rt; shown.as_str() == *wanted, "{text}");
    }
}

#[test]
fn a_union_names_its_sets_in_order(rt: HostRuntime) {
    let with_pattern: &[(&str, &str)] = &[
        ("union { arg_s f_s; arg_r_0 f_r_0; } u;", " s r_0"),
        ("union { } u;", ""),
    ];
    let without: &[(&str, &str)] = &[("", "")];
    check_unions(&rt, PATTERN_AND_HEAD, with_pattern);
    check_unions(&rt, HEAD, without)
}

#[test]
fn other_unions_are_none(rt: HostRuntime) {
    let with_pattern: &[(&str, &str)] = &[
        // Two names.
        ("union { arg_s f_r; } u;", NONE),
        // A set without f_.
        ("union { arg_s s; } u;", NONE),
        // A set without arg_.
        ("union { s f_s; } u;", NONE),
        // Another union.
        ("union { arg_s f_s; } v;", NONE),
        // No union.
        ("", NONE),
    ];
    let without: &[(&str, &str)] = &[("union { arg_s f_s; } u;", NONE), ("union { } u;", NONE)];
    check_unions(&rt, PATTERN_AND_HEAD, with_pattern);
    check_unions(&rt, HEAD, without)
}
