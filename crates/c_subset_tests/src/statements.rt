//! Texts with the statements that they spell, after the rules of docs/C_SUBSET.md, and texts that spell none.

use crate::shown::{push, stmts_shown};
use c_subset::Stmt;
use c_subset::stmts::{Scope, stmts_at};
use c_tokens::{ReadFault, Tokens, tokens};
use dt_values::{Name, Width};
use std::process::Abort;

// What is shown of a text that spells no statements.
const NONE: &str = "";

// The decoder is `d`, and `t` the prefix where there is one.
fn scope(rt: &impl Abort, width: Width, has_prefix: bool) -> Scope {
    let prefix = Name::from_bytes(b"t").expect(rt, "a name");
    Scope {
        width,
        decoder: Name::from_bytes(b"d").expect(rt, "a name"),
        prefix: if has_prefix { Some(prefix) } else { None },
    }
}

// The statements that the whole text spells.
fn read(
    rt: &(impl Abort + AllocGlobal),
    scope: &Scope,
    braces: u32,
    text: &str,
) -> Option<Vec<Stmt>> {
    let found = tokens(rt.alloc(), text.as_bytes()).expect(rt, "tokens");
    let mut left = Tokens::of(&found);
    match stmts_at(rt.alloc(), scope, braces, &mut left) {
        Ok(stmts) if left.is_empty() => Some(stmts),
        Ok(_) => None,
        Err(fault) => {
            assert!(rt; matches!(fault, ReadFault::NotSubset), "memory");
            None
        }
    }
}

// Rows of a text inside at most two braces and what it spells, which is nothing without braces.
fn check(rt: &(impl Abort + AllocGlobal), scope: &Scope, table: &[(&str, &str)]) {
    for (text, wanted) in table {
        let shown = match read(rt, scope, 2, text) {
            Some(stmts) => stmts_shown(rt, stmts.as_slice()),
            None => String::new(rt.alloc()),
        };
        assert!(rt; shown.as_str() == *wanted, "{text}");
    }
}

#[test]
fn statements_without_a_block_are_read(rt: HostRuntime) {
    let narrow: &[(&str, &str)] = &[
        ("", "{ }"),
        ("d_extract_x(ctx, &u.f_s, insn);", "{ extract x s; }"),
        ("if (t_p(ctx, &u.f_s)) return true;", "{ call p s; }"),
        ("u.f_s.a = -5;", "{ s a = (-5); }"),
    ];
    let wide: &[(&str, &str)] = &[(
        "u.f_s.b = extract64(u.f_s.a, 0, 4);",
        "{ s b = (unsigned s arg a 0 4); }",
    )];
    check(&rt, &scope(&rt, Width::W32, true), narrow);
    check(&rt, &scope(&rt, Width::W64, true), wide)
}

#[test]
fn names_may_look_like_words(rt: HostRuntime) {
    let table: &[(&str, &str)] = &[(
        "d_extract__extract_x(ctx,&u.f_f_,insn);if(t_t_(ctx,&u.f_0))return true;u.f_u.f_u=0;",
        "{ extract _extract_x f_; call t_ 0; u f_u = (0); }",
    )];
    check(&rt, &scope(&rt, Width::W16, true), table)
}

#[test]
fn an_if_has_a_mask_and_a_value(rt: HostRuntime) {
    let wide: &[(&str, &str)] = &[(
        "if ((insn & 0xffffffff) == 0x00000000) { }",
        "{ if ffffffff 0 { } }",
    )];
    let narrow: &[(&str, &str)] = &[(
        "if ((insn & 0x707f) == 0x0063) {
            d_extract_x(ctx, &u.f_s, insn);
            if (t_p(ctx, &u.f_s)) return true;
        }
        d_extract_y(ctx, &u.f_r, insn);",
        "{ if 707f 63 { extract x s; call p s; } extract y r; }",
    )];
    check(&rt, &scope(&rt, Width::W32, true), wide);
    check(&rt, &scope(&rt, Width::W16, true), narrow)
}

#[test]
fn a_switch_has_its_cases_in_order(rt: HostRuntime) {
    let table: &[(&str, &str)] = &[
        (
            "switch (insn & 0x00ff) { case 0x000f: break; }",
            "{ switch ff { case f { } } }",
        ),
        (
            "switch (insn & 0x0003) {
            case 0x0002:
                if (t_p(ctx, &u.f_s)) return true;
                break;
            case 0x0000:
                if ((insn & 0x0008) == 0x0000) {
                }
                if (t_q(ctx, &u.f_r)) return true;
                break;
            case 0x0001:
                break;
            }",
            "{ switch 3 { case 2 { call p s; } case 0 { if 8 0 { } call q r; } case 1 { } } }",
        ),
    ];
    check(&rt, &scope(&rt, Width::W16, true), table)
}

#[test]
fn other_texts_are_no_statements(rt: HostRuntime) {
    let table: &[(&str, &str)] = &[
        // A switch without a case.
        ("switch (insn & 0x0001) { }", NONE),
        // A case without break.
        ("switch (insn & 0x0001) { case 0x0000: }", NONE),
        // A break without its semicolon.
        ("switch (insn & 0x0001) { case 0x0000: break }", NONE),
        // Two breaks.
        (
            "switch (insn & 0x0001) { case 0x0000: break; break; }",
            NONE,
        ),
        // A switch with two brackets.
        ("switch ((insn & 0x0001)) { case 0x0000: break; }", NONE),
        // A digit fewer, and a digit more.
        ("switch (insn & 0x0001) { case 0x000: break; }", NONE),
        ("if ((insn & 0x00001) == 0x0000) { }", NONE),
        // Digits in capitals, and a decimal mask.
        ("if ((insn & 0x00ff) == 0x00FF) { }", NONE),
        ("if ((insn & 255) == 0x00ff) { }", NONE),
        // An if with one bracket, and one with one equals.
        ("if (insn & 0x00ff == 0x00ff) { }", NONE),
        ("if ((insn & 0x00ff) = 0x00ff) { }", NONE),
        // An if without a block, with an open one, and with a return in it.
        ("if ((insn & 0x00ff) == 0x00ff) ;", NONE),
        ("if ((insn & 0x00ff) == 0x00ff) {", NONE),
        ("if ((insn & 0x00ff) == 0x00ff) { return }", NONE),
        // A closing brace, a break alone, and an end.
        ("}", NONE),
        ("break;", NONE),
        ("return false;", NONE),
        // An extraction of another decoder, of no format, into no place, and without its semicolon.
        ("e_extract_x(ctx, &u.f_s, insn);", NONE),
        ("d_extract_(ctx, &u.f_s, insn);", NONE),
        ("d_extract_x(ctx, u.f_s, insn);", NONE),
        ("d_extract_x(ctx, &u.f_s, insn)", NONE),
        // A set without f_.
        ("d_extract_x(ctx, &u.s, insn);", NONE),
        // A call with another prefix, of no pattern, with another return, and without an if.
        ("if (q_p(ctx, &u.f_s)) return true;", NONE),
        ("if (t_(ctx, &u.f_s)) return true;", NONE),
        ("if (t_p(ctx, &u.f_s)) return false;", NONE),
        ("t_p(ctx, &u.f_s);", NONE),
        // An assignment without its semicolon, a test, and an assignment of an extraction.
        ("u.f_s.a = 1", NONE),
        ("u.f_s.a == 1;", NONE),
        ("a->a = 1;", NONE),
        // An empty statement.
        (";", NONE),
    ];
    check(&rt, &scope(&rt, Width::W16, true), table)
}

#[test]
fn no_call_stands_without_a_prefix(rt: HostRuntime) {
    let table: &[(&str, &str)] = &[
        ("d_extract_x(ctx, &u.f_s, insn);", "{ extract x s; }"),
        ("if (t_p(ctx, &u.f_s)) return true;", NONE),
        ("if (_p(ctx, &u.f_s)) return true;", NONE),
    ];
    check(&rt, &scope(&rt, Width::W16, false), table)
}

// So many ifs, each in the one before.
fn nested(rt: &(impl Abort + AllocGlobal), count: usize) -> String {
    let mut text = String::new(rt.alloc());
    for _ in 0..count {
        push(rt, &mut text, "if ((insn & 0x0001) == 0x0001) {");
    }
    for _ in 0..count {
        push(rt, &mut text, "}");
    }
    text
}

// Rows of a bound, of how many ifs, and whether they are read.
fn check_nested(rt: &(impl Abort + AllocGlobal), scope: &Scope, table: &[(u32, usize, bool)]) {
    for (braces, count, wanted) in table {
        let text = nested(rt, *count);
        let found = read(rt, scope, *braces, text.as_str());
        assert!(rt; found.is_some() == *wanted, "{count} in {braces}");
    }
}

const TWO_SWITCHES: &str =
    "switch (insn & 0x0001) { case 0x0000: switch (insn & 0x0002) { case 0x0000: break; } break; }";

#[test]
fn braces_nest_as_deep_as_the_bound(rt: HostRuntime) {
    let table: &[(u32, usize, bool)] = &[
        (0, 0, true),
        (1, 1, true),
        (2, 2, true),
        (127, 127, true),
        (0, 1, false),
        (1, 2, false),
        (2, 3, false),
        (127, 128, false),
    ];
    let scope = scope(&rt, Width::W16, false);
    check_nested(&rt, &scope, table);
    assert!(rt; read(&rt, &scope, 1, TWO_SWITCHES).is_none());
    assert!(rt; read(&rt, &scope, 2, TWO_SWITCHES).is_some());
}
