//! Counts the call sites of programs.

use crate::shown::stmts_shown;
use c_subset::{call_sites, read_c};
use std::process::Abort;

// The text's program has this body, and so many call sites.
fn check_row(rt: &(impl Abort + AllocGlobal), text: &str, body: &str, sites: usize) {
    let program = read_c(rt.alloc(), text.as_bytes()).expect(rt, "a program");
    let shown = stmts_shown(rt, program.body.items());
    assert!(rt;
        call_sites(&program) == sites && shown.as_str() == body,
        "{text}"
    );
}

// Rows of a text, the body of the program that it spells, and how many call sites there are.
fn check(rt: &(impl Abort + AllocGlobal), table: &[(&str, &str, usize)]) {
    for (text, body, sites) in table {
        check_row(rt, text, body, *sites);
    }
}

#[test]
fn an_empty_body_has_no_call(rt: HostRuntime) {
    let table: &[(&str, &str, usize)] = &[(
        "static bool decode(DisasContext *ctx, uint32_t insn) { return false; }",
        "{ }",
        0,
    )];
    check(&rt, table)
}

// In an if in a switch stand a call and a switch, whose cases have two calls, one call in an if, and none. One call
// stands in no block.
#[test]
fn calls_are_counted_at_every_depth(rt: HostRuntime) {
    let table: &[(&str, &str, usize)] = &[(
        "typedef arg_p arg_p;
        static bool trans_p(DisasContext *ctx, arg_p *a);
        static bool decode(DisasContext *ctx, uint32_t insn) {
            union { } u;
            decode_extract_p(ctx, &u.f_p, insn);
            switch (insn & 0x0000000f) {
            case 0x00000007:
                if ((insn & 0x00000001) == 0x00000001) {
                    switch (insn & 0x00000003) {
                    case 0x00000000:
                        if (trans_p(ctx, &u.f_p)) return true;
                        u.f_p.p = 1;
                        if (trans_p(ctx, &u.f_p)) return true;
                        break;
                    case 0x00000001:
                        if ((insn & 0x00000002) == 0x00000002) {
                            decode_extract_p(ctx, &u.f_p, insn);
                            if (trans_p(ctx, &u.f_p)) return true;
                        }
                        break;
                    case 0x00000002:
                        break;
                    }
                    if (trans_p(ctx, &u.f_p)) return true;
                }
                break;
            }
            u.f_p.p = 1;
            if (trans_p(ctx, &u.f_p)) return true;
            return false;
        }",
        "{ extract p p; switch f { case 7 { if 1 1 { switch 3 { case 0 { call p p; p p = (1); call p p; } \
         case 1 { if 2 2 { extract p p; call p p; } } case 2 { } } call p p; } } } p p = (1); call p p; }",
        5,
    )];
    check(&rt, table)
}
