//! Programs that are made by hand, and those of their texts, with the same parts.

use crate::reading::{NOP_TEXT, WHOLE};
use crate::shown::{declared_shown, load_shown, stmts_shown, union_shown};
use c_subset::{
    AssignList, Body, Expr, Extract, ExtractList, Input, NameList, PatternList, Program, SetList,
    Stmt, read_c,
};
use dt_values::{CType, Member, MemberList, Name, SetDef, Width};
use std::process::Abort;

/// All parts of a program.
struct Parts<'a> {
    declared: &'a str,
    union_sets: &'a str,
    body: &'a str,
    load: &'a str,
}

const NOP: Parts<'static> = Parts {
    declared: "set decode0 { }; prefix static trans; pattern nop decode0; extraction decode_Fmt_0 decode0 { }; \
               decoder static decode 32",
    union_sets: " decode0",
    body: "{ if ffffffff 0 { extract decode_Fmt_0 decode0; call nop decode0; } }",
    load: "",
};

const ARGUMENTS: Parts<'static> = Parts {
    declared: "set r { Int rd; U64 imm; }; decoder static decode 32",
    union_sets: "",
    body: "{ }",
    load: "",
};

const BRANCH: Parts<'static> = Parts {
    declared: "set b { Int imm; }; prefix static trans; pattern beq b; extraction b b { imm = (cast; \
               at 11 21 signed insn 31 1; at 10 22 unsigned insn 7 1; at 4 28 unsigned insn 25 6; unsigned insn 8 4); }; \
               decoder static decode 32",
    union_sets: " b",
    body: "{ if 707f 63 { extract b b; call beq b; } }",
    load: "",
};

const ASSIGNED: Parts<'static> = Parts {
    declared: "set s { Int a; Int b; Int c; Int d; }; prefix static t; pattern p s; \
               extraction x s { d = (signed arg a 0 8); }; decoder static g 64",
    union_sets: " s",
    body: "{ s a = (-5); s b = (f); s c = (f; unsigned s arg a 0 4); extract x s; call p s; }",
    load: "",
};

const OF_WHOLE: Parts<'static> = Parts {
    declared: "set r { Int rd; U8 imm; }; prefix static t; pattern p r; \
               extraction x r { rd = (unsigned insn 0 4); imm = (-5); }; decoder static g 16",
    union_sets: " r",
    body: "{ switch f { case 1 { extract x r; call p r; } } }",
    load: "{ load 0 1 switch 8000 { case 8000 { load 1 2 } } }",
};

fn check_load(rt: &(impl Abort + AllocGlobal), program: &Program, wanted: &str) {
    let shown = match &program.load {
        Some(block) => load_shown(rt, block),
        None => String::new(rt.alloc()),
    };
    assert!(rt; shown.as_str() == wanted, "{shown}");
}

fn check(rt: &(impl Abort + AllocGlobal), program: &Program, parts: &Parts) {
    let declared = declared_shown(rt, program);
    assert!(rt; declared.as_str() == parts.declared, "{declared}");
    let union_sets = union_shown(rt, program);
    assert!(rt; union_sets.as_str() == parts.union_sets, "{union_sets}");
    let body = stmts_shown(rt, program.body.items());
    assert!(rt; body.as_str() == parts.body, "{body}");
    check_load(rt, program, parts.load);
}

fn name(rt: &impl Abort, text: &str) -> Name {
    Name::from_bytes(text.as_bytes()).expect(rt, "a name")
}

fn member(rt: &impl Abort, ctype: CType, argument: &str) -> Member {
    Member {
        ctype,
        name: name(rt, argument),
    }
}

// A list of one set, which has these arguments.
fn one_set(rt: &(impl Abort + AllocGlobal), name: Name, members: Vec<Member>) -> SetList {
    let set = SetDef {
        name,
        members: MemberList::of(members),
        outside: false,
    };
    SetList::of(vec![in rt.alloc(); set].expect(rt, "memory"))
}

// A list of one pattern.
fn one_pattern(rt: &(impl Abort + AllocGlobal), pattern: Name, set: Name) -> PatternList {
    PatternList::of(vec![in rt.alloc(); (pattern, set)].expect(rt, "memory"))
}

// A list of one name.
fn one_name(rt: &(impl Abort + AllocGlobal), name: Name) -> NameList {
    NameList::of(vec![in rt.alloc(); name].expect(rt, "memory"))
}

// A list of one extraction.
fn one_extract(
    rt: &(impl Abort + AllocGlobal),
    format: Name,
    set: Name,
    assigns: Vec<(Name, Expr)>,
) -> ExtractList {
    let extract = Extract {
        format,
        set,
        assigns: AssignList::of(assigns),
    };
    ExtractList::of(vec![in rt.alloc(); extract].expect(rt, "memory"))
}

// A test, and then an extraction and a call.
fn one_test(
    rt: &(impl Abort + AllocGlobal),
    mask: u64,
    value: u64,
    format: Name,
    pattern: Name,
    set: Name,
) -> Body {
    let inner = vec![in rt.alloc();
        Stmt::Extract { format, set },
        Stmt::Call { pattern, set },
    ].expect(rt, "memory");
    let body = vec![in rt.alloc(); Stmt::If(mask, value, inner)].expect(rt, "memory");
    Body::of(body)
}

// The program of the example with the one pattern `nop`.
fn nop_program(rt: &(impl Abort + AllocGlobal)) -> Program {
    let set = name(rt, "decode0");
    let format = name(rt, "decode_Fmt_0");
    let pattern = name(rt, "nop");
    Program {
        width: Width::W32,
        sets: one_set(rt, set, Vec::new(rt.alloc())),
        prefix: Some((name(rt, "trans"), true)),
        patterns: one_pattern(rt, pattern, set),
        extracts: one_extract(rt, format, set, Vec::new(rt.alloc())),
        decoder: name(rt, "decode"),
        decoder_static: true,
        union_sets: one_name(rt, set),
        body: one_test(rt, 0xffff_ffff, 0, format, pattern, set),
        load: None,
    }
}

fn two_arguments(rt: &(impl Abort + AllocGlobal)) -> Vec<Member> {
    let first = member(rt, CType::Int, "rd");
    let second = member(rt, CType::U64, "imm");
    vec![in rt.alloc(); first, second].expect(rt, "memory")
}

// The program of the example with arguments, which has no pattern.
fn arguments_program(rt: &(impl Abort + AllocGlobal)) -> Program {
    Program {
        width: Width::W32,
        sets: one_set(rt, name(rt, "r"), two_arguments(rt)),
        prefix: None,
        patterns: PatternList::of(Vec::new(rt.alloc())),
        extracts: ExtractList::of(Vec::new(rt.alloc())),
        decoder: name(rt, "decode"),
        decoder_static: true,
        union_sets: NameList::of(Vec::new(rt.alloc())),
        body: Body::of(Vec::new(rt.alloc())),
        load: None,
    }
}

// Bits of the word, or of an argument.
fn bits_of(signed: bool, from: Input, pos: u32, length: u32) -> Expr {
    Expr::Segment {
        signed,
        from,
        pos,
        length,
    }
}

fn boxed(rt: &(impl Abort + AllocGlobal), value: Expr) -> Box<Expr> {
    Box::new(rt.alloc(), value).expect(rt, "memory")
}

// An expression with bits of the word at a place of its own.
fn put_at(rt: &(impl Abort + AllocGlobal), into: Expr, pos: u32, length: u32, part: Expr) -> Expr {
    Expr::Deposit(boxed(rt, into), pos, length, boxed(rt, part))
}

// The expression of the example with four segments.
fn offset(rt: &(impl Abort + AllocGlobal)) -> Expr {
    let one = bits_of(false, Input::Insn, 8, 4);
    let two = put_at(rt, one, 4, 28, bits_of(false, Input::Insn, 25, 6));
    let three = put_at(rt, two, 10, 22, bits_of(false, Input::Insn, 7, 1));
    let four = put_at(rt, three, 11, 21, bits_of(true, Input::Insn, 31, 1));
    Expr::Cast(boxed(rt, four))
}

// A list of one assignment.
fn one_assign(rt: &(impl Abort + AllocGlobal), argument: Name, value: Expr) -> Vec<(Name, Expr)> {
    vec![in rt.alloc(); (argument, value)].expect(rt, "memory")
}

// The program of the example with four segments.
fn branch_program(rt: &(impl Abort + AllocGlobal)) -> Program {
    let set = name(rt, "b");
    let pattern = name(rt, "beq");
    let argument = member(rt, CType::Int, "imm");
    let members = vec![in rt.alloc(); argument].expect(rt, "memory");
    Program {
        width: Width::W32,
        sets: one_set(rt, set, members),
        prefix: Some((name(rt, "trans"), true)),
        patterns: one_pattern(rt, pattern, set),
        extracts: one_extract(rt, set, set, one_assign(rt, name(rt, "imm"), offset(rt))),
        decoder: name(rt, "decode"),
        decoder_static: true,
        union_sets: one_name(rt, set),
        body: one_test(rt, 0x707f, 0x63, set, pattern, set),
        load: None,
    }
}

fn assign_of(set: Name, arg: Name, value: Expr) -> Stmt {
    Stmt::Assign { set, arg, value }
}

// What `f` answers for the low bits of an argument.
fn answer_for(rt: &(impl Abort + AllocGlobal), set: Name, argument: Name) -> Expr {
    let low = bits_of(false, Input::Arg(Some(set), argument), 0, 4);
    Expr::Function(name(rt, "f"), Some(boxed(rt, low)))
}

// The statements of the example with assignments in the decoder.
fn assigns_and_call(rt: &(impl Abort + AllocGlobal)) -> Body {
    let set = name(rt, "s");
    let first = name(rt, "a");
    let second = name(rt, "b");
    let third = name(rt, "c");
    let asked = name(rt, "f");
    let format = name(rt, "x");
    let pattern = name(rt, "p");
    let last = answer_for(rt, set, first);
    let body = vec![in rt.alloc();
        assign_of(set, first, Expr::Constant(-5)),
        assign_of(set, second, Expr::Function(asked, None)),
        assign_of(set, third, last),
        Stmt::Extract { format, set },
        Stmt::Call { pattern, set },
    ]
    .expect(rt, "memory");
    Body::of(body)
}

fn four_arguments(rt: &(impl Abort + AllocGlobal)) -> Vec<Member> {
    let first = member(rt, CType::Int, "a");
    let second = member(rt, CType::Int, "b");
    let third = member(rt, CType::Int, "c");
    let last = member(rt, CType::Int, "d");
    vec![in rt.alloc(); first, second, third, last].expect(rt, "memory")
}

// The program of the example with assignments in the decoder.
fn assigned_program(rt: &(impl Abort + AllocGlobal)) -> Program {
    let set = name(rt, "s");
    let pattern = name(rt, "p");
    let format = name(rt, "x");
    let low = bits_of(true, Input::Arg(None, name(rt, "a")), 0, 8);
    Program {
        width: Width::W64,
        sets: one_set(rt, set, four_arguments(rt)),
        prefix: Some((name(rt, "t"), true)),
        patterns: one_pattern(rt, pattern, set),
        extracts: one_extract(rt, format, set, one_assign(rt, name(rt, "d"), low)),
        decoder: name(rt, "g"),
        decoder_static: true,
        union_sets: one_name(rt, set),
        body: assigns_and_call(rt),
        load: None,
    }
}

#[test]
fn a_program_holds_its_parts(rt: HostRuntime) {
    check(&rt, &nop_program(&rt), &NOP)
}

#[test]
fn a_set_holds_its_arguments(rt: HostRuntime) {
    check(&rt, &arguments_program(&rt), &ARGUMENTS)
}

#[test]
fn an_extraction_holds_its_expression(rt: HostRuntime) {
    check(&rt, &branch_program(&rt), &BRANCH)
}

#[test]
fn a_decoder_holds_its_assignments(rt: HostRuntime) {
    check(&rt, &assigned_program(&rt), &ASSIGNED)
}

const ARGUMENTS_TEXT: &str =
    "/* Made from pattern files. */\n\ntypedef struct {\n    int rd;\n    uint64_t imm;\n} arg_r;\n\nstatic bool decode(DisasContext *ctx, uint32_t insn)\n{\n    return false;\n}\n";

const BRANCH_TEXT: &str =
    "/* Made from pattern files. */\n\ntypedef struct {\n    int imm;\n} arg_b;\n\ntypedef arg_b arg_beq;\nstatic bool trans_beq(DisasContext *ctx, arg_beq *a);\n\nstatic void decode_extract_b(DisasContext *ctx, arg_b *a, uint32_t insn)\n{\n    a->imm = (int32_t)deposit32(deposit32(deposit32(extract32(insn, 8, 4), 4, 28, extract32(insn, 25, 6)), 10, 22, extract32(insn, 7, 1)), 11, 21, sextract32(insn, 31, 1));\n}\n\nstatic bool decode(DisasContext *ctx, uint32_t insn)\n{\n    union {\n        arg_b f_b;\n    } u;\n\n    if ((insn & 0x0000707f) == 0x00000063) {\n        /* 1:5 */\n        decode_extract_b(ctx, &u.f_b, insn);\n        if (trans_beq(ctx, &u.f_b)) return true;\n    }\n    return false;\n}\n";

const ASSIGNED_TEXT: &str =
    "/* Made from pattern files. */\n\ntypedef struct {\n    int a;\n    int b;\n    int c;\n    int d;\n} arg_s;\n\ntypedef arg_s arg_p;\nstatic bool t_p(DisasContext *ctx, arg_p *a);\n\nstatic void g_extract_x(DisasContext *ctx, arg_s *a, uint64_t insn)\n{\n    a->d = sextract64(a->a, 0, 8);\n}\n\nstatic bool g(DisasContext *ctx, uint64_t insn)\n{\n    union {\n        arg_s f_s;\n    } u;\n\n    u.f_s.a = -5;\n    u.f_s.b = f(ctx);\n    u.f_s.c = f(ctx, extract64(u.f_s.a, 0, 4));\n    g_extract_x(ctx, &u.f_s, insn);\n    if (t_p(ctx, &u.f_s)) return true;\n    return false;\n}\n";

fn check_text(rt: &(impl Abort + AllocGlobal), text: &str, parts: &Parts) {
    let program = read_c(rt.alloc(), text.as_bytes()).expect(rt, "a program");
    check(rt, &program, parts);
}

#[test]
fn texts_have_the_parts_of_the_programs(rt: HostRuntime) {
    check_text(&rt, NOP_TEXT, &NOP);
    check_text(&rt, ARGUMENTS_TEXT, &ARGUMENTS);
    check_text(&rt, BRANCH_TEXT, &BRANCH);
    check_text(&rt, ASSIGNED_TEXT, &ASSIGNED)
}

#[test]
fn a_whole_program_is_read(rt: HostRuntime) {
    check_text(&rt, WHOLE, &OF_WHOLE)
}
