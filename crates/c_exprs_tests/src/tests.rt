//! Texts with the expressions and assignments that they spell, after the rules of docs/C_SUBSET.md, and texts that
//! spell none.

use c_exprs::{Expr, Input, assignment_at, expr_at, set_assignment_at};
use c_tokens::{ReadFault, Token, Tokens, tokens};
use dt_values::Width;
use itoa::Buffer;
use std::alloc::{AllocError, Global};
use std::process::Abort;
use std::test::Fail;

// Where bits come from, as `insn`, `arg NAME` or `SET arg NAME`.
fn push_input(shown: &mut String, from: &Input) -> Result<(), AllocError> {
    match from {
        Input::Insn => shown.push_str("insn")?,
        Input::Arg(None, name) => {
            shown.push_str("arg ")?;
            shown.push_str(name.as_str())?;
        }
        Input::Arg(Some(set), name) => {
            shown.push_str(set.as_str())?;
            shown.push_str(" arg ")?;
            shown.push_str(name.as_str())?;
        }
    }
    Ok(())
}

fn push_number(shown: &mut String, number: u32) -> Result<(), AllocError> {
    shown.push_str(Buffer::new().format(number))
}

// Two numbers, as `0 4`.
fn push_numbers(shown: &mut String, pos: u32, length: u32) -> Result<(), AllocError> {
    push_number(shown, pos)?;
    shown.push(' ')?;
    push_number(shown, length)
}

// A segment, as `signed insn 0 4`.
fn push_segment(shown: &mut String, segment: &Expr) -> Result<(), AllocError> {
    match segment {
        Expr::Segment {
            signed,
            from,
            pos,
            length,
        } => {
            shown.push_str(if *signed { "signed " } else { "unsigned " })?;
            push_input(shown, from)?;
            shown.push(' ')?;
            push_numbers(shown, *pos, *length)
        }
        _ => shown.push_str("no segment"),
    }
}

// What a deposit puts in, as `4 28 signed insn 25 6; `.
fn push_part(shown: &mut String, pos: u32, length: u32, part: &Expr) -> Result<(), AllocError> {
    push_numbers(shown, pos, length)?;
    shown.push(' ')?;
    push_segment(shown, part)?;
    shown.push_str("; ")
}

// An expression from outside in, with a semicolon between its levels.
fn push_expr(shown: &mut String, expr: &Expr) -> Result<(), AllocError> {
    let mut inner = expr;
    for _ in 0..10 {
        match inner {
            Expr::Constant(value) => return shown.push_str(Buffer::new().format(*value)),
            Expr::Segment { .. } => return push_segment(shown, inner),
            Expr::Deposit(into, pos, length, part) => {
                push_part(shown, *pos, *length, part)?;
                inner = into;
            }
            Expr::Cast(value) => {
                shown.push_str("cast; ")?;
                inner = value;
            }
            Expr::Function(name, None) => return shown.push_str(name.as_str()),
            Expr::Function(name, Some(argument)) => {
                shown.push_str(name.as_str())?;
                shown.push_str("; ")?;
                inner = argument;
            }
        }
    }
    Ok(())
}

fn tokens_in(alloc: Global, text: &str) -> Result<Vec<Token<'_>>, Fail> {
    match tokens(alloc, text.as_bytes()) {
        Ok(found) => Ok(found),
        Err(_) => Err("no tokens".into()),
    }
}

// The expression that the whole text spells, or `none`.
fn expr_shown(alloc: Global, in_decoder: bool, width: Width, text: &str) -> Result<String, Fail> {
    let found = tokens_in(alloc, text)?;
    let mut left = Tokens::of(&found);
    let mut shown = String::new(alloc);
    match expr_at(alloc, in_decoder, width, &mut left) {
        Ok(expr) if left.is_empty() => push_expr(&mut shown, &expr)?,
        Ok(_) => shown.push_str("none")?,
        Err(ReadFault::NotSubset) => shown.push_str("none")?,
        Err(ReadFault::NoMemory) => return Err("no memory".into()),
    }
    Ok(shown)
}

fn check_exprs(
    rt: &(impl Abort + AllocGlobal),
    in_decoder: bool,
    width: Width,
    table: &[(&str, &str)],
) -> Result<(), Fail> {
    for (text, wanted) in table {
        let shown = expr_shown(rt.alloc(), in_decoder, width, text)?;
        assert!(rt; shown.as_str() == *wanted, "{text}");
    }
    Ok(())
}

const CONSTANTS: &[(&str, &str)] = &[
    ("0", "0"),
    ("7", "7"),
    ("- 5", "-5"),
    ("-5", "-5"),
    ("9223372036854775807", "9223372036854775807"),
    ("-9223372036854775808", "-9223372036854775808"),
    ("9223372036854775808", "none"),
    ("-9223372036854775809", "none"),
    ("18446744073709551615", "none"),
    ("99999999999999999999999", "none"),
    ("-0", "none"),
    ("--1", "none"),
    ("-", "none"),
    ("00", "none"),
    ("012", "none"),
    ("-012", "none"),
    ("1a", "none"),
    ("0x10", "none"),
    ("1 2", "none"),
    ("", "none"),
    ("a", "none"),
];

#[test]
fn constants_have_64_bits_and_a_sign(rt: HostRuntime) -> Result<(), Fail> {
    check_exprs(&rt, true, Width::W32, CONSTANTS)?;
    check_exprs(&rt, false, Width::W64, CONSTANTS)
}

const NARROW_SEGMENTS: &[(&str, &str)] = &[
    ("extract32(insn, 7, 5)", "unsigned insn 7 5"),
    ("sextract32(insn,20,12)", "signed insn 20 12"),
    (
        "extract32(insn, 4294967295, 0)",
        "unsigned insn 4294967295 0",
    ),
    ("extract32(insn, 4294967296, 1)", "none"),
    ("extract32(insn, 0, 4294967296)", "none"),
    ("extract32(insn, 07, 5)", "none"),
    ("extract32(insn, -7, 5)", "none"),
    ("extract32(insn, 7, 5", "none"),
    ("extract32 insn, 7, 5)", "none"),
    ("extract32(insn, 7 5)", "none"),
    ("extract32(insn, 7)", "none"),
    ("extract32(insn, 7, 5, 1)", "none"),
    ("extract32(word, 7, 5)", "none"),
    ("(extract32(insn, 7, 5))", "none"),
    ("extract64(insn, 7, 5)", "none"),
    ("sextract64(insn, 7, 5)", "none"),
    ("extract16(insn, 7, 5)", "none"),
    ("extract(insn, 7, 5)", "none"),
];

const WIDE_SEGMENTS: &[(&str, &str)] = &[
    ("extract64(insn, 7, 5)", "unsigned insn 7 5"),
    ("sextract64(insn, 20, 12)", "signed insn 20 12"),
    ("extract32(insn, 7, 5)", "none"),
];

#[test]
fn the_word_has_segments_at_each_width(rt: HostRuntime) -> Result<(), Fail> {
    check_exprs(&rt, true, Width::W16, NARROW_SEGMENTS)?;
    check_exprs(&rt, false, Width::W32, NARROW_SEGMENTS)?;
    check_exprs(&rt, true, Width::W64, WIDE_SEGMENTS)
}

#[test]
fn arguments_are_named_by_where_they_stand(rt: HostRuntime) -> Result<(), Fail> {
    let extraction: &[(&str, &str)] = &[
        ("extract32(a->imm, 0, 3)", "unsigned arg imm 0 3"),
        ("sextract32(a->a, 0, 3)", "signed arg a 0 3"),
        ("extract32(a->insn, 0, 3)", "unsigned arg insn 0 3"),
        ("extract32(a->imm, 1, 3)", "none"),
        ("extract32(a.imm, 0, 3)", "none"),
        ("extract32(b->imm, 0, 3)", "none"),
        ("extract32(u.f_r.imm, 0, 3)", "none"),
    ];
    let decoder: &[(&str, &str)] = &[
        ("extract32(u.f_r.imm, 0, 3)", "unsigned r arg imm 0 3"),
        ("sextract32(u.f_f_.9, 0, 3)", "signed f_ arg 9 0 3"),
        ("extract32(u.f_r.imm, 1, 3)", "none"),
        ("extract32(u.r.imm, 0, 3)", "none"),
        ("extract32(u.f_.imm, 0, 3)", "none"),
        ("extract32(u.f_r, 0, 3)", "none"),
        ("extract32(u->f_r.imm, 0, 3)", "none"),
        ("extract32(a->imm, 0, 3)", "none"),
    ];
    check_exprs(&rt, false, Width::W32, extraction)?;
    check_exprs(&rt, true, Width::W32, decoder)
}

const NARROW_DEPOSITS: &[(&str, &str)] = &[
    (
        "deposit32(extract32(insn, 8, 4), 4, 28, sextract32(insn, 25, 6))",
        "4 28 signed insn 25 6; unsigned insn 8 4",
    ),
    (
        "deposit32(deposit32(deposit32(extract32(insn, 8, 4), 4, 28, extract32(insn, 25, 6)), 10, 22, \
         extract32(insn, 7, 1)), 11, 21, sextract32(insn, 31, 1))",
        "11 21 signed insn 31 1; 10 22 unsigned insn 7 1; 4 28 unsigned insn 25 6; unsigned insn 8 4",
    ),
    (
        "(int32_t)deposit32(extract32(a->x, 0, 4), 4, 28, extract32(a->y, 0, 6))",
        "cast; 4 28 unsigned arg y 0 6; unsigned arg x 0 4",
    ),
    ("(int32_t)sextract32(insn, 31, 1)", "cast; signed insn 31 1"),
    (
        "deposit32(extract32(insn, 8, 4), 4, 28, extract32(insn, 25, 6)",
        "none",
    ),
    (
        "deposit32(extract32(insn, 8, 4), 4, extract32(insn, 25, 6))",
        "none",
    ),
    (
        "deposit32(extract32(insn, 8, 4), 4, 4294967296, extract32(insn, 25, 6))",
        "none",
    ),
    (
        "deposit32(extract32(insn, 8, 4), 04, 28, extract32(insn, 25, 6))",
        "none",
    ),
    (
        "deposit64(extract32(insn, 8, 4), 4, 28, extract32(insn, 25, 6))",
        "none",
    ),
    ("deposit32(5, 4, 28, extract32(insn, 25, 6))", "none"),
    ("deposit32(extract32(insn, 8, 4), 4, 28, 5)", "none"),
    (
        "deposit32((int32_t)extract32(insn, 8, 4), 4, 28, extract32(insn, 25, 6))",
        "none",
    ),
    (
        "deposit32(extract32(insn, 8, 4), 4, 28, deposit32(extract32(insn, 8, 4), 4, 28, extract32(insn, 25, 6)))",
        "none",
    ),
    ("(int32_t)5", "none"),
    ("(int32_t)(int32_t)extract32(insn, 8, 4)", "none"),
    ("(int32_t)f(ctx)", "none"),
    ("(int64_t)extract32(insn, 8, 4)", "none"),
    ("(uint32_t)extract32(insn, 8, 4)", "none"),
    ("int32_t extract32(insn, 8, 4)", "none"),
];

const WIDE_DEPOSITS: &[(&str, &str)] = &[
    (
        "(int64_t)deposit64(extract64(insn, 8, 4), 4, 60, sextract64(insn, 25, 6))",
        "cast; 4 60 signed insn 25 6; unsigned insn 8 4",
    ),
    ("(int32_t)extract64(insn, 8, 4)", "none"),
    (
        "deposit32(extract64(insn, 8, 4), 4, 28, extract64(insn, 25, 6))",
        "none",
    ),
];

#[test]
fn deposits_nest_in_their_first_part(rt: HostRuntime) -> Result<(), Fail> {
    check_exprs(&rt, false, Width::W16, NARROW_DEPOSITS)?;
    check_exprs(&rt, false, Width::W32, NARROW_DEPOSITS)?;
    check_exprs(&rt, true, Width::W64, WIDE_DEPOSITS)
}

const FUNCTIONS: &[(&str, &str)] = &[
    ("plus_1(ctx, 7)", "plus_1; 7"),
    ("plus_1(ctx, -7)", "plus_1; -7"),
    (
        "plus_1(ctx, extract32(insn, 8, 4))",
        "plus_1; unsigned insn 8 4",
    ),
    (
        "f(ctx, (int32_t)deposit32(extract32(insn, 8, 4), 4, 28, extract32(insn, 25, 6)))",
        "f; cast; 4 28 unsigned insn 25 6; unsigned insn 8 4",
    ),
    ("f(ctx)", "f"),
    ("9(ctx)", "9"),
    ("extract32(ctx, 7)", "extract32; 7"),
    ("deposit32(ctx)", "deposit32"),
    ("ctx(ctx)", "ctx"),
    ("f(ctx, g(ctx))", "none"),
    ("f(ctx, g(ctx, 7))", "none"),
    ("f(ctx, )", "none"),
    ("f(ctx, 7", "none"),
    ("f(ctx", "none"),
    ("f(7)", "none"),
    ("f()", "none"),
    ("f(ctx, 7, 8)", "none"),
    ("f(ctx, 7);", "none"),
];

#[test]
fn a_function_is_asked_for_no_function(rt: HostRuntime) -> Result<(), Fail> {
    check_exprs(&rt, true, Width::W32, FUNCTIONS)?;
    check_exprs(&rt, false, Width::W16, FUNCTIONS)
}

// So many deposits, one in another, in an extraction at width 32.
fn nested(alloc: Global, count: u32) -> Result<String, AllocError> {
    let mut text = String::new(alloc);
    for _ in 0..count {
        text.push_str("deposit32(")?;
    }
    text.push_str("extract32(insn, 0, 1)")?;
    for level in 0..count {
        text.push_str(", ")?;
        push_number(&mut text, level)?;
        text.push_str(", 1, extract32(insn, 3, 1))")?;
    }
    Ok(text)
}

// Whether the expression is so many deposits, one in another, around the lowest bit of the word.
fn is_nested(expr: &Expr, count: u32) -> bool {
    let mut inner = expr;
    for level in 0..count {
        match inner {
            Expr::Deposit(into, pos, 1, _) if *pos == count - level - 1 => inner = into,
            _ => return false,
        }
    }
    matches!(
        inner,
        Expr::Segment {
            signed: false,
            from: Input::Insn,
            pos: 0,
            length: 1,
        }
    )
}

#[test]
fn deposits_nest_deep(rt: HostRuntime) -> Result<(), Fail> {
    let alloc = rt.alloc();
    let text = nested(alloc, 5000)?;
    let found = tokens_in(alloc, text.as_str())?;
    let mut left = Tokens::of(&found);
    match expr_at(alloc, false, Width::W32, &mut left) {
        Ok(expr) => assert!(rt; is_nested(&expr, 5000)),
        Err(_) => return Err("no expression".into()),
    }
    assert!(rt; left.is_empty());
    Ok(())
}

// What is assigned, and whether tokens stand behind.
fn push_assigned(
    shown: &mut String,
    argument: &str,
    value: &Expr,
    whole: bool,
) -> Result<(), AllocError> {
    shown.push_str(argument)?;
    shown.push_str(" = ")?;
    push_expr(shown, value)?;
    if !whole {
        shown.push_str(" and more")?;
    }
    Ok(())
}

// The assignment of an extraction that stands first.
fn assignment_shown(alloc: Global, text: &str) -> Result<String, Fail> {
    let found = tokens_in(alloc, text)?;
    let mut left = Tokens::of(&found);
    let mut shown = String::new(alloc);
    match assignment_at(alloc, Width::W32, &mut left) {
        Ok((argument, value)) => {
            let whole = left.is_empty();
            push_assigned(&mut shown, argument.as_str(), &value, whole)?;
        }
        Err(ReadFault::NotSubset) => shown.push_str("none")?,
        Err(ReadFault::NoMemory) => return Err("no memory".into()),
    }
    Ok(shown)
}

// The assignment of the decoder that stands first.
fn set_assignment_shown(alloc: Global, text: &str) -> Result<String, Fail> {
    let found = tokens_in(alloc, text)?;
    let mut left = Tokens::of(&found);
    let mut shown = String::new(alloc);
    match set_assignment_at(alloc, Width::W32, &mut left) {
        Ok(((set, argument), value)) => {
            let whole = left.is_empty();
            shown.push_str(set.as_str())?;
            shown.push(' ')?;
            push_assigned(&mut shown, argument.as_str(), &value, whole)?;
        }
        Err(ReadFault::NotSubset) => shown.push_str("none")?,
        Err(ReadFault::NoMemory) => return Err("no memory".into()),
    }
    Ok(shown)
}

#[test]
fn extractions_assign_arguments(rt: HostRuntime) -> Result<(), Fail> {
    let table: &[(&str, &str)] = &[
        ("a->imm = -3;", "imm = -3"),
        (
            "a->rd = extract32(insn, 7, 5);\n    a->x = 1;",
            "rd = unsigned insn 7 5 and more",
        ),
        (
            "a->x = extract32(a->imm, 0, 3);",
            "x = unsigned arg imm 0 3",
        ),
        ("a->x = 5(ctx);", "x = 5"),
        ("a->x = extract32(u.f_r.imm, 0, 3);", "none"),
        ("u.f_r.x = 1;", "none"),
        ("a->x = 1", "none"),
        ("a->x == 1;", "none"),
        ("a->x = ;", "none"),
        ("a.x = 1;", "none"),
        ("a-> = 1;", "none"),
    ];
    for (text, wanted) in table {
        let shown = assignment_shown(rt.alloc(), text)?;
        assert!(rt; shown.as_str() == *wanted, "{text}");
    }
    Ok(())
}

#[test]
fn the_decoder_assigns_arguments_of_sets(rt: HostRuntime) -> Result<(), Fail> {
    let table: &[(&str, &str)] = &[
        ("u.f_shift.imm = -3;", "shift imm = -3"),
        (
            "u.f_shift.low = sextract32(insn, 0, 4); if",
            "shift low = signed insn 0 4 and more",
        ),
        (
            "u.f_s.x = f(ctx, extract32(u.f_s.imm, 0, 3));",
            "s x = f; unsigned s arg imm 0 3",
        ),
        ("u.f_s.x = extract32(a->imm, 0, 3);", "none"),
        ("a->x = 1;", "none"),
        ("u.s.x = 1;", "none"),
        ("u.f_s = 1;", "none"),
        ("u.f_s.x = 1", "none"),
    ];
    for (text, wanted) in table {
        let shown = set_assignment_shown(rt.alloc(), text)?;
        assert!(rt; shown.as_str() == *wanted, "{text}");
    }
    Ok(())
}
