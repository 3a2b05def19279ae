//! What is read, in short words that tables compare.

use c_subset::{Expr, Extract, Input, LoadBlock, Program, Stmt};
use dt_values::{CType, SetDef};
use std::process::Abort;

// More than any example has.
const MOST_TURNS: u32 = 100;

/// Puts a part last.
pub fn push(rt: &impl Abort, shown: &mut String, part: &str) {
    shown.push_str(part).expect(rt, "memory");
}

fn push_number(rt: &(impl Abort + AllocGlobal), shown: &mut String, number: u32) {
    let part = format!(in rt.alloc(); " {number}").expect(rt, "memory");
    push(rt, shown, part.as_str());
}

fn push_hexadecimal(rt: &(impl Abort + AllocGlobal), shown: &mut String, number: u64) {
    let part = format!(in rt.alloc(); " {number:x}").expect(rt, "memory");
    push(rt, shown, part.as_str());
}

// Where bits come from, as `insn`, `arg NAME` or `SET arg NAME`.
fn push_input(rt: &impl Abort, shown: &mut String, from: &Input) {
    match from {
        Input::Insn => push(rt, shown, "insn"),
        Input::Arg(None, name) => {
            push(rt, shown, "arg ");
            push(rt, shown, name.as_str());
        }
        Input::Arg(Some(set), name) => {
            push(rt, shown, set.as_str());
            push(rt, shown, " arg ");
            push(rt, shown, name.as_str());
        }
    }
}

// A segment, as `signed insn 0 4`.
fn push_segment(rt: &(impl Abort + AllocGlobal), shown: &mut String, segment: &Expr) {
    match segment {
        Expr::Segment {
            signed,
            from,
            pos,
            length,
        } => {
            push(rt, shown, if *signed { "signed " } else { "unsigned " });
            push_input(rt, shown, from);
            push_number(rt, shown, *pos);
            push_number(rt, shown, *length);
        }
        _ => push(rt, shown, "no segment"),
    }
}

// A constant, as `-5`.
fn push_constant(rt: &(impl Abort + AllocGlobal), shown: &mut String, value: i64) {
    let part = format!(in rt.alloc(); "{value}").expect(rt, "memory");
    push(rt, shown, part.as_str());
}

// An expression from outside in, with a semicolon between its levels: `at 4 28 PART; INTO` is a deposit.
fn push_expr(rt: &(impl Abort + AllocGlobal), shown: &mut String, expr: &Expr) {
    let mut inner = expr;
    for _ in 0..MOST_TURNS {
        match inner {
            Expr::Constant(value) => return push_constant(rt, shown, *value),
            Expr::Segment { .. } => return push_segment(rt, shown, inner),
            Expr::Deposit(into, pos, length, part) => {
                push(rt, shown, "at");
                push_number(rt, shown, *pos);
                push_number(rt, shown, *length);
                push(rt, shown, " ");
                push_segment(rt, shown, part);
                push(rt, shown, "; ");
                inner = into;
            }
            Expr::Cast(value) => {
                push(rt, shown, "cast; ");
                inner = value;
            }
            Expr::Function(name, None) => return push(rt, shown, name.as_str()),
            Expr::Function(name, Some(argument)) => {
                push(rt, shown, name.as_str());
                push(rt, shown, "; ");
                inner = argument;
            }
        }
    }
    push(rt, shown, "and more");
}

// Two names behind a word, as ` WORD FIRST SECOND`.
fn push_two(rt: &impl Abort, shown: &mut String, word: &str, first: &str, second: &str) {
    push(rt, shown, word);
    push(rt, shown, first);
    push(rt, shown, " ");
    push(rt, shown, second);
}

// A statement without its block, as ` if ff 3 {`, ` extract FORMAT SET;` or ` SET ARG = (VALUE);`.
fn push_head(rt: &(impl Abort + AllocGlobal), shown: &mut String, stmt: &Stmt) {
    match stmt {
        Stmt::If(mask, value, _) => {
            push(rt, shown, " if");
            push_hexadecimal(rt, shown, *mask);
            push_hexadecimal(rt, shown, *value);
            push(rt, shown, " {");
        }
        Stmt::Switch(mask, _) => {
            push(rt, shown, " switch");
            push_hexadecimal(rt, shown, *mask);
            push(rt, shown, " {");
        }
        Stmt::Extract { format, set } => {
            push_two(rt, shown, " extract ", format.as_str(), set.as_str());
            push(rt, shown, ";");
        }
        Stmt::Assign { set, arg, value } => {
            push_two(rt, shown, " ", set.as_str(), arg.as_str());
            push(rt, shown, " = (");
            push_expr(rt, shown, value);
            push(rt, shown, ");");
        }
        Stmt::Call { pattern, set } => {
            push_two(rt, shown, " call ", pattern.as_str(), set.as_str());
            push(rt, shown, ";");
        }
    }
}

fn push_case(rt: &(impl Abort + AllocGlobal), shown: &mut String, value: u64) {
    push(rt, shown, " case");
    push_hexadecimal(rt, shown, value);
    push(rt, shown, " {");
}

// What is left of a block.
#[derive(Clone, Copy)]
enum Left<'a> {
    Stmts(&'a [Stmt]),
    Cases(&'a [(u64, Vec<Stmt>)]),
}

fn then<'a>(rt: &impl Abort, left: &mut Vec<Left<'a>>, next: Left<'a>) {
    left.push(next).expect(rt, "memory");
}

// Puts the first of these statements last, with what is left behind it.
fn push_stmt<'a>(
    rt: &(impl Abort + AllocGlobal),
    shown: &mut String,
    left: &mut Vec<Left<'a>>,
    stmts: &'a [Stmt],
) {
    let Some((first, rest)) = stmts.split_first() else {
        return push(rt, shown, " }");
    };
    push_head(rt, shown, first);
    then(rt, left, Left::Stmts(rest));
    match first {
        Stmt::If(_, _, block) => then(rt, left, Left::Stmts(block.as_slice())),
        Stmt::Switch(_, cases) => then(rt, left, Left::Cases(cases.as_slice())),
        _ => {}
    }
}

// The same of cases.
fn push_cases<'a>(
    rt: &(impl Abort + AllocGlobal),
    shown: &mut String,
    left: &mut Vec<Left<'a>>,
    cases: &'a [(u64, Vec<Stmt>)],
) {
    let Some(((value, block), rest)) = cases.split_first() else {
        return push(rt, shown, " }");
    };
    push_case(rt, shown, *value);
    then(rt, left, Left::Cases(rest));
    then(rt, left, Left::Stmts(block.as_slice()));
}

fn push_left(rt: &(impl Abort + AllocGlobal), shown: &mut String, left: &mut Vec<Left>) {
    for _ in 0..MOST_TURNS {
        match left.pop() {
            None => return,
            Some(Left::Stmts(stmts)) => push_stmt(rt, shown, left, stmts),
            Some(Left::Cases(cases)) => push_cases(rt, shown, left, cases),
        }
    }
    push(rt, shown, " and more");
}

/// Statements in braces, as `{ if ff 3 { call PATTERN SET; } switch 1 { case 1 { } } }`.
pub fn stmts_shown(rt: &(impl Abort + AllocGlobal), stmts: &[Stmt]) -> String {
    let mut shown = String::new(rt.alloc());
    let mut left = Vec::new(rt.alloc());
    push(rt, &mut shown, "{");
    then(rt, &mut left, Left::Stmts(stmts));
    push_left(rt, &mut shown, &mut left);
    shown
}

// What is left of a block of the load function.
#[derive(Clone, Copy)]
enum LoadLeft<'a> {
    Block(&'a LoadBlock),
    Cases(&'a [(u64, LoadBlock)]),
    End,
}

fn then_load<'a>(rt: &impl Abort, left: &mut Vec<LoadLeft<'a>>, next: LoadLeft<'a>) {
    left.push(next).expect(rt, "memory");
}

// The bytes that a block loads, as ` load 0 2`.
fn push_bytes(rt: &(impl Abort + AllocGlobal), shown: &mut String, load: &Option<(u32, u32)>) {
    if let Some((from, to)) = load {
        push(rt, shown, " load");
        push_number(rt, shown, *from);
        push_number(rt, shown, *to);
    }
}

// Puts a block last, with what is left behind it.
fn push_block<'a>(
    rt: &(impl Abort + AllocGlobal),
    shown: &mut String,
    left: &mut Vec<LoadLeft<'a>>,
    block: &'a LoadBlock,
) {
    push_bytes(rt, shown, &block.load);
    then_load(rt, left, LoadLeft::End);
    if let Some((mask, cases)) = &block.switch {
        push(rt, shown, " switch");
        push_hexadecimal(rt, shown, *mask);
        push(rt, shown, " {");
        then_load(rt, left, LoadLeft::Cases(cases.as_slice()));
    }
}

// The same of the first of these cases.
fn push_load_case<'a>(
    rt: &(impl Abort + AllocGlobal),
    shown: &mut String,
    left: &mut Vec<LoadLeft<'a>>,
    cases: &'a [(u64, LoadBlock)],
) {
    let Some(((value, block), rest)) = cases.split_first() else {
        return push(rt, shown, " }");
    };
    push_case(rt, shown, *value);
    then_load(rt, left, LoadLeft::Cases(rest));
    then_load(rt, left, LoadLeft::Block(block));
}

fn push_load_left(rt: &(impl Abort + AllocGlobal), shown: &mut String, left: &mut Vec<LoadLeft>) {
    for _ in 0..MOST_TURNS {
        match left.pop() {
            None => return,
            Some(LoadLeft::End) => push(rt, shown, " }"),
            Some(LoadLeft::Block(block)) => push_block(rt, shown, left, block),
            Some(LoadLeft::Cases(cases)) => push_load_case(rt, shown, left, cases),
        }
    }
    push(rt, shown, " and more");
}

/// A block of the load function, as `{ load 0 2 switch 1 { case 1 { } } }`.
pub fn load_shown(rt: &(impl Abort + AllocGlobal), block: &LoadBlock) -> String {
    let mut shown = String::new(rt.alloc());
    let mut left = Vec::new(rt.alloc());
    push(rt, &mut shown, "{");
    then_load(rt, &mut left, LoadLeft::Block(block));
    push_load_left(rt, &mut shown, &mut left);
    shown
}

// The variant of an argument's type.
fn variant(ctype: &CType) -> &str {
    match ctype {
        CType::Int => "Int",
        CType::I8 => "I8",
        CType::I16 => "I16",
        CType::I32 => "I32",
        CType::I64 => "I64",
        CType::U8 => "U8",
        CType::U16 => "U16",
        CType::U32 => "U32",
        CType::U64 => "U64",
        CType::Other(_) => "Other",
    }
}

fn push_type(rt: &impl Abort, shown: &mut String, ctype: &CType) {
    push(rt, shown, " ");
    push(rt, shown, variant(ctype));
    if let CType::Other(name) = ctype {
        push(rt, shown, " ");
        push(rt, shown, name.as_str());
    }
}

// An argument set, as `set NAME { Int ARG; }; `.
fn push_set(rt: &impl Abort, shown: &mut String, set: &SetDef) {
    push(rt, shown, if set.outside { "outer set " } else { "set " });
    push(rt, shown, set.name.as_str());
    push(rt, shown, " {");
    for member in set.members.items() {
        push_type(rt, shown, &member.ctype);
        push(rt, shown, " ");
        push(rt, shown, member.name.as_str());
        push(rt, shown, ";");
    }
    push(rt, shown, " }; ");
}

// An extraction, as `extraction FORMAT SET { ARG = (VALUE); }; `.
fn push_extract(rt: &(impl Abort + AllocGlobal), shown: &mut String, extract: &Extract) {
    push_two(
        rt,
        shown,
        "extraction ",
        extract.format.as_str(),
        extract.set.as_str(),
    );
    push(rt, shown, " {");
    for (argument, value) in extract.assigns.items() {
        push_two(rt, shown, " ", argument.as_str(), "= (");
        push_expr(rt, shown, value);
        push(rt, shown, ");");
    }
    push(rt, shown, " }; ");
}

// The prefix of a program and its patterns, as `prefix static NAME; pattern PATTERN SET; `.
fn push_patterns(rt: &impl Abort, shown: &mut String, program: &Program) {
    if let Some((prefix, is_static)) = &program.prefix {
        push(rt, shown, "prefix ");
        push(rt, shown, if *is_static { "static " } else { "" });
        push(rt, shown, prefix.as_str());
        push(rt, shown, "; ");
    }
    for (pattern, set) in program.patterns.items() {
        push_two(rt, shown, "pattern ", pattern.as_str(), set.as_str());
        push(rt, shown, "; ");
    }
}

/// All that a program declares before the decoder's body, up to `decoder static NAME 32`.
pub fn declared_shown(rt: &(impl Abort + AllocGlobal), program: &Program) -> String {
    let mut shown = String::new(rt.alloc());
    for set in program.sets.items() {
        push_set(rt, &mut shown, set);
    }
    push_patterns(rt, &mut shown, program);
    for extract in program.extracts.items() {
        push_extract(rt, &mut shown, extract);
    }
    push(rt, &mut shown, "decoder ");
    push(
        rt,
        &mut shown,
        if program.decoder_static {
            "static "
        } else {
            ""
        },
    );
    push(rt, &mut shown, program.decoder.as_str());
    push_number(rt, &mut shown, program.width.bits());
    shown
}

/// The sets of a program's union, each with a space before it.
pub fn union_shown(rt: &(impl Abort + AllocGlobal), program: &Program) -> String {
    let mut shown = String::new(rt.alloc());
    for set in program.union_sets.items() {
        push(rt, &mut shown, " ");
        push(rt, &mut shown, set.as_str());
    }
    shown
}
