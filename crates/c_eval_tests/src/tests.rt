//! Runs of programs made by hand, with scripts.

ghost use Rattle.std.specs.Prelude.{IfOk, All};
ghost use Rattle.c_eval.specs.Conditions.{SetRuns};

use c_eval::{Bytes, Ended, Ran, run_decode, run_load};
use c_exprs::{Expr, Input};
use c_subset::{
    AssignList, Body, Extract, ExtractList, LoadBlock, NameList, PatternList, Program, SetList,
    Stmt,
};
use dt_host::{Answer, Script};
use dt_values::{CType, Member, MemberList, Name, SetDef, Width};
use std::alloc::Global;
use std::process::Abort;
use std::test::Fail;

fn name(rt: &impl Abort, bytes: &[u8]) -> Name {
    Name::from_bytes(bytes).expect(rt, "a name")
}

// A set with two arguments, `int FIRST; int8_t SECOND;`.
#[tactic(auto, using(c_eval::proofs::SetsRun::two_different))]
fn two_arguments(alloc: Global, set: Name, first: Name, second: Name) -> Result<SetDef, Fail>
    ensures { IfOk result SetRuns }
{
    if first == second {
        return Err("two names".into());
    }
    let first = Member {
        ctype: CType::Int,
        name: first,
    };
    let second = Member {
        ctype: CType::I8,
        name: second,
    };
    Ok(SetDef {
        name: set,
        members: MemberList::of(vec![in alloc; first, second]?),
        outside: false,
    })
}

// A set with one argument, `int NAME;`.
#[tactic(auto, using(c_eval::proofs::SetsRun::one_alone))]
fn one_argument(alloc: Global, set: Name, argument: Name) -> Result<SetDef, Fail>
    ensures { IfOk result SetRuns }
{
    let member = Member {
        ctype: CType::Int,
        name: argument,
    };
    Ok(SetDef {
        name: set,
        members: MemberList::of(vec![in alloc; member]?),
        outside: false,
    })
}

/// Where bits come from: the word, an argument without its set, or an argument of a set.
#[derive(Clone, Copy)]
enum Origin<'a> {
    Word,
    Argument(&'a [u8]),
    OfSet(&'a [u8], &'a [u8]),
}

/// Bits: whether they are signed, where they come from, the lowest, and how many.
type Bits<'a> = (bool, Origin<'a>, u32, u32);

/// What is assigned: a number, bits, what the function `f` answers to bits, or bits put into others and cast.
#[derive(Clone, Copy)]
enum Value<'a> {
    Number(i64),
    Plain(Bits<'a>),
    Asked(Bits<'a>),
    Joined(Bits<'a>, u32, u32, Bits<'a>),
}

/// A statement: none, the extraction of a format for a set, a value for the argument of a set, or the call of a pattern
/// with a set.
#[derive(Clone, Copy)]
enum Step<'a> {
    Nothing,
    Extract(&'a [u8], &'a [u8]),
    Assign(&'a [u8], &'a [u8], Value<'a>),
    Call(&'a [u8], &'a [u8]),
}

fn input(rt: &impl Abort, from: Origin) -> Input {
    match from {
        Origin::Word => Input::Insn,
        Origin::Argument(argument) => Input::Arg(None, name(rt, argument)),
        Origin::OfSet(set, argument) => Input::Arg(Some(name(rt, set)), name(rt, argument)),
    }
}

fn segment(rt: &impl Abort, bits: Bits) -> Expr {
    let (signed, from, pos, length) = bits;
    Expr::Segment {
        signed,
        from: input(rt, from),
        pos,
        length,
    }
}

fn expression(rt: &(impl Abort + AllocGlobal), value: Value) -> Result<Expr, Fail> {
    match value {
        Value::Number(number) => Ok(Expr::Constant(number)),
        Value::Plain(bits) => Ok(segment(rt, bits)),
        Value::Asked(bits) => {
            let argument = Box::new(rt.alloc(), segment(rt, bits))?;
            Ok(Expr::Function(name(rt, b"f"), Some(argument)))
        }
        Value::Joined(into, pos, length, part) => {
            let into = Box::new(rt.alloc(), segment(rt, into))?;
            let part = Box::new(rt.alloc(), segment(rt, part))?;
            let joined = Box::new(rt.alloc(), Expr::Deposit(into, pos, length, part))?;
            Ok(Expr::Cast(joined))
        }
    }
}

fn statement(rt: &(impl Abort + AllocGlobal), step: Step) -> Result<Option<Stmt>, Fail> {
    match step {
        Step::Nothing => Ok(None),
        Step::Extract(format, set) => Ok(Some(Stmt::Extract {
            format: name(rt, format),
            set: name(rt, set),
        })),
        Step::Assign(set, argument, value) => {
            let value = expression(rt, value)?;
            Ok(Some(Stmt::Assign {
                set: name(rt, set),
                arg: name(rt, argument),
                value,
            }))
        }
        Step::Call(pattern, set) => Ok(Some(Stmt::Call {
            pattern: name(rt, pattern),
            set: name(rt, set),
        })),
    }
}

fn block(rt: &(impl Abort + AllocGlobal), steps: &[Step]) -> Result<Vec<Stmt>, Fail> {
    let mut statements = Vec::new(rt.alloc());
    for step in steps {
        match statement(rt, *step)? {
            None => {}
            Some(statement) => statements.push(statement)?,
        }
    }
    Ok(statements)
}

// The set `load` has `int rd; int8_t imm;`, and `jump` has `int rd;`. The format `both` is bits 7 to 11 and 24 to 31,
// and `one` is bits 7 to 11 alone.
#[tactic(auto, using(c_eval::proofs::SetsRun::two_sets))]
fn program(rt: &(impl Abort + AllocGlobal), body: Vec<Stmt>) -> Result<Program, Fail>
    ensures { IfOk result (λ program. All SetRuns program.sets) }
{
    let alloc = rt.alloc();
    let (load, jump) = (name(rt, b"load"), name(rt, b"jump"));
    let (rd, imm) = (name(rt, b"rd"), name(rt, b"imm"));
    let sets = vec![in alloc;
        two_arguments(alloc, load, rd, imm)?,
        one_argument(alloc, jump, rd)?,
    ]?;
    let low = (rd, segment(rt, (false, Origin::Word, 7, 5)));
    let high = (imm, segment(rt, (false, Origin::Word, 24, 8)));
    let both = Extract {
        format: name(rt, b"both"),
        set: load,
        assigns: AssignList::of(vec![in alloc; low, high]?),
    };
    let alone = (rd, segment(rt, (false, Origin::Word, 7, 5)));
    let one = Extract {
        format: name(rt, b"one"),
        set: load,
        assigns: AssignList::of(vec![in alloc; alone]?),
    };
    let patterns = vec![in alloc; (name(rt, b"lb"), load), (name(rt, b"jr"), jump)]?;
    Ok(Program {
        width: Width::W32,
        sets: SetList::of(sets),
        prefix: Some((name(rt, b"trans"), true)),
        patterns: PatternList::of(patterns),
        extracts: ExtractList::of(vec![in alloc; both, one]?),
        decoder: name(rt, b"decode"),
        decoder_static: true,
        union_sets: NameList::of(vec![in alloc; load, jump]?),
        body: Body::of(body),
        load: None,
    })
}

// In the word bits 7 to 11 are 21, and bits 24 to 31 are 255. Functions answer 5 to -1 before the first call.
fn run_beside(
    rt: &(impl Abort + AllocGlobal),
    outside: &[SetDef],
    body: Vec<Stmt>,
    outcomes: &[bool],
) -> Result<(Ran, Script), Fail>
    requires { All SetRuns outside.now }
{
    let program = program(rt, body)?;
    let answers = [Answer {
        calls: 0,
        function: name(rt, b"f"),
        arg: Some(-1),
        answer: 5,
    }];
    let mut script = Script::new(rt.alloc(), outcomes, answers.as_slice(), 4)?;
    let ran = run_decode(&program, outside, 0xff00_0a80, &mut script);
    Ok((ran, script))
}

// The same without a set that is declared outside.
#[tactic(auto, using(c_eval::proofs::SetsRun::no_set))]
fn run(
    rt: &(impl Abort + AllocGlobal),
    body: Vec<Stmt>,
    outcomes: &[bool],
) -> Result<(Ran, Script), Fail> {
    let outside: Vec<SetDef> = Vec::new(rt.alloc());
    run_beside(rt, outside.as_slice(), body, outcomes)
}

// Whether a run ended so, after so many tests.
fn has_ended(ran: Ran, ended: Ended, tests: u64) -> bool {
    ran.ended == ended && ran.tests == tests
}

// Whether the first call handed over two values, which are these.
fn hands_over(script: &Script, first: i128, second: i128) -> bool {
    match script.calls().first() {
        None => false,
        Some(call) => call.count == 2 && call.items[0] == first && call.items[1] == second,
    }
}

const ONE: Step<'static> = Step::Extract(b"one", b"load");

const BOTH: Step<'static> = Step::Extract(b"both", b"load");

const CALL: Step<'static> = Step::Call(b"lb", b"load");

#[test]
fn a_call_hands_over_what_an_extraction_gives(rt: HostRuntime) -> Result<(), Fail> {
    let body = block(&rt, &[BOTH, CALL])?;
    let (ran, script) = run(&rt, body, &[])?;
    assert!(rt; has_ended(ran, Ended::True, 0));
    assert!(rt; hands_over(&script, 21, -1));
    Ok(())
}

fn check_assigned(rt: &(impl Abort + AllocGlobal), value: Value, wanted: i128) -> Result<(), Fail> {
    let body = block(rt, &[BOTH, Step::Assign(b"load", b"rd", value), CALL])?;
    let (ran, script) = run(rt, body, &[])?;
    assert!(rt; has_ended(ran, Ended::True, 0));
    assert!(rt; hands_over(&script, wanted, -1));
    Ok(())
}

#[test]
fn an_argument_is_read_and_a_function_asked(rt: HostRuntime) -> Result<(), Fail> {
    let argument = (true, Origin::OfSet(b"load", b"imm"), 0, 8);
    check_assigned(&rt, Value::Asked(argument), 5)
}

#[test]
fn deposits_and_casts(rt: HostRuntime) -> Result<(), Fail> {
    let into = (false, Origin::Word, 7, 4);
    let part = (true, Origin::Word, 31, 1);
    check_assigned(&rt, Value::Joined(into, 4, 28, part), -11)
}

#[test]
fn values_are_lost_after_a_call(rt: HostRuntime) -> Result<(), Fail> {
    let one = block(&rt, &[BOTH, CALL])?;
    let other = block(&rt, &[CALL])?;
    let body = vec![in rt.alloc(); Stmt::If(0x7f, 0, one), Stmt::If(0x7f, 0, other)]?;
    let (ran, script) = run(&rt, body, &[false])?;
    assert!(rt; has_ended(ran, Ended::Stuck, 2));
    assert!(rt; script.calls().len() == 1);
    Ok(())
}

#[test]
fn a_switch_is_one_test(rt: HostRuntime) -> Result<(), Fail> {
    let (none, empty) = (block(&rt, &[])?, block(&rt, &[])?);
    let calls = block(&rt, &[BOTH, CALL])?;
    let cases = vec![in rt.alloc(); (0u64, empty), (0x80u64, calls)]?;
    let body = vec![in rt.alloc(); Stmt::If(1, 1, none), Stmt::Switch(0xff, cases)]?;
    let (ran, script) = run(&rt, body, &[])?;
    assert!(rt; has_ended(ran, Ended::True, 2));
    assert!(rt; script.calls().len() == 1);
    Ok(())
}

// What is wrong, two statements, and whether they are stuck before any call.
type StuckRow<'a> = (&'a str, Step<'a>, Step<'a>, bool);

fn check_stuck(rt: &(impl Abort + AllocGlobal), table: &[StuckRow]) -> Result<(), Fail> {
    for (case, first, second, stuck) in table {
        let body = block(rt, &[*first, *second])?;
        let (ran, script) = run(rt, body, &[])?;
        let is_stuck = ran.ended == Ended::Stuck && script.calls().is_empty();
        assert!(rt; is_stuck == *stuck, "{case}");
    }
    Ok(())
}

// Bits that `rd` of `load` gets: the lowest eight of `imm` of `load`, which is lost, of `rd` of `jump`, which isn't live,
// and of an argument without its set; none of the word's; two from the word's highest on, and the highest.
const LOST: Value<'static> = Value::Plain((false, Origin::OfSet(b"load", b"imm"), 0, 8));

const OTHER: Value<'static> = Value::Plain((false, Origin::OfSet(b"jump", b"rd"), 0, 8));

const UNNAMED: Value<'static> = Value::Plain((false, Origin::Argument(b"rd"), 0, 8));

const NO_BITS: Value<'static> = Value::Plain((false, Origin::Word, 0, 0));

const TOO_MANY: Value<'static> = Value::Plain((true, Origin::Word, 31, 2));

const HIGHEST: Value<'static> = Value::Plain((true, Origin::Word, 31, 1));

const STUCK_ROWS: &[StuckRow<'static>] = &[
    ("handed over and lost", ONE, CALL, true),
    (
        "read and lost",
        ONE,
        Step::Assign(b"load", b"rd", LOST),
        true,
    ),
    (
        "read of another set",
        ONE,
        Step::Assign(b"load", b"rd", OTHER),
        true,
    ),
    (
        "read without its set",
        ONE,
        Step::Assign(b"load", b"rd", UNNAMED),
        true,
    ),
    ("no set is live", CALL, Step::Nothing, true),
    ("another set is live", ONE, Step::Call(b"jr", b"jump"), true),
    (
        "a pattern of another set",
        Step::Assign(b"jump", b"rd", Value::Number(1)),
        Step::Call(b"lb", b"jump"),
        true,
    ),
    (
        "no such pattern",
        Step::Assign(b"jump", b"rd", Value::Number(1)),
        Step::Call(b"no", b"jump"),
        true,
    ),
    (
        "no such set",
        Step::Assign(b"unknown", b"rd", Value::Number(1)),
        Step::Nothing,
        true,
    ),
    (
        "no such argument",
        Step::Assign(b"jump", b"imm", Value::Number(1)),
        Step::Nothing,
        true,
    ),
    (
        "no such format",
        Step::Extract(b"none", b"load"),
        Step::Nothing,
        true,
    ),
    (
        "a format of another set",
        Step::Extract(b"one", b"jump"),
        Step::Nothing,
        true,
    ),
    (
        "no bits",
        Step::Assign(b"load", b"rd", NO_BITS),
        Step::Nothing,
        true,
    ),
    (
        "too many bits",
        Step::Assign(b"load", b"rd", TOO_MANY),
        Step::Nothing,
        true,
    ),
    (
        "the highest bit",
        Step::Assign(b"load", b"rd", HIGHEST),
        Step::Nothing,
        false,
    ),
];

#[test]
fn each_way_to_be_stuck(rt: HostRuntime) -> Result<(), Fail> {
    check_stuck(&rt, STUCK_ROWS)
}

#[test]
#[tactic(auto, using(c_eval::proofs::SetsRun::one_set))]
fn a_set_outside_is_declared(rt: HostRuntime) -> Result<(), Fail> {
    let alloc = rt.alloc();
    let other = one_argument(alloc, name(&rt, b"other"), name(&rt, b"rd"))?;
    let outside = vec![in alloc; other]?;
    let body = block(&rt, &[Step::Assign(b"other", b"rd", Value::Number(1))])?;
    let (ran, _) = run_beside(&rt, outside.as_slice(), body, &[])?;
    assert!(rt; ran.ended == Ended::False);
    Ok(())
}

// The word that a program with this load function loads at this width, and how many bytes are loaded then.
fn loaded(
    rt: &(impl Abort + AllocGlobal),
    width: Width,
    block: Option<LoadBlock>,
) -> Result<(Option<u64>, u8), Fail> {
    let mut program = program(rt, Vec::new(rt.alloc()))?;
    program.width = width;
    program.load = block;
    let mut bytes = Bytes {
        items: [0x13, 2, 3, 4, 5, 6, 7, 8],
        loaded: 9,
    };
    let word = run_load(&program, &mut bytes);
    Ok((word, bytes.loaded))
}

#[test]
fn loads_of_two_and_four_bytes(rt: HostRuntime) -> Result<(), Fail> {
    let more = LoadBlock {
        load: Some((2, 4)),
        switch: None,
    };
    let cases = vec![in rt.alloc(); (0x0300_0000u64, more)]?;
    let both = LoadBlock {
        load: Some((0, 2)),
        switch: Some((0x0300_0000, cases)),
    };
    assert!(rt; loaded(&rt, Width::W32, Some(both))? == (Some(0x1302_0304), 4));
    let all = LoadBlock {
        load: Some((0, 8)),
        switch: None,
    };
    assert!(rt; loaded(&rt, Width::W64, Some(all))? == (Some(0x1302_0304_0506_0708), 8));
    Ok(())
}

#[test]
fn loads_that_are_stuck(rt: HostRuntime) -> Result<(), Fail> {
    let table: &[(u32, u32)] = &[(1, 2), (0, 0), (2, 1), (0, 5), (0, 0xffff_ffff)];
    for (from, to) in table {
        let block = LoadBlock {
            load: Some((*from, *to)),
            switch: None,
        };
        assert!(rt;
            loaded(&rt, Width::W32, Some(block))? == (None, 9),
            "from {from} to {to}"
        );
    }
    assert!(rt; loaded(&rt, Width::W32, None)? == (None, 9));
    Ok(())
}
