//! The run of a program at a word.

ghost use Rattle.std.specs.Prelude.{◌≡◌, ◌<◌, ◌^◌, All};
ghost use Rattle.c_eval.specs.Conditions.{SetRuns};
ghost use Rattle.c_eval.specs.Runs.{Standing as Stand, run_all, run_first, run_of, run_one};
ghost use Rattle.c_eval.specs.Turns.{Stands, Turned, ended_seen};
ghost use Rattle.c_subset.specs.Sites.{statements_in};
ghost use Rattle.c_subset.specs.View.{cases_of, program_of, stmt_of, stmts_of};

use crate::declared::Setting;
use crate::steps::{assign, call, extract};
use crate::turn::{Ended, Standing, Turn, tested};
use c_subset::{Program, Stmt};
use dt_host::Host;
use dt_values::SetDef;

/// How a run ended, and how many tests it made.
#[derive(Clone, Copy)]
pub struct Ran {
    pub ended: Ended,
    pub tests: u64,
}

/// The run of a program at a word, beside sets that are declared outside of its text. The host is handed the calls. The
/// number of tests is that of the run where the program has fewer than 2^64 statements, and else 2^64 - 1 at most.
pub fn run_decode<H: Host>(program: &Program, outside: &[SetDef], word: u64, host: &mut H) -> Ran
    requires sets { All SetRuns program.now.sets }
    requires outside { All SetRuns outside.now }
    ensures ended { ended_seen result.ended ≡ (run_of (program_of program.now) outside.now (H.host host.old) word
        (H.state host.old)).ended }
    ensures tests { statements_in (stmts_of program.now.body) < 2 ^ 64
        → result.tests ≡ (run_of (program_of program.now) outside.now (H.host host.old) word
        (H.state host.old)).tests }
    ensures state { H.state host.new ≡ (run_of (program_of program.now) outside.now (H.host host.old) word
        (H.state host.old)).state }
    ensures same { H.host host.new ≡ H.host host.old }
{
    let setting = Setting {
        program,
        outside,
        word,
    };
    let standing = Standing {
        live: None,
        tests: 0,
    };
    match run_statements(&setting, program.body.items(), standing, host) {
        Turn::Going(standing) => Ran {
            ended: Ended::False,
            tests: standing.tests,
        },
        Turn::Ended(ended, standing) => Ran {
            ended,
            tests: standing.tests,
        },
    }
}

// Statements in order.
#[cycle(run)]
fn run_statements<H: Host>(
    setting: &Setting,
    statements: &[Stmt],
    standing: Standing,
    host: &mut H,
) -> Turn
    ensures turned { (r : Stand H.State)
        → Stands (program_of setting.now.program.now) setting.now.outside.now r standing (H.state host.old)
        → Turned (program_of setting.now.program.now) setting.now.outside.now
        (run_all (program_of setting.now.program.now) setting.now.outside.now (H.host host.old) setting.now.word
        (stmts_of statements.now) r) result (H.state host.new) }
    ensures same { H.host host.new ≡ H.host host.old }
{
    let mut standing = standing;
    for statement in statements {
        match run_statement(setting, statement, standing, host) {
            Turn::Going(next) => standing = next,
            Turn::Ended(ended, last) => return Turn::Ended(ended, last),
        }
    }
    Turn::Going(standing)
}

#[cycle(run)]
fn run_statement<H: Host>(
    setting: &Setting,
    statement: &Stmt,
    standing: Standing,
    host: &mut H,
) -> Turn
    ensures turned { (r : Stand H.State)
        → Stands (program_of setting.now.program.now) setting.now.outside.now r standing (H.state host.old)
        → Turned (program_of setting.now.program.now) setting.now.outside.now
        (run_one (program_of setting.now.program.now) setting.now.outside.now (H.host host.old) setting.now.word
        (stmt_of statement.now) r) result (H.state host.new) }
    ensures same { H.host host.new ≡ H.host host.old }
{
    match statement {
        Stmt::If(mask, value, block) => {
            if setting.word & *mask == *value {
                run_statements(setting, block, tested(standing), host)
            } else {
                Turn::Going(tested(standing))
            }
        }
        Stmt::Switch(mask, cases) => run_first(
            setting,
            setting.word & *mask,
            cases,
            tested(standing),
            host,
        ),
        Stmt::Extract { format, set } => extract(setting, *format, *set, standing, &*host),
        Stmt::Assign { set, arg, value } => assign(setting, *set, *arg, value, standing, &*host),
        Stmt::Call { pattern, set } => call(setting, *pattern, *set, standing, host),
    }
}

// The block of the first case of this value, if there is one.
#[cycle(run)]
fn run_first<H: Host>(
    setting: &Setting,
    value: u64,
    cases: &[(u64, Vec<Stmt>)],
    standing: Standing,
    host: &mut H,
) -> Turn
    ensures turned { (r : Stand H.State)
        → Stands (program_of setting.now.program.now) setting.now.outside.now r standing (H.state host.old)
        → Turned (program_of setting.now.program.now) setting.now.outside.now
        (run_first (program_of setting.now.program.now) setting.now.outside.now (H.host host.old) setting.now.word
        value (cases_of cases.now) r) result (H.state host.new) }
    ensures same { H.host host.new ≡ H.host host.old }
{
    for case in cases {
        if case.0 == value {
            return run_statements(setting, &case.1, standing, host);
        }
    }
    Turn::Going(standing)
}
