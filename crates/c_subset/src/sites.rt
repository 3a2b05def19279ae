//! Where a program calls translators.

ghost use Rattle.std.specs.Prelude.{◌≡◌, ◌<◌, ◌^◌, length};
ghost use Rattle.c_subset.specs.Sites.{call_sites_in, call_sites_of_cases, calls_in, statements_in};
ghost use Rattle.c_subset.specs.View.{stmt_of, stmts_of, cases_of, program_of};

use crate::program::{Program, Stmt};

/// How many calls of translators stand in the decoder, at any depth. An extraction's call isn't one of them. A run
/// makes each of them once at most, so a script with room for so many keeps every call.
#[tactic(auto, using(crate::proofs::CallCounts::calls_are_statements))]
pub fn call_sites(program: &Program) -> usize
    requires { statements_in (program_of program.now).body < 2 ^ 64 }
    ensures { result ≡ calls_in (program_of program.now).body }
{
    calls_of_statements(program.body.items())
}

#[cycle(sites)]
fn calls_of_statements(stmts: &[Stmt]) -> usize
    requires { calls_in (stmts_of stmts.now) < 2 ^ 64 }
    ensures { result ≡ calls_in (stmts_of stmts.now) }
{
    let mut calls = 0;
    for stmt in stmts {
        calls += calls_of_statement(stmt);
    }
    calls
}

#[cycle(sites)]
#[tactic(auto, using(crate::proofs::StmtViews::seen_switch))]
fn calls_of_statement(stmt: &Stmt) -> usize
    requires { length (call_sites_in (stmt_of stmt.now)) < 2 ^ 64 }
    ensures { result ≡ length (call_sites_in (stmt_of stmt.now)) }
{
    match stmt {
        Stmt::If(_, _, block) => calls_of_statements(block),
        Stmt::Switch(_, cases) => calls_of_cases(cases),
        Stmt::Extract { .. } => 0,
        Stmt::Assign { .. } => 0,
        Stmt::Call { .. } => 1,
    }
}

#[cycle(sites)]
fn calls_of_cases(cases: &[(u64, Vec<Stmt>)]) -> usize
    requires { length (call_sites_of_cases (cases_of cases.now)) < 2 ^ 64 }
    ensures { result ≡ length (call_sites_of_cases (cases_of cases.now)) }
{
    let mut calls = 0;
    for case in cases {
        calls += calls_of_statements(&case.1);
    }
    calls
}
