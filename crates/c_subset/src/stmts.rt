//! Reads the statements of the decoder.

ghost use Rattle.std.specs.Prelude.{◌≡◌, option_map, map};
ghost use Rattle.c_tokens.specs.Gives.{Gives};
ghost use Rattle.c_tokens.specs.Parsing.{many};
ghost use Rattle.c_subset.specs.Programs.{switch};
ghost use Rattle.c_subset.specs.View.{stmt_of, stmts_of, case_of, cases_of};
ghost use Rattle.c_subset.specs.ReadView.{scope_of};
ghost use Rattle.c_subset.specs.StmtParsing.{if_at, case_at, starts_case, has_item, switch_at, stmt_at, starts_stmt, block_at, inner_at, stmts_at};

use crate::lines::{assign_at, begins_if, call_at, extract_at, if_head_at};
use crate::program::Stmt;
use crate::switches::{begins_switch, case_head_at, starts_case, switch_head_at};
use c_tokens::{ReadFault, Token, Tokens};
use dt_values::{Name, Width};
use std::alloc::Global;

/// What statements are read with.
#[derive(Clone, Copy)]
pub struct Scope {
    /// The width of an instruction word.
    pub width: Width,
    /// The decoder's name.
    pub decoder: Name,
    /// What stands before each pattern's name in a call, where there is a pattern.
    pub prefix: Option<Name>,
}

// Whether a statement starts. None does before `}`, `break` and `return`, and where no token is left.
#[tactic(auto, unfolding(crate::specs::StmtParsing::starts_stmt))]
fn starts_stmt(tokens: &Tokens) -> bool
    ensures { result ≡ starts_stmt tokens.now }
{
    !(tokens.is_empty()
        || tokens.begins(&[Token::Mark(b'}')])
        || tokens.begins(&[Token::Word(b"break")])
        || tokens.begins(&[Token::Word(b"return")]))
}

fn has_case(cases: &[(u64, Vec<Stmt>)]) -> bool
    ensures { result ≡ has_item (map case_of cases.now) }
{
    match cases.split_first() {
        None => false,
        Some(_) => true,
    }
}

#[tactic(auto, using(crate::proofs::StmtViews::view_switch))]
fn switch_of(mask: u64, cases: Vec<(u64, Vec<Stmt>)>) -> Stmt
    ensures { stmt_of result ≡ switch mask (cases_of cases.items) }
{
    Stmt::Switch(mask, cases)
}

#[cycle(read)]
#[tactic(auto, unfolding(crate::specs::StmtParsing::if_at))]
fn if_at(alloc: Global, scope: &Scope, braces: u32, tokens: &mut Tokens) -> Result<Stmt, ReadFault>
    ensures { Gives (λ s. (stmt_of s, tokens.new)) result
        (if_at scope.now.width (inner_at (scope_of scope.now) braces) tokens.old) }
{
    let (mask, value) = if_head_at(scope.width, tokens).ok_or(ReadFault::NotSubset)?;
    let body = inner_at(alloc, scope, braces, tokens)?;
    tokens
        .take(&[Token::Mark(b'}')])
        .ok_or(ReadFault::NotSubset)?;
    Ok(Stmt::If(mask, value, body))
}

#[cycle(read)]
#[tactic(auto, unfolding(crate::specs::StmtParsing::case_at))]
fn case_at(
    alloc: Global,
    scope: &Scope,
    braces: u32,
    tokens: &mut Tokens,
) -> Result<(u64, Vec<Stmt>), ReadFault>
    ensures { Gives (λ c. (case_of c, tokens.new)) result
        (case_at scope.now.width (inner_at (scope_of scope.now) braces) tokens.old) }
{
    let value = case_head_at(scope.width, tokens).ok_or(ReadFault::NotSubset)?;
    let body = inner_at(alloc, scope, braces, tokens)?;
    tokens
        .take(&[Token::Word(b"break"), Token::Mark(b';')])
        .ok_or(ReadFault::NotSubset)?;
    Ok((value, body))
}

#[cycle(read)]
#[tactic(auto)]
fn cases_at(
    alloc: Global,
    scope: &Scope,
    braces: u32,
    tokens: &mut Tokens,
) -> Result<Vec<(u64, Vec<Stmt>)>, ReadFault>
    ensures { Gives (λ cs. (map case_of cs.items, tokens.new)) result
        (many starts_case (case_at scope.now.width (inner_at (scope_of scope.now) braces)) tokens.old) }
{
    let mut cases = Vec::new(alloc);
    'more: while starts_case(tokens) {
        cases.push(case_at(alloc, scope, braces, tokens)?)?;
    }
    Ok(cases)
}

#[cycle(read)]
#[tactic(auto, unfolding(crate::specs::StmtParsing::switch_at))]
fn switch_at(
    alloc: Global,
    scope: &Scope,
    braces: u32,
    tokens: &mut Tokens,
) -> Result<Stmt, ReadFault>
    ensures { Gives (λ s. (stmt_of s, tokens.new)) result
        (switch_at scope.now.width (inner_at (scope_of scope.now) braces) tokens.old) }
{
    let mask = switch_head_at(scope.width, tokens).ok_or(ReadFault::NotSubset)?;
    let cases = cases_at(alloc, scope, braces, tokens)?;
    if !has_case(&cases) {
        return Err(ReadFault::NotSubset);
    }
    tokens
        .take(&[Token::Mark(b'}')])
        .ok_or(ReadFault::NotSubset)?;
    Ok(switch_of(mask, cases))
}

#[cycle(read)]
#[tactic(auto, unfolding(crate::specs::StmtParsing::stmt_at))]
fn stmt_at(
    alloc: Global,
    scope: &Scope,
    braces: u32,
    tokens: &mut Tokens,
) -> Result<Stmt, ReadFault>
    ensures { Gives (λ s. (stmt_of s, tokens.new)) result
        (stmt_at (scope_of scope.now) (inner_at (scope_of scope.now) braces) tokens.old) }
{
    if begins_if(tokens) {
        if_at(alloc, scope, braces, tokens)
    } else if tokens.begins(&[Token::Word(b"if")]) {
        call_at(&scope.prefix, tokens).ok_or(ReadFault::NotSubset)
    } else if begins_switch(tokens) {
        switch_at(alloc, scope, braces, tokens)
    } else if tokens.begins(&[Token::Word(b"u")]) {
        assign_at(alloc, scope.width, tokens)
    } else {
        extract_at(&scope.decoder, tokens).ok_or(ReadFault::NotSubset)
    }
}

#[cycle(read)]
#[tactic(auto, unfolding(crate::specs::StmtParsing::block_at))]
fn block_at(
    alloc: Global,
    scope: &Scope,
    braces: u32,
    tokens: &mut Tokens,
) -> Result<Vec<Stmt>, ReadFault>
    ensures { Gives (λ ss. (stmts_of ss.items, tokens.new)) result
        (block_at (scope_of scope.now) (inner_at (scope_of scope.now) braces) tokens.old) }
{
    let mut stmts = Vec::new(alloc);
    'more: while starts_stmt(tokens) {
        stmts.push(stmt_at(alloc, scope, braces, tokens)?)?;
    }
    Ok(stmts)
}

// The statements inside braces, which nest less deep than the number.
#[cycle(read)]
#[tactic(auto, unfolding(crate::specs::StmtParsing::inner_at))]
fn inner_at(
    alloc: Global,
    scope: &Scope,
    braces: u32,
    tokens: &mut Tokens,
) -> Result<Vec<Stmt>, ReadFault>
    ensures { Gives (λ ss. (stmts_of ss.items, tokens.new)) result (inner_at (scope_of scope.now) braces tokens.old) }
{
    if braces == 0 {
        return Err(ReadFault::NotSubset);
    }
    block_at(alloc, scope, braces - 1, tokens)
}

/// The statements that stand first, whose braces nest no deeper than the number.
#[tactic(auto, unfolding(crate::specs::StmtParsing::stmts_at))]
pub fn stmts_at(
    alloc: Global,
    scope: &Scope,
    braces: u32,
    tokens: &mut Tokens,
) -> Result<Vec<Stmt>, ReadFault>
    ensures { Gives (λ ss. (stmts_of ss.items, tokens.new)) result (stmts_at (scope_of scope.now) braces tokens.old) }
{
    block_at(alloc, scope, braces, tokens)
}
