//! Reads a C text: exactly the programs of the C subset.

ghost use Rattle.std.specs.Prelude.{◌≡◌, ◌<◌, ◌^◌, ℕ, List, Some, IfOk, OnOk, IsErrOf, map, option_map};
ghost use Rattle.c_tokens.specs.Before.{tokens_before};
ghost use Rattle.c_tokens.specs.Depth.{IsTooDeep};
ghost use Rattle.c_tokens.specs.Gives.{Gives};
ghost use Rattle.c_tokens.specs.Parsing.{after};
ghost use Rattle.c_tokens.specs.Tokens.{tokens_of};
ghost use Rattle.c_tokens.specs.View.{tokens_seen};
ghost use Rattle.c_subset.specs.DeclarationViews.{declared_seen};
ghost use Rattle.c_subset.specs.Programs.{decoder_end_spelled};
ghost use Rattle.c_subset.specs.ProgramParsing.{body_at, defined_at, is_some_pattern, program_at, program_from};
ghost use Rattle.c_subset.specs.ProgramParsing.{read_whole, scope_for};
ghost use Rattle.c_subset.specs.ReadAnswers.{IsDistinct, IsRead, defined_seen};
ghost use Rattle.c_subset.specs.ReadView.{scope_of};
ghost use Rattle.c_subset.specs.Sites.{statements_in};
ghost use Rattle.c_subset.specs.Spells.{Spells, SpellsNone};
ghost use Rattle.c_subset.specs.View.{pattern_of, program_of, stmts_of};
ghost use Rattle.c_subset.specs.declared.fault.CFault.TheVariants as faults;

use crate::declarations::{Declared, declared_at};
use crate::differ::has_distinct_names;
use crate::fault::CFault;
use crate::load::LoadBlock;
use crate::loads::load_function_at;
use crate::program::{Body, NameList, Program, Stmt};
use crate::sets::union_at;
use crate::stmts::{Scope, stmts_at};
use c_tokens::{MOST_OPEN, ReadFault, Token, Tokens, is_too_deep, tokens};
use dt_values::Name;
use std::alloc::Global;

/// The program that the text spells. There is one at most.
///
/// The text is too deep where a token stands inside more than 128 open braces; round brackets aren't counted. It isn't
/// in the subset where it isn't too deep and no program spells it. The time is linear in the text's length, but for the
/// sets of names.
#[tactic(auto, using(crate::proofs::Fewer::read_few))]
pub fn read_c(alloc: Global, bytes: &[u8]) -> Result<Program, CFault>
    ensures spelled { IfOk result (λ program. Spells bytes.now (program_of program)) }
    ensures flat { OnOk result (¬ IsTooDeep (tokens_before bytes.now)) }
    ensures too_deep { IsErrOf result faults.TooDeep → IsTooDeep (tokens_before bytes.now) }
    ensures not_subset { IsErrOf result faults.NotSubset → ¬ IsTooDeep (tokens_before bytes.now) }
    ensures none { IsErrOf result faults.NotSubset → SpellsNone bytes.now }
    ensures few { IfOk result (λ program. statements_in (program_of program).body < 2 ^ 64) }
{
    if is_too_deep(bytes) {
        return Err(CFault::TooDeep);
    }
    read_flat(alloc, bytes)
}

// The same of a text that isn't too deep.
fn read_flat(alloc: Global, bytes: &[u8]) -> Result<Program, CFault>
    requires { ¬ IsTooDeep (tokens_before bytes.now) }
    ensures { IsRead bytes.now result }
{
    match tokens(alloc, bytes) {
        Ok(found) => read_tokens(alloc, found.as_slice()),
        Err(fault) => Err(CFault::from(fault)),
    }
}

// The same of the tokens of such a text.
fn read_tokens(alloc: Global, tokens: &[Token]) -> Result<Program, CFault>
    ensures { (text : List ℕ) → tokens_of text ≡ Some (tokens_seen tokens.now) → ¬ IsTooDeep (tokens_before text)
        → IsRead text result }
{
    match read_program(alloc, tokens) {
        Ok(program) => refuse_same_names(alloc, program),
        Err(fault) => Err(CFault::from(fault)),
    }
}

// The program, unless two names that are to differ are one.
fn refuse_same_names(alloc: Global, program: Program) -> Result<Program, CFault>
    ensures { IsDistinct (program_of program) result }
{
    match has_distinct_names(alloc, &program) {
        Ok(true) => Ok(program),
        Ok(false) => Err(CFault::NotSubset),
        Err(_) => Err(CFault::NoMemory),
    }
}

// The program that these are all tokens of, by the rules that its tokens decide.
fn read_program(alloc: Global, tokens: &[Token]) -> Result<Program, ReadFault>
    ensures { Gives program_of result (read_whole (program_at 127) (tokens_seen tokens.now)) }
{
    let mut rest = Tokens::of(tokens);
    let program = program_at(alloc, MOST_OPEN as u32 - 1, &mut rest)?;
    if rest.is_empty() {
        Ok(program)
    } else {
        Err(ReadFault::NotSubset)
    }
}

#[tactic(auto, unfolding(crate::specs::ProgramParsing::program_at))]
fn program_at(alloc: Global, braces: u32, tokens: &mut Tokens) -> Result<Program, ReadFault>
    ensures { Gives (λ p. (program_of p, tokens.new)) result (program_at braces tokens.old) }
{
    let declared = declared_at(alloc, tokens)?;
    let defined = defined_at(alloc, braces, &declared, tokens)?;
    Ok(program_from(declared, defined))
}

// What stands behind the decoder's head.
#[derive(Drop)]
struct Defined {
    union_sets: Vec<Name>,
    body: Vec<Stmt>,
    load: Option<LoadBlock>,
}

fn program_from(declared: Declared, defined: Defined) -> Program
    ensures { program_of result ≡ program_from (declared_seen declared, defined_seen defined) }
{
    Program {
        width: declared.width,
        sets: declared.sets,
        prefix: declared.prefix,
        patterns: declared.patterns,
        extracts: declared.extracts,
        decoder: declared.decoder,
        decoder_static: declared.decoder_static,
        union_sets: NameList::of(defined.union_sets),
        body: Body::of(defined.body),
        load: defined.load,
    }
}

#[tactic(auto, unfolding(crate::specs::ProgramParsing::defined_at))]
fn defined_at(
    alloc: Global,
    braces: u32,
    declared: &Declared,
    tokens: &mut Tokens,
) -> Result<Defined, ReadFault>
    ensures { Gives (λ d. (defined_seen d, tokens.new)) result
        (defined_at braces (declared_seen declared.now) tokens.old) }
{
    let union_sets = union_at(alloc, has_pattern(declared.patterns.items()), tokens)?;
    let body = body_at(alloc, declared, braces, tokens)?;
    let load = load_function_at(
        alloc,
        declared.width,
        &declared.decoder,
        declared.decoder_static,
        braces,
        tokens,
    )?;
    Ok(Defined {
        union_sets,
        body,
        load,
    })
}

fn has_pattern(patterns: &[(Name, Name)]) -> bool
    ensures { result ≡ is_some_pattern (map pattern_of patterns.now) }
{
    match patterns.split_first() {
        None => false,
        Some(_) => true,
    }
}

// The statements, up to the decoder's end.
#[tactic(auto, unfolding(crate::specs::ProgramParsing::body_at))]
fn body_at(
    alloc: Global,
    declared: &Declared,
    braces: u32,
    tokens: &mut Tokens,
) -> Result<Vec<Stmt>, ReadFault>
    ensures { Gives (λ ss. (stmts_of ss.items, tokens.new)) result
        (body_at braces (declared_seen declared.now) tokens.old) }
{
    let scope = scope_for(declared);
    let body = stmts_at(alloc, &scope, braces, tokens)?;
    take_decoder_end(tokens).ok_or(ReadFault::NotSubset)?;
    Ok(body)
}

fn scope_for(declared: &Declared) -> Scope
    ensures { scope_of result ≡ scope_for (declared_seen declared.now) }
{
    Scope {
        width: declared.width,
        decoder: declared.decoder,
        prefix: declared.prefix.map(|(name, _)| name),
    }
}

fn take_decoder_end(tokens: &mut Tokens) -> Option<()>
    ensures { option_map (λ _. tokens.new) result ≡ after decoder_end_spelled tokens.old }
{
    tokens.take(&[
        Token::Word(b"return"),
        Token::Word(b"false"),
        Token::Mark(b';'),
        Token::Mark(b'}'),
    ])
}
