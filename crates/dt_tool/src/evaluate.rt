//! From the file that holds a C text to what is written of its run at a word, with all that stops it on the way.

ghost use Rattle.std.specs.Prelude.{◌≡◌, ℕ, ◌<◌, ◌^◌, nat_eq, nat_lt, not, List, Some, find, map, IfOk};
ghost use Rattle.std.specs.Cmp.Lexicographic.{pointwise};
ghost use Rattle.std.specs.HashSet.{contains};
ghost use Rattle.dt_io.specs.Folders.{IsOnlyRead};
ghost use Rattle.c_subset.specs.Keeps.{KeepsRules};
ghost use Rattle.c_subset.specs.Sites.{statements_in};
ghost use Rattle.c_subset.specs.View.{program_of};
ghost use Rattle.dt_values.specs.Widths.{width_bits};
ghost use Rattle.dt_tool.specs.Evaluations.{IsDueOfCText, due_of_program, due_of_word, eval_task, undeclared_set};
ghost use Rattle.dt_tool.specs.Messages as said;
ghost use Rattle.dt_tool.specs.Refusals.{SaysThis, SaysUnreadText};
ghost use Rattle.dt_tool.specs.declared.refusal.Refusal.TheVariants as refusal;
ghost use Rattle.dt_tool.specs.Stops.{AnswersTask, MakesDue};
ghost use Rattle.dt_tool.specs.View.{evaluation_seen};

use crate::inputs::load;
use crate::refusal::Refusal;
use crate::request::Evaluation;
use crate::run_text::run_text;
use crate::stop::{Stop, refuse};
use c_subset::{CFault, Program, read_c};
use dt_io::Folder;
use dt_values::{Name, SetDef, Width};
use std::alloc::{AllocError, Global};
use std::collections::HashSet;

/// The most bytes of a C text.
pub const LARGEST_C_TEXT: usize = 16_777_216;

/// What is written of the run of the text.
pub fn evaluate<D: Folder>(
    alloc: Global,
    request: Evaluation,
    folder: &mut D,
) -> Result<Vec<u8>, Stop>
    ensures answer { AnswersTask (eval_task (evaluation_seen request.entry)) (D.seen folder.old) (D.seen folder.new)
        result }
    ensures only { IsOnlyRead (D.seen folder.old) (D.seen folder.new) }
{
    let text = load(alloc, request.text.as_str(), LARGEST_C_TEXT, folder)?;
    evaluate_text(alloc, request, text.as_slice())
}

// The same of a C text.
fn evaluate_text(alloc: Global, request: Evaluation, text: &[u8]) -> Result<Vec<u8>, Stop>
    ensures { MakesDue result (IsDueOfCText (evaluation_seen request.entry) text.now) }
{
    match read_c(alloc, text) {
        Ok(program) => evaluate_program(alloc, request, &program),
        Err(fault) => Err(stop_of_text(alloc, fault)),
    }
}

// What is said of a text that no program is read of.
fn stop_of_text(alloc: Global, fault: CFault) -> Stop
    ensures { SaysUnreadText fault result }
{
    match fault {
        CFault::TooDeep => refuse(alloc, Refusal::C2, None),
        CFault::NotSubset => refuse(alloc, Refusal::C1, None),
        CFault::NoMemory => Stop::NoMemory,
    }
}

// The same of the program of a text.
fn evaluate_program(alloc: Global, request: Evaluation, program: &Program) -> Result<Vec<u8>, Stop>
    requires rules { KeepsRules (program_of program.now) }
    requires few { statements_in (program_of program.now).body < 2 ^ 64 }
    ensures { MakesDue result (λ what. due_of_program (evaluation_seen request.entry) (program_of program.now) ≡ what) }
{
    match undeclared_set(alloc, program) {
        Ok(None) => evaluate_word(alloc, request, program),
        Ok(Some(set)) => Err(refuse_set(alloc, &set)),
        Err(_) => Err(Stop::NoMemory),
    }
}

// What is said of a set that isn't declared.
fn refuse_set(alloc: Global, set: &Name) -> Stop
    ensures { SaysThis result (said.refusal_message refusal.E2 (Some set.now)) }
{
    refuse(alloc, Refusal::E2, Some(set.as_str()))
}

// The same of a program whose patterns have declared sets.
fn evaluate_word(alloc: Global, request: Evaluation, program: &Program) -> Result<Vec<u8>, Stop>
    requires rules { KeepsRules (program_of program.now) }
    requires few { statements_in (program_of program.now).body < 2 ^ 64 }
    ensures { MakesDue result (λ what. due_of_word (evaluation_seen request.entry) (program_of program.now) ≡ what) }
{
    if !is_word(program.width, request.word) {
        return Err(refuse(alloc, Refusal::E1, Some(request.given)));
    }
    match run_text(alloc, request, program) {
        Ok(text) => Ok(text),
        Err(_) => Err(Stop::NoMemory),
    }
}

// Whether a number is a word of this width.
fn is_word(width: Width, number: u64) -> bool
    ensures { result ≡ nat_lt number (2 ^ width_bits width) }
{
    match width {
        Width::W16 => number < 1 << 16,
        Width::W32 => number < 1 << 32,
        Width::W64 => true,
    }
}

// The set of the first pattern whose set isn't declared.
fn undeclared_set(alloc: Global, program: &Program) -> Result<Option<Name>, AllocError>
    ensures { IfOk result (λ set. set ≡ undeclared_set (program_of program.now)) }
{
    let names = names_of(alloc, program.sets.items())?;
    let declared: HashSet<Name> = names.iter().copied().collect(alloc)?;
    Ok(first_not_in(&declared, program.patterns.items()))
}

fn names_of(alloc: Global, sets: &[SetDef]) -> Result<Vec<Name>, AllocError>
    ensures { IfOk result (λ names. names.items ≡ map (λ s. s.name) sets.now) }
{
    sets.iter().map(|set| set.name).collect(alloc)
}

// The set of the first pattern whose set isn't among these.
fn first_not_in(names: &HashSet<Name>, patterns: &[(Name, Name)]) -> Option<Name>
    ensures { result ≡ find (λ set. not (contains (pointwise nat_eq) names.now set)) (map (λ p. p.1) patterns.now) }
{
    for (_, set) in patterns {
        if !names.contains(set) {
            return Some(*set);
        }
    }
    None
}
