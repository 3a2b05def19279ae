//! What is wrong with a word, and the first faulty one.

ghost use Rattle.std.specs.Prelude.{◌≡◌, ◌≤◌, IfSome, length, map};
ghost use Rattle.std.specs.Option.{option_copied};
ghost use Rattle.dt_words.specs.Faults as meant;
ghost use Rattle.dt_words.specs.View.{role_seen};

use crate::roles::Role;
use crate::rows::{ValueKind, Verb, operands_of};
use crate::usage::Usage;
use crate::values::value_fault;

/// The first faulty word, with its place among all words. The command's name has the place 0.
#[tactic(auto, using(crate::proofs::LastWord::last_here))]
pub fn first_fault(verb: Verb, roles: &[Role<'_>]) -> Option<(Usage, usize)>
    ensures value { result ≡ meant.first_fault verb 1 0 (map role_seen roles.now) }
    ensures within { IfSome result (λ fault. fault.1 ≤ length roles.now) }
{
    let mut place = 1;
    let mut operands = 0;
    for role in roles {
        if let Some(usage) = word_fault(verb, operands, place == roles.len(), *role) {
            return Some((usage, place));
        }
        place += 1;
        operands += operand_count(*role);
    }
    None
}

fn word_fault(verb: Verb, operands: usize, last: bool, role: Role<'_>) -> Option<Usage>
    ensures { result ≡ meant.word_fault verb operands last (role_seen role.entry) }
{
    match role {
        Role::Ends => None,
        Role::Operand(text) => operand_fault(operands_of(verb).get(operands), text),
        Role::Sets(row, text) => value_fault(row.kind, text),
        Role::Asks(_) => { if last { Some(Usage::U3) } else { None } }
        Role::Unknown => Some(Usage::U2),
    }
}

fn operand_fault(kind: Option<&ValueKind>, text: &str) -> Option<Usage>
    ensures { result ≡ meant.operand_fault (option_copied kind.entry) text.now }
{
    match kind {
        Some(kind) => value_fault(*kind, text),
        None => Some(Usage::U7),
    }
}

fn operand_count(role: Role<'_>) -> usize
    ensures value { result ≡ meant.operand_count (role_seen role.entry) }
    ensures bound { result ≤ 1 }
{
    match role {
        Role::Operand(_) => 1,
        _ => 0,
    }
}
