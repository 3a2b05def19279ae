//! The operands among the words.

ghost use Rattle.std.specs.Prelude.{◌≡◌, ◌≤◌, [], IfOk, get_or, length, map, slice_index};
ghost use Rattle.dt_words.specs.Operands as meant;
ghost use Rattle.dt_words.specs.View.{role_seen};

use crate::command::Text;
use crate::roles::Role;
use std::alloc::{AllocError, Global};

/// The operands in order.
pub fn operands(alloc: Global, roles: &[Role<'_>]) -> Result<Vec<Text>, AllocError>
    ensures { IfOk result (λ operands. operands.items ≡ meant.operands (map role_seen roles.now)) }
{
    let mut operands = Vec::new(alloc);
    for role in roles {
        if let Role::Operand(text) = *role {
            operands.push(copy_of(alloc, text)?)?;
        }
    }
    Ok(operands)
}

/// Operand `n` of these, from 0. An empty text stands for one that is missing.
pub fn operand_at(operands: &[Text], n: usize) -> &str
    ensures { result.now ≡ get_or operands.now n [] }
{
    match operands.get(n) {
        Some(text) => text.as_str(),
        None => "",
    }
}

/// The place of operand `n` among all words, and 0 where it is missing. The command's name has the place 0.
pub fn operand_place(roles: &[Role<'_>], n: usize) -> usize
    ensures value { result ≡ slice_index (meant.operand_places (map role_seen roles.now)) n }
    ensures within { result ≤ length roles.now }
{
    let mut place = 1;
    let mut before = n;
    for role in roles {
        if let Role::Operand(_) = *role {
            if before == 0 {
                return place;
            }
            before -= 1;
        }
        place += 1;
    }
    0
}

/// The text with memory of its own.
pub fn copy_of(alloc: Global, text: &str) -> Result<Text, AllocError>
    ensures { IfOk result (λ copy. copy ≡ text.now) }
{
    Ok(Text::of(String::from_str(alloc, text)?))
}
