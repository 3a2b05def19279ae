//! What an expression is on a word.

ghost use Rattle.std.specs.Prelude.{◌≡◌, ℕ, ◌<◌, ◌≤◌, ◌^◌, List, ℤ, Option};
ghost use Rattle.dt_values.specs.declared.width.Width.{Width};
ghost use Rattle.c_eval.specs.Meaning.{deposit_value, extract_value, helper_bits, lies_in, value_at};
ghost use Rattle.c_eval.specs.Places.{place_of};
ghost use Rattle.c_exprs.specs.Exprs.{segment};
ghost use Rattle.c_exprs.specs.View.{source_of, term_of};
ghost use Rattle.dt_values.specs.BitFields.{residue, signed};

use c_exprs::{Expr, Input};
use dt_values::{CType, Name, Width, deposit, extract, sextract, store};

/// What expressions read beside the word, and what they ask.
pub trait Inputs {
    /// What an argument holds. None where it is lost.
    ghost held: { Self → Option (List ℕ) → List ℕ → Option ℤ };

    /// What a function answers.
    ghost answer: { Self → List ℕ → Option ℤ → ℤ };

    /// What an argument of the set holds.
    fn held(&self, set: Option<Name>, name: Name) -> Option<i128>
        ensures { result ≡ held self.now set name };

    /// What the function answers.
    fn answer(&self, name: Name, argument: Option<i32>) -> i32
        ensures { result ≡ answer self.now name argument };
}

/// The value of an expression on a word of this width. None where it is stuck.
pub fn evaluate<I: Inputs>(width: Width, word: u64, inputs: &I, expr: &Expr) -> Option<i128>
    ensures { result ≡ value_at (place_of width word (I.held inputs.now) (I.answer inputs.now)) (term_of expr.now) }
{
    match expr {
        Expr::Constant(number) => Some(i128::from(*number)),
        Expr::Segment {
            signed,
            from,
            pos,
            length,
        } => segment(width, word, inputs, *signed, *from, *pos, *length),
        Expr::Deposit(into, pos, length, part) => {
            let into = evaluate(width, word, inputs, into)?;
            let part = evaluate(width, word, inputs, part)?;
            deposit_value(width, *pos, *length, into, part)
        }
        Expr::Cast(inner) => Some(cast(width, evaluate(width, word, inputs, inner)?)),
        Expr::Function(name, None) => Some(i128::from(inputs.answer(*name, None))),
        Expr::Function(name, Some(inner)) => {
            let argument = question(evaluate(width, word, inputs, inner)?);
            Some(i128::from(inputs.answer(*name, Some(argument))))
        }
    }
}

// Bits of the word, or of what an argument holds.
fn segment<I: Inputs>(
    width: Width,
    word: u64,
    inputs: &I,
    signed: bool,
    from: Input,
    start: u32,
    length: u32,
) -> Option<i128>
    ensures { result ≡ value_at (place_of width word (I.held inputs.now) (I.answer inputs.now))
        (segment signed (source_of from) start length) }
{
    match from {
        Input::Insn => extract_value(width, signed, start, length, i128::from(word)),
        Input::Arg(set, name) => match inputs.held(set, name) {
            Some(value) => extract_value(width, signed, start, length, value),
            None => None,
        },
    }
}

fn extract_value(width: Width, signed: bool, start: u32, length: u32, value: i128) -> Option<i128>
    ensures { result ≡ extract_value (helper_bits width) signed start length value }
{
    if !lies_in(width, start, length) {
        return None;
    }
    let word = reduced(width, value);
    if signed {
        Some(i128::from(sextract(word, start, length)))
    } else {
        Some(i128::from(extract(word, start, length)))
    }
}

fn deposit_value(width: Width, start: u32, length: u32, into: i128, part: i128) -> Option<i128>
    ensures { result ≡ deposit_value (helper_bits width) start length into part }
{
    if !lies_in(width, start, length) {
        return None;
    }
    let word = reduced(width, into);
    let part = reduced(width, part);
    Some(i128::from(deposit(helper_bits(width), word, start, length, part)))
}

// Whether there is a bit, and all of them lie in a helper's word.
fn lies_in(width: Width, start: u32, length: u32) -> bool
    ensures { result ≡ lies_in (helper_bits width) start length }
{
    1 <= length && u64::from(start) + u64::from(length) <= u64::from(helper_bits(width))
}

// How many bits the helpers' words have.
fn helper_bits(width: Width) -> u32
    ensures value { result ≡ helper_bits width }
    ensures most { result ≤ 64 }
{
    match width {
        Width::W16 => 32,
        Width::W32 => 32,
        Width::W64 => 64,
    }
}

// The number as a helper's word.
fn reduced(width: Width, value: i128) -> u64
    ensures value { result ≡ residue (helper_bits width) value }
    ensures below { result < 2 ^ helper_bits width }
{
    match width {
        Width::W16 => store(CType::U32, value) as u64,
        Width::W32 => store(CType::U32, value) as u64,
        Width::W64 => store(CType::U64, value) as u64,
    }
}

// The number cast to the signed type of a helper.
fn cast(width: Width, value: i128) -> i128
    ensures { result ≡ signed (helper_bits width) (residue (helper_bits width) value) }
{
    match width {
        Width::W16 => store(CType::I32, value),
        Width::W32 => store(CType::I32, value),
        Width::W64 => store(CType::I64, value),
    }
}

// What a function is asked with.
fn question(value: i128) -> i32
    ensures { result ≡ signed 32 (residue 32 value) }
{
    store(CType::Int, value) as i32
}
