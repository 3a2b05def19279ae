//! Writes the parts of expressions: arguments, numbers, and what stands around other expressions.

ghost use Rattle.std.specs.Prelude.{◌≡◌, codes, option_copied};
ghost use Rattle.dt_text.specs.Puts.{Puts};
ghost use Rattle.c_exprs.specs.Spelling.{extract_word, helper_digits};
ghost use Rattle.c_print.specs.ExprLayout.{applied_text, argument_text, cast_text, close_text, constant_text};
ghost use Rattle.c_print.specs.ExprLayout.{function_text, helper_text, last_text, middle_text};

use dt_text::{Out, Part, write_parts};
use dt_values::{Name, Width};

// Writes an argument of the decoder, of this set, or one of an extraction, which names no set.
pub(crate) fn write_argument<'a, W: Out>(out: &mut W, set: Option<&'a Name>, argument: &'a Name)
    ensures { Puts (W.state out.old) (W.state out.new) (argument_text (option_copied set.entry) argument.now) }
{
    match set {
        None => write_parts(out, &[Part::Text(b"a->"), Part::Name(argument)]),
        Some(set) => write_parts(
            out,
            &[
                Part::Text(b"u.f_"),
                Part::Name(set),
                Part::Text(b"."),
                Part::Name(argument),
            ],
        ),
    }
}

// Writes a number in decimal digits, behind a minus where it is negative.
pub(crate) fn write_constant<W: Out>(out: &mut W, number: i64)
    ensures { Puts (W.state out.old) (W.state out.new) (constant_text number) }
{
    let size = Part::Decimal(number.unsigned_abs());
    if number < 0 {
        write_parts(out, &[Part::Text(b"-"), size]);
    } else {
        write_parts(out, &[size]);
    }
}

// How many bits the helpers work on.
fn helper_digits(width: Width) -> &'static [u8]
    ensures { result.now ≡ helper_digits width }
{
    match width {
        Width::W16 => b"32",
        Width::W32 => b"32",
        Width::W64 => b"64",
    }
}

fn extract_word(signed: bool) -> &'static [u8]
    ensures { result.now ≡ extract_word signed }
{
    if signed { b"sextract" } else { b"extract" }
}

// Writes a helper's name and what opens its arguments.
fn write_helper<W: Out>(out: &mut W, helper: &[u8], width: Width)
    ensures { Puts (W.state out.old) (W.state out.new) (helper_text helper.now width) }
{
    write_parts(
        out,
        &[
            Part::Word(helper),
            Part::Word(helper_digits(width)),
            Part::Text(b"("),
        ],
    );
}

// Writes what an extraction opens with, signed or not.
pub(crate) fn write_extract<W: Out>(out: &mut W, width: Width, signed: bool)
    ensures { Puts (W.state out.old) (W.state out.new) (helper_text (extract_word signed) width) }
{
    write_helper(out, extract_word(signed), width);
}

// Writes what a deposit opens with.
pub(crate) fn write_deposit<W: Out>(out: &mut W, width: Width)
    ensures { Puts (W.state out.old) (W.state out.new) (helper_text (codes "deposit") width) }
{
    write_helper(out, b"deposit", width);
}

// Writes the numbers that an extraction ends with.
pub(crate) fn write_last<W: Out>(out: &mut W, place: u32, length: u32)
    ensures { Puts (W.state out.old) (W.state out.new) (last_text place length) }
{
    write_parts(
        out,
        &[
            Part::Text(b", "),
            Part::Decimal(place as u64),
            Part::Text(b", "),
            Part::Decimal(length as u64),
            Part::Text(b")"),
        ],
    );
}

// Writes the numbers between the two expressions of a deposit.
pub(crate) fn write_middle<W: Out>(out: &mut W, place: u32, length: u32)
    ensures { Puts (W.state out.old) (W.state out.new) (middle_text place length) }
{
    write_parts(
        out,
        &[
            Part::Text(b", "),
            Part::Decimal(place as u64),
            Part::Text(b", "),
            Part::Decimal(length as u64),
            Part::Text(b", "),
        ],
    );
}

// Writes a cast to the signed type of the helpers' words.
pub(crate) fn write_cast<W: Out>(out: &mut W, width: Width)
    ensures { Puts (W.state out.old) (W.state out.new) (cast_text width) }
{
    write_parts(
        out,
        &[
            Part::Text(b"(int"),
            Part::Word(helper_digits(width)),
            Part::Text(b"_t)"),
        ],
    );
}

// Writes a function that has no argument.
pub(crate) fn write_function<W: Out>(out: &mut W, name: &Name)
    ensures { Puts (W.state out.old) (W.state out.new) (function_text name.now) }
{
    write_parts(out, &[Part::Name(name), Part::Text(b"(ctx)")]);
}

// Writes a function and what stands before its argument.
pub(crate) fn write_applied<W: Out>(out: &mut W, name: &Name)
    ensures { Puts (W.state out.old) (W.state out.new) (applied_text name.now) }
{
    write_parts(out, &[Part::Name(name), Part::Text(b"(ctx, ")]);
}

// Writes what closes a deposit and a function's argument.
pub(crate) fn write_close<W: Out>(out: &mut W)
    ensures { Puts (W.state out.old) (W.state out.new) close_text }
{
    write_parts(out, &[Part::Text(b")")]);
}
