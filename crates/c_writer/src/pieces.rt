//! Pieces of text that declarations and statements share.

ghost use Rattle.std.specs.Prelude.{◌≡◌};
ghost use Rattle.dt_text.specs.Puts.{Puts};
ghost use Rattle.c_subset.specs.Programs.{word_type};
ghost use Rattle.c_print.specs.Lines.{close_line, static_text};

use dt_text::{Out, Part, write_parts};
use dt_values::Width;

/// Writes `static ` where that is said.
#[tactic(auto, using(dt_text::proofs::Putting::puts_nothing))]
pub fn write_static<W: Out>(out: &mut W, is_static: bool)
    ensures { Puts (W.state out.old) (W.state out.new) (static_text is_static) }
{
    if is_static {
        write_parts(out, &[Part::Text(b"static ")]);
    }
}

/// The C type of an instruction word.
pub fn word_type(width: Width) -> &'static [u8]
    ensures { result.now ≡ word_type width }
{
    match width {
        Width::W16 => b"uint16_t",
        Width::W32 => b"uint32_t",
        Width::W64 => b"uint64_t",
    }
}

/// Writes the brace that closes a block.
pub fn write_close_line<W: Out>(out: &mut W, level: u32)
    ensures { Puts (W.state out.old) (W.state out.new) (close_line level) }
{
    write_parts(out, &[Part::Spaces(level), Part::Text(b"}\n")]);
}
