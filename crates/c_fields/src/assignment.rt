//! Writes the line of an assignment.

ghost use Rattle.std.specs.Prelude.{option_copied};
ghost use Rattle.dt_text.specs.Puts.{Puts};
ghost use Rattle.c_eval.specs.Meaning.{helper_bits};
ghost use Rattle.c_print.specs.ExprLayout.{assign_line, equals_text, indent_text, line_end};
ghost use Rattle.c_fields.specs.Values.{HasRoom};
ghost use Rattle.c_fields.specs.Written.{value_term};

use crate::expression::write_value;
use crate::parts::write_argument;
use dt_model::FieldValue;
use dt_text::{Out, Part, write_parts};
use dt_values::{Name, Width};

fn write_indent<W: Out>(out: &mut W, level: u32)
    ensures { Puts (W.state out.old) (W.state out.new) (indent_text level) }
{
    write_parts(out, &[Part::Spaces(level)]);
}

fn write_equals<W: Out>(out: &mut W)
    ensures { Puts (W.state out.old) (W.state out.new) equals_text }
{
    write_parts(out, &[Part::Text(b" = ")]);
}

fn write_line_end<W: Out>(out: &mut W)
    ensures { Puts (W.state out.old) (W.state out.new) line_end }
{
    write_parts(out, &[Part::Text(b";\n")]);
}

/// Writes the line that assigns a value to an argument, so many spaces from the left. The argument is one of the
/// decoder's, of this set, or one of an extraction, which names no set.
pub fn write_assignment<W: Out>(
    out: &mut W,
    width: Width,
    level: u32,
    set: Option<&Name>,
    argument: &Name,
    value: &FieldValue,
)
    requires { HasRoom (helper_bits width) value.now }
    ensures { Puts (W.state out.old) (W.state out.new) (assign_line width level (option_copied set.entry) argument.now
        (value_term (helper_bits width) (option_copied set.entry) value.now)) }
{
    write_indent(out, level);
    write_argument(out, set, argument);
    write_equals(out);
    write_value(out, width, set, value);
    write_line_end(out);
}
