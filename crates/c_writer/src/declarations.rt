//! Writes what stands before the decoder: sets, prototypes, extractions.

ghost use Rattle.std.specs.Prelude.{◌≡◌, [], All, filter, flat_map, map, if◌then◌else◌};
ghost use Rattle.dt_text.specs.Puts.{Puts};
ghost use Rattle.c_eval.specs.Meaning.{helper_bits};
ghost use Rattle.c_print.specs.Lines.{extraction_head_line, head_line, member_line, prototype_line};
ghost use Rattle.c_print.specs.Lines.{set_end_line, set_head_line, static_text, typed_line, typedef_line};
ghost use Rattle.c_print.specs.Printed.{extraction_text, pattern_text, set_text};
ghost use Rattle.c_writer.specs.Parts.{extraction_of, prefix_in};
ghost use Rattle.c_writer.specs.Prototypes.{prototype_seen};
ghost use Rattle.c_writer.specs.Uses.{declared_sets, is_among};
ghost use Rattle.c_writer.specs.Within.{AreFormsWithin, FormatHasRoom, IsFormatWithin};

use crate::assignments::write_assignments;
use crate::names::{set_members, set_name};
use crate::pieces::{word_type, write_close_line, write_static};
use crate::prototype::Prototype;
use dt_model::{Format, Options};
use dt_text::{Out, Part, write_parts};
use dt_values::{Member, Name, SetDef, Width};
use indexmap::IndexSet;

pub fn write_head<W: Out>(out: &mut W)
    ensures { Puts (W.state out.old) (W.state out.new) head_line }
{
    write_parts(out, &[Part::Text(b"/* Made from pattern files. */\n")]);
}

fn write_set_head<W: Out>(out: &mut W)
    ensures { Puts (W.state out.old) (W.state out.new) set_head_line }
{
    write_parts(out, &[Part::Text(b"\ntypedef struct {\n")]);
}

fn write_member_line<'a, W: Out>(out: &mut W, type_name: &'a Name, name: &'a Name)
    ensures { Puts (W.state out.old) (W.state out.new) (typed_line type_name.now name.now) }
{
    write_parts(
        out,
        &[
            Part::Text(b"    "),
            Part::Name(type_name),
            Part::Text(b" "),
            Part::Name(name),
            Part::Text(b";\n"),
        ],
    );
}

fn write_member<W: Out>(out: &mut W, member: &Member)
    ensures { Puts (W.state out.old) (W.state out.new) (member_line member.now) }
{
    write_member_line(out, &member.ctype.name(), &member.name);
}

#[tactic(auto, using(dt_text::proofs::Putting::puts_nothing))]
fn write_members<W: Out>(out: &mut W, members: &[Member])
    ensures { Puts (W.state out.old) (W.state out.new) (flat_map member_line members.now) }
{
    for member in members {
        write_member(out, member);
    }
}

fn write_set_end<W: Out>(out: &mut W, name: &Name)
    ensures { Puts (W.state out.old) (W.state out.new) (set_end_line name.now) }
{
    write_parts(
        out,
        &[Part::Text(b"} arg_"), Part::Name(name), Part::Text(b";\n")],
    );
}

fn write_set<W: Out>(out: &mut W, set: &SetDef)
    ensures { Puts (W.state out.old) (W.state out.new) (set_text set.now) }
{
    write_set_head(out);
    write_members(out, set.members.items());
    write_set_end(out, &set.name);
}

// Writes nothing of a set that is declared elsewhere.
#[tactic(auto, using(dt_text::proofs::Putting::puts_nothing))]
fn write_set_unless_outside<W: Out>(out: &mut W, set: &SetDef)
    ensures { Puts (W.state out.old) (W.state out.new) (if set.now.outside then [] else set_text set.now) }
{
    if !set.outside {
        write_set(out, set);
    }
}

/// Writes the sets that are declared in the text.
#[tactic(auto, using(dt_text::proofs::Putting::puts_nothing))]
pub fn write_sets<W: Out>(out: &mut W, sets: &[SetDef])
    ensures { Puts (W.state out.old) (W.state out.new) (flat_map set_text (declared_sets sets.now)) }
{
    for set in sets {
        write_set_unless_outside(out, set);
    }
}

fn write_typedef<W: Out>(out: &mut W, prototype: &Prototype)
    ensures { Puts (W.state out.old) (W.state out.new) (typedef_line (prototype_seen prototype.now)) }
{
    write_parts(
        out,
        &[
            Part::Text(b"\ntypedef arg_"),
            Part::Name(&prototype.set),
            Part::Text(b" arg_"),
            Part::Name(&prototype.name),
            Part::Text(b";\n"),
        ],
    );
}

fn write_prototype_line<'a, W: Out>(out: &mut W, prefix: &'a Name, name: &'a Name)
    ensures { Puts (W.state out.old) (W.state out.new) (prototype_line prefix.now name.now) }
{
    write_parts(
        out,
        &[
            Part::Text(b"bool "),
            Part::Name(prefix),
            Part::Word(b"_"),
            Part::Name(name),
            Part::Text(b"(DisasContext *ctx, arg_"),
            Part::Name(name),
            Part::Text(b" *a);\n"),
        ],
    );
}

fn write_prototype<W: Out>(out: &mut W, options: &Options, prototype: &Prototype)
    ensures { Puts (W.state out.old) (W.state out.new)
        (pattern_text (prefix_in options.now) (prototype_seen prototype.now)) }
{
    write_typedef(out, prototype);
    write_static(out, options.translate_static);
    write_prototype_line(out, &options.translate, &prototype.name);
}

#[tactic(auto, using(dt_text::proofs::Putting::puts_nothing))]
pub fn write_prototypes<W: Out>(out: &mut W, options: &Options, prototypes: &[Prototype])
    ensures { Puts (W.state out.old) (W.state out.new)
        (flat_map (pattern_text (prefix_in options.now)) (map prototype_seen prototypes.now)) }
{
    for prototype in prototypes {
        write_prototype(out, options, prototype);
    }
}

fn write_extraction_head<'a, W: Out>(
    out: &mut W,
    width: Width,
    decoder: &'a Name,
    format: &'a Name,
    set: &'a Name,
)
    ensures { Puts (W.state out.old) (W.state out.new)
        (extraction_head_line width decoder.now format.now set.now) }
{
    write_parts(
        out,
        &[
            Part::Text(b"\nstatic void "),
            Part::Name(decoder),
            Part::Word(b"_extract_"),
            Part::Name(format),
            Part::Text(b"(DisasContext *ctx, arg_"),
            Part::Name(set),
            Part::Text(b" *a, "),
            Part::Word(word_type(width)),
            Part::Text(b" insn)\n{\n"),
        ],
    );
}

fn write_extraction<W: Out>(out: &mut W, options: &Options, sets: &[SetDef], format: &Format)
    requires within { IsFormatWithin sets.now format.now }
    requires room { FormatHasRoom (helper_bits options.now.width) format.now }
    ensures { Puts (W.state out.old) (W.state out.new) (extraction_text options.now.width options.now.decode
        (extraction_of (helper_bits options.now.width) sets.now format.now)) }
{
    write_extraction_head(
        out,
        options.width,
        &options.decode,
        &format.name,
        set_name(sets, format.set),
    );
    write_assignments(
        out,
        options.width,
        4,
        None,
        set_members(sets, format.set),
        format.values.items(),
    );
    write_close_line(out, 0);
}

// Writes nothing of a format whose name isn't among these.
#[tactic(auto, using(dt_text::proofs::Putting::puts_nothing))]
fn write_extraction_where_used<W: Out>(
    out: &mut W,
    options: &Options,
    sets: &[SetDef],
    used: &IndexSet<Name>,
    format: &Format,
)
    requires within { IsFormatWithin sets.now format.now }
    requires room { FormatHasRoom (helper_bits options.now.width) format.now }
    ensures { Puts (W.state out.old) (W.state out.new) (if is_among used.now.keys format.now.name
        then extraction_text options.now.width options.now.decode
        (extraction_of (helper_bits options.now.width) sets.now format.now) else []) }
{
    if used.contains(&format.name) {
        write_extraction(out, options, sets, format);
    }
}

/// Writes the extractions of the formats whose names are among these.
#[tactic(auto, using(dt_text::proofs::Putting::puts_nothing))]
pub fn write_extractions<W: Out>(
    out: &mut W,
    options: &Options,
    sets: &[SetDef],
    used: &IndexSet<Name>,
    formats: &[Format],
)
    requires within { AreFormsWithin sets.now formats.now }
    requires room { All (FormatHasRoom (helper_bits options.now.width)) formats.now }
    ensures { Puts (W.state out.old) (W.state out.new)
        (flat_map (extraction_text options.now.width options.now.decode)
        (filter (λ e. is_among used.now.keys e.format)
        (map (extraction_of (helper_bits options.now.width) sets.now) formats.now))) }
{
    for format in formats {
        write_extraction_where_used(out, options, sets, used, format);
    }
}
