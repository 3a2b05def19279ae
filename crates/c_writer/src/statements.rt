//! Writes the decoder: its head, its union, and a test and a body for each pattern.

ghost use Rattle.std.specs.Prelude.{◌+◌, ◌≡◌, [], false, filter, flat_map, map, All, if◌then◌else◌};
ghost use Rattle.dt_text.specs.Puts.{Puts};
ghost use Rattle.dt_model.specs.Models.{definitions_in};
ghost use Rattle.dt_model.specs.View.{pattern_seen};
ghost use Rattle.c_tokens.specs.Words.{hex_length};
ghost use Rattle.c_eval.specs.Meaning.{helper_bits};
ghost use Rattle.c_print.specs.Lines.{call_line, close_line, empty_line, end_lines, extract_line, head_of_decoder};
ghost use Rattle.c_print.specs.Lines.{if_line, mark_line, union_end_lines, union_head_line, union_set_line};
ghost use Rattle.c_print.specs.Printed.{decoder_head_text};
ghost use Rattle.c_writer.specs.Layout.{body_block, own_lines, pattern_lines, test_block, union_sets_lines};
ghost use Rattle.c_writer.specs.Layout.{union_where_patterns, written};
ghost use Rattle.c_writer.specs.Parts.{named_pattern, parts_of, set_name_of};
ghost use Rattle.c_writer.specs.Uses.{is_among};
ghost use Rattle.c_writer.specs.Within.{AreWithin, IsPatternWithin, PatternHasRoom};

use crate::assignments::write_assignments;
use crate::names::{format_of, members_of, set_of};
use crate::pieces::{word_type, write_close_line, write_static};
use dt_model::{Model, Options, Pattern};
use dt_text::{Out, Part, write_parts};
use dt_values::{Name, SetDef, Width};
use indexmap::IndexSet;

fn write_empty_line<W: Out>(out: &mut W)
    ensures { Puts (W.state out.old) (W.state out.new) empty_line }
{
    write_parts(out, &[Part::Text(b"\n")]);
}

fn write_head_of_decoder<W: Out>(out: &mut W, width: Width, decoder: &Name)
    ensures { Puts (W.state out.old) (W.state out.new) (head_of_decoder width decoder.now) }
{
    write_parts(
        out,
        &[
            Part::Text(b"bool "),
            Part::Name(decoder),
            Part::Text(b"(DisasContext *ctx, "),
            Part::Word(word_type(width)),
            Part::Text(b" insn)\n{\n"),
        ],
    );
}

pub fn write_decoder_head<W: Out>(out: &mut W, options: &Options)
    ensures { Puts (W.state out.old) (W.state out.new)
        (decoder_head_text options.now.width options.now.decode options.now.decode_static) }
{
    write_empty_line(out);
    write_static(out, options.decode_static);
    write_head_of_decoder(out, options.width, &options.decode);
}

fn write_union_head<W: Out>(out: &mut W)
    ensures { Puts (W.state out.old) (W.state out.new) union_head_line }
{
    write_parts(out, &[Part::Text(b"    union {\n")]);
}

fn write_union_set<W: Out>(out: &mut W, name: &Name)
    ensures { Puts (W.state out.old) (W.state out.new) (union_set_line name.now) }
{
    write_parts(
        out,
        &[
            Part::Text(b"        arg_"),
            Part::Name(name),
            Part::Text(b" f_"),
            Part::Name(name),
            Part::Text(b";\n"),
        ],
    );
}

// Writes nothing of a set whose name isn't among these.
#[tactic(auto, using(dt_text::proofs::Putting::puts_nothing))]
fn write_union_set_where_used<W: Out>(out: &mut W, used: &IndexSet<Name>, name: &Name)
    ensures { Puts (W.state out.old) (W.state out.new)
        (if is_among used.now.keys name.now then union_set_line name.now else []) }
{
    if used.contains(name) {
        write_union_set(out, name);
    }
}

#[tactic(auto, using(dt_text::proofs::Putting::puts_nothing))]
fn write_union_sets<W: Out>(out: &mut W, used: &IndexSet<Name>, sets: &[SetDef])
    ensures { Puts (W.state out.old) (W.state out.new)
        (flat_map union_set_line (filter (is_among used.now.keys) (map (λ s. s.name) sets.now))) }
{
    for set in sets {
        write_union_set_where_used(out, used, &set.name);
    }
}

fn write_union_end<W: Out>(out: &mut W)
    ensures { Puts (W.state out.old) (W.state out.new) union_end_lines }
{
    write_parts(out, &[Part::Text(b"    } u;\n\n")]);
}

fn write_union<W: Out>(out: &mut W, used: &IndexSet<Name>, sets: &[SetDef])
    ensures { Puts (W.state out.old) (W.state out.new)
        (union_sets_lines (filter (is_among used.now.keys) (map (λ s. s.name) sets.now))) }
{
    write_union_head(out);
    write_union_sets(out, used, sets);
    write_union_end(out);
}

/// Writes the union of the sets whose names are among these, where there is a pattern.
#[tactic(auto, using(dt_text::proofs::Putting::puts_nothing))]
pub fn write_union_where_patterns<W: Out>(out: &mut W, used: &IndexSet<Name>, model: &Model)
    ensures { Puts (W.state out.old) (W.state out.new)
        (union_where_patterns (map (named_pattern model.now.sets model.now.formats) model.now.patterns)
        (filter (is_among used.now.keys) (map (λ s. s.name) model.now.sets))) }
{
    if model.patterns.items().is_empty() {
        return;
    }
    write_union(out, used, model.sets.items());
}

// The file's number is counted from 1.
fn write_comment_line<W: Out>(out: &mut W, level: u32, pattern: &Pattern)
    ensures { Puts (W.state out.old) (W.state out.new) (mark_line level
        ((pattern_seen pattern.now).file + 1) (pattern_seen pattern.now).line) }
{
    write_parts(
        out,
        &[
            Part::Spaces(level),
            Part::Text(b"/* "),
            Part::Decimal(pattern.file as u64 + 1),
            Part::Text(b":"),
            Part::Decimal(pattern.line as u64),
            Part::Text(b" */\n"),
        ],
    );
}

fn write_extract_line<'a, W: Out>(
    out: &mut W,
    level: u32,
    decoder: &'a Name,
    format: &'a Name,
    set: &'a Name,
)
    ensures { Puts (W.state out.old) (W.state out.new) (extract_line level decoder.now format.now set.now) }
{
    write_parts(
        out,
        &[
            Part::Spaces(level),
            Part::Name(decoder),
            Part::Word(b"_extract_"),
            Part::Name(format),
            Part::Text(b"(ctx, &u.f_"),
            Part::Name(set),
            Part::Text(b", insn);\n"),
        ],
    );
}

fn write_call_line<'a, W: Out>(
    out: &mut W,
    level: u32,
    prefix: &'a Name,
    name: &'a Name,
    set: &'a Name,
)
    ensures { Puts (W.state out.old) (W.state out.new) (call_line level prefix.now name.now set.now) }
{
    write_parts(
        out,
        &[
            Part::Spaces(level),
            Part::Text(b"if ("),
            Part::Name(prefix),
            Part::Word(b"_"),
            Part::Name(name),
            Part::Text(b"(ctx, &u.f_"),
            Part::Name(set),
            Part::Text(b")) return true;\n"),
        ],
    );
}

// Writes what a pattern's own line assigns to the arguments of its set, which has this name.
fn write_own_assignments<W: Out>(
    out: &mut W,
    options: &Options,
    model: &Model,
    level: u32,
    set: &Name,
    pattern: &Pattern,
)
    requires within { AreWithin (definitions_in model.now) }
    requires pattern { IsPatternWithin model.now.formats pattern.now }
    requires room { PatternHasRoom (helper_bits options.now.width) pattern.now }
    requires set { set.now ≡ set_name_of model.now.sets model.now.formats pattern.now }
    ensures { Puts (W.state out.old) (W.state out.new) (own_lines options.now.width level
        (named_pattern model.now.sets model.now.formats pattern.now)) }
{
    let members = members_of(model.sets.items(), model.formats.items(), pattern);
    write_assignments(
        out,
        options.width,
        level,
        Some(set),
        members,
        pattern.values.items(),
    );
}

fn write_body<W: Out>(out: &mut W, options: &Options, model: &Model, level: u32, pattern: &Pattern)
    requires within { AreWithin (definitions_in model.now) }
    requires pattern { IsPatternWithin model.now.formats pattern.now }
    requires room { PatternHasRoom (helper_bits options.now.width) pattern.now }
    ensures { Puts (W.state out.old) (W.state out.new)
        (written (parts_of options.now (definitions_in model.now)) level
        (body_block (helper_bits options.now.width) (named_pattern model.now.sets model.now.formats pattern.now))) }
{
    let format = format_of(model.formats.items(), pattern);
    let set = set_of(model.sets.items(), model.formats.items(), pattern);
    write_comment_line(out, level, pattern);
    write_extract_line(out, level, &options.decode, format, set);
    write_own_assignments(out, options, model, level, set, pattern);
    write_call_line(out, level, &options.translate, &pattern.name, set);
}

// How many hexadecimal digits show a word.
fn hex_digits(width: Width) -> u32
    ensures { result ≡ hex_length width }
{
    width.bits() / 4
}

fn write_if_line<W: Out>(out: &mut W, digits: u32, level: u32, mask: u64, value: u64)
    ensures { Puts (W.state out.old) (W.state out.new) (if_line digits level mask value) }
{
    write_parts(
        out,
        &[
            Part::Spaces(level),
            Part::Text(b"if ((insn & 0x"),
            Part::Hex {
                digits,
                value: mask,
            },
            Part::Text(b") == 0x"),
            Part::Hex { digits, value },
            Part::Text(b") {\n"),
        ],
    );
}

// The body of a pattern behind its test.
fn write_guarded_body<W: Out>(out: &mut W, options: &Options, model: &Model, pattern: &Pattern)
    requires within { AreWithin (definitions_in model.now) }
    requires pattern { IsPatternWithin model.now.formats pattern.now }
    requires room { PatternHasRoom (helper_bits options.now.width) pattern.now }
    ensures { Puts (W.state out.old) (W.state out.new)
        (written (parts_of options.now (definitions_in model.now)) 4 (test_block false
        (helper_bits options.now.width) (named_pattern model.now.sets model.now.formats pattern.now))) }
{
    write_if_line(
        out,
        hex_digits(options.width),
        4,
        pattern.fixed_mask,
        pattern.fixed_bits,
    );
    write_body(out, options, model, 8, pattern);
    write_close_line(out, 4);
}

fn write_test<W: Out>(out: &mut W, options: &Options, model: &Model, pattern: &Pattern)
    requires within { AreWithin (definitions_in model.now) }
    requires pattern { IsPatternWithin model.now.formats pattern.now }
    requires room { PatternHasRoom (helper_bits options.now.width) pattern.now }
    ensures { Puts (W.state out.old) (W.state out.new) (pattern_lines (parts_of options.now (definitions_in model.now))
        (named_pattern model.now.sets model.now.formats pattern.now)) }
{
    if pattern.fixed_mask == 0 {
        write_body(out, options, model, 4, pattern);
    } else {
        write_guarded_body(out, options, model, pattern);
    }
}

/// Writes the tests of these patterns of the model.
#[tactic(auto, using(dt_text::proofs::Putting::puts_nothing))]
pub fn write_tests<W: Out>(out: &mut W, options: &Options, model: &Model, patterns: &[Pattern])
    requires within { AreWithin (definitions_in model.now) }
    requires patterns { All (IsPatternWithin model.now.formats) patterns.now }
    requires room { All (PatternHasRoom (helper_bits options.now.width)) patterns.now }
    ensures { Puts (W.state out.old) (W.state out.new) (flat_map
        (pattern_lines (parts_of options.now (definitions_in model.now)))
        (map (named_pattern model.now.sets model.now.formats) patterns.now)) }
{
    for pattern in patterns {
        write_test(out, options, model, pattern);
    }
}

pub fn write_end<W: Out>(out: &mut W)
    ensures { Puts (W.state out.old) (W.state out.new) end_lines }
{
    write_parts(out, &[Part::Text(b"    return false;\n}\n")]);
}
