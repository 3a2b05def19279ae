//! Lines of assignments, byte for byte (docs/C_SUBSET.md, "Expressions").

ghost use Rattle.std.specs.Prelude.{◌≡◌, IfOk, IsTrue};
ghost use Rattle.c_eval.specs.Meaning.{helper_bits};
ghost use Rattle.c_fields.specs.Values.{HasRoom, HaveRoom};

use c_fields::write_assignment;
use dt_fields::segment::{MOST_SEGMENTS, total_length};
use dt_fields::{FieldDef, Segment, Segments};
use dt_model::FieldValue;
use dt_text::GrowingSink;
use dt_values::{Name, Width};
use std::alloc::Global;
use std::process::Abort;
use std::test::Fail;

fn name(rt: &impl Abort, bytes: &[u8]) -> Name {
    Name::from_bytes(bytes).expect(rt, "a name")
}

// The segments of a branch's immediate: 31:s1 7:1 25:6 8:4.
const SIGN: Segment = Segment::Bits {
    pos: 31,
    length: 1,
    signed: true,
};

const BELOW_SIGN: Segment = Segment::Bits {
    pos: 7,
    length: 1,
    signed: false,
};

const MIDDLE: Segment = Segment::Bits {
    pos: 25,
    length: 6,
    signed: false,
};

const LOWEST: Segment = Segment::Bits {
    pos: 8,
    length: 4,
    signed: false,
};

// The highest and the lowest halves of a word of 64 bits.
const HIGH_HALF: Segment = Segment::Bits {
    pos: 32,
    length: 32,
    signed: true,
};

const LOW_HALF: Segment = Segment::Bits {
    pos: 0,
    length: 32,
    signed: false,
};

// On how many bits the helpers work.
fn helper_bits(width: Width) -> u32
    ensures { result ≡ helper_bits width }
{
    match width {
        Width::W16 => 32,
        Width::W32 => 32,
        Width::W64 => 64,
    }
}

// Whether the helpers have room for these segments.
fn have_room(width: Width, segments: &[Segment]) -> bool
    ensures { IsTrue result → HaveRoom (helper_bits width) segments.now }
{
    segments.len() <= MOST_SEGMENTS && total_length(segments) <= helper_bits(width)
}

// A field of these segments.
fn field(
    alloc: Global,
    width: Width,
    segments: &[Segment],
    function: Option<Name>,
) -> Result<FieldValue, Fail>
    ensures { IfOk result (HasRoom (helper_bits width)) }
{
    let mut kept = Segments::new(alloc);
    for segment in segments {
        kept.push(*segment)?;
    }
    if !have_room(width, kept.items()) {
        return Err("no room".into());
    }
    Ok(FieldValue::Field(FieldDef {
        segments: kept,
        function,
    }))
}

fn check_line(
    rt: &(impl Abort + AllocGlobal),
    width: Width,
    set: Option<&Name>,
    value: &FieldValue,
    wanted: &str,
) -> Result<(), Fail>
    requires { HasRoom (helper_bits width) value.now }
{
    let level = if set.is_some() { 8 } else { 4 };
    let mut out = GrowingSink::new(rt.alloc());
    write_assignment(&mut out, width, level, set, &name(rt, b"imm"), value);
    let text = out.into_text()?;
    assert!(rt; text.as_slice() == wanted.as_bytes(), "{wanted}");
    Ok(())
}

// The line of an extraction for a field without a function.
fn check_plain(
    rt: &(impl Abort + AllocGlobal),
    width: Width,
    segments: &[Segment],
    wanted: &str,
) -> Result<(), Fail> {
    let value = field(rt.alloc(), width, segments, None)?;
    check_line(rt, width, None, &value, wanted)
}

// The same for one with the function `times_2`.
fn check_doubled(
    rt: &(impl Abort + AllocGlobal),
    segments: &[Segment],
    wanted: &str,
) -> Result<(), Fail> {
    let function = Some(name(rt, b"times_2"));
    let value = field(rt.alloc(), Width::W32, segments, function)?;
    check_line(rt, Width::W32, None, &value, wanted)
}

#[test]
fn one_segment_is_an_extraction(rt: HostRuntime) -> Result<(), Fail> {
    let table: &[(Segment, &str)] = &[
        (LOWEST, "    a->imm = extract32(insn, 8, 4);\n"),
        (SIGN, "    a->imm = sextract32(insn, 31, 1);\n"),
        (LOW_HALF, "    a->imm = extract32(insn, 0, 32);\n"),
    ];
    for (segment, wanted) in table {
        check_plain(&rt, Width::W32, &[*segment], wanted)?;
    }
    Ok(())
}

const BRANCH: &str =
    "    a->imm = (int32_t)deposit32(deposit32(deposit32(extract32(insn, 8, 4), 4, 28, extract32(insn, 25, 6)), 10, 22, extract32(insn, 7, 1)), 11, 21, sextract32(insn, 31, 1));\n";

type Pair<'a> = (Width, Segment, Segment, &'a str);

fn check_pairs(rt: &(impl Abort + AllocGlobal), table: &[Pair]) -> Result<(), Fail> {
    for (width, first, second, wanted) in table {
        check_plain(rt, *width, &[*first, *second], wanted)?;
    }
    Ok(())
}

#[test]
fn several_segments_are_folded(rt: HostRuntime) -> Result<(), Fail> {
    check_plain(&rt, Width::W32, &[SIGN, BELOW_SIGN, MIDDLE, LOWEST], BRANCH)?;
    check_pairs(
        &rt,
        &[
            (
                Width::W32,
                MIDDLE,
                LOWEST,
                "    a->imm = deposit32(extract32(insn, 8, 4), 4, 28, extract32(insn, 25, 6));\n",
            ),
            (
                Width::W32,
                LOWEST,
                SIGN,
                "    a->imm = deposit32(sextract32(insn, 31, 1), 1, 31, extract32(insn, 8, 4));\n",
            ),
        ],
    )
}

#[test]
fn helpers_have_64_or_32_bits(rt: HostRuntime) -> Result<(), Fail> {
    check_pairs(
        &rt,
        &[
            (
                Width::W64,
                HIGH_HALF,
                LOW_HALF,
                "    a->imm = (int64_t)deposit64(extract64(insn, 0, 32), 32, 32, sextract64(insn, 32, 32));\n",
            ),
            (
                Width::W16,
                LOWEST,
                BELOW_SIGN,
                "    a->imm = deposit32(extract32(insn, 7, 1), 1, 31, extract32(insn, 8, 4));\n",
            ),
        ],
    )
}

#[test]
fn a_function_is_outermost(rt: HostRuntime) -> Result<(), Fail> {
    check_doubled(&rt, &[], "    a->imm = times_2(ctx);\n")?;
    check_doubled(
        &rt,
        &[LOWEST],
        "    a->imm = times_2(ctx, extract32(insn, 8, 4));\n",
    )?;
    check_doubled(
        &rt,
        &[SIGN, LOWEST],
        "    a->imm = times_2(ctx, (int32_t)deposit32(extract32(insn, 8, 4), 4, 28, sextract32(insn, 31, 1)));\n",
    )
}

#[test]
fn a_constant_is_decimal(rt: HostRuntime) -> Result<(), Fail> {
    let table: &[(i64, &str)] = &[
        (0, "    a->imm = 0;\n"),
        (-1, "    a->imm = -1;\n"),
        (i64::MAX, "    a->imm = 9223372036854775807;\n"),
        (i64::MIN, "    a->imm = -9223372036854775808;\n"),
    ];
    for (number, wanted) in table {
        check_line(
            &rt,
            Width::W32,
            None,
            &FieldValue::Constant(*number),
            wanted,
        )?;
    }
    Ok(())
}

#[test]
fn the_decoder_names_the_set(rt: HostRuntime) -> Result<(), Fail> {
    let size = Segment::Named {
        name: name(&rt, b"size"),
        length: 5,
        signed: true,
    };
    let value = field(rt.alloc(), Width::W32, &[size], None)?;
    check_line(
        &rt,
        Width::W32,
        None,
        &value,
        "    a->imm = sextract32(a->size, 0, 5);\n",
    )?;
    let set = name(&rt, b"shift");
    check_line(
        &rt,
        Width::W32,
        Some(&set),
        &value,
        "        u.f_shift.imm = sextract32(u.f_shift.size, 0, 5);\n",
    )
}
