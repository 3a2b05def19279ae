//! Pattern lines with fields, sets and arguments of their own.

use crate::reading::{Refusal, Want, check_choices, check_fault, check_refusals, model_in};
use dt_fields::{FieldDef, Rule, Segment};
use dt_model::{FieldValue, Model};
use dt_values::{CType, Name, Width};
use std::process::Abort;
use std::test::Fail;

#[test]
fn tokens_are_refused_by_their_first_rule(rt: HostRuntime) -> Result<(), Fail> {
    let table: &[Refusal] = &[
        (b"&s a\n&t a\np &s &t", 3, Rule::G1, Want::Text(15, 17)),
        (b"&s a\np &s &t", 2, Rule::G1, Want::Text(10, 12)),
        (b"p &s", 1, Rule::G2, Want::Text(2, 4)),
        (b"p *", 1, Rule::G7, Want::Text(2, 3)),
        (b"p %", 1, Rule::G7, Want::Text(2, 3)),
        (b"p &", 1, Rule::G7, Want::Text(2, 3)),
        (b"p a=", 1, Rule::G7, Want::Text(2, 4)),
        (b"p a=0x1", 1, Rule::G7, Want::Text(2, 7)),
        (b"p a=%", 1, Rule::G7, Want::Text(2, 5)),
        (b"p a:", 1, Rule::G7, Want::Text(2, 4)),
        (b"p a:s", 1, Rule::G7, Want::Text(2, 5)),
        (b"p a:0", 1, Rule::G7, Want::Text(2, 5)),
        (b"p 1a:3", 1, Rule::G7, Want::Text(2, 6)),
        (b"p if:17", 1, Rule::G7, Want::Text(2, 7)),
        (b"p if=%f", 1, Rule::G7, Want::Text(2, 7)),
        (b"p 0x", 1, Rule::G7, Want::Text(2, 4)),
        (b"p %f", 1, Rule::G6, Want::Text(2, 4)),
        (b"p a=%f a=%f", 1, Rule::G6, Want::Text(2, 6)),
        (b"%f 0:1\np a:4 a=%f", 2, Rule::G5, Want::Text(13, 17)),
        (b"p a:4 a:s4", 1, Rule::G5, Want::Text(6, 10)),
        (b"p a:9 b:9", 1, Rule::G8, Want::Text(6, 9)),
        (b"p a:9 a:9", 1, Rule::G8, Want::Text(6, 9)),
        (b"p a:17", 1, Rule::G8, Want::Text(2, 6)),
        (b"p a:18446744073709551617", 1, Rule::G8, Want::Text(2, 24)),
        (b"p a:12 00000", 1, Rule::G8, Want::Text(7, 12)),
        (b"p a:4 *", 1, Rule::G7, Want::Text(6, 7)),
    ];
    check_refusals(&rt, Width::W16, table)
}

#[test]
fn lines_are_refused_by_their_first_rule(rt: HostRuntime) -> Result<(), Fail> {
    let table: &[Refusal] = &[
        (b"p a:4", 1, Rule::G9, Want::Number(4)),
        (b"&s a\np b:8 &s", 2, Rule::G9, Want::Number(8)),
        (b"&s a\np b:16 &s", 2, Rule::G11, Want::Named(b"b")),
        (b"&s a\np a:8 b:8 &s", 2, Rule::G11, Want::Named(b"b")),
        (b"&s a b\np a:16 &s", 2, Rule::G17, Want::Named(b"b")),
        (b"&s a b\n&p c\np b:16 &s", 3, Rule::G17, Want::Named(b"a")),
        (b"&decode1 x\np a:16", 2, Rule::G28, Want::Named(b"decode1")),
        (b"&p a\n&q b\np b:16 &q", 3, Rule::G26, Want::Named(b"p")),
        (
            b"&p a\n&decode2 b\np c:16",
            3,
            Rule::G28,
            Want::Named(b"decode2"),
        ),
        (b"p a:16\np b:16", 2, Rule::G27, Want::Named(b"p")),
        (
            b"p a:16\n%f 0:4\np %f 0000000000000000",
            3,
            Rule::G27,
            Want::Named(b"p"),
        ),
        (
            b"%f 0:4\np %f 0000000000000000",
            2,
            Rule::G18,
            Want::Mask(0xf),
        ),
        (
            b"%f 8:s2 0:4\np %f 0000000000000000",
            2,
            Rule::G18,
            Want::Mask(0x30f),
        ),
        (
            b"%f 0:4\np %f ............00--",
            2,
            Rule::G18,
            Want::Mask(0xc),
        ),
        (
            b"%f 0:4\np %f ----------------",
            2,
            Rule::G19,
            Want::Mask(0xf),
        ),
        (
            b"%f 0:4\np %f ............----",
            2,
            Rule::G19,
            Want::Mask(0xf),
        ),
        (
            b"%f 0:4\np %f 00000000000.....",
            2,
            Rule::G21,
            Want::Mask(0x10),
        ),
        (
            b"&s a\np ---------------- &s",
            2,
            Rule::G17,
            Want::Named(b"a"),
        ),
    ];
    check_refusals(&rt, Width::W16, table)
}

#[test]
fn a_line_gives_at_most_32_arguments(rt: HostRuntime) -> Result<(), Fail> {
    let mut bytes = Vec::from_slice(rt.alloc(), b"p")?;
    for first in [b'a', b'b', b'c', b'd'] {
        for second in [b'0', b'1', b'2', b'3', b'4', b'5', b'6', b'7'] {
            bytes.extend_from_slice(&[b' ', first, second, b':', b'2'])?;
        }
    }
    let model = model_in(rt.alloc(), Width::W64, &[bytes.as_slice()])?;
    let set = model.sets.items().first().ok_or("a set")?;
    assert!(rt; set.members.items().len() == 32);
    bytes.extend_from_slice(b" %f")?;
    let mut file = Vec::from_slice(rt.alloc(), b"%f 0:1\n")?;
    file.extend_from_slice(bytes.as_slice())?;
    let want = Want::Text(169, 171);
    check_fault(&rt, Width::W64, &[file.as_slice()], (0, 2), Rule::A5, &want)
}

// The field that the argument at a place gets.
fn field_at(values: &[(Name, FieldValue)], place: usize) -> Result<&FieldDef, Fail> {
    match values.get(place) {
        Some((_, FieldValue::Field(field))) => Ok(field),
        _ => Err("no field".into()),
    }
}

// The name of that argument.
fn name_at(values: &[(Name, FieldValue)], place: usize) -> Result<Name, Fail> {
    match values.get(place) {
        Some((name, _)) => Ok(*name),
        None => Err("no argument".into()),
    }
}

fn check_has_fields(rt: &impl Abort, model: &Model) -> Result<(), Fail> {
    let [set] = model.sets.items() else {
        return Err("a set".into());
    };
    let [first, second] = set.members.items() else {
        return Err("two arguments".into());
    };
    assert!(rt; (first.name.as_str(), second.name.as_str()) == ("imm", "f"));
    assert!(rt; (first.ctype, second.ctype) == (CType::Int, CType::Int));
    let [format] = model.formats.items() else {
        return Err("a format".into());
    };
    let values = format.values.items();
    let imm = field_at(values, 0)?;
    assert!(rt; name_at(values, 0)?.as_str() == "imm");
    assert!(rt;
        imm.segments.items()
            == [Segment::Bits {
                pos: 3,
                length: 9,
                signed: true
            }]
            .as_slice()
    );
    assert!(rt; imm.function.is_none());
    let f = field_at(values, 1)?;
    assert!(rt; name_at(values, 1)?.as_str() == "f");
    assert!(rt;
        f.segments.items()
            == [
                Segment::Bits {
                    pos: 12,
                    length: 4,
                    signed: true
                },
                Segment::Bits {
                    pos: 0,
                    length: 2,
                    signed: false
                },
            ]
            .as_slice()
    );
    assert!(rt; f.function.ok_or("a function")?.as_str() == "twice");
    let [p] = model.patterns.items() else {
        return Err("a pattern".into());
    };
    assert!(rt; (p.fixed_mask, p.fixed_bits, p.ignored) == (4, 4, 0));
    assert!(rt; p.values.items().is_empty());
    Ok(())
}

#[test]
fn arguments_get_the_bits_at_their_place(rt: HostRuntime) -> Result<(), Fail> {
    let file = b"%f 12:s4 0:2 !function=twice\np .... imm:s9 %f 1..";
    let model = model_in(rt.alloc(), Width::W16, &[file])?;
    check_has_fields(&rt, &model)
}

#[test]
fn sets_and_formats_are_inferred(rt: HostRuntime) -> Result<(), Fail> {
    let table: &[(&[u8], usize, usize, u32, u32)] = &[
        (b"p a:8 b:8", 1, 1, 0, 0),
        (b"&s b a\np a:8 b:8", 1, 1, 0, 0),
        (b"&s a\n&t b a\n&u a b\np a:8 b:8", 3, 1, 0, 1),
        (b"&s a b\n&t b a\np a:8 b:8 &t", 2, 1, 0, 1),
        (b"&s a:int64_t\np a:16", 2, 1, 0, 1),
        (b"&s a:int64_t\np a:16 &s", 1, 1, 0, 0),
        (b"&s a b\np a:16", 2, 1, 0, 1),
        (b"p a:8 b:8\nq a:8 b:8", 1, 1, 0, 0),
        (b"p a:8 b:8\nq b:8 a:8", 1, 2, 1, 0),
        (b"p a:8 b:8\nq a:s8 b:8", 1, 2, 1, 0),
        (
            b"%f 8:8\n%g 0:8\np %f %g ................\nq %g %f ................",
            1,
            1,
            0,
            0,
        ),
        (b"&s a\n&t a\np a:16\nq a:16 &t\nr a:16", 2, 2, 0, 0),
    ];
    check_choices(&rt, Width::W16, table)?;
    check_choices(&rt, Width::W64, &[(b"p a:s64", 1, 1, 0, 0)])
}
