//! Format lines, constants, and patterns that name a format or take one by inference.

use crate::reading::{Refusal, Want, check_choices, check_refusals, model_in};
use dt_fields::Rule;
use dt_model::{FieldValue, Format, Model, Pattern};
use dt_values::{Name, Width};
use std::process::Abort;
use std::test::Fail;

#[test]
fn tokens_of_formats_are_refused_by_their_first_rule(rt: HostRuntime) -> Result<(), Fail> {
    let table: &[Refusal] = &[
        (b"@", 1, Rule::L7, Want::Text(0, 1)),
        (b"@a-b 0", 1, Rule::L7, Want::Text(0, 4)),
        (b"@f @f", 1, Rule::G10, Want::Text(3, 5)),
        (b"@f @", 1, Rule::G7, Want::Text(3, 4)),
        (b"@f @a-b", 1, Rule::G7, Want::Text(3, 7)),
        (b"@f x", 1, Rule::G7, Want::Text(3, 4)),
        (b"@f &s", 1, Rule::G2, Want::Text(3, 5)),
        (b"&s a\n&t b\n@f &s &t", 3, Rule::G1, Want::Text(16, 18)),
        (b"@f %f", 1, Rule::G6, Want::Text(3, 5)),
        (b"@f if=%f", 1, Rule::G7, Want::Text(3, 8)),
        (b"@f a:17", 1, Rule::G8, Want::Text(3, 7)),
        (b"@f a:8 00000000 -", 1, Rule::G8, Want::Text(16, 17)),
        (b"@f a=1 a=2", 1, Rule::G5, Want::Text(7, 10)),
        (b"@f a=4294967296", 1, Rule::G22, Want::Text(3, 15)),
    ];
    check_refusals(&rt, Width::W16, table)
}

#[test]
fn formats_and_constants_of_patterns_are_refused_by_their_first_rule(
    rt: HostRuntime,
) -> Result<(), Fail> {
    let table: &[Refusal] = &[
        (b"p @f", 1, Rule::G4, Want::Text(2, 4)),
        (
            b"@f ----------------\np @f @f",
            2,
            Rule::G3,
            Want::Text(25, 27),
        ),
        (
            b"@f ----------------\np @f @g",
            2,
            Rule::G3,
            Want::Text(25, 27),
        ),
        (
            b"@f ----------------\np @g @f",
            2,
            Rule::G4,
            Want::Text(22, 24),
        ),
        (b"p 1a=2", 1, Rule::G7, Want::Text(2, 6)),
        (b"p if=4294967296", 1, Rule::G7, Want::Text(2, 15)),
        (b"p a=--1", 1, Rule::G7, Want::Text(2, 7)),
        (b"p a=+", 1, Rule::G7, Want::Text(2, 5)),
        (b"p a=4294967296", 1, Rule::G22, Want::Text(2, 14)),
        (b"p a=-2147483649", 1, Rule::G22, Want::Text(2, 15)),
        (
            b"p a=+18446744073709551617",
            1,
            Rule::G22,
            Want::Text(2, 25),
        ),
        (b"p a=1 a=2", 1, Rule::G5, Want::Text(6, 9)),
        (b"p a=1 a=4294967296", 1, Rule::G22, Want::Text(6, 18)),
        (b"p a=4294967295 a=1", 1, Rule::G5, Want::Text(15, 18)),
    ];
    check_refusals(&rt, Width::W16, table)
}

#[test]
fn lines_of_formats_are_refused_by_their_first_rule(rt: HostRuntime) -> Result<(), Fail> {
    let table: &[Refusal] = &[
        (b"@f 0", 1, Rule::G9, Want::Number(1)),
        (b"&s a\n@f b=1 0 &s", 2, Rule::G9, Want::Number(1)),
        (b"&s a\n@f b=1 &s", 2, Rule::G11, Want::Named(b"b")),
        (b"&s a\n@f\n@f b=1 &s", 3, Rule::G11, Want::Named(b"b")),
        (b"@f\n@f", 2, Rule::G12, Want::Named(b"f")),
        (b"@f\n&decode2 x\n@f a=1", 3, Rule::G12, Want::Named(b"f")),
        (
            b"%f 0:4\n&decode1 x\n@f %f 0000000000000000",
            3,
            Rule::G28,
            Want::Named(b"decode1"),
        ),
        (
            b"%f 0:4\n%g 4:4\n@f %f %g --------....0000",
            3,
            Rule::G18,
            Want::Mask(0xf),
        ),
        (
            b"%f 0:4\n@f %f ----------------",
            2,
            Rule::G19,
            Want::Mask(0xf),
        ),
    ];
    check_refusals(&rt, Width::W16, table)
}

#[test]
fn patterns_with_formats_are_refused_by_their_first_rule(rt: HostRuntime) -> Result<(), Fail> {
    let table: &[Refusal] = &[
        (
            b"@decode_Fmt_1\np a:16",
            2,
            Rule::G28,
            Want::Named(b"decode_Fmt_1"),
        ),
        (
            b"&decode1\n@decode_Fmt_1 &decode1\np a:16",
            3,
            Rule::G28,
            Want::Named(b"decode1"),
        ),
        (b"&s\n@f &s\np @f &s 0", 3, Rule::G9, Want::Number(1)),
        (
            b"&s\n@f 1--------------- &s\np &s @f 0000000000000000",
            3,
            Rule::G13,
            Want::Nothing,
        ),
        (
            b"&s\n@f 1--------------- &s\np @f c=1 0000000000000000",
            3,
            Rule::G14,
            Want::Mask(0x8000),
        ),
        (
            b"&s a b\n@f a=1 &s\np @f a=2 c=3 ----------------",
            3,
            Rule::G11,
            Want::Named(b"c"),
        ),
        (
            b"&s a b\n@f a=1 &s\np @f a=2 ----------------",
            3,
            Rule::G16,
            Want::Named(b"a"),
        ),
        (
            b"&s a b\n@f a=1 &s\np @f ----------------",
            3,
            Rule::G17,
            Want::Named(b"b"),
        ),
        (
            b"&p\n@f a=1 b=2\np @f a=3 ----------------",
            3,
            Rule::G16,
            Want::Named(b"a"),
        ),
        (
            b"&s a\n&p\n@f &s\np @f ----------------",
            4,
            Rule::G17,
            Want::Named(b"a"),
        ),
        (
            b"&s a\n&p\n@f a=1 &s\np @f ----------------",
            4,
            Rule::G26,
            Want::Named(b"p"),
        ),
        (
            b"p ----------------\n%f 0:4\n@f %f\np @f 0000000000000000",
            4,
            Rule::G27,
            Want::Named(b"p"),
        ),
        (
            b"%f 0:4\n@f %f\np @f 0000000000000000",
            3,
            Rule::G18,
            Want::Mask(0xf),
        ),
        (
            b"&s a\n@f 11111111-------- &s\np a:8 ........ @f",
            3,
            Rule::G18,
            Want::Mask(0xff00),
        ),
        (
            b"&s a\n@f --------........ &s\np a:8 ........ @f",
            3,
            Rule::G19,
            Want::Mask(0xff00),
        ),
        (
            b"%f 0:4\n@f %f -...............\np 1000000000000000 @f",
            3,
            Rule::G18,
            Want::Mask(0xf),
        ),
        (
            b"@f -...............\np 1000000000000000 @f",
            2,
            Rule::G20,
            Want::Mask(0x8000),
        ),
        (
            b"@f 1...............\np -.............. . @f",
            2,
            Rule::G20,
            Want::Mask(0x8000),
        ),
        (
            b"@f 1...............\np ................ @f",
            2,
            Rule::G21,
            Want::Mask(0x7fff),
        ),
        (
            b"%f 0:4\n@f a=%f\np @f ...............0",
            3,
            Rule::G18,
            Want::Mask(1),
        ),
    ];
    check_refusals(&rt, Width::W16, table)
}

#[test]
fn formats_are_named_or_inferred(rt: HostRuntime) -> Result<(), Fail> {
    let table: &[(&[u8], usize, usize, u32, u32)] = &[
        (
            b"@f a:8 --------\n@g a:8 --------\np @g ................",
            1,
            2,
            1,
            0,
        ),
        (b"@f a:8 --------\np a:8 00000000", 1, 1, 0, 0),
        (b"&s a\n@f a:8 -------- &s\np a:8 00000000", 1, 1, 0, 0),
        (
            b"&s a\n&t a\n@f a:8 -------- &t\np a:8 00000000",
            2,
            2,
            1,
            0,
        ),
        (
            b"&s a\n&t a\n@f a:8 -------- &t\np a:8 00000000 &t",
            2,
            1,
            0,
            1,
        ),
        (b"%a 0:8\n@f %a\np %a 00000000........", 1, 2, 1, 0),
        (
            b"%a 0:8\n@f %a 00000000........\np %a 11111111........",
            1,
            1,
            0,
            0,
        ),
        (b"@f a:8 k=1 --------\np a:8 k=1 --------", 1, 2, 1, 0),
        (b"p a:8 k=1 --------\nq k=2 a:8 --------", 1, 1, 0, 0),
        (
            b"&s k a\n@f a:8 -------- &s\np a:8 k=1 --------",
            1,
            1,
            0,
            0,
        ),
        (
            b"&s a k\n@f a:s8 -------- &s\np a:8 k=1 --------",
            1,
            2,
            1,
            0,
        ),
        (b"&s\np ---------------- k=0", 2, 1, 0, 1),
    ];
    check_choices(&rt, Width::W16, table)
}

// The constant that the argument of this name gets.
fn constant_of(values: &[(Name, FieldValue)], name: &str) -> Option<i64> {
    for (argument, value) in values {
        if argument.as_str() == name {
            return match value {
                FieldValue::Field(_) => None,
                FieldValue::Constant(number) => Some(*number),
            };
        }
    }
    None
}

fn masks_of(pattern: &Pattern) -> (u64, u64, u64) {
    (pattern.fixed_mask, pattern.fixed_bits, pattern.ignored)
}

fn format_masks(format: &Format) -> (u32, u64, u64, u64) {
    (
        format.bits,
        format.fixed_mask,
        format.fixed_bits,
        format.ignored,
    )
}

fn check_has_joined_masks(rt: &impl Abort, model: &Model) -> Result<(), Fail> {
    let ([format], [pattern]) = (model.formats.items(), model.patterns.items()) else {
        return Err("a format and a pattern".into());
    };
    assert!(rt; format_masks(format) == (16, 0xf000, 0x5000, 0));
    assert!(rt; masks_of(pattern) == (0xf3ff, 0x53ff, 0xc00));
    assert!(rt; pattern.bits == 16);
    Ok(())
}

#[test]
fn masks_are_joined_with_those_of_a_named_format(rt: HostRuntime) -> Result<(), Fail> {
    let file = b"@f 0101............\np ....--1111111111 @f";
    let model = model_in(rt.alloc(), Width::W16, &[file])?;
    check_has_joined_masks(&rt, &model)
}

fn check_has_inferred(rt: &impl Abort, model: &Model) -> Result<(), Fail> {
    let ([named, inferred], [p, q]) = (model.formats.items(), model.patterns.items()) else {
        return Err("two formats and two patterns".into());
    };
    assert!(rt; (p.format, q.format) == (1, 0));
    assert!(rt; (inferred.name.as_str(), inferred.set) == ("decode_Fmt_1", 1));
    assert!(rt; format_masks(inferred) == (16, 0, 0, 0));
    assert!(rt; inferred.values.items().len() == 1);
    assert!(rt; constant_of(p.values.items(), "k") == Some(-5));
    assert!(rt; p.values.items().len() == 1);
    assert!(rt; masks_of(p) == (0xff, 0, 0));
    assert!(rt; (named.name.as_str(), named.set) == ("f", 0));
    assert!(rt; masks_of(q) == (0x7f, 0x7f, 0x80));
    assert!(rt; q.values.items().is_empty());
    Ok(())
}

#[test]
fn an_inferred_format_gives_its_fields_alone(rt: HostRuntime) -> Result<(), Fail> {
    let file = b"@f a:8 1111----\np a:8 k=-5 00000000\nq a:8 -1111111";
    let model = model_in(rt.alloc(), Width::W16, &[file])?;
    check_has_inferred(&rt, &model)
}

fn check_has_bare_format(rt: &impl Abort, model: &Model) -> Result<(), Fail> {
    let ([format], [pattern]) = (model.formats.items(), model.patterns.items()) else {
        return Err("a format and a pattern".into());
    };
    assert!(rt; format_masks(format) == (0, 0, 0, 0));
    assert!(rt; constant_of(format.values.items(), "k") == Some(4_294_967_295));
    assert!(rt; constant_of(format.values.items(), "a") == None);
    assert!(rt; format.values.items().len() == 2);
    assert!(rt; constant_of(pattern.values.items(), "z") == Some(-2_147_483_648));
    assert!(rt; pattern.values.items().len() == 1);
    assert!(rt; (pattern.bits, pattern.format) == (16, 0));
    assert!(rt; masks_of(pattern) == (0xff00, 0, 0));
    Ok(())
}

#[test]
fn a_format_without_bits_takes_the_width_of_its_pattern(rt: HostRuntime) -> Result<(), Fail> {
    let file = b"%a 0:8\n&s k a z\n@f %a k=4294967295 &s\np 00000000........ z=-2147483648 @f";
    let model = model_in(rt.alloc(), Width::W16, &[file])?;
    check_has_bare_format(&rt, &model)
}
