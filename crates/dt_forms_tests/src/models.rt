//! The models of small files, and the faults of whole files.

use crate::reading::{Refusal, Want, check_fault, check_refusals, model_in, sources};
use dt_fields::{Detail, Rule};
use dt_forms::{Fault, ModelFault, Source, first_token};
use dt_lines::Position;
use dt_model::{Entry, MOST_FILES, MOST_PATTERNS, Model};
use dt_values::{CType, Width};
use std::process::Abort;
use std::test::Fail;

#[test]
fn words_of_32_bits(rt: HostRuntime) -> Result<(), Fail> {
    let table: &[Refusal] = &[
        (b"a 000", 1, Rule::G9, Want::Number(3)),
        (b"a 0.", 1, Rule::G9, Want::Number(2)),
        (
            b" p 00000000000000000000000000000000",
            1,
            Rule::L1,
            Want::Number(1),
        ),
        (
            b"p 0 ...............................",
            1,
            Rule::G21,
            Want::Mask(0x7fff_ffff),
        ),
        (
            b"a 00000000000000000000000000000000 0",
            1,
            Rule::G8,
            Want::Text(35, 36),
        ),
        (b"*a 0x", 1, Rule::L7, Want::Text(0, 2)),
        (b"a 0\n*b 0x", 1, Rule::G9, Want::Number(1)),
        (b"\n\n *b 0x\na", 3, Rule::L1, Want::Number(1)),
        (
            b"a 0101010101010101----------------\n *b 0",
            2,
            Rule::L1,
            Want::Number(1),
        ),
        (b"*b 0", 1, Rule::L7, Want::Text(0, 2)),
    ];
    check_refusals(&rt, Width::W32, table)
}

fn check_has_wide_masks(rt: &impl Abort, model: &Model) -> Result<(), Fail> {
    let pattern = model.patterns.items().first().ok_or("a pattern")?;
    assert!(rt; (pattern.bits, pattern.fixed_mask) == (64, 0x8000_ffff_0000_ffff));
    assert!(rt;
        (pattern.fixed_bits, pattern.ignored) == (0x8000_0000_0000_0001, 0x7fff_0000_ffff_0000)
    );
    Ok(())
}

#[test]
fn words_of_16_and_64_bits(rt: HostRuntime) -> Result<(), Fail> {
    let table: &[Refusal] = &[
        (b"a 00000000000000000", 1, Rule::G8, Want::Text(2, 19)),
        (b"a 0000.000 0000000-", 1, Rule::G21, Want::Mask(0x0800)),
    ];
    check_refusals(&rt, Width::W16, table)?;
    let word = b"a 1--------------- 0000000000000000 ---------------- 0000000000000001";
    let model = model_in(rt.alloc(), Width::W64, &[word])?;
    check_has_wide_masks(&rt, &model)
}

fn check_has_each_part(rt: &impl Abort, model: &Model) -> Result<(), Fail> {
    assert!(rt; (model.width, model.variable) == (Width::W32, false));
    let [p, q] = model.patterns.items() else {
        return Err("two patterns".into());
    };
    assert!(rt; (p.name.as_str(), p.file, p.line, p.format) == ("p", 0, 2, 0));
    assert!(rt; (p.ignored, p.fixed_mask, p.fixed_bits) == (0xffff_ffff, 0, 0));
    assert!(rt; (q.name.as_str(), q.line, q.bits, q.values.items().len()) == ("q", 3, 32, 0));
    assert!(rt; (q.fixed_mask, q.fixed_bits, q.ignored) == (0xf000_0000, 0xa000_0000, 0x0fff_ffff));
    let [set] = model.sets.items() else {
        return Err("a set".into());
    };
    assert!(rt;
        (set.name.as_str(), set.members.items().len(), set.outside) == ("decode0", 0, false)
    );
    let [format] = model.formats.items() else {
        return Err("a format".into());
    };
    assert!(rt; (format.name.as_str(), format.set, format.bits) == ("decode_Fmt_0", 0, 32));
    assert!(rt;
        (
            format.fixed_mask,
            format.ignored,
            format.values.items().len()
        ) == (0, 0, 0)
    );
    assert!(rt; matches!(model.entries.items(), [Entry::One(0), Entry::One(1)]));
    Ok(())
}

#[test]
fn a_model_has_each_part(rt: HostRuntime) -> Result<(), Fail> {
    let file = b"\np --------------------------------\nq 1010----------------------------";
    let model = model_in(rt.alloc(), Width::W32, &[file])?;
    check_has_each_part(&rt, &model)
}

fn check_is_empty_model(rt: &impl Abort, model: &Model) -> Result<(), Fail> {
    assert!(rt; model.patterns.items().is_empty());
    assert!(rt; model.sets.items().is_empty());
    assert!(rt; model.formats.items().is_empty());
    assert!(rt; model.entries.items().is_empty());
    Ok(())
}

#[test]
fn no_pattern_needs_no_set(rt: HostRuntime) -> Result<(), Fail> {
    let model = model_in(rt.alloc(), Width::W32, &[b"\n  \n"])?;
    check_is_empty_model(&rt, &model)
}

fn check_has_both_files(rt: &impl Abort, model: &Model) -> Result<(), Fail> {
    let [a, b, c] = model.patterns.items() else {
        return Err("three patterns".into());
    };
    assert!(rt; (a.file, a.line, a.fixed_bits) == (0, 1, 0));
    assert!(rt; (b.file, b.line, b.fixed_bits) == (0, 2, 1));
    assert!(rt; (c.file, c.line, c.fixed_bits) == (1, 2, 2));
    Ok(())
}

#[test]
fn the_second_file_follows(rt: HostRuntime) -> Result<(), Fail> {
    let first = b"a 0000000000000000\nb 0000000000000001\n";
    let model = model_in(rt.alloc(), Width::W16, &[first, b"\na 0000000000000010"])?;
    check_has_both_files(&rt, &model)
}

#[test]
fn a_fault_of_the_second_file_has_its_place(rt: HostRuntime) -> Result<(), Fail> {
    let first = b"a 0000000000000000\nb 0000000000000001\n";
    let texts: &[&[u8]] = &[first, b"\n\na 0"];
    check_fault(&rt, Width::W16, texts, (1, 3), Rule::G9, &Want::Number(1))
}

#[test]
fn a_pattern_too_many(rt: HostRuntime) -> Result<(), Fail> {
    let mut bytes = Vec::new(rt.alloc());
    for _ in 0..MOST_PATTERNS {
        bytes.extend_from_slice(b"a ----------------\n")?;
    }
    let model = model_in(rt.alloc(), Width::W16, &[bytes.as_slice()])?;
    assert!(rt; model.patterns.items().len() == MOST_PATTERNS);
    check_fault(
        &rt,
        Width::W16,
        &[bytes.as_slice(), b"b -"],
        (1, 1),
        Rule::L9,
        &Want::Text(0, 1),
    )?;
    bytes.extend_from_slice(b"b -")?;
    let want = Want::Text(155_648, 155_649);
    check_fault(
        &rt,
        Width::W16,
        &[bytes.as_slice()],
        (0, 8193),
        Rule::L9,
        &want,
    )
}

fn check_has_sets(rt: &impl Abort, model: &Model) -> Result<(), Fail> {
    let [r, e] = model.sets.items() else {
        return Err("two sets".into());
    };
    assert!(rt; (r.name.as_str(), r.outside) == ("r", false));
    let [rd, imm] = r.members.items() else {
        return Err("two arguments".into());
    };
    assert!(rt; (rd.name.as_str(), rd.ctype) == ("rd", CType::Int));
    assert!(rt; (imm.name.as_str(), imm.ctype) == ("imm", CType::I64));
    assert!(rt; (e.name.as_str(), e.members.items().len(), e.outside) == ("e", 0, true));
    let [format] = model.formats.items() else {
        return Err("a format".into());
    };
    assert!(rt; (format.name.as_str(), format.set) == ("decode_Fmt_0", 1));
    Ok(())
}

#[test]
fn fields_and_sets_are_read(rt: HostRuntime) -> Result<(), Fail> {
    let file =
        b"%f 0:4 \\\n  4:s4\n&r rd imm:int64_t\n&e !extern\np --------------------------------";
    let model = model_in(rt.alloc(), Width::W32, &[file])?;
    check_has_sets(&rt, &model)
}

#[test]
fn names_that_are_taken(rt: HostRuntime) -> Result<(), Fail> {
    let table: &[Refusal] = &[
        (
            b"&decode1 a\nq ----------------",
            2,
            Rule::G28,
            Want::Named(b"decode1"),
        ),
        (b"&p a\np ----------------", 2, Rule::G26, Want::Named(b"p")),
        (b"p ----------------\n&p", 2, Rule::A3, Want::Named(b"p")),
        (b"&p a\n&p b a", 2, Rule::A3, Want::Named(b"p")),
    ];
    check_refusals(&rt, Width::W16, table)?;
    let model = model_in(rt.alloc(), Width::W16, &[b"&p\np ----------------"])?;
    assert!(rt; model.sets.items().len() == 1);
    Ok(())
}

#[test]
fn sixteen_files_are_read(rt: HostRuntime) -> Result<(), Fail> {
    let texts: [&[u8]; MOST_FILES] = [b"a ----------------"; MOST_FILES];
    let model = model_in(rt.alloc(), Width::W16, &texts)?;
    assert!(rt; model.patterns.items().len() == MOST_FILES);
    Ok(())
}

#[test]
fn the_last_of_sixteen_files_is_refused(rt: HostRuntime) -> Result<(), Fail> {
    let mut texts: [&[u8]; MOST_FILES] = [b"a ----------------"; MOST_FILES];
    texts[MOST_FILES - 1] = b"\nb 1";
    check_fault(&rt, Width::W16, &texts, (15, 2), Rule::G9, &Want::Number(1))
}

#[test]
fn a_refused_file_has_its_place(rt: HostRuntime) -> Result<(), Fail> {
    let mut bytes = Vec::from_slice(rt.alloc(), b"a 0\n")?;
    bytes.extend_from_slice(&[b'x'; 129])?;
    let broken = Source::read(rt.alloc(), 3, bytes);
    let fault = Fault {
        file: 3,
        line: 2,
        rule: Rule::K2,
        detail: Detail::None,
    };
    assert!(rt; matches!(&broken, Err(ModelFault::Broken(found)) if *found == fault));
    let bytes = vec![in rt.alloc(); b'\n'; 65_536]?;
    let broken = Source::read(rt.alloc(), 1, bytes);
    let fault = Fault {
        file: 1,
        line: 65_536,
        rule: Rule::K1,
        detail: Detail::None,
    };
    assert!(rt; matches!(&broken, Err(ModelFault::Broken(found)) if *found == fault));
    Ok(())
}

#[test]
fn the_first_token_at_a_position(rt: HostRuntime) -> Result<(), Fail> {
    let files = sources(rt.alloc(), &[b"a 0\nb \\\n1\n#\nd 0", b"", b"\n e f"])?;
    let table: &[(u16, u32, &[u8])] = &[
        (0, 1, b"a"),
        (0, 2, b"b"),
        (0, 3, b""),
        (0, 4, b""),
        (0, 5, b"d"),
        (0, 6, b""),
        (1, 1, b""),
        (2, 2, b"e"),
        (3, 1, b""),
    ];
    for &(file, line, token) in table {
        let position = Position { file, line };
        assert!(rt;
            first_token(files.as_slice(), position) == token,
            "{file}:{line}"
        );
    }
    Ok(())
}

#[test]
fn faults_say_what_is_wrong(rt: HostRuntime) -> Result<(), Fail> {
    let alloc = rt.alloc();
    let broken = ModelFault::Broken(Fault {
        file: 0,
        line: 1,
        rule: Rule::G9,
        detail: Detail::Number(3),
    });
    let table = [
        (broken, "a pattern file breaks a rule"),
        (ModelFault::NoMemory, "out of memory"),
    ];
    for (fault, text) in table {
        assert!(rt; format!(in alloc; "{fault}")?.as_str() == text);
    }
    Ok(())
}
