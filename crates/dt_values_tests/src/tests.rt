//! Names, types, widths and numbers by example, and each public call once.

use dt_values::bits::{read_signed, residue};
use dt_values::name::is_name_byte;
use dt_values::{CType, Items, Member, Name, Values, Width, deposit, extract, sextract, store};
use std::process::Abort;
use std::test::Fail;

fn name(rt: &impl Abort, bytes: &[u8]) -> Name {
    Name::from_bytes(bytes).expect(rt, "a name")
}

fn is_named(bytes: &[u8]) -> bool {
    match Name::from_bytes(bytes) {
        None => false,
        Some(name) => name.bytes() == bytes,
    }
}

#[test]
fn names_have_up_to_128_name_bytes(rt: HostRuntime) {
    let longest = [b'x'; 128];
    let too_long = [b'x'; 129];
    let table: [(&[u8], bool); 5] = [
        (b"c_9z", true),
        (&longest, true),
        (&too_long, false),
        (b"", false),
        (b"a-b", false),
    ];
    for (bytes, want) in table {
        assert!(rt; is_named(bytes) == want, "{} bytes", bytes.len());
    }
    assert!(rt; is_name_byte(b'_') && !is_name_byte(b'.'));
}

fn is_of(name: Name, ctype: CType) -> bool {
    CType::of(name) == ctype && ctype.name() == name
}

#[test]
fn types_have_their_c_names(rt: HostRuntime) {
    let table: [(&[u8], CType); 10] = [
        (b"int", CType::Int),
        (b"int8_t", CType::I8),
        (b"int16_t", CType::I16),
        (b"int32_t", CType::I32),
        (b"int64_t", CType::I64),
        (b"uint8_t", CType::U8),
        (b"uint16_t", CType::U16),
        (b"uint32_t", CType::U32),
        (b"uint64_t", CType::U64),
        (b"TCGMemOp", CType::Other(name(&rt, b"TCGMemOp"))),
    ];
    for (text, ctype) in table {
        assert!(rt;
            is_of(name(&rt, text), ctype),
            "{:?}",
            std::str::from_utf8(text)
        );
    }
}

#[test]
fn widths_count_bits(rt: HostRuntime) {
    for (width, bits) in [(Width::W16, 16), (Width::W32, 32), (Width::W64, 64)] {
        assert!(rt; width.bits() == bits, "{bits}");
    }
}

#[test]
fn a_list_keeps_its_items(rt: HostRuntime) -> Result<(), Fail> {
    let list = Items::of(vec![in rt.alloc(); 3u8, 1, 2]?);
    assert!(rt; list.items() == [3, 1, 2].as_slice());
    Ok(())
}

// The bits of a place without and with their sign. None where there is no such place.
fn taken(v: u64, start: u32, length: u32) -> Option<(u64, i64)> {
    if length < 1 || start > 64 || length > 64 - start {
        return None;
    }
    Some((extract(v, start, length), sextract(v, start, length)))
}

#[test]
fn bits_are_taken_out(rt: HostRuntime) {
    let table = [
        (0x8000_0007, 0, 4, 7, 7),
        (0x1234_5678, 8, 12, 0x456, 0x456),
        (0x7fff_ffff_ffff_ffff, 63, 1, 0, 0),
        (0x8000_0000_0000_0000, 63, 1, 1, -1),
        (u64::MAX, 0, 64, u64::MAX, -1),
        (0x8000_0007, 31, 1, 1, -1),
        (0x8000_0007, 0, 3, 7, -1),
        (0x180, 0, 8, 128, -128),
        (
            0x8000_0000_0000_0000,
            0,
            64,
            0x8000_0000_0000_0000,
            i64::MIN,
        ),
        (
            0x7fff_ffff_ffff_ffff,
            0,
            64,
            0x7fff_ffff_ffff_ffff,
            i64::MAX,
        ),
    ];
    for (v, start, length, want, signed) in table {
        assert!(rt;
            taken(v, start, length) == Some((want, signed)),
            "{v} {start} {length}"
        );
    }
}

// A word of so many bits with new bits at a place. None where there is no such word or place.
fn put(n: u32, v: u64, start: u32, length: u32, f: u64) -> Option<u64> {
    if length < 1 || start > n || length > n - start {
        return None;
    }
    match n {
        32 if v <= 0xffff_ffff => Some(deposit(32, v, start, length, f)),
        64 => Some(deposit(64, v, start, length, f)),
        _ => None,
    }
}

#[test]
fn a_number_is_read_with_its_sign(rt: HostRuntime) {
    assert!(rt; read_signed(u64::MAX, 64) == -1);
    assert!(rt; read_signed(5, 3) == -3);
}

#[test]
fn bits_are_put_in(rt: HostRuntime) {
    let table = [
        (32, 7, 4, 28, 0xffff_ffff, 0xffff_fff7),
        (32, 0xf000_000f, 4, 24, 0xffab_cdef, 0xfabc_deff),
        (32, 0xffff_ffff, 0, 32, 0x1_2345_6789, 0x2345_6789),
        (64, 0xff, 4, 4, 0x12, 0x2f),
        (64, u64::MAX, 63, 1, 2, 0x7fff_ffff_ffff_ffff),
        (64, 1, 0, 64, u64::MAX, u64::MAX),
    ];
    for (n, v, start, length, f, want) in table {
        assert!(rt;
            put(n, v, start, length, f) == Some(want),
            "{v} {start} {length} {f}"
        );
    }
}

#[test]
fn types_store_what_they_can(rt: HostRuntime) {
    let table = [
        (CType::Int, 0xffff_ffff, -1),
        (CType::I8, 128, -128),
        (CType::I16, 0x1_8000, -32768),
        (CType::I32, 0x7fff_ffff, 0x7fff_ffff),
        (
            CType::I64,
            9_223_372_036_854_775_808,
            -9_223_372_036_854_775_808,
        ),
        (CType::U8, -1, 255),
        (CType::U16, 65537, 1),
        (CType::U32, -1, 4_294_967_295),
        (CType::U64, -1, 18_446_744_073_709_551_615),
        (
            CType::Other(name(&rt, b"TCGMemOp")),
            -18_446_744_073_709_551_617,
            -18_446_744_073_709_551_617,
        ),
    ];
    for (ctype, number, want) in table {
        assert!(rt; store(ctype, number) == want, "{number}");
    }
    assert!(rt; residue(8, -1) == 255);
    assert!(rt; residue(64, -1) == u64::MAX);
}

#[test]
fn arguments_hold_what_they_store(rt: HostRuntime) {
    let members = [
        Member {
            ctype: CType::Int,
            name: name(&rt, b"rd"),
        },
        Member {
            ctype: CType::U8,
            name: name(&rt, b"size"),
        },
    ];
    let mut numbers = [9; 32];
    numbers[0] = 0xffff_fffe;
    numbers[1] = 257;
    let stored = Values::stored(&members, &numbers);
    let values = stored.assigned(1, -1);
    let zeros = Values::zeros(&members);
    let past = stored.items[2];
    let got = [
        stored.held(name(&rt, b"rd")),
        stored.held(name(&rt, b"size")),
        past,
        values.held(name(&rt, b"rd")),
        values.held(name(&rt, b"size")),
        values.held(name(&rt, b"rs1")),
        zeros.held(name(&rt, b"size")),
    ];
    assert!(rt; got == [-2, 1, 0, -2, 255, 0, 0]);
    assert!(rt; values.members.len() == 2);
}
