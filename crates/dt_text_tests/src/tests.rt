//! Texts to sinks of all kinds, and what is left where a write fails.

use dt_io::{Failed, MemorySink, Sink};
use dt_text::{GrowingSink, Out, Part, Writer, text_of, write_parts, write_text};
use dt_values::Name;
use std::alloc::{AllocError, Global};
use std::test::Fail;

// A writer function: it returns nothing, and puts its text to whatever it is given.
fn write_sum<W: Out>(out: &mut W, first: u32, second: u32) {
    write_parts(
        out,
        &[
            Part::Decimal(first as u64),
            Part::Text(b" + "),
            Part::Decimal(second as u64),
        ],
    );
    out.put(b" = ");
    let sum = first as u64 + second as u64;
    write_parts(out, &[Part::Decimal(sum), Part::Text(b"\n")]);
}

// The same to a sink.
fn write_sum_to<S: Sink>(first: u32, second: u32, sink: &mut S) -> Result<(), Failed> {
    let mut out = Writer::new(sink);
    write_sum(&mut out, first, second);
    out.answer()
}

// The same in memory.
fn sum_text(alloc: Global, first: u32, second: u32) -> Result<Vec<u8>, AllocError> {
    let mut out = GrowingSink::new(alloc);
    write_sum(&mut out, first, second);
    out.into_text()
}

#[test]
fn each_part_has_its_text(rt: HostRuntime) -> Result<(), Fail> {
    let name = Name::from_bytes(b"addi").unwrap();
    let parts = [
        Part::Text(b"if"),
        Part::Spaces(3),
        Part::Name(&name),
        Part::Word(b"_w"),
        Part::Spaces(0),
        Part::Text(b" "),
        Part::Decimal(0),
        Part::Text(b" "),
        Part::Decimal(18_446_744_073_709_551_615),
    ];
    let text = text_of(rt.alloc(), &parts)?;
    assert!(rt; text.as_slice() == b"if   addi_w 0 18446744073709551615".as_slice());
    Ok(())
}

#[test]
fn hexadecimal_digits_are_so_many(rt: HostRuntime) -> Result<(), Fail> {
    let table = [
        (0, 0xffff, b"".as_slice()),
        (4, 0xa09, b"0a09"),
        (8, 0x1234_abcd, b"1234abcd"),
        (16, 0xfedc_ba98_7654_3210, b"fedcba9876543210"),
        (2, 0x1234, b"34"),
        (18, 0x1, b"000000000000000001"),
    ];
    for (digits, value, expected) in table {
        let text = text_of(rt.alloc(), &[Part::Hex { digits, value }])?;
        assert!(rt; text.as_slice() == expected);
    }
    Ok(())
}

#[test]
fn a_failed_write_leaves_a_prefix(rt: HostRuntime) -> Result<(), Fail> {
    let alloc = rt.alloc();
    let parts = [
        Part::Text(b"one "),
        Part::Text(b"two "),
        Part::Text(b"three"),
    ];
    for (capacity, step, failing, held) in [
        (13, 5, 9, b"one two three".as_slice()),
        (12, 5, 9, b"one two thre"),
        (13, 3, 4, b"one two"),
        (13, 13, 2, b"one "),
        (13, 13, 1, b""),
    ] {
        let mut sink = MemorySink::new(alloc, capacity, step, &[failing])?;
        let answer = write_text(&parts, &mut sink);
        assert!(rt; sink.bytes() == held);
        assert!(rt; answer.is_ok() == (held.len() == 13));
    }
    Ok(())
}

#[test]
fn a_writer_function_goes_to_sinks_and_memory(rt: HostRuntime) -> Result<(), Fail> {
    let alloc = rt.alloc();
    let mut sink = MemorySink::new(alloc, 40, 1, &[])?;
    assert!(rt; write_sum_to(2, 40, &mut sink) == Ok(()));
    assert!(rt; sink.bytes() == b"2 + 40 = 42\n".as_slice());
    let text = sum_text(alloc, 2, 40)?;
    assert!(rt; text.as_slice() == sink.bytes());
    Ok(())
}

#[test]
fn a_growing_sink_keeps_all(rt: HostRuntime) -> Result<(), Fail> {
    let mut sink = GrowingSink::new(rt.alloc());
    assert!(rt; sink.write(b"some ") == Ok(5));
    assert!(rt; sink.write(b"") == Ok(0));
    assert!(rt; write_text(&[Part::Text(b"more "), Part::Decimal(7)], &mut sink) == Ok(()));
    let text = sink.into_text()?;
    assert!(rt; text.as_slice() == b"some more 7".as_slice());
    Ok(())
}
