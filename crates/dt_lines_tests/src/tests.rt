//! The lines of small files, and what keeps a file from being read.

use dt_lines::scan::logical;
use dt_lines::{LARGEST_FILE, LineFault, Logical, Position, Span, TokenList, line_count};
use std::alloc::{AllocError, Global};
use std::test::Fail;

// A line as it should be: its number, its indentation and its tokens.
type Row<'a> = (u32, u32, &'a [&'a [u8]]);

fn is_row(bytes: &[u8], line: &Logical, row: Row<'_>) -> bool {
    let (number, indent, tokens) = row;
    if line.line != number || line.indent != indent || line.tokens.items().len() != tokens.len() {
        return false;
    }
    for (span, token) in line.tokens.items().iter().zip(tokens) {
        if bytes.get(span.start as usize..span.end as usize) != Some(*token) {
            return false;
        }
    }
    true
}

#[test]
fn lines_have_numbers_columns_and_tokens(rt: HostRuntime) -> Result<(), Fail> {
    let table: &[(&[u8], &[Row<'_>])] = &[
        (
            b"a 01\n\n \t b\x0b\x0cc\r\n\t\n        d;e",
            &[
                (1, 0, &[b"a", b"01"]),
                (3, 9, &[b"b", b"c"]),
                (5, 8, &[b"d;e"]),
            ],
        ),
        (
            b"%f 0:4 \\\n# note\n%g 4:4\np ------------------------ ........ \\\n%f %g \\\n",
            &[
                (1, 0, &[b"%f", b"0:4"]),
                (3, 0, &[b"%g", b"4:4"]),
                (
                    4,
                    0,
                    &[b"p", b"------------------------", b"........", b"%f", b"%g"],
                ),
            ],
        ),
        (b"a \\ # x\nb", &[(1, 0, &[b"a", b"b"])]),
        (b"\\\nb", &[(2, 0, &[b"b"])]),
        (b"\\\n\n # c\n", &[(3, 1, &[])]),
        (b"  # note\n", &[(1, 2, &[])]),
        (b"\ta", &[(1, 8, &[b"a"])]),
        (b" a#b c", &[(1, 1, &[b"a"])]),
        (b"a \\\n\nb", &[(1, 0, &[b"a"]), (3, 0, &[b"b"])]),
        (b"a \\ \\\n\nb", &[(1, 0, &[b"a", b"b"])]),
        (b"a\\\nb", &[(1, 0, &[b"a\\"]), (2, 0, &[b"b"])]),
        (b"  a \\", &[(1, 2, &[b"a"])]),
        (b"", &[]),
    ];
    for &(bytes, rows) in table {
        let lines = logical(rt.alloc(), 3, bytes)?;
        assert!(rt; lines.len() == rows.len());
        for (line, row) in lines.iter().zip(rows) {
            assert!(rt; line.file == 3);
            assert!(rt; is_row(bytes, line, *row));
        }
    }
    Ok(())
}

// So many bytes of a name, between two texts.
fn with_name(
    alloc: Global,
    before: &[u8],
    length: usize,
    after: &[u8],
) -> Result<Vec<u8>, AllocError> {
    let mut bytes = Vec::new(alloc);
    bytes.extend_from_slice(before)?;
    bytes.extend_from_slice(vec![in alloc; b'n'; length]?.as_slice())?;
    bytes.extend_from_slice(after)?;
    Ok(bytes)
}

// The fault of a file that is small enough to be read.
fn fault_of(alloc: Global, bytes: &[u8]) -> Option<LineFault> {
    if bytes.len() > LARGEST_FILE {
        return None;
    }
    logical(alloc, 0, bytes).err()
}

#[test]
fn a_long_name_is_refused_by_its_line(rt: HostRuntime) -> Result<(), Fail> {
    let table: &[(&[u8], usize, &[u8], Option<LineFault>)] = &[
        (
            b"a \\\n\\\nb ",
            129,
            b" \\\nc",
            Some(LineFault::LongName(3)),
        ),
        (b"a \\\n\\\nb #", 129, b" \\\nc", None),
        (b"", 129, b"", Some(LineFault::LongName(1))),
        (b"\n-", 129, b"\n", Some(LineFault::LongName(2))),
        (b"", 128, b"", None),
        (b"x:", 128, b"", None),
        (b"", 128, b":n", None),
    ];
    for &(before, length, after, fault) in table {
        let bytes = with_name(rt.alloc(), before, length, after)?;
        assert!(rt; fault_of(rt.alloc(), bytes.as_slice()) == fault);
    }
    Ok(())
}

#[test]
fn a_file_has_65_535_lines_at_most(rt: HostRuntime) -> Result<(), Fail> {
    let mut bytes = vec![in rt.alloc(); b'\n'; 65_534]?;
    bytes.push(b'a')?;
    assert!(rt; line_count(bytes.as_slice()) == 65_535);
    let lines = logical(rt.alloc(), 0, bytes.as_slice())?;
    assert!(rt; lines.len() == 1);
    assert!(rt; lines[0].line == 65_535);
    bytes.extend_from_slice(b"\n")?;
    assert!(rt; line_count(bytes.as_slice()) == 65_535);
    assert!(rt; fault_of(rt.alloc(), bytes.as_slice()) == None);
    let name = vec![in rt.alloc(); b'n'; 129]?;
    bytes.extend_from_slice(name.as_slice())?;
    assert!(rt; line_count(bytes.as_slice()) == 65_536);
    assert!(rt; fault_of(rt.alloc(), bytes.as_slice()) == Some(LineFault::TooManyLines));
    Ok(())
}

#[test]
fn a_file_of_the_largest_size_is_read(rt: HostRuntime) -> Result<(), Fail> {
    let mut bytes = vec![in rt.alloc(); b' '; LARGEST_FILE - 1]?;
    bytes.push(b'a')?;
    assert!(rt; bytes.len() == LARGEST_FILE);
    let lines = logical(rt.alloc(), 0, bytes.as_slice())?;
    assert!(rt; lines.len() == 1);
    assert!(rt; lines[0].indent == 4_194_303);
    Ok(())
}

#[test]
fn tokens_are_shown_as_they_were_given(rt: HostRuntime) -> Result<(), Fail> {
    let span = Span { start: 2, end: 5 };
    let tokens = TokenList::of(vec![in rt.alloc(); span]?);
    assert!(rt; tokens.items() == [span].as_slice());
    Ok(())
}

#[test]
fn equal_tokens_lie_where_they_stand(rt: HostRuntime) -> Result<(), Fail> {
    let bytes = b"a a \\\na # a\na \\\na \\\n\\\na";
    let rows: &[&[(u32, u32)]] = &[&[(0, 1), (2, 3), (6, 7)], &[(12, 13), (16, 17), (22, 23)]];
    let lines = logical(rt.alloc(), 0, bytes)?;
    assert!(rt; lines.len() == rows.len());
    for (line, row) in lines.iter().zip(rows) {
        assert!(rt; line.tokens.items().len() == row.len());
        for (span, (start, end)) in line.tokens.items().iter().zip(row.iter()) {
            assert!(rt; (span.start, span.end) == (*start, *end));
        }
    }
    Ok(())
}

#[test]
fn faults_have_messages(rt: HostRuntime) -> Result<(), Fail> {
    let table = [
        (LineFault::TooManyLines, "there are too many lines"),
        (LineFault::LongName(7), "line 7 has too long a name"),
        (LineFault::NoMemory, "out of memory"),
        (LineFault::from(AllocError), "out of memory"),
    ];
    for (fault, message) in table {
        assert!(rt; fault.to_string(rt.alloc())?.as_str() == message);
    }
    let position = Position { file: 2, line: 7 };
    assert!(rt; position == Position { file: 2, line: 7 });
    Ok(())
}
