//! Trees of models that are built by hand.

use dt_lines::Position;
use dt_model::{
    Entry, EntryList, FormatList, Group, MOST_PATTERNS, Model, Pattern, PatternList, SetList,
    ValueList,
};
use dt_tree::{PositionList, Tree, TreeFault};
use dt_values::{Name, Width};
use std::alloc::{AllocError, Global};
use std::mem::replace;
use std::process::Abort;
use std::test::Fail;

/// A pattern's place, and the bits that it fixes.
#[derive(Clone, Copy)]
struct Row {
    file: u16,
    line: u32,
    mask: u64,
    bits: u64,
}

/// A pattern's file, its line, and its bits as they are written.
type Written<'a> = (u16, u32, &'a str);

/// A pattern by its number; a group in braces or in brackets that opens at a line; or the end of the innermost group.
#[derive(Clone, Copy)]
enum Mark {
    One(u32),
    Braces(u32),
    Brackets(u32),
    End,
}

/// A group that is open, and the entries before it.
#[derive(Drop)]
struct Open {
    mark: Mark,
    before: Vec<Entry>,
}

/// What a model is to be answered: a tree; an empty group that opens at this line; or a knot of the entries at these
/// positions.
#[derive(Clone, Copy)]
enum Answer<'a> {
    Tree,
    Empty(u32),
    Knot(&'a [(u16, u32)]),
}

fn row_of(written: Written) -> Row {
    let (file, line, text) = written;
    let mut mask = 0u64;
    let mut bits = 0u64;
    for c in text.as_bytes() {
        mask <<= 1;
        bits <<= 1;
        if *c == b'0' || *c == b'1' {
            mask |= 1;
        }
        if *c == b'1' {
            bits |= 1;
        }
    }
    Row {
        file,
        line,
        mask,
        bits,
    }
}

fn rows_of(alloc: Global, patterns: &[Written]) -> Result<Vec<Row>, AllocError> {
    let mut rows = Vec::new(alloc);
    for written in patterns {
        rows.push(row_of(*written))?;
    }
    Ok(rows)
}

fn patterns_in(alloc: Global, rows: &[Row]) -> Result<PatternList, AllocError> {
    let mut patterns = Vec::new(alloc);
    for row in rows {
        patterns.push(Pattern {
            name: Name::from_bytes(b"a").unwrap(),
            file: row.file,
            line: row.line,
            format: 0,
            bits: 16,
            fixed_bits: row.bits,
            fixed_mask: row.mask,
            ignored: 0,
            values: ValueList::of(Vec::new(alloc)),
        })?;
    }
    Ok(PatternList::of(patterns))
}

/// The entries that these marks spell.
fn entries_of(alloc: Global, marks: &[Mark]) -> Result<Vec<Entry>, AllocError> {
    let mut open = Vec::new(alloc);
    let mut entries = Vec::new(alloc);
    for mark in marks {
        read_mark(alloc, &mut open, &mut entries, *mark)?;
    }
    Ok(entries)
}

fn read_mark(
    alloc: Global,
    open: &mut Vec<Open>,
    entries: &mut Vec<Entry>,
    mark: Mark,
) -> Result<(), AllocError> {
    match mark {
        Mark::One(number) => entries.push(Entry::One(number))?,
        Mark::Braces(_) | Mark::Brackets(_) => {
            let before = replace(entries, Vec::new(alloc));
            open.push(Open { mark, before })?;
        }
        Mark::End => close(open, entries)?,
    }
    Ok(())
}

/// Closes the innermost group.
fn close(open: &mut Vec<Open>, entries: &mut Vec<Entry>) -> Result<(), AllocError> {
    let Some(last) = open.pop() else {
        return Ok(());
    };
    let inner = replace(entries, last.before);
    match last.mark {
        Mark::Braces(line) => entries.push(Entry::Overlap(group(line, inner)))?,
        Mark::Brackets(line) => entries.push(Entry::Exclusive(group(line, inner)))?,
        Mark::One(_) | Mark::End => {}
    }
    Ok(())
}

fn group(line: u32, entries: Vec<Entry>) -> Group {
    Group {
        file: 0,
        line,
        entries,
    }
}

fn model_of(alloc: Global, rows: &[Row], entries: Vec<Entry>) -> Result<Model, AllocError> {
    Ok(Model {
        width: Width::W16,
        variable: false,
        sets: SetList::of(Vec::new(alloc)),
        formats: FormatList::of(Vec::new(alloc)),
        patterns: patterns_in(alloc, rows)?,
        entries: EntryList::of(entries),
    })
}

/// Whether these are the positions, each by its file and line.
fn are_positions(positions: &PositionList, expected: &[(u16, u32)]) -> bool {
    let mut found = positions
        .items()
        .iter()
        .map(|position| (position.file, position.line));
    for one in expected {
        if found.next() != Some(*one) {
            return false;
        }
    }
    found.next().is_none()
}

fn is_empty_at(answer: &Result<Tree, TreeFault>, line: u32) -> bool {
    match answer {
        Err(TreeFault::Empty(position)) => position.file == 0 && position.line == line,
        _ => false,
    }
}

fn is_knot_at(answer: &Result<Tree, TreeFault>, expected: &[(u16, u32)]) -> bool {
    match answer {
        Err(TreeFault::Knot(positions)) => are_positions(positions, expected),
        _ => false,
    }
}

/// Whether a model of these patterns and entries is answered so.
fn is_answered(
    alloc: Global,
    rows: &[Row],
    entries: Vec<Entry>,
    expected: Answer,
) -> Result<bool, AllocError> {
    let model = model_of(alloc, rows, entries)?;
    let result = Tree::build(alloc, &model);
    Ok(match expected {
        Answer::Tree => result.is_ok(),
        Answer::Empty(line) => is_empty_at(&result, line),
        Answer::Knot(positions) => is_knot_at(&result, positions),
    })
}

/// Checks what a model of these patterns and entries is answered.
fn check(
    rt: &(impl Abort + AllocGlobal),
    patterns: &[Written],
    marks: &[Mark],
    answer: Answer,
    shown: &str,
) -> Result<(), Fail> {
    let alloc = rt.alloc();
    let rows = rows_of(alloc, patterns)?;
    let entries = entries_of(alloc, marks)?;
    assert!(rt;
        is_answered(alloc, rows.as_slice(), entries, answer)?,
        "{shown}"
    );
    Ok(())
}

const FIRST_THREE: &[Mark] = &[Mark::One(0), Mark::One(1), Mark::One(2)];

#[test]
fn three_of_which_no_two_meet_are_a_knot(rt: HostRuntime) -> Result<(), Fail> {
    let patterns: &[Written] = &[
        (0, 3, "0-1-------------"),
        (0, 5, "11--------------"),
        (0, 8, "-00-------------"),
    ];
    let knot = Answer::Knot(&[(0, 3), (0, 5), (0, 8)]);
    check(&rt, patterns, FIRST_THREE, knot, "three patterns")
}

#[test]
fn bits_in_common_after_a_split(rt: HostRuntime) -> Result<(), Fail> {
    let patterns: &[Written] = &[
        (0, 1, "1---------------"),
        (0, 2, "00--------------"),
        (0, 3, "01--------------"),
    ];
    check(&rt, patterns, FIRST_THREE, Answer::Tree, "three patterns")
}

#[test]
fn the_knot_of_the_least_position(rt: HostRuntime) -> Result<(), Fail> {
    let patterns: &[Written] = &[
        (0, 1, "111-------------"),
        (0, 2, "011-------------"),
        (0, 3, "001-------------"),
        (1, 1, "01--------------"),
        (1, 2, "00--------------"),
    ];
    let marks: &[Mark] = &[
        Mark::One(0),
        Mark::One(1),
        Mark::One(2),
        Mark::One(3),
        Mark::One(4),
    ];
    let knot = Answer::Knot(&[(0, 2), (1, 1)]);
    check(&rt, patterns, marks, knot, "two files")
}

#[test]
fn a_pattern_that_fixes_nothing(rt: HostRuntime) -> Result<(), Fail> {
    let both: &[Written] = &[(0, 1, "----------------"), (0, 2, "0000000000000101")];
    let alone: &[Written] = &[(0, 1, "----------------")];
    let two: &[Mark] = &[Mark::One(0), Mark::One(1)];
    let knot = Answer::Knot(&[(0, 1), (0, 2)]);
    check(&rt, both, two, knot, "beside another")?;
    check(&rt, alone, &[Mark::One(0)], Answer::Tree, "alone")?;
    check(&rt, &[], &[], Answer::Tree, "no pattern")
}

#[test]
fn entries_in_braces_may_overlap_and_those_in_brackets_not(rt: HostRuntime) -> Result<(), Fail> {
    let same: &[Written] = &[(0, 2, "0000000000000000"), (0, 3, "0000000000000000")];
    let in_braces: &[Mark] = &[Mark::Braces(1), Mark::One(0), Mark::One(1), Mark::End];
    let in_brackets: &[Mark] = &[Mark::Brackets(1), Mark::One(0), Mark::One(1), Mark::End];
    let knot = Answer::Knot(&[(0, 2), (0, 3)]);
    check(&rt, same, in_braces, Answer::Tree, "braces")?;
    check(&rt, same, in_brackets, knot, "brackets")
}

#[test]
fn brackets_in_braces_are_looked_into(rt: HostRuntime) -> Result<(), Fail> {
    let apart: &[Written] = &[
        (0, 3, "0000000000000000"),
        (0, 4, "0000000000000001"),
        (0, 6, "00000000--------"),
    ];
    let alike: &[Written] = &[
        (0, 3, "0000000000000000"),
        (0, 4, "000000000000000-"),
        (0, 6, "00000000--------"),
    ];
    let marks: &[Mark] = &[
        Mark::Braces(1),
        Mark::Brackets(2),
        Mark::One(0),
        Mark::One(1),
        Mark::End,
        Mark::One(2),
        Mark::End,
    ];
    let knot = Answer::Knot(&[(0, 3), (0, 4)]);
    check(&rt, apart, marks, Answer::Tree, "apart")?;
    check(&rt, alike, marks, knot, "alike")
}

#[test]
fn a_group_and_a_pattern(rt: HostRuntime) -> Result<(), Fail> {
    let patterns: &[Written] = &[
        (0, 2, "00000000--------"),
        (0, 3, "0000000000000001"),
        (0, 5, "0000000000000010"),
    ];
    let marks: &[Mark] = &[
        Mark::Braces(1),
        Mark::One(0),
        Mark::One(1),
        Mark::End,
        Mark::One(2),
    ];
    let knot = Answer::Knot(&[(0, 1), (0, 5)]);
    check(&rt, patterns, marks, knot, "braces")
}

#[test]
fn two_groups_that_fix_no_bit_in_common(rt: HostRuntime) -> Result<(), Fail> {
    let patterns: &[Written] = &[
        (0, 2, "00--------------"),
        (0, 3, "11--------------"),
        (0, 6, "01--------------"),
        (0, 7, "10--------------"),
    ];
    let crossed: &[Mark] = &[
        Mark::Brackets(1),
        Mark::One(0),
        Mark::One(1),
        Mark::End,
        Mark::Brackets(5),
        Mark::One(2),
        Mark::One(3),
        Mark::End,
    ];
    let halves: &[Mark] = &[
        Mark::Brackets(1),
        Mark::One(0),
        Mark::One(2),
        Mark::End,
        Mark::Brackets(5),
        Mark::One(1),
        Mark::One(3),
        Mark::End,
    ];
    let knot = Answer::Knot(&[(0, 1), (0, 5)]);
    check(&rt, patterns, crossed, knot, "no bit")?;
    check(&rt, patterns, halves, Answer::Tree, "one bit")
}

#[test]
fn an_empty_group_comes_before_a_knot(rt: HostRuntime) -> Result<(), Fail> {
    let same: &[Written] = &[(0, 1, "0000000000000000"), (0, 2, "0000000000000000")];
    let alone: &[Mark] = &[Mark::Braces(1), Mark::End];
    let marks: &[Mark] = &[
        Mark::One(0),
        Mark::One(1),
        Mark::Braces(3),
        Mark::Brackets(4),
        Mark::End,
        Mark::End,
        Mark::Brackets(7),
        Mark::End,
    ];
    check(&rt, &[], alone, Answer::Empty(1), "alone")?;
    check(&rt, same, marks, Answer::Empty(4), "behind a knot")
}

/// Words with one bit more for each depth of groups, and the groups around them.
fn nested(alloc: Global, rows: &mut Vec<Row>) -> Result<Vec<Entry>, AllocError> {
    let mut inner = Vec::new(alloc);
    for word in 0..8000u32 {
        rows.push(word_row(word as u64))?;
        inner.push(Entry::One(word))?;
    }
    for depth in 0..16u32 {
        let mut outer = Vec::new(alloc);
        outer.push(Entry::Exclusive(group(depth, inner)))?;
        for word in 0..12u32 {
            rows.push(word_row((1u64 << (20 + depth)) | word as u64))?;
            outer.push(Entry::One(8000 + 12 * depth + word))?;
        }
        inner = outer;
    }
    Ok(inner)
}

fn word_row(word: u64) -> Row {
    Row {
        file: 0,
        line: 1,
        mask: u64::MAX,
        bits: word,
    }
}

#[test]
fn many_words_in_nested_groups(rt: HostRuntime) -> Result<(), Fail> {
    let mut rows = Vec::new(rt.alloc());
    let entries = nested(rt.alloc(), &mut rows)?;
    assert!(rt; rows.len() == MOST_PATTERNS);
    assert!(rt; is_answered(rt.alloc(), rows.as_slice(), entries, Answer::Tree)?);
    Ok(())
}

fn says(alloc: Global, fault: &TreeFault, text: &str) -> Result<bool, Fail> {
    let said = format!(in alloc; "{fault}")?;
    Ok(said.as_str() == text)
}

#[test]
fn faults_say_what_is_wrong(rt: HostRuntime) -> Result<(), Fail> {
    let alloc = rt.alloc();
    let position = Position { file: 0, line: 1 };
    let knot = TreeFault::Knot(PositionList::of(Vec::new(alloc)));
    assert!(rt; says(alloc, &TreeFault::Empty(position), "a group is empty")?);
    assert!(rt; says(alloc, &TreeFault::Widths(position), "widths differ")?);
    assert!(rt; says(alloc, &knot, "patterns overlap")?);
    assert!(rt; says(alloc, &TreeFault::NoMemory, "out of memory")?);
    Ok(())
}
