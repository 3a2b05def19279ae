//! Groups: their rules, and the entries of models (docs/LANGUAGE.md, "Groups").

use crate::reading::{Refusal, Want, check_fault, check_refusals, model_in};
use dt_fields::Rule;
use dt_model::{Entry, Group, Model};
use dt_values::Width;
use std::process::Abort;
use std::test::Fail;

#[test]
fn lines_that_open_and_close(rt: HostRuntime) -> Result<(), Fail> {
    let table: &[Refusal] = &[
        (b"} x", 1, Rule::L2, Want::Text(2, 3)),
        (b"]  ] x", 1, Rule::L2, Want::Text(3, 4)),
        (b"}", 1, Rule::L3, Want::Text(0, 1)),
        (b" }", 1, Rule::L3, Want::Text(1, 2)),
        (b"]", 1, Rule::L4, Want::Text(0, 1)),
        (b" ]", 1, Rule::L4, Want::Text(1, 2)),
        (b"[\n}", 2, Rule::L3, Want::Text(2, 3)),
        (b"{\n]", 2, Rule::L3, Want::Text(2, 3)),
        (b"{\n  [\n  }", 3, Rule::L3, Want::Text(8, 9)),
        (b"{\n] ]", 2, Rule::L2, Want::Text(4, 5)),
        (b"{ x", 1, Rule::L5, Want::Text(2, 3)),
        (b"[ [", 1, Rule::L5, Want::Text(2, 3)),
        (b" { x", 1, Rule::L1, Want::Number(1)),
        (b"{\n  } }", 2, Rule::L2, Want::Text(6, 7)),
        (b"{\n  *", 2, Rule::L7, Want::Text(4, 5)),
        (b"{}", 1, Rule::L7, Want::Text(0, 2)),
        (b"{\n  p 0", 2, Rule::G9, Want::Number(1)),
        (b"{\n}\n}", 3, Rule::L3, Want::Text(4, 5)),
    ];
    check_refusals(&rt, Width::W16, table)
}

#[test]
fn indentation_is_two_for_each_group(rt: HostRuntime) -> Result<(), Fail> {
    let table: &[Refusal] = &[
        (b"{\n p ----------------\n}", 2, Rule::L1, Want::Number(1)),
        (b"{\np ----------------\n}", 2, Rule::L1, Want::Number(0)),
        (
            b"{\n  p ----------------\n  }",
            3,
            Rule::L1,
            Want::Number(2),
        ),
        (
            b"{\n  [\n    p ----------------\n]",
            4,
            Rule::L1,
            Want::Number(0),
        ),
        (b"{\n  {\n  p", 3, Rule::L1, Want::Number(2)),
        (b"{\n#\n", 2, Rule::L1, Want::Number(0)),
        (b"{\n  &s a\n  %f 0:4\n @f", 4, Rule::L1, Want::Number(1)),
        (b"[\n   *", 2, Rule::L1, Want::Number(3)),
        (b"[\n\t[", 2, Rule::L1, Want::Number(8)),
        (
            b"{\n  p ----------------\n}\n  p",
            4,
            Rule::L1,
            Want::Number(2),
        ),
    ];
    check_refusals(&rt, Width::W16, table)
}

#[test]
fn groups_that_a_file_leaves_open(rt: HostRuntime) -> Result<(), Fail> {
    let table: &[Refusal] = &[
        (b"{", 1, Rule::L6, Want::Text(0, 1)),
        (b"{\n  [ # c\n\n \n", 4, Rule::L6, Want::Text(4, 5)),
        (b"[\n  {\n  }\n", 3, Rule::L6, Want::Text(0, 1)),
        (b"#\n[ \\\n", 2, Rule::L6, Want::Text(2, 3)),
        (b"{\n*", 2, Rule::L1, Want::Number(0)),
        (b"{\n  *", 2, Rule::L7, Want::Text(4, 5)),
    ];
    check_refusals(&rt, Width::W16, table)
}

#[test]
fn each_file_begins_with_no_group(rt: HostRuntime) -> Result<(), Fail> {
    let open = b"{\n  p ----------------\n";
    check_fault(
        &rt,
        Width::W16,
        &[open, b"}"],
        (0, 2),
        Rule::L6,
        &Want::Text(0, 1),
    )?;
    let whole = b"{\n  p ----------------\n}\n";
    check_fault(
        &rt,
        Width::W16,
        &[whole, b"}"],
        (1, 1),
        Rule::L3,
        &Want::Text(0, 1),
    )?;
    check_fault(
        &rt,
        Width::W16,
        &[whole, b"", open],
        (2, 2),
        Rule::L6,
        &Want::Text(0, 1),
    )?;
    Ok(())
}

const SIXTEEN: &[u8] = b"{
  [
    {
      [
        {
          [
            {
              [
                {
                  [
                    {
                      [
                        {
                          [
                            {
                              [
";

const SEVENTEEN: &[u8] = b"{
  [
    {
      [
        {
          [
            {
              [
                {
                  [
                    {
                      [
                        {
                          [
                            {
                              [
                                {
";

#[test]
fn sixteen_groups_nest(rt: HostRuntime) -> Result<(), Fail> {
    let table: &[Refusal] = &[
        (SIXTEEN, 16, Rule::L6, Want::Text(270, 271)),
        (SEVENTEEN, 17, Rule::L8, Want::Text(304, 305)),
    ];
    check_refusals(&rt, Width::W16, table)
}

const NESTED: &[u8] = b"{
  a 0000000000000000
  [
    # b comes first
    b 0000000000000001
    c 000000000000001-
  ]
  {
  }
  d ----------------
}
e 1---------------
";

// The lines and the numbers of entries of a group.
fn is_group(group: &Group, line: u32, entries: usize) -> bool {
    group.file == 0 && group.line == line && group.entries.len() == entries
}

fn check_has_entries(rt: &impl Abort, model: &Model) -> Result<(), Fail> {
    assert!(rt; model.patterns.items().len() == 5);
    let [Entry::Overlap(outer), Entry::One(4)] = model.entries.items() else {
        return Err("a group and a pattern".into());
    };
    assert!(rt; is_group(outer, 1, 4));
    let [
        Entry::One(0),
        Entry::Exclusive(inner),
        Entry::Overlap(none),
        Entry::One(3),
    ] = outer.entries.as_slice()
    else {
        return Err("two patterns and two groups".into());
    };
    assert!(rt; is_group(inner, 3, 2) && is_group(none, 8, 0));
    assert!(rt; matches!(inner.entries.as_slice(), [Entry::One(1), Entry::One(2)]));
    Ok(())
}

#[test]
fn entries_stand_as_their_lines_do(rt: HostRuntime) -> Result<(), Fail> {
    let model = model_in(rt.alloc(), Width::W16, &[NESTED])?;
    check_has_entries(&rt, &model)
}

#[test]
fn a_tab_stands_for_eight_columns(rt: HostRuntime) -> Result<(), Fail> {
    let file = b"{\n  {\n    [\n      {\n\tp ----------------\n      }\n    ]\n  }\n}";
    let model = model_in(rt.alloc(), Width::W16, &[file])?;
    assert!(rt; model.patterns.items().len() == 1);
    Ok(())
}
