//! Reads small files: the models of sound ones, and what is wrong with faulty ones.

ghost use Rattle.std.specs.Prelude.{◌≡◌, ◌+◌, ◌≤◌, length, vec_len, IfOk, OnOk};
ghost use Rattle.dt_model.specs.Options.{IsOptions};
ghost use Rattle.dt_forms.specs.Sources.{AreSources, IsSourceAt};

use dt_fields::{Detail, Rule};
use dt_forms::{Fault, ModelFault, Source, read_model};
use dt_lines::{LARGEST_FILE, Span};
use dt_model::{MOST_FILES, Model, Options};
use dt_values::Width;
use std::alloc::Global;
use std::process::Abort;
use std::test::Fail;

// The options of a decoder of words of this width.
fn options(width: Width) -> Options
    ensures { IsOptions result }
{
    Options {
        width,
        ..Options::default()
    }
}

// A file as the one at this place.
fn source(alloc: Global, file: u16, text: &[u8]) -> Result<Source, Fail>
    requires { length text.now ≤ LARGEST_FILE }
    ensures { IfOk result (IsSourceAt file) }
{
    let source = Source::read(alloc, file, Vec::from_slice(alloc, text)?)?;
    Ok(source)
}

/// The files of these texts, in order.
pub fn sources(alloc: Global, texts: &[&[u8]]) -> Result<Vec<Source>, Fail>
    requires { length texts.now ≤ MOST_FILES }
    ensures sources { IfOk result (λ files. AreSources files.items) }
    ensures few { IfOk result (λ files. vec_len files ≤ MOST_FILES) }
{
    let mut files = Vec::new(alloc);
    for text in texts {
        if text.len() > LARGEST_FILE {
            return Err("too long".into());
        }
        let file = source(alloc, files.len() as u16, text)?;
        push_source(&mut files, file)?;
    }
    Ok(files)
}

// Puts a file behind the others.
fn push_source(files: &mut Vec<Source>, file: Source) -> Result<(), Fail>
    requires sources { AreSources files.old.items }
    requires last { IsSourceAt (vec_len files.old) file }
    ensures sources { OnOk result (AreSources files.new.items) }
    ensures count { OnOk result (vec_len files.new ≡ vec_len files.old + 1) }
{
    files.push(file)?;
    Ok(())
}

// What is read of these texts.
fn read_all(alloc: Global, width: Width, texts: &[&[u8]]) -> Result<Result<Model, ModelFault>, Fail>
    requires { length texts.now ≤ MOST_FILES }
{
    let files = sources(alloc, texts)?;
    Ok(read_model(alloc, &options(width), files.as_slice()))
}

/// The model of these texts.
pub fn model_in(alloc: Global, width: Width, texts: &[&[u8]]) -> Result<Model, Fail> {
    if texts.len() > MOST_FILES {
        return Err("too many files".into());
    }
    match read_all(alloc, width, texts)? {
        Ok(model) => Ok(model),
        Err(_) => Err("no model".into()),
    }
}

// The fault of these texts.
fn fault_in(alloc: Global, width: Width, texts: &[&[u8]]) -> Result<Fault, Fail> {
    if texts.len() > MOST_FILES {
        return Err("too many files".into());
    }
    fault_of(&read_all(alloc, width, texts)?)
}

// The fault that was found.
fn fault_of(read: &Result<Model, ModelFault>) -> Result<Fault, Fail> {
    let Err(ModelFault::Broken(fault)) = read else {
        return Err("no fault".into());
    };
    Ok(*fault)
}

// The detail of a text.
fn text(start: u32, end: u32) -> Detail {
    Detail::Text(Span { start, end })
}

/// What a refusal shows.
#[derive(Clone, Copy)]
pub enum Want<'a> {
    Nothing,
    Text(u32, u32),
    Number(u64),
    Mask(u64),
    Named(&'a [u8]),
}

fn is_wanted(detail: &Detail, want: &Want) -> bool {
    match want {
        Want::Nothing => *detail == Detail::None,
        Want::Text(start, end) => *detail == text(*start, *end),
        Want::Number(number) => *detail == Detail::Number(*number),
        Want::Mask(mask) => *detail == Detail::Mask(*mask),
        Want::Named(bytes) => match detail {
            Detail::Named(name) => name.bytes() == *bytes,
            _ => false,
        },
    }
}

/// A file, and the line, the rule and the detail of its fault.
pub type Refusal<'a> = (&'a [u8], u32, Rule, Want<'a>);

/// The texts are refused at this file and line, by this rule, and show this.
pub fn check_fault(
    rt: &(impl Abort + AllocGlobal),
    width: Width,
    texts: &[&[u8]],
    place: (u16, u32),
    rule: Rule,
    want: &Want,
) -> Result<(), Fail> {
    let fault = fault_in(rt.alloc(), width, texts)?;
    assert!(rt;
        fault.file == place.0 && fault.line == place.1,
        "line {}",
        place.1
    );
    assert!(rt;
        fault.rule == rule && is_wanted(&fault.detail, want),
        "line {}",
        place.1
    );
    Ok(())
}

/// Each file is refused by its line and its rule.
pub fn check_refusals(
    rt: &(impl Abort + AllocGlobal),
    width: Width,
    table: &[Refusal],
) -> Result<(), Fail> {
    for (bytes, line, rule, want) in table {
        check_fault(rt, width, &[*bytes], (0, *line), *rule, want)?;
    }
    Ok(())
}

// How many sets and formats there are, and the numbers of the last pattern's format and set.
fn choice_of(alloc: Global, width: Width, file: &[u8]) -> Result<(usize, usize, u32, u32), Fail> {
    let model = model_in(alloc, width, &[file])?;
    choice_in(&model)
}

// The same of a model.
fn choice_in(model: &Model) -> Result<(usize, usize, u32, u32), Fail> {
    let pattern = model.patterns.items().last().ok_or("a pattern")?;
    let format = model
        .formats
        .items()
        .get(pattern.format as usize)
        .ok_or("a format")?;
    Ok((
        model.sets.items().len(),
        model.formats.items().len(),
        pattern.format,
        format.set,
    ))
}

/// Each file has so many sets and formats, and its last pattern this format with this set.
pub fn check_choices(
    rt: &(impl Abort + AllocGlobal),
    width: Width,
    table: &[(&[u8], usize, usize, u32, u32)],
) -> Result<(), Fail> {
    for &(file, sets, formats, format, set) in table {
        let choice = choice_of(rt.alloc(), width, file)?;
        assert!(rt;
            choice == (sets, formats, format, set),
            "{:?}",
            std::str::from_utf8(file)
        );
    }
    Ok(())
}
