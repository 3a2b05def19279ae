//! What the elements of lines give, and the rules that they break; tables of formats and patterns; bits of lines.

ghost use Rattle.std.specs.Prelude.{◌≡◌, IfOk, length, []};
ghost use Rattle.dt_lines.specs.Spans.{AreSpans};
ghost use Rattle.dt_scope.specs.Scope.{nothing_defined};

use dt_fields::{DefFault, Detail, Rule, Segment};
use dt_lines::scan::logical;
use dt_lines::{LARGEST_FILE, Logical, Span};
use dt_model::{FieldValue, Format, Pattern, ValueList};
use dt_scope::gather::{Gathered, gather, has_value};
use dt_scope::{Bits, Digits, Formats, Patterns, Scope, all_bits};
use dt_values::{MemberList, Name, SetDef, Width};
use std::alloc::Global;
use std::process::Abort;
use std::test::Fail;

fn name(bytes: &[u8]) -> Result<Name, Fail> {
    let name = Name::from_bytes(bytes).ok_or("a name")?;
    Ok(name)
}

// A format of this name, which gives nothing.
fn format(alloc: Global, name: Name, fixed_mask: u64, ignored: u64) -> Format
    ensures name { result.name ≡ name }
    ensures values { result.values ≡ [] }
{
    Format {
        name,
        set: 0,
        bits: 16,
        fixed_bits: fixed_mask,
        fixed_mask,
        ignored,
        values: ValueList::of(Vec::new(alloc)),
    }
}

fn pattern(alloc: Global, name: Name, line: u32) -> Pattern {
    Pattern {
        name,
        file: 0,
        line,
        format: 0,
        bits: 16,
        fixed_bits: 0,
        fixed_mask: 0,
        ignored: 0,
        values: ValueList::of(Vec::new(alloc)),
    }
}

// Defines a set and a format, both without arguments.
fn define(alloc: Global, scope: &mut Scope) -> Result<(), Fail>
    requires { scope.old ≡ nothing_defined }
{
    let (s, f) = (name(b"s")?, name(b"f")?);
    scope.push_set(SetDef {
        name: s,
        members: MemberList::of(Vec::new(alloc)),
        outside: false,
    })?;
    scope.push_format(format(alloc, f, 0, 0))?;
    Ok(())
}

// The first line of a text.
fn first_line(alloc: Global, source: &[u8]) -> Result<Logical, Fail>
    ensures { IfOk result (λ line. AreSpans (length source.now) line.tokens) }
{
    if source.len() > LARGEST_FILE {
        return Err("too long".into());
    }
    let mut lines = match logical(alloc, 0, source) {
        Ok(lines) => lines,
        Err(_) => return Err("no lines".into()),
    };
    if lines.is_empty() {
        return Err("no line".into());
    }
    Ok(lines.swap_remove(0))
}

// What the tokens of a line give, over a scope that has a set and a format then.
fn gathered_in(
    alloc: Global,
    in_format: bool,
    scope: &mut Scope,
    source: &[u8],
    line: &Logical,
) -> Result<Result<Gathered, DefFault>, Fail>
    requires empty { scope.old ≡ nothing_defined }
    requires spans { AreSpans (length source.now) line.now.tokens }
{
    define(alloc, scope)?;
    Ok(gather(
        alloc,
        in_format,
        Width::W16,
        scope,
        source,
        line.tokens.items(),
    ))
}

// What the tokens of a line give a format, or a pattern, of words of 16 bits.
fn gathered(
    alloc: Global,
    in_format: bool,
    source: &[u8],
) -> Result<Result<Gathered, DefFault>, Fail> {
    let line = first_line(alloc, source)?;
    let mut scope = Scope::new(alloc);
    gathered_in(alloc, in_format, &mut scope, source, &line)
}

// What an argument gets: one segment of the word, by its place, its length and whether it has a sign; or a constant.
#[derive(Clone, Copy)]
enum Want {
    Bits(u8, u8, bool),
    Constant(i64),
}

fn is_segment(segments: &[Segment], pos: u8, length: u8, signed: bool) -> bool {
    match segments {
        [one] => {
            *one == Segment::Bits {
                pos,
                length,
                signed,
            }
        }
        _ => false,
    }
}

fn is_value(value: &FieldValue, want: Want) -> bool {
    match (value, want) {
        (FieldValue::Field(field), Want::Bits(pos, length, signed)) => {
            is_segment(field.segments.items(), pos, length, signed)
        }
        (FieldValue::Constant(number), Want::Constant(wanted)) => *number == wanted,
        _ => false,
    }
}

// Whether the argument at a place has this name and gets this.
fn is_given(values: &[(Name, FieldValue)], place: usize, name: &str, want: Want) -> bool {
    match values.get(place) {
        None => false,
        Some((argument, value)) => argument.as_str() == name && is_value(value, want),
    }
}

fn is_name(found: Option<Name>, name: &str) -> bool {
    match found {
        None => false,
        Some(found) => found.as_str() == name,
    }
}

#[test]
fn elements_give_a_line_what_they_say(rt: HostRuntime) -> Result<(), Fail> {
    let (j, s) = (name(b"j")?, name(b"s")?);
    let Ok(given) = gathered(rt.alloc(), false, b"&s 01-. a:3 @f k=-5 b:s9 j=+7")? else {
        return Err("refused".into());
    };
    let values = given.values.items();
    let table: &[(&str, Want)] = &[
        ("a", Want::Bits(9, 3, false)),
        ("k", Want::Constant(-5)),
        ("b", Want::Bits(0, 9, true)),
        ("j", Want::Constant(7)),
    ];
    assert!(rt; is_name(given.set, "s"));
    assert!(rt; is_name(given.format, "f"));
    assert!(rt; given.digits.items() == b"01-.............".as_slice());
    assert!(rt; values.len() == table.len());
    for (place, (argument, want)) in table.iter().enumerate() {
        assert!(rt; is_given(values, place, argument, *want), "{argument}");
    }
    assert!(rt; has_value(values, &j));
    assert!(rt; !has_value(values, &s));
    Ok(())
}

// Whether a line is of a format; the line; the rule that it breaks first; and the token that does.
type Row<'a> = (bool, &'a str, Rule, (u32, u32));

fn is_refused(
    alloc: Global,
    in_format: bool,
    source: &[u8],
    rule: Rule,
    token: Span,
) -> Result<bool, Fail> {
    match gathered(alloc, in_format, source)? {
        Ok(_given) => Ok(false),
        Err(DefFault::NoMemory) => Ok(false),
        Err(DefFault::Broken(broken, detail)) => Ok(
            broken == rule && detail == Detail::Text(token),
        ),
    }
}

fn check_refusals(rt: &(impl Abort + AllocGlobal), table: &[Row]) -> Result<(), Fail> {
    for (in_format, source, rule, (start, end)) in table {
        let token = Span {
            start: *start,
            end: *end,
        };
        let bytes = source.as_bytes();
        assert!(rt;
            is_refused(rt.alloc(), *in_format, bytes, *rule, token)?,
            "{source}"
        );
    }
    Ok(())
}

#[test]
fn elements_are_refused_by_their_first_rule(rt: HostRuntime) -> Result<(), Fail> {
    let table: &[Row] = &[
        (false, "&s &s", Rule::G1, (3, 5)),
        (false, "&t", Rule::G2, (0, 2)),
        (true, "@g", Rule::G10, (0, 2)),
        (false, "@f @f", Rule::G3, (3, 5)),
        (false, "@g", Rule::G4, (0, 2)),
        (false, "a=%g", Rule::G6, (0, 4)),
        (false, "if=1", Rule::G7, (0, 4)),
        (true, "a=1 b=-2147483649 b=1", Rule::G22, (4, 17)),
        (true, "a:9 a:8", Rule::G8, (4, 7)),
    ];
    check_refusals(&rt, table)
}

// Puts a format of a new name last.
fn add(alloc: Global, formats: &mut Formats, name: Name) -> Result<(), Fail> {
    if formats.has(&name) {
        return Err("no new name".into());
    }
    formats.add(format(alloc, name, 0, 0))?;
    Ok(())
}

fn add_both(alloc: Global, formats: &mut Formats, one: Name, other: Name) -> Result<(), Fail> {
    add(alloc, formats, one)?;
    add(alloc, formats, other)
}

fn is_format(format: Option<&Format>, name: Name) -> bool {
    match format {
        None => false,
        Some(format) => format.name == name,
    }
}

fn are_formats(formats: &[Format], first: Name, second: Name) -> bool {
    match formats {
        [one, other] => one.name == first && other.name == second,
        _ => false,
    }
}

#[test]
fn formats_are_found_by_name_and_by_place(rt: HostRuntime) -> Result<(), Fail> {
    let (f, g, h) = (name(b"f")?, name(b"g")?, name(b"h")?);
    let mut formats = Formats::new(rt.alloc());
    assert!(rt; formats.count() == 0 && !formats.has(&f));
    add_both(rt.alloc(), &mut formats, f, g)?;
    assert!(rt; formats.count() == 2);
    assert!(rt; formats.place(g) == Some(1));
    assert!(rt; formats.place(h).is_none());
    assert!(rt; is_format(formats.at(0), f));
    assert!(rt; is_format(formats.get(&g), g));
    assert!(rt; formats.at(2).is_none() && formats.get(&h).is_none());
    let items = formats.into_items(rt.alloc())?;
    assert!(rt; are_formats(items.as_slice(), f, g));
    Ok(())
}

// Puts patterns of these names last, one a line.
fn push_all(alloc: Global, patterns: &mut Patterns, names: &[(Name, u32)]) -> Result<(), Fail> {
    for (name, line) in names {
        patterns.push(pattern(alloc, *name, *line))?;
    }
    Ok(())
}

#[test]
fn patterns_and_their_names_stand_in_order(rt: HostRuntime) -> Result<(), Fail> {
    let (p, q, r) = (name(b"p")?, name(b"q")?, name(b"r")?);
    let mut patterns = Patterns::new(rt.alloc());
    let rows = [(p, 1), (q, 2), (p, 3)];
    push_all(rt.alloc(), &mut patterns, rows.as_slice())?;
    assert!(rt; patterns.names() == [p, q, p].as_slice());
    assert!(rt; patterns.has_name(&q) && !patterns.has_name(&r));
    assert!(rt; patterns.items().len() == 3);
    Ok(())
}

#[test]
fn bits_of_a_line_are_joined_with_those_of_a_format(rt: HostRuntime) -> Result<(), Fail> {
    let f = name(b"f")?;
    let bits = Bits::of_word(Width::W16, b"0110-..........1");
    let expected = Bits {
        count: 16,
        fixed_bits: 0x6001,
        fixed_mask: 0xf001,
        ignored: 0x800,
    };
    assert!(rt; bits == expected);
    assert!(rt; Bits::of_word_or_none(Width::W16, b"0110-..........1") == expected);
    let joined = Bits {
        count: 16,
        fixed_bits: 0x6011,
        fixed_mask: 0xf011,
        ignored: 0xc08,
    };
    assert!(rt; bits.with_format(&format(rt.alloc(), f, 0x10, 0x408)) == joined);
    let none = Bits::of_word_or_none(Width::W64, b"");
    assert!(rt; (none.count, none.fixed_mask, none.ignored) == (0, 0, 0));
    assert!(rt; all_bits(Width::W64) == u64::MAX);
    Ok(())
}

#[test]
fn digits_of_a_field_are_dots(rt: HostRuntime) -> Result<(), Fail> {
    let mut digits = Digits::new(rt.alloc());
    digits.extend(b"01")?;
    digits.extend_field(3)?;
    assert!(rt; digits.items() == b"01...".as_slice());
    Ok(())
}
