//! Reads lines of fields and sets: what they define, and the rules that they break. The small types keep their items,
//! and rules have their codes and texts.

ghost use Rattle.std.specs.Prelude.{IfOk, IsTrue, length};
ghost use Rattle.dt_fields.specs.Heads.{begins, is_marked};
ghost use Rattle.dt_fields.specs.View.{texts_at};
ghost use Rattle.dt_lines.specs.Spans.{AreSpans};

use dt_fields::{
    DefFault, Detail, FieldDef, Fields, Rule, Segment, Segments, Sets, args_line, field_line,
};
use dt_lines::scan::logical;
use dt_lines::{LARGEST_FILE, Logical, Span};
use dt_values::{CType, Member, MemberList, Name, SetDef, Width};
use smallvec::SmallVec;
use std::alloc::{AllocError, Global};
use std::process::Abort;
use std::test::Fail;

fn name(bytes: &[u8]) -> Result<Name, Fail> {
    let name = Name::from_bytes(bytes).ok_or("a name")?;
    Ok(name)
}

fn text(start: u32, end: u32) -> Detail {
    Detail::Text(Span { start, end })
}

// Whether the token is a mark and a name.
fn is_marked(mark: u8, token: &[u8]) -> bool
    ensures { IsTrue result → IsTrue (is_marked mark token.now) }
{
    match token.split_first() {
        None => false,
        Some((byte, rest)) => *byte == mark && Name::from_bytes(rest).is_some(),
    }
}

// Whether a line begins with a mark and a name.
fn begins(mark: u8, source: &[u8], line: &Logical) -> bool
    requires { AreSpans (length source.now) line.now.tokens }
    ensures { IsTrue result → IsTrue (begins mark (texts_at source.now line.now.tokens)) }
{
    match line.tokens.items().split_first() {
        None => false,
        Some((first, _)) => is_marked(mark, first.text(source)),
    }
}

// The first line of a text, which begins with a mark and a name.
fn first_line(alloc: Global, mark: u8, source: &[u8]) -> Result<Logical, Fail>
    ensures spans { IfOk result (λ line. AreSpans (length source.now) line.tokens) }
    ensures begins { IfOk result (λ line. IsTrue (begins mark (texts_at source.now line.tokens))) }
{
    if source.len() > LARGEST_FILE {
        return Err("too long".into());
    }
    let mut lines = match logical(alloc, 0, source) {
        Ok(lines) => lines,
        Err(_) => return Err("no lines".into()),
    };
    if lines.is_empty() {
        return Err("no line".into());
    }
    let line = lines.swap_remove(0);
    if !begins(mark, source, &line) {
        return Err("another line".into());
    }
    Ok(line)
}

// What the line of a text adds to fields.
fn read_field(
    alloc: Global,
    fields: &mut Fields,
    source: &[u8],
) -> Result<Result<(), DefFault>, Fail> {
    let line = first_line(alloc, b'%', source)?;
    Ok(field_line(alloc, Width::W32, fields, source, &line))
}

// Puts the field of a text last.
fn add_field(alloc: Global, fields: &mut Fields, source: &[u8]) -> Result<(), Fail> {
    match read_field(alloc, fields, source)? {
        Ok(()) => Ok(()),
        Err(DefFault::Broken(_, Detail::None)) => Err("no value".into()),
        Err(_) => Err("refused".into()),
    }
}

// What the line of a text adds to sets, where one pattern came before it.
fn read_set(
    alloc: Global,
    sets: &mut Sets,
    pattern: Name,
    source: &[u8],
) -> Result<Result<(), DefFault>, Fail> {
    let line = first_line(alloc, b'&', source)?;
    Ok(args_line(alloc, sets, [pattern].as_slice(), source, &line))
}

// Puts the set of a text last.
fn add_set(alloc: Global, sets: &mut Sets, pattern: Name, source: &[u8]) -> Result<(), Fail> {
    match read_set(alloc, sets, pattern, source)? {
        Ok(()) => Ok(()),
        Err(DefFault::Broken(_, Detail::None)) => Err("no detail".into()),
        Err(_) => Err("refused".into()),
    }
}

// What a refusal says beside its rule.
#[derive(Clone, Copy)]
enum Want<'a> {
    Nothing,
    Text(u32, u32),
    Number(u64),
    Named(&'a str),
}

fn is_wanted(detail: &Detail, want: &Want) -> bool {
    match want {
        Want::Nothing => *detail == Detail::None,
        Want::Text(start, end) => *detail == text(*start, *end),
        Want::Number(number) => *detail == Detail::Number(*number),
        Want::Named(name) => match detail {
            Detail::Named(found) => found.bytes() == name.as_bytes(),
            _ => false,
        },
    }
}

// A line, the rule that it breaks first, and the detail.
type Row<'a> = (&'a str, Rule, Want<'a>);

// Whether the line is refused so, where a field `g` is there.
fn is_field_refused(
    alloc: Global,
    fields: &mut Fields,
    source: &[u8],
    rule: Rule,
    want: &Want,
) -> Result<bool, Fail> {
    add_field(alloc, fields, b"%g 0:4")?;
    match read_field(alloc, fields, source)? {
        Err(DefFault::Broken(broken, detail)) => Ok(broken == rule && is_wanted(&detail, want)),
        _ => Ok(false),
    }
}

// Whether the line is refused so, and leaves no field.
fn refuses_field(alloc: Global, source: &[u8], rule: Rule, want: &Want) -> Result<bool, Fail> {
    let held = name(b"f")?;
    let mut fields = Fields::new(alloc);
    let is_refused = is_field_refused(alloc, &mut fields, source, rule, want)?;
    Ok(is_refused && fields.get(held).is_none())
}

// Whether the line is refused so, where a set `r` and a pattern `p` are there.
fn is_set_refused(
    alloc: Global,
    sets: &mut Sets,
    source: &[u8],
    rule: Rule,
    want: &Want,
) -> Result<bool, Fail> {
    let pattern = name(b"p")?;
    add_set(alloc, sets, pattern, b"&r !extern")?;
    match read_set(alloc, sets, pattern, source)? {
        Err(DefFault::Broken(broken, detail)) => Ok(broken == rule && is_wanted(&detail, want)),
        _ => Ok(false),
    }
}

// Whether the line is refused so, and leaves no set.
fn refuses_set(alloc: Global, source: &[u8], rule: Rule, want: &Want) -> Result<bool, Fail> {
    let mut sets = Sets::new(alloc);
    let is_refused = is_set_refused(alloc, &mut sets, source, rule, want)?;
    Ok(is_refused && sets.count() == 1)
}

fn check_fields(rt: &(impl Abort + AllocGlobal), table: &[Row]) -> Result<(), Fail> {
    for (source, rule, want) in table {
        assert!(rt;
            refuses_field(rt.alloc(), source.as_bytes(), *rule, want)?,
            "{source}"
        );
    }
    Ok(())
}

fn check_sets(rt: &(impl Abort + AllocGlobal), table: &[Row]) -> Result<(), Fail> {
    for (source, rule, want) in table {
        assert!(rt;
            refuses_set(rt.alloc(), source.as_bytes(), *rule, want)?,
            "{source}"
        );
    }
    Ok(())
}

const FIELD_ROWS: &[Row<'static>] = &[
    ("%f !function=a !function=if", Rule::P1, Want::Text(15, 27)),
    ("%f !function=if 0:0", Rule::P9, Want::Text(3, 15)),
    ("%f x:4 0:0", Rule::P2, Want::Text(3, 6)),
    ("%f 0:4x", Rule::P2, Want::Text(3, 7)),
    ("%f 40:0", Rule::P8, Want::Text(3, 7)),
    ("%f 28:s5 0:0", Rule::P3, Want::Text(3, 8)),
    (
        "%f 0:1111111111222222222233333333334444444444",
        Rule::P3,
        Want::Text(3, 45),
    ),
    (
        "%f 0:1 0:1 0:1 0:1 0:1 0:1 0:1 0:1 0:1 0:1 0:1 0:1 0:1 0:1 0:1 0:1 0:1 0:0",
        Rule::P10,
        Want::Text(67, 70),
    ),
    ("%f 0:20 0:20", Rule::P4, Want::Number(40)),
    ("%f", Rule::P5, Want::Nothing),
    ("%f 0:4 2:4", Rule::P6, Want::Named("f")),
    ("%f 0:4 8:4 3:1", Rule::P6, Want::Named("f")),
    ("%g 0:4", Rule::P7, Want::Named("g")),
    ("%g", Rule::P5, Want::Nothing),
    ("%g 0:20 0:20", Rule::P4, Want::Number(40)),
    ("%g 0:1 0:1", Rule::P6, Want::Named("g")),
];

const SET_ROWS: &[Row<'static>] = &[
    ("&s 1a int", Rule::A1, Want::Text(3, 5)),
    ("&s a:", Rule::A1, Want::Text(3, 5)),
    ("&s int", Rule::A4, Want::Text(3, 6)),
    ("&s a b a:T", Rule::A2, Want::Text(7, 10)),
    (
        "&s a b c d e f g h i j k l m n o p q r s t u v w x y z A B C D E F G int",
        Rule::A5,
        Want::Text(67, 68),
    ),
    ("&r", Rule::A3, Want::Named("r")),
    ("&p a", Rule::A3, Want::Named("p")),
    ("&p a a", Rule::A2, Want::Text(5, 6)),
    ("&s if:if", Rule::A4, Want::Text(3, 8)),
];

#[test]
fn field_lines_break_rules(rt: HostRuntime) -> Result<(), Fail> {
    check_fields(&rt, FIELD_ROWS)
}

#[test]
fn set_lines_break_rules(rt: HostRuntime) -> Result<(), Fail> {
    check_sets(&rt, SET_ROWS)
}

fn is_named(found: Option<Name>, name: &[u8]) -> bool {
    match found {
        None => false,
        Some(found) => found.bytes() == name,
    }
}

fn is_field(field: Option<&FieldDef>, segments: &[Segment], function: &[u8]) -> bool {
    match field {
        None => false,
        Some(field) => { is_named(field.function, function) && field.segments.items() == segments }
    }
}

#[test]
fn a_field_is_read(rt: HostRuntime) -> Result<(), Fail> {
    let high = Segment::Bits {
        pos: 31,
        length: 1,
        signed: true,
    };
    let low = Segment::Bits {
        pos: 7,
        length: 1,
        signed: false,
    };
    let (imm, im) = (name(b"imm")?, name(b"im")?);
    let mut fields = Fields::new(rt.alloc());
    add_field(
        rt.alloc(),
        &mut fields,
        b"%imm 31:s1 !function=ex_shift_1 7:01",
    )?;
    assert!(rt; is_field(fields.get(imm), &[high, low], b"ex_shift_1"));
    assert!(rt; fields.get(im).is_none());
    Ok(())
}

fn is_member(member: &Member, ctype: CType, name: &[u8]) -> bool {
    member.ctype == ctype && member.name.bytes() == name
}

// Whether it is the set `&s a b:uint8_t !extern c:T`.
fn is_set(set: &SetDef) -> bool {
    let (Some(s), Some(t)) = (Name::from_bytes(b"s"), Name::from_bytes(b"T")) else {
        return false;
    };
    let is_named = set.outside && set.name == s;
    match set.members.items() {
        [a, b, c] => {
            is_named
                && is_member(a, CType::Int, b"a")
                && is_member(b, CType::U8, b"b")
                && is_member(c, CType::Other(t), b"c")
        }
        _ => false,
    }
}

// Puts a set of this name last, which has no argument. Not where a set has the name.
fn add_empty(alloc: Global, sets: &mut Sets, name: Name) -> Result<(), AllocError> {
    if sets.get(name).is_some() {
        return Ok(());
    }
    sets.add(SetDef {
        name,
        members: MemberList::of(Vec::new(alloc)),
        outside: false,
    })
}

// Puts a set of a line last, and one without arguments.
fn add_two(alloc: Global, sets: &mut Sets) -> Result<(), Fail> {
    let (p, t) = (name(b"p")?, name(b"t")?);
    add_set(alloc, sets, p, b"&s a b:uint8_t !extern c:T")?;
    add_empty(alloc, sets, t)?;
    Ok(())
}

fn is_read(set: Option<&SetDef>) -> bool {
    match set {
        None => false,
        Some(set) => is_set(set),
    }
}

#[test]
fn a_set_is_read(rt: HostRuntime) -> Result<(), Fail> {
    let mut sets = Sets::new(rt.alloc());
    add_two(rt.alloc(), &mut sets)?;
    assert!(rt; sets.count() == 2);
    assert!(rt; sets.at(2).is_none());
    assert!(rt; is_read(sets.at(0)));
    Ok(())
}

// A field of these two segments.
fn field_of(alloc: Global, first: Segment, second: Segment) -> Result<FieldDef, Fail> {
    let mut items: SmallVec<Segment, 4, _> = SmallVec::new(alloc);
    items.push(first)?;
    items.push(second)?;
    Ok(FieldDef {
        segments: Segments::of(items),
        function: None,
    })
}

#[test]
fn a_field_holds_its_segments(rt: HostRuntime) -> Result<(), Fail> {
    let first = Segment::default();
    let second = Segment::Named {
        name: name(b"imm")?,
        length: 4,
        signed: false,
    };
    let field = field_of(rt.alloc(), first, second)?;
    assert!(rt; field.segments.items() == [first, second].as_slice());
    Ok(())
}

#[test]
fn rules_and_details_differ(rt: HostRuntime) {
    assert!(rt; Rule::G9 != Rule::G8);
    assert!(rt; text(2, 5) != text(2, 4));
    assert!(rt; Detail::Number(3) != Detail::Mask(3));
}

fn check_texts(rt: &impl Abort, table: &[(Rule, &str)]) {
    for (rule, text) in table {
        assert!(rt; rule.text() == *text, "{text}");
    }
}

#[test]
fn rules_have_their_codes_and_texts(rt: HostRuntime) {
    let table: &[(Rule, &str)] = &[
        (Rule::K1, "K1 too many lines"),
        (Rule::K2, "K2 long name"),
        (Rule::L1, "L1 indentation"),
        (Rule::L7, "L7 invalid name"),
        (Rule::L9, "L9 too many patterns"),
        (Rule::G8, "G8 exceeds width"),
        (Rule::G9, "G9 wrong bit count"),
        (Rule::G21, "G21 bits left"),
        (Rule::H2, "H2 overlapping"),
    ];
    check_texts(&rt, table);
}
