//! Gathers what the tokens of a format or pattern line give it.

ghost use Rattle.std.specs.Prelude.{◌≡◌, ◌+◌, ◌≤◌, ◌++◌, [], ℕ, List, min, IsTrue, length, map, All, IfOk, IfErr, OnOk};
ghost use Rattle.std.specs.Char.{is_ascii_digit};
ghost use Rattle.std.specs.List.{list_all};
ghost use Rattle.dt_values.specs.Widths.{width_bits};
ghost use Rattle.dt_lines.specs.Spans.{IsWithin, text_at};
ghost use Rattle.dt_fields.specs.Numbers.{decimal};
ghost use Rattle.dt_fields.specs.View.{DefBroken};
ghost use Rattle.dt_fields.specs.declared.number.TheConstants.{LARGEST_NUMBER};
ghost use Rattle.dt_scope.specs.ElementRows.{IsSmall, bits_rows, constant_rows, element_faults, element_rows, field_rows};
ghost use Rattle.dt_scope.specs.ElementRows.{format_rows, has_value, is_in_range, number_rows, place_rows, set_rows, value_rows};
ghost use Rattle.dt_scope.specs.Elements.{element_of, constant, field_named, format_named, set_named, signed_number};
ghost use Rattle.dt_scope.specs.Fitting.{ValueFits};
ghost use Rattle.dt_model.specs.declared.value.FieldValue.TheVariants.{Constant};
ghost use Rattle.dt_scope.specs.ReadTokens.{bits_of, text_of};
ghost use Rattle.dt_scope.specs.Gathering.{field_at, gathered, given, nothing_given, placed, with_bits, with_dots, with_value};

use crate::digits::Digits;
use crate::element::{Element, element_of};
use crate::scope::Scope;
use dt_fields::number::{c_name, number_of};
use dt_fields::{DefFault, Detail, FieldDef, Rule, Segment, Segments, refuse};
use dt_lines::Span;
use dt_model::{FieldValue, ValueList};
use dt_values::{MOST_ARGUMENTS, Name, Width};
use std::alloc::{AllocError, Global};

/// What the tokens of a format or pattern line give it: the names of its set and of its format, its bits, and what its
/// arguments get, in the order of the line.
#[derive(Drop)]
pub struct Gathered {
    pub set: Option<Name>,
    pub format: Option<Name>,
    pub digits: Digits,
    pub values: ValueList,
}

/// A token that is read: the width of words, what the lines before its own define, the bytes of its file, and the token.
#[derive(Clone, Copy)]
pub struct ReadToken<'a> {
    pub width: Width,
    pub scope: &'a Scope,
    pub source: &'a [u8],
    pub token: Span,
}

/// What these tokens of a format's line, or else a pattern's, give it.
#[tactic(auto, using(crate::proofs::Gathering::broken_here))]
pub fn gather(
    alloc: Global,
    in_format: bool,
    width: Width,
    scope: &Scope,
    source: &[u8],
    tokens: &[Span],
) -> Result<Gathered, DefFault>
    requires { All (IsWithin (length source.now)) tokens.now }
    ensures gathered { IfOk result
        (λ g. g ≡ gathered (width_bits width) scope.now.fields (map (text_at source.now) tokens.now)) }
    ensures small { IfOk result (IsSmall (width_bits width)) }
    ensures kept { OnOk result (element_faults in_format (width_bits width) scope.now nothing_given
        (map (text_at source.now) tokens.now) ≡ []) }
    ensures broken { IfErr result (λ fault. DefBroken source.now fault (element_faults in_format (width_bits width)
        scope.now nothing_given (map (text_at source.now) tokens.now))) }
{
    let mut gathered = Gathered {
        set: None,
        format: None,
        digits: Digits::new(alloc),
        values: ValueList::of(Vec::new(alloc)),
    };
    for token in tokens {
        let read = ReadToken {
            width,
            scope,
            source,
            token: *token,
        };
        read_element(alloc, in_format, read, &mut gathered)?;
    }
    Ok(gathered)
}

// Adds a token to what those before it give.
fn read_element(
    alloc: Global,
    in_format: bool,
    read: ReadToken,
    gathered: &mut Gathered,
) -> Result<(), DefFault>
    requires within { IsWithin (length read.source.now) read.token }
    requires small { IsSmall (bits_of read) gathered.old }
    ensures given { OnOk result (gathered.new ≡ given (bits_of read.entry) read.entry.scope.now.fields gathered.old
        (element_of (text_of read.entry))) }
    ensures small { OnOk result (IsSmall (bits_of read.entry) gathered.new) }
    ensures kept { OnOk result (element_rows in_format (bits_of read.entry) read.entry.scope.now gathered.old
        (text_of read.entry) (element_of (text_of read.entry)) ≡ []) }
    ensures broken { IfErr result (λ fault. DefBroken read.entry.source.now fault (element_rows in_format (bits_of read.entry)
        read.entry.scope.now gathered.old (text_of read.entry) (element_of (text_of read.entry)))) }
{
    match element_of(read.token.text(read.source)) {
        Element::Set(name) => read_set(read, gathered, name),
        Element::Format(name) => { read_format(in_format, read, gathered, name) }
        Element::Constant(name, negative, digits) => {
            read_constant(read, gathered, name, negative, digits)
        }
        Element::Field(name, field) => { read_field(alloc, read, gathered, name, field) }
        Element::Bits(bits) => read_bits(read, gathered, bits),
        Element::InPlace(name, digits, signed) => read_in_place(
            alloc, read, gathered, name, digits, signed,
        ),
        Element::Other => Err(DefFault::Broken(Rule::G7, Detail::Text(read.token))),
    }
}

// A set.
fn read_set(read: ReadToken, gathered: &mut Gathered, name: Name) -> Result<(), DefFault>
    requires within { IsWithin (length read.source.now) read.token }
    requires small { IsSmall (bits_of read) gathered.old }
    ensures given { OnOk result
        (gathered.new ≡ given (bits_of read.entry) read.entry.scope.now.fields gathered.old (set_named name)) }
    ensures small { OnOk result (IsSmall (bits_of read.entry) gathered.new) }
    ensures kept { OnOk result
        (set_rows read.entry.scope.now.sets gathered.old (text_of read.entry) name ≡ []) }
    ensures broken { IfErr result (λ fault. DefBroken read.entry.source.now fault
        (set_rows read.entry.scope.now.sets gathered.old (text_of read.entry) name)) }
{
    refuse(gathered.set.is_some(), Rule::G1, Detail::Text(read.token))?;
    refuse(
        read.scope.sets().get(name).is_none(),
        Rule::G2,
        Detail::Text(read.token),
    )?;
    gathered.set = Some(name);
    Ok(())
}

// A format.
fn read_format(
    in_format: bool,
    read: ReadToken,
    gathered: &mut Gathered,
    name: Name,
) -> Result<(), DefFault>
    requires within { IsWithin (length read.source.now) read.token }
    requires small { IsSmall (bits_of read) gathered.old }
    ensures given { OnOk result
        (gathered.new ≡ given (bits_of read.entry) read.entry.scope.now.fields gathered.old (format_named name)) }
    ensures small { OnOk result (IsSmall (bits_of read.entry) gathered.new) }
    ensures kept { OnOk result
        (format_rows in_format read.entry.scope.now.formats gathered.old (text_of read.entry) name ≡ []) }
    ensures broken { IfErr result (λ fault. DefBroken read.entry.source.now fault
        (format_rows in_format read.entry.scope.now.formats gathered.old (text_of read.entry) name)) }
{
    let is_second = gathered.format.is_some();
    let is_undefined = !read.scope.formats().has(&name);
    refuse(in_format, Rule::G10, Detail::Text(read.token))?;
    refuse(is_second, Rule::G3, Detail::Text(read.token))?;
    refuse(is_undefined, Rule::G4, Detail::Text(read.token))?;
    gathered.format = Some(name);
    Ok(())
}

// An argument with a constant.
#[tactic(auto, using(dt_fields::proofs::FirstFaults::broken_prefix))]
fn read_constant(
    read: ReadToken,
    gathered: &mut Gathered,
    name: Name,
    negative: bool,
    digits: &[u8],
) -> Result<(), DefFault>
    requires within { IsWithin (length read.source.now) read.token }
    requires small { IsSmall (bits_of read) gathered.old }
    requires digits { IsTrue (list_all is_ascii_digit digits.now) }
    ensures given { OnOk result
        (gathered.new ≡ with_value gathered.old name (Constant (signed_number negative (decimal digits.now)))) }
    ensures small { OnOk result (IsSmall (bits_of read.entry) gathered.new) }
    ensures kept { OnOk result
        (constant_rows gathered.old (text_of read.entry) name negative (decimal digits.now) ≡ []) }
    ensures broken { IfErr result (λ fault. DefBroken read.entry.source.now fault
        (constant_rows gathered.old (text_of read.entry) name negative (decimal digits.now))) }
{
    match constant_of(read, name, negative, digits) {
        Err(fault) => Err(fault),
        Ok(value) => give(read, gathered, name, FieldValue::Constant(value)),
    }
}

// The number of a constant, which may be cut off where it is out of range.
fn constant_of(read: ReadToken, name: Name, negative: bool, digits: &[u8]) -> Result<i64, DefFault>
    requires within { IsWithin (length read.source.now) read.token }
    requires digits { IsTrue (list_all is_ascii_digit digits.now) }
    ensures number { IfOk result (λ z. z ≡ signed_number negative (decimal digits.now)) }
    ensures kept { OnOk result
        (number_rows (text_of read.entry) name negative (decimal digits.now) ≡ []) }
    ensures broken { IfErr result (λ fault. DefBroken read.entry.source.now fault
        (number_rows (text_of read.entry) name negative (decimal digits.now))) }
{
    let number = number_of(digits);
    let is_invalid = c_name(name.bytes()).is_none();
    refuse(is_invalid, Rule::G7, Detail::Text(read.token))?;
    let is_outside = !is_in_range(negative, number);
    refuse(is_outside, Rule::G22, Detail::Text(read.token))?;
    Ok(signed_number(negative, number))
}

// Whether a constant of this sign and number is from -2^31 to 2^32 - 1.
fn is_in_range(negative: bool, number: u64) -> bool
    ensures { result ≡ is_in_range negative number }
{
    if negative {
        number <= 1 << 31
    } else {
        number < 1 << 32
    }
}

// The number of this sign.
fn signed_number(negative: bool, number: u64) -> i64
    requires { number ≤ LARGEST_NUMBER }
    ensures { result ≡ signed_number negative number }
{
    let number = number as i64;
    if negative { -number } else { number }
}

// An argument with a field.
fn read_field(
    alloc: Global,
    read: ReadToken,
    gathered: &mut Gathered,
    name: Name,
    field: Name,
) -> Result<(), DefFault>
    requires within { IsWithin (length read.source.now) read.token }
    requires small { IsSmall (bits_of read) gathered.old }
    ensures given { OnOk result
        (gathered.new ≡ given (bits_of read.entry) read.entry.scope.now.fields gathered.old (field_named name field)) }
    ensures small { OnOk result (IsSmall (bits_of read.entry) gathered.new) }
    ensures kept { OnOk result
        (field_rows read.entry.scope.now.fields gathered.old (text_of read.entry) name field ≡ []) }
    ensures broken { IfErr result (λ fault. DefBroken read.entry.source.now fault
        (field_rows read.entry.scope.now.fields gathered.old (text_of read.entry) name field)) }
{
    refuse(
        c_name(name.bytes()).is_none(),
        Rule::G7,
        Detail::Text(read.token),
    )?;
    let Some(field) = read.scope.field(field) else {
        return Err(DefFault::Broken(Rule::G6, Detail::Text(read.token)));
    };
    match field.copied(alloc) {
        Err(_) => Err(DefFault::NoMemory),
        Ok(field) => give(read, gathered, name, FieldValue::Field(field)),
    }
}

// Bits as they are written.
fn read_bits(read: ReadToken, gathered: &mut Gathered, written: &[u8]) -> Result<(), DefFault>
    requires within { IsWithin (length read.source.now) read.token }
    requires small { IsSmall (bits_of read) gathered.old }
    ensures given { OnOk result (gathered.new ≡ with_bits gathered.old written.now) }
    ensures small { OnOk result (IsSmall (bits_of read.entry) gathered.new) }
    ensures kept { OnOk result
        (bits_rows (bits_of read.entry) gathered.old (text_of read.entry) written.now ≡ []) }
    ensures broken { IfErr result (λ fault. DefBroken read.entry.source.now fault
        (bits_rows (bits_of read.entry) gathered.old (text_of read.entry) written.now)) }
{
    let room = read.width.bits() as usize - gathered.digits.items().len();
    refuse(written.len() > room, Rule::G8, Detail::Text(read.token))?;
    match gathered.digits.extend(written) {
        Err(_) => Err(DefFault::NoMemory),
        Ok(()) => Ok(()),
    }
}

// An argument with the bits at its place.
#[tactic(auto, using(dt_fields::proofs::FirstFaults::broken_prefix))]
fn read_in_place(
    alloc: Global,
    read: ReadToken,
    gathered: &mut Gathered,
    name: Name,
    digits: &[u8],
    signed: bool,
) -> Result<(), DefFault>
    requires within { IsWithin (length read.source.now) read.token }
    requires small { IsSmall (bits_of read) gathered.old }
    requires digits { IsTrue (list_all is_ascii_digit digits.now) }
    ensures given { OnOk result
        (gathered.new ≡ placed (bits_of read.entry) gathered.old name (decimal digits.now) signed) }
    ensures small { OnOk result (IsSmall (bits_of read.entry) gathered.new) }
    ensures kept { let text = text_of read.entry in OnOk result
        (place_rows (bits_of read.entry) gathered.old text name (decimal digits.now) ++ value_rows gathered.old text name
        ≡ []) }
    ensures broken { let text = text_of read.entry in IfErr result (λ fault. DefBroken read.entry.source.now fault
        (place_rows (bits_of read.entry) gathered.old text name (decimal digits.now)
        ++ value_rows gathered.old text name)) }
{
    let count = number_of(digits);
    match check_place(read, gathered, name, count) {
        Err(fault) => Err(fault),
        Ok(()) => push_place(alloc, read, gathered, name, count as u8, signed),
    }
}

// Refuses bits that can't stand at their place. Their number may be cut off.
fn check_place(read: ReadToken, before: &Gathered, name: Name, count: u64) -> Result<(), DefFault>
    requires within { IsWithin (length read.source.now) read.token }
    requires small { IsSmall (bits_of read) before.now }
    requires cut { count ≤ LARGEST_NUMBER }
    ensures room { OnOk result (length before.now.digits + count ≤ bits_of read.entry) }
    ensures kept { (len : ℕ) → count ≡ min len LARGEST_NUMBER → OnOk result
        (place_rows (bits_of read.entry) before.now (text_of read.entry) name len ≡ []) }
    ensures broken { (len : ℕ) → count ≡ min len LARGEST_NUMBER → IfErr result (λ fault. DefBroken read.entry.source.now fault
        (place_rows (bits_of read.entry) before.now (text_of read.entry) name len)) }
{
    let is_invalid = c_name(name.bytes()).is_none() || count == 0;
    let end = before.digits.items().len() as u64 + count;
    refuse(is_invalid, Rule::G7, Detail::Text(read.token))?;
    refuse(
        end > read.width.bits() as u64,
        Rule::G8,
        Detail::Text(read.token),
    )?;
    Ok(())
}

// Gives an argument the bits at its place.
fn push_place(
    alloc: Global,
    read: ReadToken,
    gathered: &mut Gathered,
    name: Name,
    count: u8,
    signed: bool,
) -> Result<(), DefFault>
    requires within { IsWithin (length read.source.now) read.token }
    requires small { IsSmall (bits_of read) gathered.old }
    requires room { length gathered.old.digits + count ≤ bits_of read }
    ensures given { OnOk result (gathered.new ≡ placed (bits_of read.entry) gathered.old name count signed) }
    ensures small { OnOk result (IsSmall (bits_of read.entry) gathered.new) }
    ensures kept { OnOk result (value_rows gathered.old (text_of read.entry) name ≡ []) }
    ensures broken { IfErr result
        (λ fault. DefBroken read.entry.source.now fault (value_rows gathered.old (text_of read.entry) name)) }
{
    let before = gathered.digits.items().len();
    let field = match field_at(alloc, read.width, before, count, signed) {
        Err(_) => return Err(DefFault::NoMemory),
        Ok(field) => field,
    };
    match give(read, gathered, name, FieldValue::Field(field)) {
        Err(fault) => Err(fault),
        Ok(()) => match extend_field(gathered, count) {
            Err(_) => Err(DefFault::NoMemory),
            Ok(()) => Ok(()),
        },
    }
}

// The field of so many bits behind so many, from the most significant end of a word.
fn field_at(
    alloc: Global,
    width: Width,
    before: usize,
    count: u8,
    signed: bool,
) -> Result<FieldDef, AllocError>
    requires { before + count ≤ width_bits width }
    ensures { IfOk result (λ field. field ≡ field_at (width_bits width) before count signed) }
{
    let mut segments = Segments::new(alloc);
    segments.push(Segment::Bits {
        pos: (width.bits() as usize - (before + count as usize)) as u8,
        length: count,
        signed,
    })?;
    Ok(FieldDef {
        segments,
        function: None,
    })
}

// Puts so many bits of a field behind.
fn extend_field(gathered: &mut Gathered, count: u8) -> Result<(), AllocError>
    ensures { OnOk result (gathered.new ≡ with_dots gathered.old count) }
{
    gathered.digits.extend_field(count as usize)
}

// Gives an argument its value.
#[tactic(auto, using(crate::proofs::Fits::values_more))]
fn give(
    read: ReadToken,
    gathered: &mut Gathered,
    name: Name,
    value: FieldValue,
) -> Result<(), DefFault>
    requires within { IsWithin (length read.source.now) read.token }
    requires small { IsSmall (bits_of read) gathered.old }
    requires fits { ValueFits value }
    ensures given { OnOk result (gathered.new ≡ with_value gathered.old name value) }
    ensures small { OnOk result (IsSmall (bits_of read.entry) gathered.new) }
    ensures kept { OnOk result (value_rows gathered.old (text_of read.entry) name ≡ []) }
    ensures broken { IfErr result
        (λ fault. DefBroken read.entry.source.now fault (value_rows gathered.old (text_of read.entry) name)) }
{
    let is_given = has_value(gathered.values.items(), &name);
    let is_past_last = gathered.values.items().len() >= MOST_ARGUMENTS;
    refuse(is_given, Rule::G5, Detail::Text(read.token))?;
    refuse(is_past_last, Rule::A5, Detail::Text(read.token))?;
    match gathered.values.push((name, value)) {
        Ok(()) => Ok(()),
        Err(_) => Err(DefFault::NoMemory),
    }
}

// Whether the argument gets something.
pub fn has_value(values: &[(Name, FieldValue)], name: &Name) -> bool
    ensures { result ≡ has_value values.now name.now }
{
    values.iter().any(|value| *name == value.0)
}
