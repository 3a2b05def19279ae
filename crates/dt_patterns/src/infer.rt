//! The set and the format that a line takes.

ghost use Rattle.std.specs.Prelude.{◌≡◌, ◌==◌, ◌<◌, ◌≤◌, ◌++◌, ◌||◌, true, length, Some, None, IfOk, slice_index_or};
ghost use Rattle.std.specs.Option.{option_copied};
ghost use Rattle.std.specs.Fmt.{decimal};
ghost use Rattle.std.specs.List.{list_all};
ghost use Rattle.dt_values.specs.Names.{is_name_byte};
ghost use Rattle.dt_values.specs.Widths.{width_bits};
ghost use Rattle.dt_values.specs.Members.{has_member};
ghost use Rattle.dt_values.specs.declared.set.SetDef.{SetDef};
ghost use Rattle.dt_scope.specs.ElementRows.{has_value};
ghost use Rattle.dt_model.specs.Options.{IsOptionName};
ghost use Rattle.dt_model.specs.declared.format.Format.{Format};
ghost use Rattle.dt_patterns.specs.Inference.{choice_by, fits_pattern, format_choice, format_in, gives, has_exactly, has_fields_of};
ghost use Rattle.dt_patterns.specs.Inference.{has_new_argument, inferred_choice, is_constant, is_int, matching_format, matching_set};
ghost use Rattle.dt_patterns.specs.Inference.{name_where, named_choice, named_place, set_chosen};
ghost use Rattle.dt_model.specs.View.{set_of_format};

use crate::same_field::same_value;
use dt_fields::Sets;
use dt_model::{FieldValue, Format, Options};
use dt_scope::Formats;
use dt_scope::gather::{Gathered, has_value};
use dt_values::set::has_member;
use dt_values::{CType, Member, Name, SetDef, Width};
use itoa::Buffer;
use std::alloc::{AllocError, Global};

/// What a line takes: the number of its set and of its format, and the names of those that are inferred anew. The format
/// of a format's line is itself.
#[derive(Clone, Copy, PartialEq, Eq)]
pub struct Choice {
    pub set: u32,
    pub format: u32,
    pub new_set: Option<Name>,
    pub new_format: Option<Name>,
}

/// The place of the format that a line names.
pub fn named_place(formats: &Formats, name: Option<Name>) -> Option<usize>
    ensures { result ≡ named_place formats.now name }
{
    formats.place(name?)
}

/// The format at a place.
pub fn format_in(formats: &Formats, place: Option<usize>) -> Option<&Format>
    ensures { option_copied result ≡ format_in formats.now place }
{
    formats.at(place?)
}

/// What a pattern takes of these sets and formats, where it names the format at this place, or none. A number that
/// doesn't fit in 32 bits finds no memory: so many sets would fill it many times over.
pub fn choose(
    alloc: Global,
    options: &Options,
    sets: &Sets,
    formats: &Formats,
    place: Option<usize>,
    gathered: &Gathered,
) -> Result<Choice, AllocError>
    requires { IsOptionName options.now.decode }
    ensures { IfOk result
        (λ choice. choice ≡ choice_by options.now sets.now formats.now gathered.now place) }
{
    match place {
        None => inferred_choice(alloc, options, sets, formats, gathered),
        Some(place) => named_choice(formats, place),
    }
}

// What a pattern takes that names the format at this place.
fn named_choice(formats: &Formats, place: usize) -> Result<Choice, AllocError>
    ensures { IfOk result (λ choice. choice ≡ named_choice formats.now place) }
{
    choice_with(set_of_format(formats, place) as usize, place, None, None)
}

/// The number of the set of the format at this place.
#[tactic(auto, using(crate::proofs::SetNumbers::set_of_none, crate::proofs::SetNumbers::set_of_some))]
pub fn set_of_format(formats: &Formats, place: usize) -> u32
    ensures { result ≡ set_of_format formats.now place }
{
    match formats.at(place) {
        None => 0,
        Some(format) => format.set,
    }
}

// What a pattern takes that names no format.
fn inferred_choice(
    alloc: Global,
    options: &Options,
    sets: &Sets,
    formats: &Formats,
    gathered: &Gathered,
) -> Result<Choice, AllocError>
    requires { IsOptionName options.now.decode }
    ensures { IfOk result (λ choice. choice ≡ inferred_choice options.now sets.now formats.now gathered.now) }
{
    let values = gathered.values.items();
    let set = set_chosen(sets, values, gathered.set);
    let format = matching_format(options.width, set, values, formats);
    let new_set = new_name(alloc, options.decode, b"", set, sets.count())?;
    let new_format = new_name(alloc, options.decode, b"_Fmt_", format, formats.count())?;
    choice_with(set, format, new_set, new_format)
}

/// What the line of a format takes of these sets; its own number is the next.
pub fn format_choice(
    alloc: Global,
    options: &Options,
    sets: &Sets,
    formats: &Formats,
    gathered: &Gathered,
) -> Result<Choice, AllocError>
    requires { IsOptionName options.now.decode }
    ensures { IfOk result (λ choice. choice ≡ format_choice options.now sets.now formats.now gathered.now) }
{
    let set = set_chosen(sets, gathered.values.items(), gathered.set);
    let new_set = new_name(alloc, options.decode, b"", set, sets.count())?;
    choice_with(set, formats.count(), new_set, None)
}

// The choice of these numbers, which fit in 32 bits.
fn choice_with(
    set: usize,
    format: usize,
    new_set: Option<Name>,
    new_format: Option<Name>,
) -> Result<Choice, AllocError>
    ensures { IfOk result (λ choice. choice
        ≡ record { set = set; format = format; new_set = new_set; new_format = new_format }) }
{
    if set > u32::MAX as usize || format > u32::MAX as usize {
        return Err(AllocError);
    }
    Ok(Choice {
        set: set as u32,
        format: format as u32,
        new_set,
        new_format,
    })
}

// The number of the set that a line names, or else of one with its arguments.
fn set_chosen(sets: &Sets, values: &[(Name, FieldValue)], name: Option<Name>) -> usize
    ensures { result ≡ set_chosen sets.now values.now name }
{
    match name {
        None => matching_set(values, sets),
        Some(name) => match sets.place(name) {
            None => sets.count(),
            Some(place) => place,
        },
    }
}

// The number of the first set with exactly these arguments, all of type `int`, or that of a new one. Where an argument
// is new, so is the set.
fn matching_set(values: &[(Name, FieldValue)], sets: &Sets) -> usize
    ensures { result ≡ matching_set values.now sets.now }
{
    if has_new_argument(values, sets) {
        return sets.count();
    }
    first_match(values, sets)
}

// Whether one of these arguments is none of a set.
fn has_new_argument(values: &[(Name, FieldValue)], sets: &Sets) -> bool
    ensures { result ≡ has_new_argument values.now sets.now }
{
    values.iter().any(|value| !sets.has_argument(&value.0))
}

fn first_match(values: &[(Name, FieldValue)], sets: &Sets) -> usize
    ensures { result ≡ matching_set values.now sets.now }
{
    for place in 0..sets.count() {
        if is_match(values, sets, place) {
            return place;
        }
    }
    sets.count()
}

// Whether the set at a place has exactly these arguments.
fn is_match(values: &[(Name, FieldValue)], sets: &Sets, place: usize) -> bool
    requires { place < length sets.now }
    ensures { (d : SetDef) → result ≡ has_exactly values.now (slice_index_or sets.now place d) }
{
    has_exactly(values, sets.at(place).unwrap())
}

fn has_exactly(values: &[(Name, FieldValue)], set: &SetDef) -> bool
    ensures { result ≡ has_exactly values.now set.now }
{
    let members = set.members.items();
    has_ints(members) && has_members(members, values) && has_values(values, members)
}

fn has_ints(members: &[Member]) -> bool
    ensures { result ≡ list_all (λ m. is_int m.ctype) members.now }
{
    members.iter().all(|member| is_int(&member.ctype))
}

fn is_int(ctype: &CType) -> bool
    ensures { result ≡ is_int ctype.now }
{
    match ctype {
        CType::Int => true,
        _ => false,
    }
}

fn has_members(members: &[Member], values: &[(Name, FieldValue)]) -> bool
    ensures { result ≡ list_all (λ v. has_member members.now v.0) values.now }
{
    values.iter().all(|value| has_member(members, &value.0))
}

fn has_values(values: &[(Name, FieldValue)], members: &[Member]) -> bool
    ensures { result ≡ list_all (λ m. has_value values.now m.name) members.now }
{
    members.iter().all(|member| has_value(values, &member.name))
}

// The number of the first format that a pattern of this set and these values takes, or that of a new one.
fn matching_format(
    width: Width,
    set: usize,
    values: &[(Name, FieldValue)],
    formats: &Formats,
) -> usize
    ensures { result ≡ matching_format (width_bits width) set values.now formats.now }
{
    for place in 0..formats.count() {
        if is_fitting(width, set, values, formats, place) {
            return place;
        }
    }
    formats.count()
}

// Whether a pattern of this set and these values takes the format at a place.
fn is_fitting(
    width: Width,
    set: usize,
    values: &[(Name, FieldValue)],
    formats: &Formats,
    place: usize,
) -> bool
    requires { place < length formats.now }
    ensures { (d : Format) → result
        ≡ fits_pattern (width_bits width) set values.now (slice_index_or formats.now place d) }
{
    fits_pattern(width, set, values, formats.at(place).unwrap())
}

fn fits_pattern(width: Width, set: usize, values: &[(Name, FieldValue)], format: &Format) -> bool
    ensures { result ≡ fits_pattern (width_bits width) set values.now format.now }
{
    format.set as usize == set && format.bits == width.bits() && has_fields_of(values, format)
}

fn has_fields_of(values: &[(Name, FieldValue)], format: &Format) -> bool
    ensures { result ≡ has_fields_of values.now format.now }
{
    let others = format.values.items();
    gives_fields(others, values) && gives_all(values, others)
}

// Whether each field of a line is among the others.
fn gives_fields(others: &[(Name, FieldValue)], values: &[(Name, FieldValue)]) -> bool
    ensures { result ≡ list_all (λ v. is_constant v.1 || gives others.now v) values.now }
{
    values
        .iter()
        .all(|value| is_constant(&value.1) || gives(others, value))
}

/// Whether an argument gets a constant.
pub fn is_constant(value: &FieldValue) -> bool
    ensures { result ≡ is_constant value.now }
{
    match value {
        FieldValue::Field(_) => false,
        FieldValue::Constant(_) => true,
    }
}

// Whether each of these is among the others.
fn gives_all(others: &[(Name, FieldValue)], values: &[(Name, FieldValue)]) -> bool
    ensures { result ≡ list_all (gives others.now) values.now }
{
    values.iter().all(|value| gives(others, value))
}

// Whether the argument gets the same field among these.
fn gives(values: &[(Name, FieldValue)], value: &(Name, FieldValue)) -> bool
    ensures { result ≡ gives values.now value.now }
{
    values.iter().any(|other| value.0 == other.0 && same_value(&value.1, &other.1))
}

// The name of a new set or format, where the number is that of a new one.
fn new_name(
    alloc: Global,
    decode: Name,
    middle: &[u8],
    number: usize,
    count: usize,
) -> Result<Option<Name>, AllocError>
    requires decode { IsOptionName decode }
    requires middle { list_all is_name_byte middle.now ≡ true }
    requires short { length middle.now ≤ 5 }
    ensures { IfOk result (λ name. name ≡ name_where (number == count) (decode ++ (middle.now ++ decimal count))) }
{
    if number != count {
        return Ok(None);
    }
    let name = numbered_name(alloc, decode, middle, count)?;
    Ok(Some(name))
}

// The decoder's name with more name bytes and a number behind it.
#[tactic(auto, using(crate::proofs::NumberedNames::numbered_is_name))]
fn numbered_name(
    alloc: Global,
    decode: Name,
    middle: &[u8],
    count: usize,
) -> Result<Name, AllocError>
    requires decode { IsOptionName decode }
    requires middle { list_all is_name_byte middle.now ≡ true }
    requires short { length middle.now ≤ 5 }
    ensures { IfOk result (λ name. name ≡ decode ++ (middle.now ++ decimal count)) }
{
    match numbered_bytes(alloc, decode, middle, count) {
        Err(_) => Err(AllocError),
        Ok(bytes) => Ok(Name::from_bytes(bytes.as_slice()).unwrap()),
    }
}

fn numbered_bytes(
    alloc: Global,
    decode: Name,
    middle: &[u8],
    count: usize,
) -> Result<Vec<u8>, AllocError>
    ensures { IfOk result (λ bytes. bytes.items ≡ decode ++ (middle.now ++ decimal count)) }
{
    let mut buffer = Buffer::new();
    let mut bytes = Vec::new(alloc);
    bytes.extend_from_slice(decode.bytes())?;
    bytes.extend_from_slice(middle)?;
    bytes.extend_from_slice(buffer.format(count).as_bytes())?;
    Ok(bytes)
}
