//! What each word behind the command is.

ghost use Rattle.std.specs.Prelude.{◌≡◌, map, drop, length, Some, None, IfOk, if◌then◌else◌};
ghost use Rattle.std.specs.Option.{option_copied, option_map};
ghost use Rattle.dt_words.specs.Roles as meant;
ghost use Rattle.dt_words.specs.View.{next_seen, role_seen, row_seen, short_seen, texts, value_seen};

use crate::rows::{Row, ValueKind};
use std::alloc::{AllocError, Global};

/// What a word is.
#[derive(Clone, Copy)]
pub enum Role<'a> {
    /// The `--` behind which all words are operands.
    Ends,
    Operand(&'a str),
    /// An option with its value, or that value. An option that takes none has an empty one.
    Sets(Row, &'a str),
    /// An option whose value is to be the next word.
    Asks(Row),
    /// An option that isn't understood.
    Unknown,
}

/// What the words so far say of the next one.
#[derive(Clone, Copy)]
pub enum Next {
    Anything,
    ValueOf(Row),
    Operands,
}

/// What each word is.
pub fn roles_of<'a>(
    alloc: Global,
    rows: &[Row],
    words: &'a [String],
) -> Result<Vec<Role<'a>>, AllocError>
    ensures count { IfOk result (λ roles. length roles.items ≡ length words.now) }
    ensures roles { IfOk result (λ roles.
        map role_seen roles.items ≡ meant.roles_of (map row_seen rows.now) meant.Anything (texts words.now)) }
{
    let mut roles = Vec::new(alloc);
    let mut next = Next::Anything;
    for word in words {
        let role = role_of(rows, next, word.as_str());
        next = next_after(next, role);
        roles.push(role)?;
    }
    Ok(roles)
}

fn role_of<'a>(rows: &[Row], next: Next, word: &'a str) -> Role<'a>
    ensures { role_seen result ≡ meant.role_of (map row_seen rows.now) (next_seen next) word.now }
{
    match next {
        Next::Anything => own_role(rows, word),
        Next::ValueOf(row) => Role::Sets(row, word),
        Next::Operands => Role::Operand(word),
    }
}

fn next_after(next: Next, role: Role<'_>) -> Next
    ensures { next_seen result ≡ meant.next_after (next_seen next) (role_seen role.entry) }
{
    match role {
        Role::Ends => Next::Operands,
        Role::Operand(_) => next,
        Role::Sets(_, _) => Next::Anything,
        Role::Asks(row) => Next::ValueOf(row),
        Role::Unknown => Next::Anything,
    }
}

// What a word is by itself.
fn own_role<'a>(rows: &[Row], word: &'a str) -> Role<'a>
    ensures { role_seen result ≡ meant.role_of (map row_seen rows.now) meant.Anything word.now }
{
    if !is_option(word.as_bytes()) {
        return Role::Operand(word);
    }
    if is_long(word.as_bytes()) {
        return long_role(rows, word);
    }
    short_role(rows, word)
}

// A dash alone is no option.
fn is_option(word: &[u8]) -> bool
    ensures { result ≡ meant.is_option word.now }
{
    word.starts_with(b"-") && word.len() > 1
}

/// Whether the word begins with two dashes.
pub fn is_long(word: &[u8]) -> bool
    ensures { result ≡ meant.is_long word.now }
{
    word.starts_with(b"--")
}

fn long_role<'a>(rows: &[Row], word: &'a str) -> Role<'a>
    ensures { role_seen result ≡ meant.long_role (map row_seen rows.now) word.now }
{
    if word.len() == 2 {
        return Role::Ends;
    }
    let (name, value) = long_parts(word);
    role_of_option(row_named(rows, name), value)
}

/// A long option's name, and what stands behind its `=`.
pub fn long_parts(word: &str) -> (&str, Option<&str>)
    ensures name { result.0.now ≡ meant.long_name word.now }
    ensures value { value_seen result.1 ≡ meant.behind_equals word.now }
{
    match word.split_once('=') {
        Some((name, value)) => (name, Some(value)),
        None => (word, None),
    }
}

fn row_named<'r>(rows: &'r [Row], name: &str) -> Option<&'r Row>
    ensures { option_map row_seen (option_copied result) ≡ meant.row_named (map row_seen rows.now) name.now }
{
    for row in rows {
        if row.name == name {
            return Some(row);
        }
    }
    None
}

fn short_role<'a>(rows: &[Row], word: &'a str) -> Role<'a>
    ensures { role_seen result ≡ meant.short_role (map row_seen rows.now) word.now }
{
    match short_parts(rows, word) {
        Some((row, value)) => role_of_option(Some(row), behind_letter(value)),
        None => Role::Unknown,
    }
}

// The option whose short name the word begins with, and the rest of the word.
fn short_parts<'r, 'a>(rows: &'r [Row], word: &'a str) -> Option<(&'r Row, &'a str)>
    ensures { short_seen result
        ≡ option_map (λ row. (row, drop 2 word.now)) (meant.row_short (map row_seen rows.now) word.now) }
{
    for row in rows {
        if let Some(value) = behind_short(word, row.short) {
            return Some((row, value));
        }
    }
    None
}

// What stands behind a short name of two bytes.
#[tactic(auto, using(crate::proofs::Prefixes::behind_prefix))]
fn behind_short<'a>(word: &'a str, short: &str) -> Option<&'a str>
    ensures { value_seen result ≡ (if meant.is_short word.now short.now then Some (drop 2 word.now) else None) }
{
    if short.len() != 2 {
        return None;
    }
    word.strip_prefix(short)
}

fn behind_letter(value: &str) -> Option<&str>
    ensures { value_seen result ≡ meant.behind_letter value.now }
{
    if value.is_empty() { None } else { Some(value) }
}

fn role_of_option<'a>(row: Option<&Row>, value: Option<&'a str>) -> Role<'a>
    ensures { role_seen result
        ≡ meant.role_of_option (option_map row_seen (option_copied row.entry)) (value_seen value.entry) }
{
    match row {
        Some(row) => option_role(*row, value),
        None => Role::Unknown,
    }
}

// An option with this value in its own word, or without one.
fn option_role(row: Row, value: Option<&str>) -> Role<'_>
    ensures { role_seen result ≡ meant.option_role (row_seen row) (value_seen value.entry) }
{
    match (takes_value(row.kind), value) {
        (true, Some(value)) => Role::Sets(row, value),
        (true, None) => Role::Asks(row),
        (false, Some(_)) => Role::Unknown,
        (false, None) => Role::Sets(row, ""),
    }
}

fn takes_value(kind: ValueKind) -> bool
    ensures { result ≡ meant.takes_value kind }
{
    match kind {
        ValueKind::Flag => false,
        ValueKind::Text
        | ValueKind::Name
        | ValueKind::Width
        | ValueKind::Number
        | ValueKind::Script => true,
    }
}
