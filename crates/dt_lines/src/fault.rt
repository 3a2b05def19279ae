//! What keeps a file from being read as lines.

ghost use Rattle.std.specs.Prelude.{◌≡◌, ◌≤◌, length};
ghost use Rattle.std.specs.Option.{option_map};
ghost use Rattle.dt_lines.specs.Faults.{fault_of, has_long_name, has_long_run, line_fault, variant_of};

use crate::limits::{LARGEST_FILE, MOST_LINES};
use crate::physical::line_end;
use crate::token::comment_start;
use dt_values::name::{LONGEST_NAME, is_name_byte};
use std::alloc::AllocError;
use thiserror::Error;

/// Why a file has no logical lines.
#[derive(Clone, Copy, Debug, PartialEq, Eq, Error)]
pub enum LineFault {
    /// It has more than `MOST_LINES` physical lines.
    #[error("there are too many lines")]
    TooManyLines,
    /// The physical line of this number, from 1, is the first that has a token with more than `LONGEST_NAME`
    /// name bytes in a row.
    #[error("line {0} has too long a name")]
    LongName(u32),
    /// Memory ran out.
    #[error("out of memory")]
    NoMemory,
}

impl From<AllocError> for LineFault {
    ghost use Rattle.dt_lines.specs.declared.fault.LineFault.TheVariants as faults;

    ghost from_gives = { λ error fault. fault ≡ faults.NoMemory };

    fn from(_error: AllocError) -> LineFault {
        LineFault::NoMemory
    }
}

// The fault of the first line that has one.
pub(crate) fn first_fault(bytes: &[u8]) -> Option<LineFault>
    requires { length bytes.now ≤ LARGEST_FILE }
    ensures { result ≡ option_map variant_of (line_fault bytes.now) }
{
    let mut line = 0;
    let mut at = 0;
    while at < bytes.len() {
        let end = line_end(bytes, at);
        line += 1;
        let found = fault_of(line, &bytes[at..end]);
        if found.is_some() {
            return found;
        }
        at = end + 1;
    }
    None
}

// The fault of a physical line.
fn fault_of(line: u32, text: &[u8]) -> Option<LineFault>
    ensures { result ≡ option_map variant_of (fault_of line text.now) }
{
    if line as usize == MOST_LINES + 1 {
        return Some(LineFault::TooManyLines);
    }
    if has_long_name(text) {
        return Some(LineFault::LongName(line));
    }
    None
}

// Whether some token of a physical line has too long a name.
fn has_long_name(text: &[u8]) -> bool
    ensures { result ≡ has_long_name text.now }
{
    let (bare, _) = text.split_at(comment_start(text));
    has_long_run(bare)
}

// Whether a text has more name bytes in a row than a name has.
fn has_long_run(text: &[u8]) -> bool
    ensures { result ≡ has_long_run text.now }
{
    let mut start = 0;
    for at in 0..text.len() {
        if is_name_byte(text[at]) {
            continue;
        }
        if at - start > LONGEST_NAME {
            return true;
        }
        start = at + 1;
    }
    text.len() - start > LONGEST_NAME
}
