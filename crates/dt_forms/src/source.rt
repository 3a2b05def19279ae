//! A file with the lines that were read of it.

ghost use Rattle.std.specs.Prelude.{◌≡◌, ◌≤◌, None, Err, vec_len, IfErr, IfOk, OnOk};
ghost use Rattle.dt_forms.specs.FileFaults.{file_fault, line_broken, model_fault};
ghost use Rattle.dt_forms.specs.Sources.{IsSourceAt};
ghost use Rattle.dt_forms.specs.View.{FileBroken};

use crate::fault::{Fault, ModelFault};
use dt_fields::{Detail, Rule};
use dt_lines::scan::logical;
use dt_lines::{LARGEST_FILE, LineFault, Logical, MOST_LINES, line_count};
use dt_values::Items;
use std::alloc::Global;

/// The bytes of a file. Contracts see the list of them.
pub type ByteList = Items<u8>;

/// The logical lines of a file, in order. Contracts see the list of them.
pub type LineList = Items<Logical>;

/// A file: its bytes, its logical lines, and the number of its last physical line, 0 where there is none.
#[derive(Drop)]
pub struct Source {
    pub bytes: ByteList,
    pub lines: LineList,
    pub last_line: u32,
}

impl Source {
    /// The file of these bytes, as the one at a place among all files, from 0. Broken has rule K1 or K2, whether or not
    /// there is memory.
    pub fn read(alloc: Global, file: u16, bytes: Vec<u8>) -> Result<Source, ModelFault>
        requires { vec_len bytes ≤ LARGEST_FILE }
        ensures source { IfOk result (IsSourceAt file) }
        ensures bytes { IfOk result (λ source. source.bytes ≡ bytes.items) }
        ensures kept { OnOk result (file_fault file bytes.items ≡ None) }
        ensures broken { IfErr result (λ fault. FileBroken bytes.items file fault (file_fault file bytes.items)) }
        ensures memory { result ≡ Err ModelFault.NoMemory → file_fault file bytes.items ≡ None }
    {
        let lines = match logical(alloc, file, bytes.as_slice()) {
            Ok(lines) => lines,
            Err(fault) => return Err(model_fault(file, fault)),
        };
        let last_line = line_count(bytes.as_slice());
        Ok(Source {
            bytes: ByteList::of(bytes),
            lines: LineList::of(lines),
            last_line,
        })
    }
}

// A fault of a file's lines, as one of the file at a place.
fn model_fault(file: u16, fault: LineFault) -> ModelFault
    ensures { result ≡ model_fault file fault }
{
    match fault {
        LineFault::TooManyLines => line_broken(file, MOST_LINES as u32 + 1, Rule::K1),
        LineFault::LongName(line) => line_broken(file, line, Rule::K2),
        LineFault::NoMemory => ModelFault::NoMemory,
    }
}

// A rule that a whole line breaks.
fn line_broken(file: u16, line: u32, rule: Rule) -> ModelFault
    ensures { result ≡ line_broken file line rule }
{
    ModelFault::Broken(Fault {
        file,
        line,
        rule,
        detail: Detail::None,
    })
}
