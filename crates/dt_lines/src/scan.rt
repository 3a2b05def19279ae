//! Reads the logical lines of a file: once for its faults, and once for the lines.

ghost use Rattle.std.specs.Prelude.{◌≡◌, ◌↔◌, ◌≤◌, ℕ, length, map, All, Some, None, IfOk, OnOk, IsErrOf};
ghost use Rattle.dt_lines.specs.Lines.{logical_lines, placed_lines};
ghost use Rattle.dt_lines.specs.Spans.{line_seen, logical_spans, AreSpans};
ghost use Rattle.dt_lines.specs.Gathering.{placed_line};
ghost use Rattle.dt_lines.specs.SoFar.{AreLinesOf};
ghost use Rattle.dt_lines.specs.Faults.{line_fault, too_many_lines, long_name};

use crate::fault::{LineFault, first_fault};
use crate::gather::{Gathered, end_line, next_line};
use crate::limits::LARGEST_FILE;
use crate::line::{Logical, Position};
use crate::physical::line_end;
use std::alloc::{AllocError, Global};

/// The logical lines of a file, in order. The tokens are the places in `bytes` where they stand. A file with a fault is
/// refused with the fault of its first line that has one, whether or not there is memory; any other only where memory
/// runs out.
pub fn logical(alloc: Global, file: u16, bytes: &[u8]) -> Result<Vec<Logical>, LineFault>
    requires { length bytes.now ≤ LARGEST_FILE }
    ensures lines { IfOk result (λ lines. map (line_seen bytes.now) lines.items ≡ logical_lines bytes.now) }
    ensures places { IfOk result (λ lines. map (λ l. l.tokens) lines.items ≡ logical_spans bytes.now) }
    ensures spans { IfOk result (λ lines. All (λ l. AreSpans (length bytes.now) l.tokens) lines.items) }
    ensures file { IfOk result (λ lines. All (λ l. l.file ≡ file) lines.items) }
    ensures sound { OnOk result (line_fault bytes.now ≡ None) }
    ensures too_many_lines { IsErrOf result LineFault.TooManyLines ↔ (line_fault bytes.now ≡ Some too_many_lines) }
    ensures long_name { (line : ℕ)
        → IsErrOf result (LineFault.LongName line) ↔ (line_fault bytes.now ≡ Some (long_name line)) }
{
    if let Some(fault) = first_fault(bytes) {
        return Err(fault);
    }
    Ok(read_lines(alloc, file, bytes)?)
}

// The logical lines of a file, whatever their number.
fn read_lines(alloc: Global, file: u16, bytes: &[u8]) -> Result<Vec<Logical>, AllocError>
    requires { length bytes.now ≤ LARGEST_FILE }
    ensures lines { IfOk result (λ lines. map (placed_line bytes.now) lines.items ≡ placed_lines bytes.now) }
    ensures file { IfOk result (λ lines. AreLinesOf file (length bytes.now) lines.items) }
{
    let mut lines = Vec::new(alloc);
    let mut gathered = Gathered::new(alloc);
    let mut line = 0;
    let mut at = 0;
    while at < bytes.len() {
        let end = line_end(bytes, at);
        line += 1;
        let position = Position { file, line };
        gathered = next_line(alloc, &mut lines, gathered, position, bytes, at, end)?;
        at = end + 1;
    }
    if gathered.tokens.is_empty() {
        return Ok(lines);
    }
    // A line that goes on ends at the end of the file.
    end_line(&mut lines, gathered, file)?;
    Ok(lines)
}
