//! The physical lines of a file.

ghost use Rattle.std.specs.Prelude.{◌≡◌, ◌≤◌, length};
ghost use Rattle.dt_lines.specs.Lines.{physical_lines};
ghost use Rattle.dt_lines.specs.SoFar.{IsLineEnd};

use crate::limits::LARGEST_FILE;

/// How many physical lines a file has. A last one without LF counts where it isn't empty.
pub fn line_count(bytes: &[u8]) -> u32
    requires { length bytes.now ≤ LARGEST_FILE }
    ensures { result ≡ length (physical_lines bytes.now) }
{
    let mut count = 0;
    let mut at = 0;
    while at < bytes.len() {
        let end = line_end(bytes, at);
        count += 1;
        at = end + 1;
    }
    count
}

// Where the physical line from a place on ends: at the first LF, or at the end of the file.
pub(crate) fn line_end(bytes: &[u8], at: usize) -> usize
    requires { at ≤ length bytes.now }
    ensures { IsLineEnd bytes.now at result }
{
    for end in at..bytes.len() {
        if bytes[end] == b'\n' {
            return end;
        }
    }
    bytes.len()
}
