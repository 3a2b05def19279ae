//! Laws of a file's lines: public functions whose contracts are the laws, and whose bodies are empty.

ghost use Rattle.std.specs.Prelude.{◌≤◌, ℕ, List, length, All};
ghost use Rattle.std.specs.List.Sorted.{IsStrictlyIncreasing};
ghost use Rattle.dt_lines.specs.Lines.{physical_lines, logical_lines, placed_lines};
ghost use Rattle.dt_lines.specs.Numbers.{line_numbers, IsFromTo};
ghost use Rattle.dt_lines.specs.Places.{file_spans, LieOnOwnLines};
ghost use Rattle.dt_lines.specs.Spans.{AreSpans};

/// The numbers of a file's logical lines rise, each from 1 to the number of its physical lines.
pub fn law_line_numbers()
    ensures rise { (bytes : List ℕ) → IsStrictlyIncreasing (line_numbers (logical_lines bytes)) }
    ensures from_to { (bytes : List ℕ)
        → All (IsFromTo 1 (length (physical_lines bytes))) (line_numbers (logical_lines bytes)) }
{}

/// The tokens of a logical line lie on its own physical lines. The tokens of a file lie in it, in order over all its
/// lines, none over another.
pub fn law_token_places()
    ensures own_lines { (bytes : List ℕ) → LieOnOwnLines bytes (placed_lines bytes) }
    ensures order { (bytes : List ℕ) → AreSpans (length bytes) (file_spans bytes) }
{}

/// A file has at most as many physical lines as bytes.
pub fn law_lines_within_bytes()
    ensures { (bytes : List ℕ) → length (physical_lines bytes) ≤ length bytes }
{}
