//! What stands at a position in the files.

ghost use Rattle.std.specs.Prelude.{◌≡◌, length, map, All, AllPairs};
ghost use Rattle.dt_lines.specs.Spans.{AreSpans, IsWithin, line_seen, text_at};
ghost use Rattle.dt_forms.specs.Positions.{IsLineBefore, IsSpanOf, first_token_at, first_token_in, leading_token};
ghost use Rattle.dt_forms.specs.Sources.{AreSources};
ghost use Rattle.dt_forms.specs.View.{texts_of};

use crate::source::Source;
use dt_lines::{Logical, Position, Span};

/// The first token of the line at a position. It is empty where no line stands there, or one without tokens.
pub fn first_token(sources: &[Source], position: Position) -> &[u8]
    requires { AreSources sources.now }
    ensures { result.now ≡ first_token_at (texts_of sources.now) position }
{
    match sources.get(position.file as usize) {
        Some(source) => token_of_line(source.bytes.items(), source.lines.items(), position.line),
        None => &[],
    }
}

// The first token of the line of this number in a file.
fn token_of_line<'a>(bytes: &'a [u8], lines: &[Logical], number: u32) -> &'a [u8]
    requires in_order { AllPairs IsLineBefore lines.now }
    requires spans { All (λ l. AreSpans (length bytes.now) l.tokens) lines.now }
    ensures { result.now ≡ first_token_in (map (line_seen bytes.now) lines.now) number }
{
    match span_of_line(bytes, lines, number) {
        Some(span) => span.text(bytes),
        None => &[],
    }
}

/// Where the first token of the line of this number lies in a file of these bytes.
pub fn span_of_line(bytes: &[u8], lines: &[Logical], number: u32) -> Option<Span>
    requires in_order { AllPairs IsLineBefore lines.now }
    requires spans { All (λ l. AreSpans (length bytes.now) l.tokens) lines.now }
    ensures { IsSpanOf bytes.now result (first_token_in (map (line_seen bytes.now) lines.now) number) }
{
    match lines.binary_search_by_key(&number, |line| line.line) {
        Ok(at) => leading_span(bytes, lines[at].tokens.items()),
        Err(_) => None,
    }
}

// Where the first of these tokens lies.
fn leading_span(bytes: &[u8], tokens: &[Span]) -> Option<Span>
    requires { All (IsWithin (length bytes.now)) tokens.now }
    ensures { IsSpanOf bytes.now result (leading_token (map (text_at bytes.now) tokens.now)) }
{
    match tokens.split_first() {
        Some((first, _)) => Some(*first),
        None => None,
    }
}
