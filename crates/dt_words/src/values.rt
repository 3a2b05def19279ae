//! Values of options and operands.

ghost use Rattle.std.specs.Prelude.{◌≡◌, Some, None, if◌then◌else◌};
ghost use Rattle.dt_words.specs.Values.{value_fault, width_of, width_of_number};

use crate::names::option_name;
use crate::numbers::number_of;
use crate::rows::ValueKind;
use crate::script::is_script;
use crate::usage::Usage;
use dt_values::Width;

/// What is wrong with a value of this kind.
pub fn value_fault(kind: ValueKind, text: &str) -> Option<Usage>
    ensures { result ≡ value_fault kind text.now }
{
    match kind {
        ValueKind::Flag | ValueKind::Text => None,
        ValueKind::Name => match option_name(text.as_bytes()) {
            Some(_) => None,
            None => Some(Usage::U8),
        },
        ValueKind::Width => width_fault(text),
        ValueKind::Number => wrong_unless(number_of(text.as_bytes()).is_some()),
        ValueKind::Script => wrong_unless(is_script(text)),
    }
}

// What can't be read is faulty.
fn wrong_unless(read: bool) -> Option<Usage>
    ensures { result ≡ (if read then None else Some Usage.U4) }
{
    if read { None } else { Some(Usage::U4) }
}

fn width_fault(text: &str) -> Option<Usage>
    ensures { result ≡ value_fault ValueKind.Width text.now }
{
    if number_of(text.as_bytes()).is_none() {
        return Some(Usage::U4);
    }
    match width_of(text) {
        Some(_) => None,
        None => Some(Usage::U5),
    }
}

/// The width that the text is.
pub fn width_of(text: &str) -> Option<Width>
    ensures { result ≡ width_of text.now }
{
    match number_of(text.as_bytes()) {
        Some(number) => width_of_number(number),
        None => None,
    }
}

fn width_of_number(number: u64) -> Option<Width>
    ensures { result ≡ width_of_number number }
{
    match number {
        16 => Some(Width::W16),
        32 => Some(Width::W32),
        64 => Some(Width::W64),
        _ => None,
    }
}
