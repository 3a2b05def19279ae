//! Names for the C text.

ghost use Rattle.std.specs.Prelude.{◌≡◌, IfSome};
ghost use Rattle.std.specs.List.{list_all};
ghost use Rattle.dt_values.specs.Names.{is_name_byte};
ghost use Rattle.dt_model.specs.Options.{IsOptionName, begins_as_name};
ghost use Rattle.dt_words.specs.Values.{is_option_name, option_name};

use dt_fields::number::is_keyword;
use dt_values::Name;
use dt_values::name::is_name_byte;

/// The most bytes of a name for the C text.
pub const LONGEST_OPTION_NAME: usize = 100;

/// The name for the C text that the text is.
pub fn option_name(text: &[u8]) -> Option<Name>
    ensures value { result ≡ option_name text.now }
    ensures kept { IfSome result IsOptionName }
{
    if !is_option_name(text) {
        return None;
    }
    Name::from_bytes(text)
}

fn is_option_name(text: &[u8]) -> bool
    ensures { result ≡ is_option_name text.now }
{
    begins_as_name(text)
        && has_name_bytes(text)
        && text.len() <= LONGEST_OPTION_NAME
        && !is_keyword(text)
}

fn begins_as_name(text: &[u8]) -> bool
    ensures { result ≡ begins_as_name text.now }
{
    match text.first() {
        None => false,
        Some(byte) => byte.is_ascii_alphabetic() || *byte == b'_',
    }
}

fn has_name_bytes(text: &[u8]) -> bool
    ensures { result ≡ list_all is_name_byte text.now }
{
    text.iter().all(|byte| is_name_byte(*byte))
}
