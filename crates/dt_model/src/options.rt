//! What the command line says of the decoder.

ghost use Rattle.std.specs.Prelude.{◌≡◌};

use dt_values::{Name, Width};

/// The width of a word; whether words have several widths; the decoder's name and what stands before
/// the translators' names, each with whether it is static. Readers want names of at most 100 bytes
/// that begin with a letter or an underscore and are no C keyword.
#[derive(Clone, Copy, PartialEq, Eq)]
pub struct Options {
    pub width: Width,
    pub variable: bool,
    pub decode: Name,
    pub decode_static: bool,
    pub translate: Name,
    pub translate_static: bool,
}

/// What holds where no word says otherwise: words of 32 bits, the decoder `decode`, translators that begin with
/// `trans`, all static.
impl Default for Options {
    ghost use Rattle.dt_model.specs.Options.{IsOptions, default_options};

    fn default() -> Options
        ensures value { result ≡ default_options }
        ensures kept { IsOptions result }
    {
        Options {
            width: Width::W32,
            variable: false,
            decode: Name::from_bytes(b"decode").unwrap(),
            decode_static: true,
            translate: Name::from_bytes(b"trans").unwrap(),
            translate_static: true,
        }
    }
}
