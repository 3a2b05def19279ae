//! How the line of a definition begins: its first token is a mark, and behind it the name that the line defines.

ghost use Rattle.std.specs.Prelude.{◌≡◌, ◌<◌, ◌∷◌, IsTrue, length};
ghost use Rattle.dt_fields.specs.Heads.{is_marked};

use dt_lines::Span;
use dt_values::Name;

// The first token and the others.
pub(crate) fn split_line(tokens: &[Span]) -> (&Span, &[Span])
    requires { 0 < length tokens.now }
    ensures { tokens.now ≡ result.0.now ∷ result.1.now }
{
    tokens.split_first().unwrap()
}

// The name behind a mark.
pub(crate) fn marked_name(mark: u8, token: &[u8]) -> Name
    requires { IsTrue (is_marked mark token.now) }
    ensures { token.now ≡ mark ∷ result }
{
    let (_, name) = token.split_first().unwrap();
    Name::from_bytes(name).unwrap()
}
