//! What the first token of a line says of it.

ghost use Rattle.std.specs.Prelude.{◌≡◌};
ghost use Rattle.dt_forms.specs.Heads.{head_of, marked_head, named_head};

use dt_scope::Kind;
use dt_values::Name;

/// What a line is by its first token.
#[derive(Clone, Copy, PartialEq, Eq)]
pub enum Head {
    /// `{` or `[`.
    Opens(Kind),
    /// `}` or `]`.
    Closes(Kind),
    /// `%` and a name.
    Field(Name),
    /// `&` and a name.
    Set(Name),
    /// `@` and a name.
    Format(Name),
    /// A name alone.
    Pattern(Name),
    /// None of these.
    None,
}

/// What a line with this first token is.
pub fn head_of(text: &[u8]) -> Head
    ensures { result ≡ head_of text.now }
{
    if text == b"{".as_slice() {
        return Head::Opens(Kind::Brace);
    }
    if text == b"}".as_slice() {
        return Head::Closes(Kind::Brace);
    }
    if text == b"[".as_slice() {
        return Head::Opens(Kind::Bracket);
    }
    if text == b"]".as_slice() {
        return Head::Closes(Kind::Bracket);
    }
    named_head(text)
}

fn named_head(text: &[u8]) -> Head
    ensures { result ≡ named_head text.now }
{
    if let Some(name) = Name::from_bytes(text) {
        return Head::Pattern(name);
    }
    match text.split_first() {
        None => Head::None,
        Some((mark, name)) => marked_head(*mark, name),
    }
}

fn marked_head(mark: u8, name: &[u8]) -> Head
    ensures { result ≡ marked_head mark name.now }
{
    let Some(name) = Name::from_bytes(name) else {
        return Head::None;
    };
    match mark {
        b'%' => Head::Field(name),
        b'&' => Head::Set(name),
        b'@' => Head::Format(name),
        _ => Head::None,
    }
}
