//! Names of patterns, fields, formats, sets and arguments.

ghost use Rattle.std.specs.Prelude.{◌≡◌, ℕ, List, ◌≤◌, length, nat_eq};
ghost use Rattle.std.specs.Option.{SomeIff};
ghost use Rattle.std.specs.List.{list_all};
ghost use Rattle.std.specs.Cmp.{partial_equiv_from_equiv};
ghost use Rattle.std.specs.Cmp.Lexicographic.{pointwise, nat_list_eq_equiv};
ghost use Rattle.std.specs.Cmp.Rules.{hashing};
ghost use Rattle.std.specs.Hash as fed;
ghost use Rattle.std.proofs.Common.{rules};
ghost use Rattle.dt_values.specs.Names.{IsName, is_name, is_name_byte, name_array};

use std::hash::{Hash, Hasher};
use std::marker::Model;
use std::{fmt, str};

/// The most bytes that a name has.
pub const LONGEST_NAME: usize = 128;

/// A name: 1 to 128 letters, digits and underscores, the language's name bytes. Contracts see the list of its bytes.
#[derive(Clone, Copy, Debug)]
pub struct Name {
    bytes: [u8; LONGEST_NAME],
    len: u8,
}

impl Model for Name {
    ghost use Rattle.std.specs.Prelude.{◌≡◌, ℕ, List, ◌≤◌, ◌-◌, length, take};
    ghost use Rattle.dt_values.specs.Names.{IsName, name_array};

    ghost Value = { List ℕ };

    ghost view = { λ s. take s.len s.bytes };

    ghost invariant = { λ s.
        IsName (take s.len s.bytes)
        × (length (take s.len s.bytes) ≡ s.len)
        × (name_array (take s.len s.bytes) ≡ s.bytes) };

    ghost inverse = { λ d. record { bytes = name_array d; len = length d } };

    ghost inverse_ok = { λ s h i. record { bytes = h.2 i; len = h.1 i } };
}

impl Name {
    /// The name with these bytes. None where they are no name: there are none or more than 128, or one is no name byte.
    pub fn from_bytes(bytes: &[u8]) -> Option<Name>
        ensures { SomeIff result (IsName bytes.now) bytes.now }
    {
        if bytes.len() > LONGEST_NAME || !is_name(bytes) {
            return None;
        }
        Some(Name {
            bytes: name_array(bytes),
            len: bytes.len() as u8,
        })
    }

    /// The name's bytes.
    pub fn bytes(&self) -> &[u8]
        ensures value { result.now ≡ self.now }
        ensures name { IsName result.now }
    {
        &self.bytes[..self.len as usize]
    }

    /// The name as text.
    #[tactic(auto, using(crate::proofs::NameText::name_is_text))]
    pub fn as_str(&self) -> &str
        ensures { result.now ≡ self.now }
    {
        str::from_utf8(self.bytes()).unwrap()
    }
}

impl fmt::Display for Name {
    ghost use Rattle.std.specs.Prelude.{Some};

    ghost output = { λ name. Some name };

    fn fmt<W: fmt::Write>(&self, f: &mut fmt::Formatter<W>) -> fmt::Result {
        f.write_str(self.as_str())
    }
}

/// Whether the byte is a letter, a digit or an underscore.
pub fn is_name_byte(byte: u8) -> bool
    ensures { result ≡ is_name_byte byte }
{
    byte.is_ascii_alphanumeric() || byte == b'_'
}

// The bytes, and zeros behind them.
fn name_array(bytes: &[u8]) -> [u8; LONGEST_NAME]
    requires { length bytes.now ≤ LONGEST_NAME }
    ensures { result ≡ name_array bytes.now }
{
    let mut kept = [0; LONGEST_NAME];
    kept[..bytes.len()].copy_from_slice(bytes);
    kept
}

fn is_name(bytes: &[u8]) -> bool
    ensures { result ≡ is_name bytes.now }
{
    !bytes.is_empty() && bytes.len() <= LONGEST_NAME && has_name_bytes(bytes)
}

fn has_name_bytes(bytes: &[u8]) -> bool
    ensures { result ≡ list_all is_name_byte bytes.now }
{
    bytes.iter().all(|byte| is_name_byte(*byte))
}

impl PartialEq for Name {
    ghost eq = { pointwise nat_eq };

    ghost laws = { partial_equiv_from_equiv nat_list_eq_equiv };

    fn eq(&self, other: &Name) -> bool {
        self.bytes() == other.bytes()
    }
}

impl Eq for Name {
    ghost laws = { nat_list_eq_equiv };
}

impl Hash for Name {
    ghost hash_input = { fed.slice fed.u8 };

    ghost respects_eq = { Prim.search (hashing, rules) };

    fn hash<H: Hasher>(&self, state: &mut H) {
        self.bytes().hash(state);
    }
}
