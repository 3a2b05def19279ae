//! The C types of arguments.

ghost use Rattle.std.specs.Prelude.{◌≡◌, ℕ, List};
ghost use Rattle.dt_values.specs.Types.{type_of, type_name};

use crate::name::Name;

/// The type of an argument: `int`, one of the eight types of fixed size of `stdint.h`, or another name.
#[derive(Clone, Copy, PartialEq, Eq)]
pub enum CType {
    Int,
    I8,
    I16,
    I32,
    I64,
    U8,
    U16,
    U32,
    U64,
    Other(Name),
}

impl CType {
    /// The type of this C name.
    pub fn of(name: Name) -> CType
        ensures { result ≡ type_of name }
    {
        let text = name.bytes();
        if text == b"int".as_slice() {
            return CType::Int;
        }
        if text == b"int8_t".as_slice() {
            return CType::I8;
        }
        if text == b"int16_t".as_slice() {
            return CType::I16;
        }
        if text == b"int32_t".as_slice() {
            return CType::I32;
        }
        if text == b"int64_t".as_slice() {
            return CType::I64;
        }
        if text == b"uint8_t".as_slice() {
            return CType::U8;
        }
        if text == b"uint16_t".as_slice() {
            return CType::U16;
        }
        if text == b"uint32_t".as_slice() {
            return CType::U32;
        }
        if text == b"uint64_t".as_slice() {
            return CType::U64;
        }
        CType::Other(name)
    }

    /// The type's C name.
    pub fn name(self) -> Name
        ensures { result ≡ type_name self }
    {
        match self {
            CType::Int => Name::from_bytes(b"int").unwrap(),
            CType::I8 => Name::from_bytes(b"int8_t").unwrap(),
            CType::I16 => Name::from_bytes(b"int16_t").unwrap(),
            CType::I32 => Name::from_bytes(b"int32_t").unwrap(),
            CType::I64 => Name::from_bytes(b"int64_t").unwrap(),
            CType::U8 => Name::from_bytes(b"uint8_t").unwrap(),
            CType::U16 => Name::from_bytes(b"uint16_t").unwrap(),
            CType::U32 => Name::from_bytes(b"uint32_t").unwrap(),
            CType::U64 => Name::from_bytes(b"uint64_t").unwrap(),
            CType::Other(name) => name,
        }
    }
}

/// An argument of a set.
#[derive(Clone, Copy, PartialEq, Eq)]
pub struct Member {
    pub ctype: CType,
    pub name: Name,
}

/// The name of the type of a name is that name.
pub fn law_names_of_types()
    ensures { (name : List ℕ) → type_name (type_of name) ≡ name }
{}
