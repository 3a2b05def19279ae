//! What an argument of a C type stores of a number (C17, 6.3.1.3; gcc, "Integers implementation").

ghost use Rattle.std.specs.Prelude.{◌≡◌};
ghost use Rattle.dt_values.specs.Stored.{stored};

use crate::bits::{read_signed, residue};
use crate::ctype::CType;

/// The number that an argument of this type holds after `v` is assigned to it: `int`, which has 32 bits, and the types
/// of fixed size reduce it to their range, and any other type keeps it.
pub fn store(ctype: CType, v: i128) -> i128
    ensures { result ≡ stored ctype v }
{
    match ctype {
        CType::Int => read_signed(residue(32, v), 32),
        CType::I8 => read_signed(residue(8, v), 8),
        CType::I16 => read_signed(residue(16, v), 16),
        CType::I32 => read_signed(residue(32, v), 32),
        CType::I64 => read_signed(residue(64, v), 64),
        CType::U8 => i128::from(residue(8, v)),
        CType::U16 => i128::from(residue(16, v)),
        CType::U32 => i128::from(residue(32, v)),
        CType::U64 => i128::from(residue(64, v)),
        CType::Other(_) => v,
    }
}
