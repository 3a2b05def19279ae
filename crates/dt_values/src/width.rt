//! The width of an instruction word.

ghost use Rattle.std.specs.Prelude.{◌≡◌};

/// How many bits an instruction word has.
#[derive(Clone, Copy, PartialEq, Eq)]
pub enum Width {
    W16,
    W32,
    W64,
}

impl Width {
    ghost use Rattle.dt_values.specs.Widths.{width_bits};

    /// The number of bits: 16, 32 or 64.
    pub fn bits(self) -> u32
        ensures { result ≡ width_bits self }
    {
        match self {
            Width::W16 => 16,
            Width::W32 => 32,
            Width::W64 => 64,
        }
    }
}
