//! Bits of a word: taken out, read with a sign, and put in (QEMU, include/qemu/bitops.h).

ghost use Rattle.std.specs.Prelude.{◌≡◌, ℕ, ◌+◌, ◌%◌, ◌^◌, ◌<◌, ◌≤◌, ◌⊎◌, pos};
ghost use Rattle.dt_values.specs.BitFields.{bits_at, signed, deposited, residue};

/// The `length` bits of `v` from bit `start` up, as a number without a sign. Bit 0 is the lowest.
pub fn extract(v: u64, start: u32, length: u32) -> u64
    requires some { 1 ≤ length }
    requires inside { start + length ≤ 64 }
    ensures { result ≡ bits_at v start length }
{
    low_bits(v >> start, length)
}

/// The `length` bits of `v` from bit `start` up, as a signed number: the highest of them is its sign.
#[tactic(auto, using(crate::proofs::Parts::bits_below))]
pub fn sextract(v: u64, start: u32, length: u32) -> i64
    requires some { 1 ≤ length }
    requires inside { start + length ≤ 64 }
    ensures { result ≡ signed length (bits_at v start length) }
{
    read_signed(extract(v, start, length), length) as i64
}

/// `v`, a word of `n` bits, with the low `length` bits of `f` in the place of its own from bit `start` up.
pub fn deposit(n: u32, v: u64, start: u32, length: u32, f: u64) -> u64
    requires size { (n ≡ 32) ⊎ (n ≡ 64) }
    requires word { v < 2 ^ n }
    requires some { 1 ≤ length }
    requires inside { start + length ≤ n }
    ensures value { result ≡ deposited v start length f }
    ensures word { result < 2 ^ n }
{
    let old = extract(v, start, length) << start;
    let new = low_bits(f, length) << start;
    v - old + new
}

/// The number modulo 2 to the number of bits.
#[tactic(auto, using(crate::proofs::Parts::residue_below))]
pub fn residue(bits: u32, v: i128) -> u64
    requires { bits ≤ 64 }
    ensures value { result ≡ residue bits v }
    ensures below { result < 2 ^ bits }
{
    v.rem_euclid(power(bits)) as u64
}

/// The signed number that these `length` bits are: the highest of them is its sign.
pub fn read_signed(bits: u64, length: u32) -> i128
    requires some { 1 ≤ length }
    requires inside { length ≤ 64 }
    requires below { bits < 2 ^ length }
    ensures { result ≡ signed length bits }
{
    let bits = i128::from(bits);
    let all = power(length);
    if 2 * bits >= all { bits - all } else { bits }
}

// The number that the low bits of `v` are.
fn low_bits(v: u64, length: u32) -> u64
    requires some { 1 ≤ length }
    requires inside { length ≤ 64 }
    ensures { result ≡ v % 2 ^ length }
{
    v & (u64::MAX >> (64 - length))
}

// 2 to the number of bits.
fn power(bits: u32) -> i128
    requires { bits ≤ 64 }
    ensures { result ≡ pos (2 ^ bits) }
{
    (1u128 << bits) as i128
}
