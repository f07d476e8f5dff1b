// What every crate may need: range tests on numbers from outside, small sums, entries of slices. The definitions of loops stand in specs/.
#![tactic(auto)]

pub mod fill;
pub mod refusal;
pub mod slices;

ghost use Rattle.std.specs.Prelude.{◌≡◌, pred, ◌+◌, ◌*◌};
ghost use Rattle.std.specs.Int.Signed.{lt_z, le_z};
ghost use Rattle.base.specs.Range.{in_range, to_nat};

// Whether n lies from 0 to `most`.
pub fn in_range(n: i32, most: i32) -> bool
    ensures { result ≡ in_range most n }
{
    0 <= n && n <= most
}

// n itself, and 0 for a negative number.
pub fn to_nat(n: i32) -> u32
    ensures { result ≡ to_nat n }
{
    if n < 0 { 0 } else { n as u32 }
}

// 0 for 0.
pub fn less_one(k: usize) -> usize
    ensures { result ≡ pred k }
{
    k.saturating_sub(1)
}

pub fn wide(x: u8) -> u32
    ensures { result ≡ x }
{
    u32::from(x)
}

// The number of four bytes, the lowest first.
pub fn word_of(a: u8, b: u8, c: u8, d: u8) -> u32
    ensures { result ≡ a + 256 * b + 65536 * c + 16777216 * d }
{
    u32::from_le_bytes([a, b, c, d])
}
