// Numbers with a sign in byte slices, the lowest byte first. A byte that is missing counts as 0.
ghost use Rattle.std.specs.Prelude.{◌≡◌, ℕ, ◌+◌, ◌*◌, ◌<◌, ◌≤◌, negsuc, length, get_or, set};
ghost use Rattle.base.specs.Iter.{iter};
ghost use Rattle.base.specs.Bytes.{word_at};
ghost use Rattle.byte_calls.specs.Numbers.{signed_of, int_at};

fn byte_at(bytes: &[u8], at: usize) -> u8
    ensures { result ≡ get_or bytes.now at 0 }
{
    bytes.get(at).copied().unwrap_or(0)
}

fn number_word(bytes: &[u8], at: usize) -> u32
    requires { at ≤ 17152 }
    ensures { result ≡ word_at bytes.now at }
{
    u32::from_le_bytes([
        byte_at(bytes, at),
        byte_at(bytes, at + 1),
        byte_at(bytes, at + 2),
        byte_at(bytes, at + 3),
    ])
}

fn int_at(bytes: &[u8], i: usize) -> i32
    requires { i < 4288 }
    ensures { result ≡ int_at bytes.now i }
{
    number_word(bytes, 4 * i).cast_signed()
}

// The first n numbers.
pub(crate) fn read_numbers(bytes: &[u8], n: usize, numbers: &mut [i32])
    requires { (n ≤ 4288) × (n ≤ length numbers.old) }
    ensures { numbers.new ≡ iter (λ i l. set l i (int_at bytes.now i)) n numbers.old }
{
    for i in 0..n {
        numbers[i] = int_at(bytes, i);
    }
}
