// Numbers in byte slices, the lowest byte first.
ghost use Rattle.std.specs.Prelude.{◌≡◌, ℕ, ◌+◌, ◌*◌, ◌<◌, ◌≤◌, length, get_or};
ghost use Rattle.base.specs.Lists.{filled};
ghost use Rattle.base.specs.Bytes.{word_at, long_at, put_half, put_word, put_long, put_halves, put_words, put_longs};

pub(crate) fn word_at(bytes: &[u8], at: usize) -> u32
    requires { at + 4 ≤ length bytes.now }
    ensures { result ≡ word_at bytes.now at }
{
    u32::from_le_bytes([bytes[at], bytes[at + 1], bytes[at + 2], bytes[at + 3]])
}

pub(crate) fn long_at(bytes: &[u8], at: usize) -> u64
    requires { at + 8 ≤ length bytes.now }
    ensures { result ≡ long_at bytes.now at }
{
    let low = u64::from(word_at(bytes, at));
    let high = u64::from(word_at(bytes, at + 4));
    low + 4294967296 * high
}

// Words `from` to `from + n - 1` of those that stand at `at`.
pub(crate) fn read_words(bytes: &[u8], at: usize, from: usize, n: usize, words: &mut [u32])
    requires { (at + 4 * (from + n) ≤ length bytes.now) × (from + n ≤ length words.old) }
    ensures { words.new ≡ filled from n (λ i. word_at bytes.now (at + 4 * (from + i))) words.old }
{
    for i in 0..n {
        words[from + i] = word_at(bytes, at + 4 * (from + i));
    }
}

// The first n longs.
pub(crate) fn read_longs(bytes: &[u8], n: usize, words: &mut [u64])
    requires { (8 * n ≤ length bytes.now) × (n ≤ length words.old) }
    ensures { words.new ≡ filled 0 n (λ i. long_at bytes.now (8 * i)) words.old }
{
    for i in 0..n {
        words[i] = long_at(bytes, 8 * i);
    }
}

fn put_half(bytes: &mut [u8], at: usize, x: u32)
    requires { at + 2 ≤ length bytes.old }
    ensures { bytes.new ≡ put_half at x bytes.old }
{
    bytes[at..at + 2].copy_from_slice(&x.to_le_bytes()[..2]);
}

pub(crate) fn put_word(bytes: &mut [u8], at: usize, x: u32)
    requires { at + 4 ≤ length bytes.old }
    ensures { bytes.new ≡ put_word at x bytes.old }
{
    bytes[at..at + 4].copy_from_slice(&x.to_le_bytes());
}

pub(crate) fn put_long(bytes: &mut [u8], at: usize, x: u64)
    requires { at + 8 ≤ length bytes.old }
    ensures { bytes.new ≡ put_long at x bytes.old }
{
    put_word(bytes, at, (x % 4294967296) as u32);
    put_word(bytes, at + 4, (x / 4294967296 % 4294967296) as u32);
}

// The first n of the list, in 2 bytes each.
pub(crate) fn write_halves(bytes: &mut [u8], list: &[u32], n: usize)
    requires { (2 * n ≤ length bytes.old) × (n ≤ length list.now) }
    ensures { bytes.new ≡ put_halves list.now n bytes.old }
{
    for i in 0..n {
        put_half(bytes, 2 * i, list[i]);
    }
}

// The first n words, from `at` on.
pub(crate) fn write_words(bytes: &mut [u8], at: usize, words: &[u32], n: usize)
    requires { (at + 4 * n ≤ length bytes.old) × (n ≤ length words.now) }
    ensures { bytes.new ≡ put_words at words.now n bytes.old }
{
    for i in 0..n {
        put_word(bytes, at + 4 * i, words[i]);
    }
}

// The n longs from number `from` on, each in its place.
pub(crate) fn write_longs(bytes: &mut [u8], words: &[u64], from: usize, n: usize)
    requires { (8 * (from + n) ≤ length bytes.old) × (from + n ≤ length words.now) }
    ensures { bytes.new ≡ put_longs words.now from n bytes.old }
{
    for i in 0..n {
        put_long(bytes, 8 * (from + i), words[from + i]);
    }
}
