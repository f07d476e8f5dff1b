// Words in a row, each computed from its place.
ghost use Rattle.std.specs.Prelude.{◌≡◌, ℕ, ◌+◌, ◌<◌, ◌≤◌, ◌⊎◌, length, slice_index};
ghost use Rattle.base.specs.Lists.{filled};

// A word for every place.
pub trait Words {
    // What the word of a place may be.
    ghost gives: { Self → ℕ → ℕ → Type 0 };

    fn word(&self, i: usize) -> u32
        ensures { gives self.now i result };
}

// The n words from `from` on become value's words of the places 0, 1, up to n - 1, as far as there are words.
pub fn fill<W: Words>(words: &mut [u32], from: usize, n: usize, value: &W)
    ensures filled { (f : ℕ → ℕ) → ((i x : ℕ) → i < n → W.gives value.now i x → x ≡ f i) → words.new ≡ filled from n f words.old }
    ensures given { (i : ℕ) → i < n → from + i < length words.old → W.gives value.now i (slice_index words.new (from + i)) }
    ensures kept { (k : ℕ) → (k < from) ⊎ (from + n ≤ k) → slice_index words.new k ≡ slice_index words.old k }
{
    let room = words.len().saturating_sub(from).min(n);
    for i in 0..room {
        words[from + i] = value.word(i);
    }
}

#[cfg(test)]
mod tests;
