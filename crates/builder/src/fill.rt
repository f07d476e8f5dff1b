// Words in a row, each computed from its place.
ghost use Rattle.std.specs.Prelude.{◌≡◌, ℕ, ◌+◌, ◌<◌, ◌≤◌, length};
ghost use Rattle.base.specs.Lists.{filled};

// The n words from `from` on become value(0), value(1), up to value(n - 1), as far as there are words.
pub(crate) fn fill<F: Fn(usize) -> u32>(words: &mut [u32], from: usize, n: usize, value: F)
    requires { (i : ℕ) → i < n → F.pre value i }
    ensures { (f : ℕ → ℕ) → ((i x : ℕ) → i < n → F.post value i x → x ≡ f i) → words.new ≡ filled from n f words.old }
{
    let room = words.len().saturating_sub(from).min(n);
    for i in 0..room {
        words[from + i] = value(i);
    }
}
