// `fill` of a closure, as another crate calls it, by public names alone: a type of its own keeps the closure beside the
// fact that it may be called for each place below n.
ghost use Rattle.std.specs.Prelude.{◌≡◌, ℕ, ◌<◌};
ghost use Rattle.base.specs.Lists.{filled};

use super::{Words, fill};
use std::marker::Model;
use std::test::Fail;

// A closure of a place, as a trait: the invariant of an `impl Model` can name `takes`, and not the `pre` of a bound `Fn`.
trait Place {
    ghost takes: { Self → ℕ → Type 0 };

    ghost may_give: { Self → ℕ → ℕ → Type 0 };

    fn word_at(&self, i: usize) -> u32
        requires { takes self.now i }
        ensures { may_give self.now i result };
}

impl<F: Fn(usize) -> u32> Place for F {
    ghost takes = { λ f i. F.pre f i };

    ghost may_give = { λ f i x. F.post f i x };

    fn word_at(&self, i: usize) -> u32 {
        self(i)
    }
}

// A closure that may be called for each place below n. Past n its word is 0, which `fill` does not ask for.
#[derive(Drop)]
struct Row<P: Place + Drop> {
    n: usize,
    value: P,
}

impl<P: Place + Drop> Model for Row<P> {
    ghost Value = { ℕ × P };

    ghost view = { λ row. (row.n, row.value) };

    ghost invariant = { λ row. (i : ℕ) → i < row.n → P.takes row.value i };
}

impl<P: Place + Drop> Words for Row<P> {
    ghost gives = { λ row i x. i < row.0 → P.may_give row.1 i x };

    fn word(&self, i: usize) -> u32 {
        if i < self.n { self.value.word_at(i) } else { 0 }
    }
}

// A `Row` is made where the bound is `Place`: the check does not cover the call where it is `Fn`.
fn fill_places<P: Place + Drop>(words: &mut [u32], from: usize, n: usize, value: P)
    requires { (i : ℕ) → i < n → P.takes value i }
    ensures { (f : ℕ → ℕ) → ((i x : ℕ) → i < n → P.may_give value i x → x ≡ f i) → words.new ≡ filled from n f words.old }
{
    fill(words, from, n, &Row { n, value });
}

// Lends a closure, which has to be one that may be called.
fn fill_by<F: Fn(usize) -> u32>(words: &mut [u32], from: usize, n: usize, value: F)
    requires { (i : ℕ) → i < n → F.pre value i }
    ensures { (f : ℕ → ℕ) → ((i x : ℕ) → i < n → F.post value i x → x ≡ f i) → words.new ≡ filled from n f words.old }
{
    fill_places(words, from, n, value)
}

// Nothing where the words are the wanted ones; else both, which the test then prints.
fn same(words: [u32; 6], want: [u32; 6]) -> Result<(), ([u32; 6], [u32; 6])> {
    if words == want {
        Ok(())
    } else {
        Err((words, want))
    }
}

#[test]
fn fills_by_a_closure() -> Result<(), Fail> {
    let weights = [5u32, 6, 7, 8];
    for (from, n, want) in [
        (1, 3usize, [1, 5, 6, 7, 1, 1]),
        (0, 4, [5, 6, 7, 8, 1, 1]),
        (4, 4, [1, 1, 1, 1, 5, 6]),
        (6, 4, [1, 1, 1, 1, 1, 1]),
        (9, 4, [1, 1, 1, 1, 1, 1]),
        (2, 0, [1, 1, 1, 1, 1, 1]),
    ] {
        let mut words = [1u32; 6];
        fill_by(&mut words, from, n.min(4), |i| weights[i]);
        same(words, want)?;
    }
    Ok(())
}

// The same word for every place: no fact is needed.
#[derive(Drop)]
struct Constant {
    word: u32,
}

impl Words for Constant {
    ghost gives = { λ c _ x. x ≡ c.word };

    fn word(&self, _i: usize) -> u32 {
        self.word
    }
}

#[test]
fn fills_with_one_word() -> Result<(), Fail> {
    let mut words = [1u32; 6];
    fill(&mut words, 2, 3, &Constant { word: 7 });
    same(words, [1, 1, 7, 7, 7, 1])?;
    Ok(())
}
