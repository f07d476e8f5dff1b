// Noting a literal, undoing it, and what stands. The noted words are the part of the Rust's `GraphDivision` that
// notifications change; specs/Words.antt says which word is which.
#![tactic(auto)]

pub mod buffers;
pub mod note;
pub mod replay;
pub mod stands;
pub mod undo;

ghost use Rattle.std.specs.Prelude.{◌≡◌, replicate, ℕ, ◌+◌, ◌≤◌, ◌<◌};
ghost use Rattle.base.specs.Lists.{filled};
ghost use Rattle.noting.specs.Words.{edge_state_of, bound_at, lower_of, upper_of, lower_lit_of, upper_lit_of, capped, first_size, last_size, fresh};
ghost use Rattle.noting.specs.Following.{fresh_bounds};
ghost use Rattle.plan.specs.Words.{words_of};

pub const NOTED_WORDS: usize = 384;

pub type Noted = [u32; NOTED_WORDS];

pub fn no_notes() -> Noted
    ensures { result ≡ replicate 384 0 }
{
    [0u32; 384]
}

// An edge's states: the Rust's `EdgeState`.
pub const UNDECIDED: u32 = 0;

pub const DISCONNECTED: u32 = 1;

pub const CONNECTED: u32 = 2;

// The word of a bound that is due to no literal: undo_log::NO_LIT.
pub const NO_BOUND_LIT: u32 = 65535;

#[tactic(auto, unfolding(crate::specs::Words::edge_state_of, base::specs::Iter::pick))]
pub fn edge_state(noted: &Noted, g: usize) -> u32
    ensures { result ≡ edge_state_of noted.now g }
{
    if g < 128 { noted[g] } else { 0 }
}

#[tactic(auto, unfolding(crate::specs::Words::bound_at, base::specs::Iter::pick))]
fn bound_at(noted: &Noted, from: usize, past: u32, v: usize) -> u32
    requires { from + 64 ≤ 384 }
    ensures { result ≡ bound_at from past noted.now v }
{
    if v < 64 { noted[from + v] } else { past }
}

pub fn lower_bound(noted: &Noted, v: usize) -> u32
    ensures { result ≡ lower_of noted.now v }
{
    bound_at(noted, 128, 0, v)
}

pub fn upper_bound(noted: &Noted, v: usize) -> u32
    ensures { result ≡ upper_of noted.now v }
{
    bound_at(noted, 192, 0, v)
}

// The literal that the lower bound is due to, or undo_log::NO_LIT.
pub fn lower_bound_lit(noted: &Noted, v: usize) -> u32
    ensures { result ≡ lower_lit_of noted.now v }
{
    bound_at(noted, 256, NO_BOUND_LIT, v)
}

pub fn upper_bound_lit(noted: &Noted, v: usize) -> u32
    ensures { result ≡ upper_lit_of noted.now v }
{
    bound_at(noted, 320, NO_BOUND_LIT, v)
}

// n, but no more than `most`.
#[tactic(auto, unfolding(crate::specs::Words::capped, base::specs::Iter::pick))]
pub fn capped(n: u32, most: u32) -> usize
    ensures { result ≡ capped n most }
{
    n.min(most) as usize
}

#[tactic(auto, unfolding(crate::specs::Words::first_size, base::specs::Iter::pick))]
fn first_size(plan: &[u8], v: usize) -> u32
    ensures { result ≡ first_size (words_of plan.now) v }
{
    if 0 < plan::domain_len(plan, v) {
        plan::domain(plan, v, 0)
    } else {
        0
    }
}

#[tactic(auto, unfolding(crate::specs::Words::last_size, base::specs::Iter::pick))]
fn last_size(plan: &[u8], v: usize) -> u32
    ensures { result ≡ last_size (words_of plan.now) v }
{
    let len = plan::domain_len(plan, v);
    if 0 < len {
        plan::domain(plan, v, (len - 1) as usize)
    } else {
        2147483647
    }
}

// The n words from `from` on become x.
fn fill(noted: &mut Noted, from: usize, n: usize, x: u32)
    requires { from + n ≤ 384 }
    ensures { noted.new ≡ filled from n (λ _. x) noted.old }
{
    for v in 0..n {
        noted[from + v] = x;
    }
}

// First and last sizes, a vertex at a time.
fn fill_sizes(plan: &[u8], noted: &mut Noted, n: usize)
    requires { n ≤ 64 }
    ensures { noted.new ≡ filled 192 n (last_size (words_of plan.now)) (filled 128 n (first_size (words_of plan.now)) noted.old) }
{
    for i in 0..n {
        let x = first_size(plan, i);
        let y = last_size(plan, i);
        noted[128 + i] = x;
        noted[192 + i] = y;
    }
}

// First and last sizes, and no literals.
pub(crate) fn fresh_bounds(plan: &[u8], noted: &mut Noted)
    ensures { noted.new ≡ fresh_bounds (words_of plan.now) noted.old }
{
    let vertices = capped(plan::num_vertices(plan), 64);
    fill_sizes(plan, noted, vertices);
    fill(noted, 320, vertices, NO_BOUND_LIT);
    fill(noted, 256, vertices, NO_BOUND_LIT);
}

// Nothing noted. Words that the plan does not use stay as they are.
pub fn fresh(plan: &[u8], noted: &mut Noted)
    ensures { noted.new ≡ fresh (words_of plan.now) noted.old }
{
    let edges = capped(plan::num_edges(plan), 128);
    fill(noted, 0, edges, UNDECIDED);
    fresh_bounds(plan, noted);
}
