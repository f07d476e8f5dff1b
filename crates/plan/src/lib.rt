// The plan: its words, which the builder fills and every call reads, and the plan's own test. A call is lent them as bytes, so that
// a C host's are read where they are and nothing is decoded.
// Reading a plan's words. specs/Words.antt says which word is which; every function answers 0 past its limits.
#![tactic(auto)]

pub mod bytes;
pub mod check;

ghost use Rattle.std.specs.Prelude.{◌≡◌, ◌+◌, ◌*◌, ◌/◌, ◌%◌, ◌<◌, ◌≤◌};
ghost use Rattle.plan.specs.Words.{words_of, entry, cell, word, vertices_of, edges_of, same_size_of, extra_walls_of, variables_of, slots_of, mark_of, weight_of, domain_len_of, domain_of, lit_of, dom_lit_of, edge_lit_of, place_of, position_of, variable_at, start_at, occurrence_at, unique_lit_at};

// Its length is said again where a proof needs the number.
pub const PLAN_WORDS: usize = 15241;

pub type Plan = [u32; PLAN_WORDS];

// Word 6 of every plan that is built, the version of its layout.
pub const BUILT: u32 = 1;

// Fewer bytes than a plan has hold no words: each counts as 0.
#[tactic(auto, using(crate::proofs::Reading::word_in, crate::proofs::Reading::word_none), unfolding(base::specs::Bytes::word_at))]
pub(crate) fn word(plan: &[u8], i: usize) -> u32
    requires { i < 15241 }
    ensures { result ≡ word (words_of plan.now) i }
{
    if plan.len() < 60964 {
        return 0;
    }
    let at = 4 * i;
    u32::from_le_bytes([plan[at], plan[at + 1], plan[at + 2], plan[at + 3]])
}

#[tactic(auto, unfolding(crate::specs::Words::entry, base::specs::Iter::pick))]
fn entry(plan: &[u8], from: usize, n: usize, i: usize) -> u32
    requires { from + n ≤ 15241 }
    ensures { result ≡ entry from n (words_of plan.now) i }
{
    if i < n { word(plan, from + i) } else { 0 }
}

#[tactic(auto, unfolding(crate::specs::Words::cell, base::specs::Iter::pick))]
fn cell(plan: &[u8], from: usize, v: usize, j: usize) -> u32
    requires { from + 2048 ≤ 15241 }
    ensures { result ≡ cell from (words_of plan.now) v j }
{
    if v < 64 && j < 32 {
        word(plan, from + 32 * v + j)
    } else {
        0
    }
}

pub fn num_vertices(plan: &[u8]) -> u32
    ensures { result ≡ vertices_of (words_of plan.now) }
{
    word(plan, 0)
}

pub fn num_edges(plan: &[u8]) -> u32
    ensures { result ≡ edges_of (words_of plan.now) }
{
    word(plan, 1)
}

pub fn disallow_adjacent_same_size_regions(plan: &[u8]) -> bool
    ensures { result ≡ same_size_of (words_of plan.now) }
{
    word(plan, 2) == 1
}

pub fn allow_extra_walls(plan: &[u8]) -> bool
    ensures { result ≡ extra_walls_of (words_of plan.now) }
{
    word(plan, 3) == 1
}

// How many distinct variables the literals have.
pub fn num_variables(plan: &[u8]) -> u32
    ensures { result ≡ variables_of (words_of plan.now) }
{
    word(plan, 4)
}

// How many size and edge literals there are.
pub fn num_slots(plan: &[u8]) -> u32
    ensures { result ≡ slots_of (words_of plan.now) }
{
    word(plan, 5)
}

// The mark of a plan that was built: `BUILT`, and 0 in memory that was never built.
pub fn mark(plan: &[u8]) -> u32
    ensures { result ≡ mark_of (words_of plan.now) }
{
    word(plan, 6)
}

pub fn weight(plan: &[u8], v: usize) -> u32
    ensures { result ≡ weight_of (words_of plan.now) v }
{
    entry(plan, 8, 64, v)
}

pub fn domain_len(plan: &[u8], v: usize) -> u32
    ensures { result ≡ domain_len_of (words_of plan.now) v }
{
    entry(plan, 72, 64, v)
}

pub fn lit(plan: &[u8], s: usize) -> u32
    ensures { result ≡ lit_of (words_of plan.now) s }
{
    entry(plan, 2184, 2176, s)
}

pub fn edge_lit(plan: &[u8], g: usize) -> u32
    ensures { result ≡ edge_lit_of (words_of plan.now) g }
{
    entry(plan, 4232, 128, g)
}

pub fn place(plan: &[u8], s: usize) -> u32
    ensures { result ≡ place_of (words_of plan.now) s }
{
    entry(plan, 4360, 2176, s)
}

pub fn position(plan: &[u8], s: usize) -> u32
    ensures { result ≡ position_of (words_of plan.now) s }
{
    entry(plan, 6536, 2176, s)
}

pub fn variable_at(plan: &[u8], k: usize) -> u32
    ensures { result ≡ variable_at (words_of plan.now) k }
{
    entry(plan, 8712, 2176, k)
}

// At most 2176, so that no loop over a variable's occurrences is longer, whatever the words are.
#[tactic(auto, unfolding(crate::specs::Words::start_at, base::specs::Iter::pick))]
pub fn start_at(plan: &[u8], k: usize) -> u32
    ensures { result ≡ start_at (words_of plan.now) k }
{
    entry(plan, 10888, 2177, k).min(2176)
}

pub fn occurrence_at(plan: &[u8], i: usize) -> u32
    ensures { result ≡ occurrence_at (words_of plan.now) i }
{
    entry(plan, 13065, 2176, i)
}

pub fn domain(plan: &[u8], v: usize, j: usize) -> u32
    ensures { result ≡ domain_of (words_of plan.now) v j }
{
    cell(plan, 136, v, j)
}

pub fn dom_lit(plan: &[u8], v: usize, j: usize) -> u32
    ensures { result ≡ dom_lit_of (words_of plan.now) v j }
{
    cell(plan, 2184, v, j)
}

// Literal p of the distinct literals, both signs, rising.
pub fn unique_lit(plan: &[u8], p: usize) -> u64
    ensures { result ≡ unique_lit_at (words_of plan.now) p }
{
    2 * u64::from(variable_at(plan, p / 2)) + (p % 2) as u64
}
