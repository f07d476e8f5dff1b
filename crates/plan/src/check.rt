// The plan's own test, linear in what the plan uses. A call tests only the counts, which bound its loops: reading a
// plan's words is total, so that no words whatever are unsafe. Whether the words are a plan at all is asked by a call of
// its own, as often as a host likes.
ghost use Rattle.std.specs.Prelude.{◌≡◌, not, ◌&&◌, ◌||◌, ℕ, pred, ◌+◌, ◌-◌, ◌*◌, ◌/◌, ◌%◌, ◌<◌, ◌≤◌, eqb, ltb, leb};
ghost use Rattle.base.specs.Iter.{iter};
ghost use Rattle.base.specs.Lists.{some};
ghost use Rattle.plan.specs.Words.{words_of, word, vertices_of, edges_of, variables_of, slots_of, domain_len_of, start_at};
ghost use Rattle.plan.specs.Check.{counts_bad, variable_high, variables_high, used_slot, entry_bad, vertex_bad, edge_bad, occurrence_bad, variable_order_bad, variable_bad, slot_count, starts_bad, plan_bad, Counts};

use crate::{
    BUILT, domain, domain_len, lit, mark, num_edges, num_slots, num_variables, num_vertices,
    occurrence_at, place, position, start_at, variable_at, weight, word,
};
use edge_table::Edges;

#[tactic(auto, unfolding(crate::specs::Check::counts_bad))]
fn counts_bad(plan: &[u8]) -> bool
    ensures { result ≡ counts_bad (words_of plan.now) }
{
    64 < num_vertices(plan)
        || 128 < num_edges(plan)
        || 2176 < num_variables(plan)
        || 2176 < num_slots(plan)
        || 1 < word(plan, 2)
        || 1 < word(plan, 3)
        || mark(plan) != BUILT
}

// Whether no count is over its limit, each option is off or on, and the words have the mark of a plan that was built.
pub fn counts_ok(plan: &[u8]) -> bool
    ensures { result ≡ not (counts_bad (words_of plan.now)) }
{
    !counts_bad(plan)
}

// Whether some variable is out of range.
pub fn variables_high(plan: &[u8]) -> bool
    ensures { result ≡ variables_high (words_of plan.now) }
{
    (0..num_variables(plan) as usize).any(|k| 4095 < variable_at(plan, k))
}

// Whether a slot holds a literal.
#[tactic(auto, unfolding(crate::specs::Check::used_slot, base::specs::Iter::pick))]
pub fn used_slot(plan: &[u8], s: usize) -> bool
    ensures { result ≡ used_slot (words_of plan.now) s }
{
    if s < 2048 {
        let v = s / 32;
        return v < num_vertices(plan) as usize && s % 32 + 1 < domain_len(plan, v) as usize;
    }
    s - 2048 < num_edges(plan) as usize
}

#[tactic(auto, unfolding(crate::specs::Check::entry_bad))]
fn entry_bad(plan: &[u8], v: usize, j: usize) -> bool
    ensures { result ≡ entry_bad (words_of plan.now) v j }
{
    1000000 < domain(plan, v, j) || (0 < j && domain(plan, v, j) <= domain(plan, v, j - 1))
}

#[tactic(auto, unfolding(crate::specs::Check::vertex_bad))]
fn vertex_bad(plan: &[u8], v: usize) -> bool
    requires { v < 64 }
    ensures { result ≡ vertex_bad (words_of plan.now) v }
{
    let len = domain_len(plan, v) as usize;
    1000000 < weight(plan, v) || 32 < len || (0..len).any(|j| entry_bad(plan, v, j))
}

#[tactic(auto, unfolding(crate::specs::Check::edge_bad))]
fn edge_bad(plan: &[u8], edges: &Edges, g: usize) -> bool
    requires { g < 128 }
    ensures { result ≡ edge_bad (words_of plan.now) edges.now g }
{
    let n = num_vertices(plan);
    n <= u32::from(edges[g][0]) || n <= u32::from(edges[g][1])
}

#[tactic(auto, unfolding(crate::specs::Check::occurrence_bad))]
fn occurrence_bad(plan: &[u8], k: usize, i: usize) -> bool
    requires { k < 2176 }
    ensures { result ≡ occurrence_bad (words_of plan.now) k i }
{
    let s = occurrence_at(plan, i) as usize;
    if !used_slot(plan, s) {
        return true;
    }
    let l = lit(plan, s);
    sat::variable(l) != variable_at(plan, k)
        || place(plan, s) != 2 * (k as u32) + sat::sign(l)
        || position(plan, s) as usize != i
        || ((start_at(plan, k) as usize) < i && s <= occurrence_at(plan, i - 1) as usize)
}

// Whether distinct variable k is out of range or not over the one before it.
#[tactic(auto, unfolding(crate::specs::Check::variable_order_bad))]
fn variable_order_bad(plan: &[u8], k: usize) -> bool
    ensures { result ≡ variable_order_bad (words_of plan.now) k }
{
    4095 < variable_at(plan, k) || (0 < k && variable_at(plan, k) <= variable_at(plan, k - 1))
}

#[tactic(auto, unfolding(crate::specs::Check::variable_bad))]
fn variable_bad(plan: &[u8], k: usize) -> bool
    requires { (k < 2176) × (slots_of (words_of plan.now) ≤ 2176) }
    ensures { result ≡ variable_bad (words_of plan.now) k }
{
    let from = start_at(plan, k) as usize;
    let end = start_at(plan, k + 1) as usize;
    variable_order_bad(plan, k)
        || end <= from
        || (num_slots(plan) as usize) < end
        || (0..end - from).any(|i| occurrence_bad(plan, k, from + i))
}

// How many slots are in use.
fn slot_count(plan: &[u8]) -> usize
    requires { Counts (words_of plan.now) }
    ensures { result ≡ slot_count (words_of plan.now) }
{
    let vertices = num_vertices(plan) as usize;
    let mut n = num_edges(plan) as usize;
    for v in 0..vertices {
        n += (domain_len(plan, v) as usize).saturating_sub(1);
    }
    n
}

#[tactic(auto, unfolding(crate::specs::Check::starts_bad))]
fn starts_bad(plan: &[u8]) -> bool
    requires { Counts (words_of plan.now) }
    ensures { result ≡ starts_bad (words_of plan.now) }
{
    let slots = num_slots(plan);
    start_at(plan, 0) != 0
        || start_at(plan, num_variables(plan) as usize) != slots
        || slot_count(plan) != slots as usize
}

// Whether the words and the edge table are a plan that the calls can work on.
#[tactic(auto, unfolding(crate::specs::Check::plan_bad))]
pub fn plan_ok(plan: &[u8], edges: &Edges) -> bool
    ensures { result ≡ not (plan_bad (words_of plan.now) edges.now) }
{
    if counts_bad(plan) {
        return false;
    }
    if (0..num_vertices(plan) as usize).any(|v| vertex_bad(plan, v)) {
        return false;
    }
    !((0..num_edges(plan) as usize).any(|g| edge_bad(plan, edges, g))
        || (0..num_variables(plan) as usize).any(|k| variable_bad(plan, k))
        || starts_bad(plan))
}
