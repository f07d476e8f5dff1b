// The steps of `analyze`, over lent words: plan, noted, view. Each reads, and stores what it proposes by the literal's place
// among the distinct literals; nothing of the state is changed.
#![tactic(auto)]

pub mod analyze;
pub mod step1;
pub mod step2;
pub mod step3;
pub mod step4;
pub mod step5;

ghost use Rattle.std.specs.Prelude.{◌≡◌, [], pred, ◌+◌, ◌*◌, ◌/◌, ◌<◌, ◌&&◌, eqb, ltb, get_or};
ghost use Rattle.base.specs.Iter.{pick};
ghost use Rattle.division.specs.Analysis.{place};
ghost use Rattle.plan.specs.Words.{words_of, domain_len_of, domain_of, place_of, unique_lit_at, variables_of};
ghost use Rattle.views.specs.Words.{decided_region_of, potential_region_of, decided_weight_of, potential_weight_of};
ghost use Rattle.analysis.specs.Placed.{place_of_lit, place_for, edge_place_of, dom_place_of};

use edge_table::Edges;
use noting::Noted;
use views::View;

// The place of a literal among the distinct literals, found from its variable's.
#[tactic(auto, unfolding(crate::specs::Placed::place_of_lit))]
fn place_of_lit(plan: &[u8], lit: u32) -> u32
    ensures { result ≡ place_of_lit (words_of plan.now) lit }
{
    let k = noting::note::place_in(plan, sat::variable(lit)) % 2147483648;
    2 * (k as u32) + sat::sign(lit)
}

fn is_place(plan: &[u8], p: u32, lit: u32) -> bool
    ensures { result ≡ (ltb (p / 2) (variables_of (words_of plan.now)) && eqb (unique_lit_at (words_of plan.now) p) lit) }
{
    p / 2 < plan::num_variables(plan) && plan::unique_lit(plan, p as usize) == u64::from(lit)
}

// The same, where p may be it already: what the plan's index says is tested before it is used.
#[tactic(auto, unfolding(base::specs::Iter::pick, crate::specs::Placed::place_for))]
fn place_for(plan: &[u8], p: u32, lit: u32) -> u32
    ensures { result ≡ place_for (words_of plan.now) p lit }
{
    if is_place(plan, p, lit) {
        return p;
    }
    place_of_lit(plan, lit)
}

// The slots' places in the plan's index.
#[tactic(auto, unfolding(base::specs::Iter::pick))]
fn edge_index(plan: &[u8], g: usize) -> u32
    ensures { result ≡ pick (ltb g 128) (place_of (words_of plan.now) (2048 + g)) 0 }
{
    if g < 128 {
        return plan::place(plan, 2048 + g);
    }
    0
}

#[tactic(auto, unfolding(base::specs::Iter::pick))]
fn dom_index(plan: &[u8], v: usize, j: usize) -> u32
    ensures { result ≡ pick (ltb v 64 && ltb j 32) (place_of (words_of plan.now) (32 * v + j)) 0 }
{
    if v < 64 && j < 32 {
        return plan::place(plan, 32 * v + j);
    }
    0
}

// The place of edge g's literal.
#[tactic(auto, unfolding(crate::specs::Placed::edge_place_of))]
pub(crate) fn edge_place(plan: &[u8], g: usize) -> u32
    ensures { result ≡ edge_place_of (words_of plan.now) g }
{
    place_for(plan, edge_index(plan, g), plan::edge_lit(plan, g))
}

// The place of size literal j of vertex v.
#[tactic(auto, unfolding(crate::specs::Placed::dom_place_of))]
fn dom_place(plan: &[u8], v: usize, j: usize) -> u32
    ensures { result ≡ dom_place_of (words_of plan.now) v j }
{
    place_for(plan, dom_index(plan, v, j), plan::dom_lit(plan, v, j))
}

pub(crate) fn edge_state(noted: &Noted, g: usize) -> u32
    requires { g < 128 }
    ensures { result ≡ get_or noted.now g 0 }
{
    noted[g]
}

// The ends of edge g.
pub(crate) fn left(edges: &Edges, g: usize) -> usize
    requires { g < 128 }
    ensures { result ≡ get_or (get_or edges.now g []) 0 0 }
{
    usize::from(edges[g][0])
}

pub(crate) fn right(edges: &Edges, g: usize) -> usize
    requires { g < 128 }
    ensures { result ≡ get_or (get_or edges.now g []) 1 0 }
{
    usize::from(edges[g][1])
}

// The regions of edge g's ends.
pub(crate) fn left_region(edges: &Edges, view: &View, g: usize) -> usize
    requires { g < 128 }
    ensures { result ≡ decided_region_of view.now (get_or (get_or edges.now g []) 0 0) }
{
    views::decided_region(view, left(edges, g)) as usize
}

pub(crate) fn right_region(edges: &Edges, view: &View, g: usize) -> usize
    requires { g < 128 }
    ensures { result ≡ decided_region_of view.now (get_or (get_or edges.now g []) 1 0) }
{
    views::decided_region(view, right(edges, g)) as usize
}

fn size_below(plan: &[u8], v: usize, i: usize, x: u64) -> bool
    ensures { result ≡ ltb (domain_of (words_of plan.now) v i) x }
{
    u64::from(plan::domain(plan, v, i)) < x
}

// How many sizes there are up to the last one below x, with size i among them: k is how many among the first i.
#[tactic(auto, unfolding(base::specs::Iter::pick))]
fn with_size(plan: &[u8], v: usize, x: u64, i: usize, k: usize) -> usize
    requires { i < 32 }
    ensures { result ≡ pick (ltb (domain_of (words_of plan.now) v i) x) (i + 1) k }
{
    if size_below(plan, v, i, x) {
        return i + 1;
    }
    k
}

// How many of the first n sizes of v, which rise, are below x: the Rust's `partition_point`. No call tests that they
// rise, so each is looked at, and none ends the loop: no branch hangs on a size. Those past the 32 there can be are 0.
fn sizes_below(plan: &[u8], v: usize, x: u64, n: usize) -> usize
    ensures { result ≡ place (domain_of (words_of plan.now) v) x n }
{
    if x == 0 {
        return 0;
    }
    if 32 < n {
        return n;
    }
    let mut k = 0;
    for i in 0..n {
        k = with_size(plan, v, x, i, k);
    }
    k
}

// The place of the literal: the size of v is at least x.
pub(crate) fn lit_at_least(plan: &[u8], v: usize, x: u64) -> u32
    ensures { result ≡ dom_place_of (words_of plan.now) v (pred (place (domain_of (words_of plan.now) v) x (domain_len_of (words_of plan.now) v))) }
{
    let k = sizes_below(plan, v, x, plan::domain_len(plan, v) as usize);
    dom_place(plan, v, k.saturating_sub(1))
}

// The weight of v's region.
pub(crate) fn decided_weight(view: &View, v: usize) -> u32
    ensures { result ≡ decided_weight_of view.now (decided_region_of view.now v) }
{
    views::decided_region_weight(view, views::decided_region(view, v) as usize)
}

// The weight of v's potential region.
pub(crate) fn potential_weight(view: &View, v: usize) -> u32
    ensures { result ≡ potential_weight_of view.now (potential_region_of view.now v) }
{
    views::potential_region_weight(view, views::potential_region(view, v) as usize)
}
