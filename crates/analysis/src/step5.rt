// Step 5, where adjacent regions of the same size are disallowed: two undecided edges lead from one vertex to two other regions
// that have one and the same fixed size, which would be passed if both were joined to the vertex's own.
ghost use Rattle.std.specs.Prelude.{◌≡◌, [], ◌+◌, ◌<◌, ◌≤◌};
ghost use Rattle.base.specs.Iter.{iter};
ghost use Rattle.plan.specs.Words.{words_of, vertices_of, edges_of};
ghost use Rattle.noting.specs.Words.{lower_lit_of, upper_lit_of};
ghost use Rattle.views.specs.Words.{decided_region_of, decided_weight_of, upper_bound_of, upper_bound_at, lower_bound_of, lower_bound_at};
ghost use Rattle.division.specs.Plan.{touches, across};
ghost use Rattle.division.specs.Analysis.{forks, same_size, parted, parts_at, guarded};
ghost use Rattle.reasons.specs.Words.{packed_lits};
ghost use Rattle.reasons.specs.Verdicts.{begun, ran, ran_of};
ghost use Rattle.analysis.specs.Placed.{placed, words, on};
ghost use Rattle.analysis.specs.SameSize.{leads_to_fixed, one_size};

use crate::step1::loose;
use crate::{decided_weight, edge_place, left, right};
use edge_table::Edges;
use noting::{Noted, lower_bound_lit, upper_bound_lit};
use reasons::{Stop, Verdict, packed, packed_lits, put};
use views::{
    View, decided_region, decided_region_weight, region_lower_bound, region_lower_bound_idx,
    region_upper_bound, region_upper_bound_idx,
};

// Whether edge g is at vertex u.
#[tactic(auto, unfolding(division::specs::Plan::touches))]
fn touches(edges: &Edges, u: usize, g: usize) -> bool
    requires { g < 128 }
    ensures { result ≡ touches (placed [] edges.now) u g }
{
    left(edges, g) == u || right(edges, g) == u
}

// The other end of edge g, which is at vertex u.
#[tactic(auto, unfolding(division::specs::Plan::across, base::specs::Iter::pick))]
fn across(edges: &Edges, u: usize, g: usize) -> usize
    requires { g < 128 }
    ensures { result ≡ across (placed [] edges.now) u g }
{
    if left(edges, g) == u {
        return right(edges, g);
    }
    left(edges, g)
}

fn region_across(edges: &Edges, view: &View, u: usize, g: usize) -> usize
    requires { g < 128 }
    ensures { result ≡ decided_region_of view.now (across (placed [] edges.now) u g) }
{
    decided_region(view, across(edges, u, g)) as usize
}

// Whether edge g leads from vertex u to another region, of a fixed size.
#[tactic(auto, unfolding(crate::specs::SameSize::leads_to_fixed))]
fn leads_to_fixed(edges: &Edges, noted: &Noted, view: &View, u: usize, g: usize) -> bool
    requires { g < 128 }
    ensures { result ≡ on leads_to_fixed (words [] edges.now noted.now view.now) u g }
{
    if touches(edges, u, g) && loose(edges, noted, view, g) {
        let region = region_across(edges, view, u, g);
        return region_lower_bound(view, region) == region_upper_bound(view, region);
    }
    false
}

// Whether edges g and h, undecided, lead from vertex u to two other regions.
#[tactic(auto, unfolding(division::specs::Analysis::forks))]
fn forks(edges: &Edges, noted: &Noted, view: &View, u: usize, g: usize, h: usize) -> bool
    requires { (g < 128) × (h < 128) }
    ensures { result ≡ on forks (words [] edges.now noted.now view.now) u g h }
{
    touches(edges, u, g)
        && touches(edges, u, h)
        && loose(edges, noted, view, g)
        && loose(edges, noted, view, h)
        && region_across(edges, view, u, g) != region_across(edges, view, u, h)
}

// Whether regions a and b have one and the same fixed size, less than they weigh together with `weight`.
#[tactic(auto, unfolding(crate::specs::SameSize::one_size))]
fn one_size(view: &View, a: usize, b: usize, weight: u32) -> bool
    ensures { result ≡ one_size (lower_bound_of view.now a) (upper_bound_of view.now a) (lower_bound_of view.now b) (upper_bound_of view.now b) (decided_weight_of view.now a + decided_weight_of view.now b + weight) }
{
    let size = region_lower_bound(view, a);
    size == region_upper_bound(view, a)
        && region_lower_bound(view, b) == region_upper_bound(view, b)
        && size == region_lower_bound(view, b)
        && u64::from(size)
            < u64::from(decided_region_weight(view, a))
                + u64::from(decided_region_weight(view, b))
                + u64::from(weight)
}

#[tactic(auto, unfolding(division::specs::Analysis::same_size))]
fn same_size(edges: &Edges, noted: &Noted, view: &View, u: usize, g: usize, h: usize) -> bool
    requires { (g < 128) × (h < 128) }
    ensures { result ≡ on same_size (words [] edges.now noted.now view.now) u g h }
{
    if forks(edges, noted, view, u, g, h) {
        let a = region_across(edges, view, u, g);
        let b = region_across(edges, view, u, h);
        return one_size(view, a, b, decided_weight(view, u));
    }
    false
}

// The bound literals of regions a and b.
fn region_lits(noted: &Noted, view: &View, a: usize, b: usize) -> u64
    ensures { result ≡ packed_lits (lower_lit_of noted.now (lower_bound_at view.now a)) (upper_lit_of noted.now (upper_bound_at view.now a)) (lower_lit_of noted.now (lower_bound_at view.now b)) (upper_lit_of noted.now (upper_bound_at view.now b)) }
{
    packed_lits(
        lower_bound_lit(noted, region_lower_bound_idx(view, a) as usize),
        upper_bound_lit(noted, region_upper_bound_idx(view, a) as usize),
        lower_bound_lit(noted, region_lower_bound_idx(view, b) as usize),
        upper_bound_lit(noted, region_upper_bound_idx(view, b) as usize),
    )
}

// Edges g and h at vertex u. A fixed size 0 has no vertex with a lower bound over 0 to name: refusal 13.
fn parted(
    plan: &[u8],
    edges: &Edges,
    noted: &Noted,
    view: &View,
    u: usize,
    g: usize,
    h: usize,
    proposals: &mut [u64],
) -> Verdict
    requires { (g < 128) × (h < 128) }
    ensures { ran result proposals.new ≡ ran_of (on parted (words (words_of plan.now) edges.now noted.now view.now) u g h begun) proposals.old }
{
    if same_size(edges, noted, view, u, g, h) {
        let a = region_across(edges, view, u, g);
        if region_lower_bound(view, a) == 0 {
            return Err(Stop::ZeroSize);
        }
        let first = packed(8, across(edges, u, g), across(edges, u, h), u, 0);
        let second = region_lits(noted, view, a, region_across(edges, view, u, h));
        put(proposals, edge_place(plan, g), first, second);
        put(proposals, edge_place(plan, h), first, second);
    }
    Ok(())
}

// Edge g at vertex u, with every edge before it.
fn part_from(
    plan: &[u8],
    edges: &Edges,
    noted: &Noted,
    view: &View,
    u: usize,
    g: usize,
    proposals: &mut [u64],
) -> Verdict
    requires { g < 128 }
    ensures { ran result proposals.new ≡ ran_of (iter (guarded (on parted (words (words_of plan.now) edges.now noted.now view.now) u g)) g begun) proposals.old }
{
    if leads_to_fixed(edges, noted, view, u, g) {
        for h in 0..g {
            parted(plan, edges, noted, view, u, g, h, proposals)?;
        }
    }
    Ok(())
}

// Every edge at vertex u.
fn parts_at(
    plan: &[u8],
    edges: &Edges,
    noted: &Noted,
    view: &View,
    u: usize,
    proposals: &mut [u64],
) -> Verdict
    requires { edges_of (words_of plan.now) ≤ 128 }
    ensures { ran result proposals.new ≡ ran_of (on parts_at (words (words_of plan.now) edges.now noted.now view.now) u begun) proposals.old }
{
    let n = plan::num_edges(plan) as usize;
    for g in 0..n {
        part_from(plan, edges, noted, view, u, g, proposals)?;
    }
    Ok(())
}

// Every vertex in order, up to a refusal.
pub(crate) fn disconnect_same_size(
    plan: &[u8],
    edges: &Edges,
    noted: &Noted,
    view: &View,
    proposals: &mut [u64],
) -> Verdict
    requires { edges_of (words_of plan.now) ≤ 128 }
    ensures { ran result proposals.new ≡ ran_of (iter (guarded (on parts_at (words (words_of plan.now) edges.now noted.now view.now))) (vertices_of (words_of plan.now)) begun) proposals.old }
{
    let n = plan::num_vertices(plan) as usize;
    for u in 0..n {
        parts_at(plan, edges, noted, view, u, proposals)?;
    }
    Ok(())
}
