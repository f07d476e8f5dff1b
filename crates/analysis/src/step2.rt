// Step 2. Document 01: "Crossed bounds (refusal 12). Upper bound below the region's weight: conflict. Lower bounds raised; gates
// shut where the merged weight is over an upper bound." Crossed bounds are a conflict since document 02, request 2.
ghost use Rattle.std.specs.Prelude.{◌≡◌, List, [], ℕ, ◌+◌, ◌<◌, ◌≤◌, min, eqb, ltb};
ghost use Rattle.base.specs.Iter.{iter, pick};
ghost use Rattle.plan.specs.Words.{words_of, vertices_of, edges_of};
ghost use Rattle.views.specs.Words.{decided_weight_of, upper_bound_of, upper_bound_at};
ghost use Rattle.division.specs.Analysis.{uncrossed, overfull, raises, merges, guarded};
ghost use Rattle.reasons.specs.Verdicts.{Going, begun, ran, ran_of};
ghost use Rattle.analysis.specs.Placed.{words, on, Finds};

use crate::step1::loose;
use crate::{decided_weight, edge_place, left_region, lit_at_least, right_region};
use edge_table::Edges;
use noting::{Noted, lower_bound, upper_bound};
use reasons::{Stop, Verdict, packed, put};
use views::{View, decided_region_weight, region_upper_bound, region_upper_bound_idx};

// Crossed bounds, where applying a literal told a vertex of them.
pub(crate) fn check_crossed(plan: &[u8], crossed: usize) -> Verdict
    ensures { Finds result (on uncrossed (words (words_of plan.now) [] [] []) crossed begun) }
{
    if crossed < plan::num_vertices(plan) as usize {
        return Err(Stop::Crossing {
            vertex_idx: crossed,
        });
    }
    Ok(())
}

// Vertex v: its upper bound is below its region's weight.
fn overfull(noted: &Noted, view: &View, v: usize) -> Verdict
    ensures { Finds result (on overfull (words [] [] noted.now view.now) v begun) }
{
    if upper_bound(noted, v) < decided_weight(view, v) {
        return Err(Stop::Over { vertex_idx: v });
    }
    Ok(())
}

// Every vertex in order, up to a conflict.
pub(crate) fn check_overfull(noted: &Noted, view: &View, n: usize) -> Verdict
    ensures { Finds result (iter (guarded (on overfull (words [] [] noted.now view.now))) n begun) }
{
    for v in 0..n {
        overfull(noted, view, v)?;
    }
    Ok(())
}

// Vertex v: its lower bound is raised where its region weighs more.
fn raises(plan: &[u8], noted: &Noted, view: &View, v: usize, proposals: &mut [u64])
    ensures { ran Going proposals.new ≡ ran_of (on raises (words (words_of plan.now) [] noted.now view.now) v begun) proposals.old }
{
    if 0 < plan::domain_len(plan, v) {
        let weight = decided_weight(view, v);
        if lower_bound(noted, v) < weight {
            let lit = lit_at_least(plan, v, weight as u64);
            put(proposals, lit, packed(4, v, 0, 0, 0), 0);
        }
    }
}

// Every vertex in order.
pub(crate) fn raise_lower_bounds(plan: &[u8], noted: &Noted, view: &View, proposals: &mut [u64])
    ensures { ran Going proposals.new ≡ ran_of (iter (guarded (on raises (words (words_of plan.now) [] noted.now view.now))) (vertices_of (words_of plan.now)) begun) proposals.old }
{
    let n = plan::num_vertices(plan) as usize;
    for v in 0..n {
        raises(plan, noted, view, v, proposals);
    }
}

// Whether regions u and v weigh more together than one of them may.
fn too_large_if_merged(view: &View, u: usize, v: usize) -> bool
    ensures { result ≡ ltb (min (upper_bound_of view.now u) (upper_bound_of view.now v)) (decided_weight_of view.now u + decided_weight_of view.now v) }
{
    let bound = region_upper_bound(view, u).min(region_upper_bound(view, v));
    let weight = u64::from(decided_region_weight(view, u))
        + u64::from(decided_region_weight(view, v));
    u64::from(bound) < weight
}

// The vertex that has the lesser upper bound of regions u and v, of v where they are equal.
#[tactic(auto, unfolding(base::specs::Iter::pick))]
fn tighter_upper_bound(view: &View, u: usize, v: usize) -> u32
    ensures { result ≡ pick (ltb (upper_bound_of view.now u) (upper_bound_of view.now v)) (upper_bound_at view.now u) (upper_bound_at view.now v) }
{
    if region_upper_bound(view, u) < region_upper_bound(view, v) {
        return region_upper_bound_idx(view, u);
    }
    region_upper_bound_idx(view, v)
}

// Edge g between two regions that would be too large.
fn merges(plan: &[u8], edges: &Edges, noted: &Noted, view: &View, g: usize, proposals: &mut [u64])
    requires { g < 128 }
    ensures { ran Going proposals.new ≡ ran_of (on merges (words (words_of plan.now) edges.now noted.now view.now) g begun) proposals.old }
{
    if loose(edges, noted, view, g) {
        let u = left_region(edges, view, g);
        let v = right_region(edges, view, g);
        if too_large_if_merged(view, u, v) {
            let vertex = tighter_upper_bound(view, u, v) as usize;
            let lit = noting::upper_bound_lit(noted, vertex);
            put(proposals, edge_place(plan, g), packed(3, g, 0, 0, lit), 0);
        }
    }
}

// Every edge in order.
pub(crate) fn disconnect_too_large(
    plan: &[u8],
    edges: &Edges,
    noted: &Noted,
    view: &View,
    proposals: &mut [u64],
)
    requires { edges_of (words_of plan.now) ≤ 128 }
    ensures { ran Going proposals.new ≡ ran_of (iter (guarded (on merges (words (words_of plan.now) edges.now noted.now view.now))) (edges_of (words_of plan.now)) begun) proposals.old }
{
    let n = plan::num_edges(plan) as usize;
    for g in 0..n {
        merges(plan, edges, noted, view, g, proposals);
    }
}
