// Step 4. Document 01: "Bounds inside one region must meet; gates shut where they could not; bounds spread."
ghost use Rattle.std.specs.Prelude.{◌≡◌, List, [], ℕ, ◌+◌, ◌<◌, ◌≤◌, min, eqb, ltb, true};
ghost use Rattle.base.specs.Iter.{iter, pick};
ghost use Rattle.plan.specs.Words.{words_of, vertices_of, edges_of};
ghost use Rattle.views.specs.Words.{upper_bound_of, upper_bound_at, lower_bound_of, lower_bound_at};
ghost use Rattle.graph.specs.Bounds.{walkable};
ghost use Rattle.division.specs.Analysis.{meets, parts, spreads_low, spreads_high, spreads, guarded};
ghost use Rattle.reasons.specs.Words.{packed, put};
ghost use Rattle.reasons.specs.Verdicts.{Going, begun, ran, ran_of};
ghost use Rattle.analysis.specs.Placed.{words, on, Finds};
ghost use Rattle.analysis.specs.First.{meets_first};
ghost use Rattle.analysis.specs.Placed.{edge_place_of};

use crate::step1::loose;
use crate::{edge_place, left_region, lit_at_least, right_region};
use edge_table::Edges;
use noting::{Noted, lower_bound, upper_bound};
use reasons::{Stop, Verdict, packed, put};
use sat::negation;
use views::members::extreme_vertices;
use views::{
    View, decided_region, region_lower_bound, region_lower_bound_idx, region_upper_bound,
    region_upper_bound_idx,
};

// The region with label r, whose bounds do not meet: the two vertices that a conflict names.
fn meets(plan: &[u8], edges: Edges, noted: &Noted, view: &View, r: usize) -> Verdict
    requires { (r < vertices_of (words_of plan.now)) × (walkable edges noted.now (edges_of (words_of plan.now)) (vertices_of (words_of plan.now)) ≡ true) }
    ensures { Finds result (on meets (words (words_of plan.now) edges noted.now view.now) r begun) }
{
    if decided_region(view, r) as usize == r {
        let found = extreme_vertices(plan, edges, noted, r);
        if upper_bound(noted, found.upper_bound_idx) < lower_bound(noted, found.lower_bound_idx) {
            return Err(Stop::Apart {
                lower_bound_idx: found.lower_bound_idx,
                upper_bound_idx: found.upper_bound_idx,
            });
        }
    }
    Ok(())
}

// The same of any region: its own two bounds are compared first.
fn meets_first(plan: &[u8], edges: Edges, noted: &Noted, view: &View, r: usize) -> Verdict
    requires { (r < vertices_of (words_of plan.now)) × (walkable edges noted.now (edges_of (words_of plan.now)) (vertices_of (words_of plan.now)) ≡ true) }
    ensures { Finds result (on meets_first (words (words_of plan.now) edges noted.now view.now) r begun) }
{
    if region_upper_bound(view, r) < region_lower_bound(view, r) {
        return meets(plan, edges, noted, view, r);
    }
    Ok(())
}

// Every region in order, up to a conflict.
pub(crate) fn check_meets(plan: &[u8], edges: Edges, noted: &Noted, view: &View) -> Verdict
    requires { walkable edges noted.now (edges_of (words_of plan.now)) (vertices_of (words_of plan.now)) ≡ true }
    ensures { Finds result (iter (guarded (on meets_first (words (words_of plan.now) edges noted.now view.now))) (vertices_of (words_of plan.now)) begun) }
{
    let n = plan::num_vertices(plan) as usize;
    for r in 0..n {
        meets_first(plan, edges, noted, view, r)?;
    }
    Ok(())
}

// Edge g, where the greatest lower bound of region `low` is over the least upper bound of region `up`.
fn part(plan: &[u8], view: &View, g: usize, low: usize, up: usize, flip: u32, proposals: &mut [u64])
    ensures { proposals.new ≡ pick (ltb (upper_bound_of view.now up) (lower_bound_of view.now low)) (put (edge_place_of (words_of plan.now) g) (packed 6 g (upper_bound_at view.now up) (lower_bound_at view.now low) flip) 0 proposals.old) proposals.old }
{
    if region_upper_bound(view, up) < region_lower_bound(view, low) {
        let a = region_upper_bound_idx(view, up) as usize;
        let b = region_lower_bound_idx(view, low) as usize;
        put(proposals, edge_place(plan, g), packed(6, g, a, b, flip), 0);
    }
}

// Edge g between two regions whose bounds would not meet, either way.
fn parts(plan: &[u8], edges: &Edges, noted: &Noted, view: &View, g: usize, proposals: &mut [u64])
    requires { g < 128 }
    ensures { ran Going proposals.new ≡ ran_of (on parts (words (words_of plan.now) edges.now noted.now view.now) g begun) proposals.old }
{
    if loose(edges, noted, view, g) {
        let u = left_region(edges, view, g);
        let v = right_region(edges, view, g);
        part(plan, view, g, u, v, 1, proposals);
        part(plan, view, g, v, u, 0, proposals);
    }
}

// Every edge in order.
pub(crate) fn disconnect_parted(
    plan: &[u8],
    edges: &Edges,
    noted: &Noted,
    view: &View,
    proposals: &mut [u64],
)
    requires { edges_of (words_of plan.now) ≤ 128 }
    ensures { ran Going proposals.new ≡ ran_of (iter (guarded (on parts (words (words_of plan.now) edges.now noted.now view.now))) (edges_of (words_of plan.now)) begun) proposals.old }
{
    let n = plan::num_edges(plan) as usize;
    for g in 0..n {
        parts(plan, edges, noted, view, g, proposals);
    }
}

// Vertex v: a lower bound of its region that is over its own.
fn spreads_low(plan: &[u8], noted: &Noted, view: &View, v: usize, proposals: &mut [u64])
    ensures { ran Going proposals.new ≡ ran_of (on spreads_low (words (words_of plan.now) [] noted.now view.now) v begun) proposals.old }
{
    if 0 < plan::domain_len(plan, v) {
        let region = decided_region(view, v) as usize;
        let bound = region_lower_bound(view, region);
        if lower_bound(noted, v) < bound {
            let lit = lit_at_least(plan, v, bound as u64);
            let known = region_lower_bound_idx(view, region) as usize;
            put(
                proposals,
                lit,
                packed(7, known, v, 0, noting::lower_bound_lit(noted, known)),
                0,
            );
        }
    }
}

// Vertex v: an upper bound of its region that is below its own.
fn spreads_high(plan: &[u8], noted: &Noted, view: &View, v: usize, proposals: &mut [u64])
    ensures { ran Going proposals.new ≡ ran_of (on spreads_high (words (words_of plan.now) [] noted.now view.now) v begun) proposals.old }
{
    if 0 < plan::domain_len(plan, v) {
        let region = decided_region(view, v) as usize;
        let bound = region_upper_bound(view, region);
        if bound < upper_bound(noted, v) {
            let lit = lit_at_least(plan, v, bound as u64 + 1);
            let known = region_upper_bound_idx(view, region) as usize;
            put(
                proposals,
                negation(lit),
                packed(7, known, v, 0, noting::upper_bound_lit(noted, known)),
                0,
            );
        }
    }
}

fn spreads(plan: &[u8], noted: &Noted, view: &View, v: usize, proposals: &mut [u64])
    ensures { ran Going proposals.new ≡ ran_of (on spreads (words (words_of plan.now) [] noted.now view.now) v begun) proposals.old }
{
    spreads_low(plan, noted, view, v, proposals);
    spreads_high(plan, noted, view, v, proposals);
}

// Every vertex in order.
pub(crate) fn spread_bounds(plan: &[u8], noted: &Noted, view: &View, proposals: &mut [u64])
    ensures { ran Going proposals.new ≡ ran_of (iter (guarded (on spreads (words (words_of plan.now) [] noted.now view.now))) (vertices_of (words_of plan.now)) begun) proposals.old }
{
    let n = plan::num_vertices(plan) as usize;
    for v in 0..n {
        spreads(plan, noted, view, v, proposals);
    }
}
