// The view's words from the noted ones. Document 01's analysis begins with it: the regions, their weights and their bounds.
ghost use Rattle.std.specs.Prelude.{◌≡◌, true, false, ℕ, ◌+◌, ◌<◌, ◌≤◌, length};
ghost use Rattle.base.specs.Lists.{filled};
ghost use Rattle.plan.specs.Words.{words_of, word};
ghost use Rattle.views.specs.Compute.{weight_words, computed_of, regions_from, bounds_from, weighed_from, view_from, with_bounds, compute_view};

use crate::View;
use edge_table::Edges;
use noting::Noted;
use regions::limits::region_bounds;
use regions::weights::region_weights;
use regions::{compute_both, compute_regions};

// Each vertex's label, and each region's weight at its label. Not known where the graph cannot be walked or the weights cannot be added.
#[derive(Clone, Copy)]
pub struct Regions {
    pub known: bool,
    pub labels: [u8; 64],
    pub weights: [u32; 64],
}

// Each region's tightest bound and the lowest vertex that has it, at its label. Not known where a label is no vertex.
#[derive(Clone, Copy)]
pub struct Bounds {
    pub known: bool,
    pub bounds: [u32; 64],
    pub holders: [u8; 64],
}

// The 64 words from `from` on become value(0), value(1), up to value(63).
fn fill<F: Fn(usize) -> u32>(words: &mut [u32], from: usize, value: F)
    requires { ((v : ℕ) → v < 64 → F.pre value v) × (from + 64 ≤ length words.old) }
    ensures { (f : ℕ → ℕ) → ((v x : ℕ) → v < 64 → F.post value v x → x ≡ f v) → words.new ≡ filled from 64 f words.old }
{
    for v in 0..64 {
        words[from + v] = value(v);
    }
}

// The weight of each vertex.
fn weight_words(plan: &[u8]) -> [u32; 64]
    ensures { result ≡ weight_words (words_of plan.now) }
{
    let mut words = [0u32; 64];
    fill(&mut words, 0, |v| plan::weight(plan, v));
    words
}

// The decided regions, or the potential ones.
pub fn compute(plan: &[u8], edges: Edges, noted: &Noted, potential: bool) -> Regions
    ensures { result ≡ regions_from (words_of plan.now) edges noted.now potential }
{
    let vertices = plan::num_vertices(plan) as usize;
    let num_edges = plan::num_edges(plan) as usize;
    let words = weight_words(plan);
    let mut labels = [0u8; 64];
    let mut weights = [0u32; 64];
    let walked = compute_regions(edges, noted, potential, num_edges, vertices, &mut labels);
    let added = region_weights(&labels, &words, 0, vertices, &mut weights);
    Regions {
        known: walked && added,
        labels,
        weights,
    }
}

// The bounds stand from word `first` on.
fn bound(labels: &[u8; 64], noted: &Noted, first: usize, vertices: usize, upper: bool) -> Bounds
    ensures { result ≡ bounds_from labels.now noted.now first vertices upper }
{
    let mut bounds = [0u32; 64];
    let mut holders = [0u8; 64];
    let known = region_bounds(
        labels,
        noted,
        first,
        vertices,
        upper,
        &mut bounds,
        &mut holders,
    );
    Bounds {
        known,
        bounds,
        holders,
    }
}

// Labels from word `from` on, weights from word `from + 128` on.
fn store_regions(labels: &[u8; 64], weights: &[u32; 64], view: &mut View, from: usize)
    requires { from + 192 ≤ 512 }
    ensures { view.new ≡ filled (from + 128) 64 (word weights.now) (filled from 64 (word labels.now) view.old) }
{
    fill(view, from, |v| u32::from(labels[v]));
    fill(view, from + 128, |v| weights[v]);
}

// Bounds from word `from` on, the vertices that have them from word `from + 64` on.
fn store_bounds(b: Bounds, view: &mut View, from: usize)
    requires { from + 128 ≤ 512 }
    ensures { view.new ≡ with_bounds from b view.old }
{
    fill(view, from, |v| b.bounds[v]);
    fill(view, from + 64, |v| u32::from(b.holders[v]));
}

// The least upper bound of each region.
pub fn upper_bounds(labels: &[u8; 64], noted: &Noted, vertices: usize) -> Bounds
    ensures { result ≡ bounds_from labels.now noted.now 192 vertices true }
{
    bound(labels, noted, 192, vertices, true)
}

// The greatest lower bound of each region.
pub fn lower_bounds(labels: &[u8; 64], noted: &Noted, vertices: usize) -> Bounds
    ensures { result ≡ bounds_from labels.now noted.now 128 vertices false }
{
    bound(labels, noted, 128, vertices, false)
}

// The view of regions whose labels are at hand, of vertices that weigh `words`. The answer is false, and the view stays,
// where a label is no vertex or a weight is over 1,000,000.
#[tactic(auto, unfolding(crate::specs::Compute::view_from, crate::specs::Compute::weighed_from, base::specs::Iter::pick))]
fn store_view(
    words: &[u32; 64],
    noted: &Noted,
    vertices: usize,
    decided: &[u8; 64],
    potential: &[u8; 64],
    view: &mut View,
) -> bool
    ensures { computed_of result view.new
        ≡ view_from noted.now vertices (weighed_from decided.now words.now vertices) (weighed_from potential.now words.now vertices)
        view.old }
{
    let mut decided_weights = [0u32; 64];
    let mut potential_weights = [0u32; 64];
    let decided_known = region_weights(decided, words, 0, vertices, &mut decided_weights);
    let potential_known = region_weights(potential, words, 0, vertices, &mut potential_weights);
    let upper = upper_bounds(decided, noted, vertices);
    let lower = lower_bounds(decided, noted, vertices);
    if decided_known && potential_known && upper.known && lower.known {
        store_regions(decided, &decided_weights, view, 0);
        store_regions(potential, &potential_weights, view, 64);
        store_bounds(upper, view, 256);
        store_bounds(lower, view, 384);
        return true;
    }
    false
}

// The regions of the noted words, their weights and bounds. The answer is false, and the view stays, where there are none: a count is
// past its limit, an edge's end is no vertex, or a weight is over 1,000,000.
pub fn compute_view(plan: &[u8], edges: Edges, noted: &Noted, view: &mut View) -> bool
    ensures { computed_of result view.new ≡ compute_view (words_of plan.now) edges noted.now view.old }
{
    let vertices = plan::num_vertices(plan) as usize;
    let num_edges = plan::num_edges(plan) as usize;
    let mut decided = [0u8; 64];
    let mut potential = [0u8; 64];
    if compute_both(
        &edges,
        noted,
        num_edges,
        vertices,
        &mut decided,
        &mut potential,
    ) {
        let words = weight_words(plan);
        return store_view(&words, noted, vertices, &decided, &potential, view);
    }
    false
}
