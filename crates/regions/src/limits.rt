// The tightest bound of each region and the first vertex that has it, by one pass over the vertices: the Rust's
// `region_upper_bound` and `region_upper_bound_idx`, and the same for lower bounds.
ghost use Rattle.std.specs.Prelude.{◌≡◌, ℕ, ◌+◌, ◌<◌, ◌≤◌, length};
ghost use Rattle.regions.specs.Labels.{label_of};
ghost use Rattle.regions.specs.Buckets.{labels_below, tighter, loosest, marks, claim, claimed, bounds_of};
ghost use Rattle.graph.specs.Lists.{number_of};

use crate::weights::labels_below;

// Whether bound x is tighter than y.
#[tactic(auto, unfolding(crate::specs::Buckets::tighter, base::specs::Iter::pick))]
fn is_tighter(upper: bool, x: u32, y: u32) -> bool
    ensures { result ≡ tighter upper x y }
{
    if upper { x < y } else { y < x }
}

// The bound of a region that has none.
#[tactic(auto, unfolding(crate::specs::Buckets::loosest, base::specs::Iter::pick))]
fn loosest(upper: bool) -> u32
    ensures { result ≡ loosest upper }
{
    if upper { 2147483647 } else { 0 }
}

// Vertex v takes the place of its region's mark, if its bound is tighter.
#[tactic(auto, unfolding(crate::specs::Buckets::claim, base::specs::Iter::pick))]
fn claim(
    labels: &[u8; 64],
    words: &[u32],
    first: usize,
    upper: bool,
    v: usize,
    bounds: &mut [u32; 64],
    holders: &mut [u8; 64],
)
    requires { (v < 64) × (first + v < length words.now) × (label_of labels.now v < 64) }
    ensures { marks bounds.new holders.new ≡ claim upper labels.now (number_of words.now first) v (marks bounds.old holders.old) }
{
    let r = usize::from(labels[v]);
    let x = words[first + v];
    if is_tighter(upper, x, bounds[r]) {
        bounds[r] = x;
        holders[r] = v as u8;
    }
}

// The bounds of all regions, at their labels.
fn claim_all(
    labels: &[u8; 64],
    words: &[u32],
    first: usize,
    num_vertices: usize,
    upper: bool,
    bounds: &mut [u32; 64],
    holders: &mut [u8; 64],
)
    requires { (num_vertices ≤ 64) × (first + num_vertices ≤ length words.now) × ((v : ℕ) → v < num_vertices → label_of labels.now v < num_vertices) }
    ensures { marks bounds.new holders.new ≡ claimed upper labels.now (number_of words.now first) num_vertices (marks bounds.old holders.old) }
{
    bounds[..num_vertices].fill(loosest(upper));
    holders[..num_vertices].fill(0);
    for v in 0..num_vertices {
        claim(labels, words, first, upper, v, bounds, holders);
    }
}

// The tightest bound of each region and the first vertex that has it, at the region's label. The bound of vertex v is word
// first + v. The answer is false, and nothing is written, where a label is no vertex or a bound is missing.
#[tactic(auto, unfolding(crate::specs::Buckets::bounds_of, base::specs::Iter::pick))]
pub fn region_bounds(
    labels: &[u8; 64],
    words: &[u32],
    first: usize,
    num_vertices: usize,
    upper: bool,
    bounds: &mut [u32; 64],
    holders: &mut [u8; 64],
) -> bool
    ensures { (result ≡ labels_below labels.now words.now first num_vertices) × (marks bounds.new holders.new ≡ bounds_of upper labels.now words.now first num_vertices (marks bounds.old holders.old)) }
{
    if labels_below(labels, words, first, num_vertices) {
        claim_all(labels, words, first, num_vertices, upper, bounds, holders);
        return true;
    }
    false
}
