// The regions of a graph by one walk of its edges, which merges labels.
#![tactic(auto)]

pub mod limits;
pub mod weights;

ghost use Rattle.std.specs.Prelude.{◌≡◌, true, false, ℕ, ◌<◌, ◌≤◌, length};
ghost use Rattle.base.specs.Iter.{iter};
ghost use Rattle.graph.specs.Search.{graph};
ghost use Rattle.graph.specs.Bounds.{Within, Fine, walkable};
ghost use Rattle.regions.specs.Labels.{renamed, merged, bridged, alone, labelled, regions_of};

use edge_table::Edges;
use graph::bounds::{passable, walkable};

// hi becomes lo. Stored whether it changed or not, so that the loop over it has no branch.
#[tactic(auto, unfolding(crate::specs::Labels::renamed, base::specs::Iter::pick))]
fn rename(lo: u8, hi: u8, x: u8) -> u8
    ensures { result ≡ renamed lo hi x }
{
    if x == hi { lo } else { x }
}

// Every vertex with the label hi gets the label lo.
fn merge(labels: &mut [u8; 64], num_vertices: usize, lo: u8, hi: u8)
    requires { num_vertices ≤ 64 }
    ensures { labels.new ≡ merged num_vertices lo hi labels.old }
{
    for i in 0..num_vertices {
        labels[i] = rename(lo, hi, labels[i]);
    }
}

// Edge g joins the regions of its ends, if it can be passed: the lower label stays.
#[tactic(auto, unfolding(crate::specs::Labels::bridged, base::specs::Iter::pick))]
fn bridge(
    edges: &Edges,
    state: &[u32],
    potential: bool,
    num_vertices: usize,
    g: usize,
    labels: &mut [u8; 64],
)
    requires { (num_vertices ≤ 64) × (g < 128) × (g < length state.now) × Within 64 edges.now g }
    ensures { labels.new ≡ bridged (graph edges.now state.now potential) num_vertices g labels.old }
{
    if passable(state[g], potential) {
        let a = labels[usize::from(edges[g][0])];
        let b = labels[usize::from(edges[g][1])];
        if a < b {
            merge(labels, num_vertices, a, b);
        } else if b < a {
            merge(labels, num_vertices, b, a);
        }
    }
}

// Every vertex is a region of its own.
fn start(labels: &mut [u8; 64], num_vertices: usize)
    requires { num_vertices ≤ 64 }
    ensures { labels.new ≡ alone num_vertices labels.old }
{
    for i in 0..num_vertices {
        labels[i] = i as u8;
    }
}

// Every edge in order.
fn label(
    edges: &Edges,
    state: &[u32],
    potential: bool,
    num_edges: usize,
    num_vertices: usize,
    labels: &mut [u8; 64],
)
    requires { Fine num_vertices num_edges edges.now × (num_edges ≤ length state.now) }
    ensures { labels.new ≡ labelled (graph edges.now state.now potential) num_edges num_vertices labels.old }
{
    start(labels, num_vertices);
    for g in 0..num_edges {
        bridge(edges, state, potential, num_vertices, g, labels);
    }
}

// Every edge in order, for the decided labels and for the potential ones: neither waits for what the other merges.
fn label_both(
    edges: &Edges,
    state: &[u32],
    num_edges: usize,
    num_vertices: usize,
    decided: &mut [u8; 64],
    potential: &mut [u8; 64],
)
    requires { Fine num_vertices num_edges edges.now × (num_edges ≤ length state.now) }
    ensures { (decided.new ≡ labelled (graph edges.now state.now false) num_edges num_vertices decided.old)
        × (potential.new ≡ labelled (graph edges.now state.now true) num_edges num_vertices potential.old) }
{
    start(decided, num_vertices);
    start(potential, num_vertices);
    for g in 0..num_edges {
        bridge(edges, state, false, num_vertices, g, decided);
        bridge(edges, state, true, num_vertices, g, potential);
    }
}

// The label of each vertex: the lowest vertex of its region. The answer is false, and the labels stay, where the graph cannot be walked.
#[tactic(auto, unfolding(crate::specs::Labels::regions_of, base::specs::Iter::pick))]
pub fn compute_regions(
    edges: Edges,
    state: &[u32],
    potential: bool,
    num_edges: usize,
    num_vertices: usize,
    labels: &mut [u8; 64],
) -> bool
    ensures { (result ≡ walkable edges state.now num_edges num_vertices) × (labels.new ≡ regions_of (graph edges state.now potential) num_edges num_vertices labels.old) }
{
    if walkable(&edges, state, num_edges, num_vertices) {
        label(&edges, state, potential, num_edges, num_vertices, labels);
        return true;
    }
    false
}

// The labels of the decided regions and of the potential ones, as `compute_regions` makes each, with one test of the graph.
#[tactic(auto, unfolding(crate::specs::Labels::regions_of, base::specs::Iter::pick))]
pub fn compute_both(
    edges: &Edges,
    state: &[u32],
    num_edges: usize,
    num_vertices: usize,
    decided: &mut [u8; 64],
    potential: &mut [u8; 64],
) -> bool
    ensures { (result ≡ walkable edges.now state.now num_edges num_vertices)
        × (decided.new ≡ regions_of (graph edges.now state.now false) num_edges num_vertices decided.old)
        × (potential.new ≡ regions_of (graph edges.now state.now true) num_edges num_vertices potential.old) }
{
    if walkable(edges, state, num_edges, num_vertices) {
        label_both(edges, state, num_edges, num_vertices, decided, potential);
        return true;
    }
    false
}
