// The run of edges, connected or undecided, that joins two vertices with the fewest undecided ones; among equals the
// one with fewer edges, then the one whose edge numbers come first. Distances are measured from the last vertex, so
// that the run is found from the first one on, by the lowest edge that leads onward each time.
#![tactic(auto)]

ghost use Rattle.std.specs.Prelude.{◌≡◌, Bool, true, false, ℕ, ◌+◌, ◌<◌, ◌≤◌, eqb, length};
ghost use Rattle.base.specs.Iter.{pick};
ghost use Rattle.graph.specs.Search.{graph};
ghost use Rattle.graph.specs.Bounds.{Within, Fine};
ghost use Rattle.walks.specs.Written.{out_of, written};
ghost use Rattle.walks.specs.Answers.{answer_of};
ghost use Rattle.division.specs.Regions.{lowest};
ghost use Rattle.runs.specs.Rounds.{far_of, less_by, stored, relaxed, relaxed_edge, round, distances, Settled};
ghost use Rattle.runs.specs.Walk.{other, next_by, onward, length_from, run_from, run_along, listed, run_listed};
ghost use Rattle.runs.specs.Walk.{vertex_given};
ghost use Rattle.runs.specs.Small.{Small, blank};

use edge_table::Edges;
use graph::bounds::{passable, walkable};
use walks::push;

const DISTANCE_WORDS: usize = 192;

// Word q is how many undecided edges vertex q is away from the last vertex, word 64 + q how many edges, and
// word 128 + q is 1 where q is reached.
type Distances = [u32; DISTANCE_WORDS];

// 1 for an undecided edge.
#[tactic(auto, unfolding(base::specs::Iter::pick))]
fn count_undecided(state: u32) -> u32
    ensures { result ≡ pick (eqb state 0) 1 0 }
{
    u32::from(state == 0)
}

// Whether b edges, a of them undecided, are less than d, c of them undecided.
fn is_less(a: u32, b: u32, c: u32, d: u32) -> bool
    ensures { result ≡ less_by a b c d }
{
    a < c || (a == c && b < d)
}

#[tactic(auto, unfolding(crate::specs::Rounds::stored))]
fn store(far: &mut Distances, p: usize, a: u32, b: u32)
    requires { p < 64 }
    ensures { far.new ≡ stored p a b far.old }
{
    far[p] = a;
    far[64 + p] = b;
    far[128 + p] = 1;
}

// Vertex p by edge g from vertex r, where that is nearer: whether it is.
fn relax(edges: &Edges, state: &[u32], g: usize, p: usize, r: usize, far: &mut Distances) -> bool
    requires { (g < length state.now) × (p < 64) × (r < 64) × Small 1000000 far.old }
    ensures { (far.new ≡
        relaxed (graph edges.now state.now true) g p r far.old) ×
        (result ≡ false → far.new ≡ far.old) }
{
    if far[128 + r] != 1 {
        return false;
    }
    let a = count_undecided(state[g]) + far[r];
    let b = far[64 + r] + 1;
    if far[128 + p] != 1 || is_less(a, b, far[p], far[64 + p]) {
        store(far, p, a, b);
        return true;
    }
    false
}

// Edge g both ways: whether a vertex is nearer by it.
fn relax_edge(edges: &Edges, state: &[u32], g: usize, far: &mut Distances) -> bool
    requires { (g < 128) × (g < length state.now) × Within 64 edges.now g × Small 999999 far.old }
    ensures { (far.new ≡
        relaxed_edge (graph edges.now state.now true) g far.old) ×
        (result ≡ false → far.new ≡ far.old) }
{
    if passable(state[g], true) {
        let a = usize::from(edges[g][0]);
        let b = usize::from(edges[g][1]);
        let one = relax(edges, state, g, b, a, far);
        let two = relax(edges, state, g, a, b, far);
        return one | two;
    }
    false
}

// Every edge in order: whether a vertex is nearer by one.
fn relax_all(edges: &Edges, state: &[u32], num_edges: usize, far: &mut Distances) -> bool
    requires { Fine 64 num_edges edges.now × (num_edges ≤ length state.now) × Small 900000 far.old }
    ensures { (far.new ≡
        round (graph edges.now state.now true) num_edges far.old) ×
        (result ≡ false → far.new ≡ far.old) }
{
    let mut nearer = false;
    for g in 0..num_edges {
        nearer |= relax_edge(edges, state, g, far);
    }
    nearer
}

// The distances from vertex `to`, in an array of zeros. A round that changes nothing is the last.
fn measure(
    edges: &Edges,
    state: &[u32],
    num_edges: usize,
    num_vertices: usize,
    to: usize,
    far: &mut Distances,
)
    requires { Fine num_vertices num_edges edges.now × (num_edges ≤ length state.now) ×
        (to < num_vertices) × (far.old ≡ blank) }
    ensures { far.new ≡
        distances (graph edges.now state.now true) num_edges num_vertices to }
{
    store(far, to, 0, 0);
    for _ in 0..num_vertices {
        if !relax_all(edges, state, num_edges, far) {
            return;
        }
    }
}

// Whether edge g leads from vertex p to vertex r on a best run.
fn is_next(edges: &Edges, state: &[u32], far: &Distances, g: usize, p: usize, r: usize) -> bool
    requires { (g < length state.now) × (p < 64) × (r < 64) × Small 1000000 far.now }
    ensures { result ≡ next_by (graph edges.now state.now true)
        (far_of far.now) p g r }
{
    far[128 + r] == 1
        && far[p] == count_undecided(state[g]) + far[r]
        && far[64 + p] == far[64 + r] + 1
}

// Whether edge h leads onward from vertex p on a best run.
fn leads_on(edges: &Edges, state: &[u32], far: &Distances, p: usize, h: usize) -> bool
    requires { (h < 128) × (h < length state.now) × (p < 64) × Within 64 edges.now h × Small 1000000 far.now }
    ensures { result ≡ onward (graph edges.now state.now true)
        (far_of far.now) p h }
{
    if passable(state[h], true) {
        let a = usize::from(edges[h][0]);
        let b = usize::from(edges[h][1]);
        if a == p {
            return is_next(edges, state, far, h, p, b);
        }
        if b == p {
            return is_next(edges, state, far, h, p, a);
        }
    }
    false
}

// The lowest edge that leads onward from vertex p, or the number of edges.
fn next_edge(edges: &Edges, state: &[u32], far: &Distances, num_edges: usize, p: usize) -> usize
    requires { Fine 64 num_edges edges.now × (num_edges ≤ length state.now) × (p < 64) ×
        Small 1000000 far.now }
    ensures { result ≡ lowest (onward (graph edges.now state.now true)
        (far_of far.now) p) num_edges }
{
    for g in 0..num_edges {
        if leads_on(edges, state, far, p, g) {
            return g;
        }
    }
    num_edges
}

// The end of edge g that is not p.
#[tactic(auto, unfolding(base::specs::Iter::pick))]
fn other_end(edges: &Edges, state: &[u32], g: usize, p: usize) -> usize
    requires { g < 128 }
    ensures { result ≡ other (graph edges.now state.now true) g p }
{
    let a = usize::from(edges[g][0]);
    if a == p { usize::from(edges[g][1]) } else { a }
}

// The run of n edges from vertex `from`, where the distances are those from some vertex: the place past it.
fn write_run(
    edges: &Edges,
    state: &[u32],
    far: &Distances,
    num_edges: usize,
    from: usize,
    n: usize,
    buffer: &mut [u32],
) -> usize
    requires { Fine 64 num_edges edges.now × (num_edges ≤ length state.now) × (from < 64) ×
        Small 1000000 far.now ×
        ((to : ℕ) × Settled (graph edges.now state.now true) num_edges to (far_of far.now)) ×
        ((far_of far.now).seen from ≡ true) × (n ≡ length_from far.now from) }
    ensures { out_of buffer.new result ≡
        written (run_from (graph edges.now state.now true) num_edges far.now from)
        (out_of buffer.old 0) }
{
    let mut p = from;
    let mut at = 0;
    for _ in 0..n {
        let g = next_edge(edges, state, far, num_edges, p);
        at = push(buffer, at, g as u32);
        p = other_end(edges, state, g, p);
    }
    at
}

// The best run between two vertices of a graph that can be walked.
fn find_run(
    edges: &Edges,
    state: &[u32],
    num_edges: usize,
    num_vertices: usize,
    from: usize,
    to: usize,
    buffer: &mut [u32],
) -> Option<usize>
    requires { Fine num_vertices num_edges edges.now × (num_edges ≤ length state.now) ×
        (from < num_vertices) × (to < num_vertices) }
    ensures { answer_of result buffer.new ≡
        listed (run_along (graph edges.now state.now true) num_edges
        (distances (graph edges.now state.now true) num_edges num_vertices to) from)
        (out_of buffer.old 0) }
{
    let mut far = [0u32; 192];
    measure(edges, state, num_edges, num_vertices, to, &mut far);
    if far[128 + from] == 1 {
        let n = far[64 + from] as usize;
        return Some(write_run(edges, state, &far, num_edges, from, n, buffer));
    }
    None
}

// The best run between two vertices, from the buffer's start on; missing where one is no vertex, or they are not
// joined.
pub fn best_run(
    edges: Edges,
    state: &[u32],
    num_edges: usize,
    num_vertices: usize,
    from: usize,
    to: usize,
    buffer: &mut [u32],
) -> Option<usize>
    ensures { answer_of result buffer.new ≡
        run_listed edges state.now num_edges num_vertices from to buffer.old }
{
    if walkable(&edges, state, num_edges, num_vertices)
        && from < num_vertices
        && to < num_vertices
    {
        return find_run(&edges, state, num_edges, num_vertices, from, to, buffer);
    }
    None
}

// The vertex that a number from outside is; 64, which no plan has, for one that is none.
pub fn vertex_given(v: i32) -> usize
    ensures { result ≡ vertex_given v }
{
    if base::in_range(v, 63) {
        return base::to_nat(v) as usize;
    }
    64
}
