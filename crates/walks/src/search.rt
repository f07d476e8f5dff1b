// The breadth-first search of the Rust's list functions, over lent arrays.
//
// `scan` holds a search under way: the vertices in the order in which they were reached from place 0 on, at 64 + q the vertex
// that q was reached from, at 128 + q the edge, and at 192 + q whether q was reached (1) or not (0).
ghost use Rattle.std.specs.Prelude.{◌≡◌, ℕ, ◌+◌, ◌<◌, ◌≤◌, length};
ghost use Rattle.base.specs.Iter.{iter};
ghost use Rattle.graph.specs.Search.{scan_of, reached, graph, visited, popped, drained, blank, searched};
ghost use Rattle.graph.specs.Bounds.{Ok, Within, Fine};

use edge_table::Edges;
use graph::bounds::passable;

// Vertex q, from vertex p by edge g, where it was not reached before.
#[tactic(auto, unfolding(graph::specs::Search::reached, graph::specs::Search::marked, base::specs::Iter::pick))]
fn reach(scan: &mut [u8; 256], count: usize, p: u8, g: u8, q: u8) -> usize
    requires { (q < 64) × Ok 64 (scan_of scan.old count) }
    ensures { scan_of scan.new result ≡ reached p g q (scan_of scan.old count) }
{
    let i = usize::from(q);
    if scan[192 + i] == 1 {
        return count;
    }
    scan[count] = q;
    scan[64 + i] = p;
    scan[128 + i] = g;
    scan[192 + i] = 1;
    count + 1
}

// Edge g, seen from vertex p.
#[tactic(auto, unfolding(graph::specs::Search::visited, base::specs::Iter::pick))]
fn visit(
    edges: &Edges,
    state: &[u32],
    potential: bool,
    p: u8,
    g: usize,
    scan: &mut [u8; 256],
    count: usize,
) -> usize
    requires { (g < 128) × (g < length state.now) × Within 64 edges.now g × Ok 64 (scan_of scan.old count) }
    ensures { scan_of scan.new result ≡ visited (graph edges.now state.now potential) p g (scan_of scan.old count) }
{
    if passable(state[g], potential) {
        let [a, b] = edges[g];
        if a == p {
            return reach(scan, count, p, g as u8, b);
        }
        if b == p {
            return reach(scan, count, p, g as u8, a);
        }
    }
    count
}

// Every edge in order, seen from vertex p.
fn walk(
    edges: &Edges,
    state: &[u32],
    potential: bool,
    num_edges: usize,
    p: u8,
    scan: &mut [u8; 256],
    count: usize,
) -> usize
    requires { Fine 64 num_edges edges.now × (num_edges ≤ length state.now) × (p < 64) × Ok 64 (scan_of scan.old count) }
    ensures { scan_of scan.new result ≡ iter (visited (graph edges.now state.now potential) p) num_edges (scan_of scan.old count) }
{
    let mut n = count;
    for g in 0..num_edges {
        n = visit(edges, state, potential, p, g, scan, n);
    }
    n
}

// The vertex at place h of the order, if that many were reached: its edges are walked.
#[tactic(auto, unfolding(graph::specs::Search::popped, base::specs::Iter::pick))]
fn pop(
    edges: &Edges,
    state: &[u32],
    potential: bool,
    num_edges: usize,
    h: usize,
    scan: &mut [u8; 256],
    count: usize,
) -> usize
    requires { Fine 64 num_edges edges.now × (num_edges ≤ length state.now) × Ok 64 (scan_of scan.old count) }
    ensures { scan_of scan.new result ≡ popped (graph edges.now state.now potential) num_edges h (scan_of scan.old count) }
{
    if h < count {
        let p = scan[h];
        return walk(edges, state, potential, num_edges, p, scan, count);
    }
    count
}

// Each vertex of the order in turn, with those that are added on the way.
fn drain(
    edges: &Edges,
    state: &[u32],
    potential: bool,
    num_edges: usize,
    num_vertices: usize,
    scan: &mut [u8; 256],
    count: usize,
) -> usize
    requires { Fine num_vertices num_edges edges.now × (num_edges ≤ length state.now) × Ok num_vertices (scan_of scan.old count) }
    ensures { scan_of scan.new result ≡ drained (graph edges.now state.now potential) num_edges num_vertices (scan_of scan.old count) }
{
    let mut n = count;
    for h in 0..num_vertices {
        n = pop(edges, state, potential, num_edges, h, scan, n);
    }
    n
}

// All that is reached from a vertex, in an array of zeros: how many, and in the array how.
pub fn search(
    edges: &Edges,
    state: &[u32],
    potential: bool,
    num_edges: usize,
    num_vertices: usize,
    start: u8,
    scan: &mut [u8; 256],
) -> usize
    requires { Fine num_vertices num_edges edges.now × (num_edges ≤ length state.now) × (start < num_vertices) × (scan_of scan.old 0 ≡ blank) }
    ensures { scan_of scan.new result ≡ searched (graph edges.now state.now potential) num_edges num_vertices start }
{
    let n = reach(scan, 0, start, 0, start);
    drain(edges, state, potential, num_edges, num_vertices, scan, n)
}
