// The lists that the Rust makes by walking the graph, each written to a lent buffer from a place on. The answer is the place
// past the list; `None` where there is no list, and then nothing was written.
#![tactic(auto)]

mod search;

ghost use Rattle.std.specs.Prelude.{◌≡◌, true, ℕ, ◌+◌, ◌<◌, ◌≤◌, length, get_or};
ghost use Rattle.graph.specs.Search.{scan_of, graph, reached_yet};
ghost use Rattle.graph.specs.Bounds.{Within, Fine};
ghost use Rattle.walks.specs.Written.{out_of, pushed, written};
ghost use Rattle.walks.specs.Walk.{word_at, path_back, tree_list, leads_out, leaves, wall_at, walls_of, side_at, border_list, order_list};
ghost use Rattle.walks.specs.Answers.{answer_of, startable, ready, connected_path, decided_region, potential_region, region_vertices};

use crate::search::search;
use edge_table::Edges;
use graph::bounds::walkable;
use sat::negation;

// How many vertices and edges there are, and where the literals of the edges start in the words that are lent.
#[derive(Clone, Copy)]
pub struct Shape {
    pub num_vertices: usize,
    pub num_edges: usize,
    pub first_lit: usize,
}

// One word more, if there is room: the place past it.
#[tactic(auto, unfolding(crate::specs::Written::pushed, base::specs::Iter::pick))]
pub fn push(out: &mut [u32], at: usize, x: u32) -> usize
    ensures { out_of out.new result ≡ pushed x (out_of out.old at) }
{
    if at < out.len() {
        out[at] = x;
        return at + 1;
    }
    at
}

// The literal of edge g, 0 where there is none.
fn edge_lit(lits: &[u32], g: u8) -> u32
    ensures { result ≡ word_at lits.now g }
{
    lits.get(usize::from(g)).copied().unwrap_or(0)
}

// The negated literals of the edges by which vertex v was reached, back to the start.
fn write_path(
    scan: &[u8; 256],
    lits: &[u32],
    start: u8,
    v: u8,
    num_vertices: usize,
    out: &mut [u32],
    at: usize,
) -> usize
    requires { (v < 64) × ((i : ℕ) → i < 128 → get_or scan.now i 0 < 64) }
    ensures { out_of out.new result ≡ written (path_back (word_at lits.now) (scan_of scan.now 0) start num_vertices v) (out_of out.old at) }
{
    let mut n = at;
    let mut p = v;
    for _ in 0..num_vertices {
        if p == start {
            return n;
        }
        let i = usize::from(p);
        let g = scan[128 + i];
        n = push(out, n, negation(edge_lit(lits, g)));
        p = scan[64 + i];
    }
    n
}

// The negated literals of the edges by which the vertices after the first were reached.
fn write_tree(scan: &[u8; 256], lits: &[u32], count: usize, out: &mut [u32], at: usize) -> usize
    requires { (0 < count) × (count ≤ 64) × ((i : ℕ) → i < 128 → get_or scan.now i 0 < 64) }
    ensures { out_of out.new result ≡ written (tree_list (word_at lits.now) (scan_of scan.now count)) (out_of out.old at) }
{
    let mut n = at;
    for i in 0..count - 1 {
        let q = usize::from(scan[i + 1]);
        let g = scan[128 + q];
        n = push(out, n, negation(edge_lit(lits, g)));
    }
    n
}

// Whether one end is vertex p and the other was not reached.
#[tactic(auto, unfolding(crate::specs::Walk::leads_out))]
fn leads_out(scan: &[u8; 256], one: u8, other: u8, p: u8) -> bool
    requires { other < 64 }
    ensures { result ≡ leads_out (reached_yet (scan_of scan.now 0)) one other p }
{
    one == p && scan[192 + usize::from(other)] != 1
}

// Whether edge g is disconnected and leads from vertex p out of what was reached.
#[tactic(auto, unfolding(crate::specs::Walk::leaves))]
fn leaves(edges: &Edges, state: &[u32], scan: &[u8; 256], p: u8, g: usize) -> bool
    requires { (g < 128) × (g < length state.now) × Within 64 edges.now g }
    ensures { result ≡ leaves (graph edges.now state.now true) (reached_yet (scan_of scan.now 0)) p g }
{
    let [a, b] = edges[g];
    state[g] == 1 && (leads_out(scan, a, b, p) || leads_out(scan, b, a, p))
}

// The literal of edge g, if it leads from vertex p out of what was reached.
fn write_wall(
    edges: &Edges,
    state: &[u32],
    scan: &[u8; 256],
    p: u8,
    g: usize,
    lits: &[u32],
    out: &mut [u32],
    at: usize,
) -> usize
    requires { (g < 128) × (g < length state.now) × Within 64 edges.now g }
    ensures { out_of out.new result ≡ wall_at (word_at lits.now) (graph edges.now state.now true) (reached_yet (scan_of scan.now 0)) p g (out_of out.old at) }
{
    if leaves(edges, state, scan, p, g) {
        return push(out, at, edge_lit(lits, g as u8));
    }
    at
}

// The literals of all edges that lead from vertex p out of what was reached.
fn write_walls(
    edges: &Edges,
    state: &[u32],
    scan: &[u8; 256],
    p: u8,
    num_edges: usize,
    lits: &[u32],
    out: &mut [u32],
    at: usize,
) -> usize
    requires { Fine 64 num_edges edges.now × (num_edges ≤ length state.now) }
    ensures { out_of out.new result ≡ written (walls_of (word_at lits.now) (graph edges.now state.now true) num_edges (reached_yet (scan_of scan.now 0)) p) (out_of out.old at) }
{
    let mut n = at;
    for g in 0..num_edges {
        n = write_wall(edges, state, scan, p, g, lits, out, n);
    }
    n
}

// The same, if vertex p was reached.
fn write_side(
    edges: &Edges,
    state: &[u32],
    scan: &[u8; 256],
    p: usize,
    num_edges: usize,
    lits: &[u32],
    out: &mut [u32],
    at: usize,
) -> usize
    requires { (p < 64) × Fine 64 num_edges edges.now × (num_edges ≤ length state.now) }
    ensures { out_of out.new result ≡ side_at (word_at lits.now) (graph edges.now state.now true) num_edges (reached_yet (scan_of scan.now 0)) p (out_of out.old at) }
{
    if scan[192 + p] == 1 {
        return write_walls(edges, state, scan, p as u8, num_edges, lits, out, at);
    }
    at
}

// The literals of all edges that lead out of what was reached.
fn write_border(
    edges: &Edges,
    state: &[u32],
    scan: &[u8; 256],
    num_vertices: usize,
    num_edges: usize,
    lits: &[u32],
    out: &mut [u32],
    at: usize,
) -> usize
    requires { Fine num_vertices num_edges edges.now × (num_edges ≤ length state.now) }
    ensures { out_of out.new result ≡ written (border_list (word_at lits.now) (graph edges.now state.now true) num_edges num_vertices (reached_yet (scan_of scan.now 0))) (out_of out.old at) }
{
    let mut n = at;
    for p in 0..num_vertices {
        n = write_side(edges, state, scan, p, num_edges, lits, out, n);
    }
    n
}

// The vertices in the order in which they were reached.
fn write_order(scan: &[u8; 256], count: usize, out: &mut [u32], at: usize) -> usize
    requires { count ≤ 64 }
    ensures { out_of out.new result ≡ written (order_list (scan_of scan.now count)) (out_of out.old at) }
{
    let mut n = at;
    for i in 0..count {
        n = push(out, n, u32::from(scan[i]));
    }
    n
}

// Whether the graph can be walked from vertex u.
#[tactic(auto, unfolding(crate::specs::Answers::startable, base::specs::Iter::pick))]
fn startable(edges: &Edges, state: &[u32], shape: Shape, u: usize) -> bool
    ensures { result ≡ startable edges.now state.now shape u }
{
    walkable(edges, state, shape.num_edges, shape.num_vertices) && u < shape.num_vertices
}

// Whether, besides, each edge has a literal.
#[tactic(auto, unfolding(crate::specs::Answers::ready, base::specs::Iter::pick))]
fn ready(edges: &Edges, state: &[u32], lits: &[u32], shape: Shape, u: usize) -> bool
    ensures { result ≡ ready edges.now state.now lits.now shape u }
{
    startable(edges, state, shape, u)
        && shape.first_lit <= lits.len()
        && shape.num_edges <= lits.len() - shape.first_lit
}

// The vertices of u's region in the order of the search from u, for the Rust's `Regions`.
pub fn region_vertices(
    edges: Edges,
    state: &[u32],
    potential: bool,
    shape: Shape,
    u: usize,
    out: &mut [u32],
    at: usize,
) -> Option<usize>
    ensures { answer_of result out.new ≡ region_vertices edges state.now potential shape u (out_of out.old at) }
{
    if startable(&edges, state, shape, u) {
        let mut scan = [0u8; 256];
        let count = search(
            &edges,
            state,
            potential,
            shape.num_edges,
            shape.num_vertices,
            u as u8,
            &mut scan,
        );
        return Some(write_order(&scan, count, out, at));
    }
    None
}

// The negated literals of the connected edges from v back to u, on a shortest way: the Rust's `reason_connected_path`. There is no
// list where v is no vertex or not joined to u.
pub fn reason_connected_path(
    edges: Edges,
    state: &[u32],
    lits: &[u32],
    shape: Shape,
    u: usize,
    v: usize,
    out: &mut [u32],
    at: usize,
) -> Option<usize>
    ensures { answer_of result out.new ≡ connected_path edges state.now lits.now shape u v (out_of out.old at) }
{
    if ready(&edges, state, lits, shape, u) && v < shape.num_vertices {
        let mut scan = [0u8; 256];
        search(
            &edges,
            state,
            false,
            shape.num_edges,
            shape.num_vertices,
            u as u8,
            &mut scan,
        );
        if scan[192 + v] == 1 {
            return Some(write_path(
                &scan,
                &lits[shape.first_lit..],
                u as u8,
                v as u8,
                shape.num_vertices,
                out,
                at,
            ));
        }
    }
    None
}

// The negated literals of the connected edges by which the vertices of u's region are reached: the Rust's `reason_decided_region`.
pub fn reason_decided_region(
    edges: Edges,
    state: &[u32],
    lits: &[u32],
    shape: Shape,
    u: usize,
    out: &mut [u32],
    at: usize,
) -> Option<usize>
    ensures { answer_of result out.new ≡ decided_region edges state.now lits.now shape u (out_of out.old at) }
{
    if ready(&edges, state, lits, shape, u) {
        let mut scan = [0u8; 256];
        let count = search(
            &edges,
            state,
            false,
            shape.num_edges,
            shape.num_vertices,
            u as u8,
            &mut scan,
        );
        return Some(write_tree(&scan, &lits[shape.first_lit..], count, out, at));
    }
    None
}

// The literals of the disconnected edges that leave what u can be joined to: the Rust's `reason_potential_region`.
pub fn reason_potential_region(
    edges: Edges,
    state: &[u32],
    lits: &[u32],
    shape: Shape,
    u: usize,
    out: &mut [u32],
    at: usize,
) -> Option<usize>
    ensures { answer_of result out.new ≡ potential_region edges state.now lits.now shape u (out_of out.old at) }
{
    if ready(&edges, state, lits, shape, u) {
        let mut scan = [0u8; 256];
        search(
            &edges,
            state,
            true,
            shape.num_edges,
            shape.num_vertices,
            u as u8,
            &mut scan,
        );
        return Some(write_border(
            &edges,
            state,
            &scan,
            shape.num_vertices,
            shape.num_edges,
            &lits[shape.first_lit..],
            out,
            at,
        ));
    }
    None
}
