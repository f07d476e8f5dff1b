// The numbers that a plan is built from, and the refusals of them. They come in two lent arrays, from a text line at a
// time or from a host's bytes:
//   vertices[67 * v]           weight of vertex v
//   vertices[67 * v + 1]       how many sizes its domain has, k
//   vertices[67 * v + 2]       how many size literals it has
//   vertices[67 * v + 3 + j]   size j, for j below k
//   vertices[67 * v + 35 + j]  size literal j, for j below k - 1
//   edges[3 * g], [3 * g + 1]  ends of edge g
//   edges[3 * g + 2]           literal of edge g
// The counts stand beside them as they are, so that 65 vertices, 33 sizes or a million literals need no room.
ghost use Rattle.std.specs.Prelude.{◌≡◌, false, not, ◌&&◌, ◌||◌, ℕ, ◌+◌, ◌*◌, ◌-◌, ◌<◌, ◌≤◌, pos, replicate, eqb, ltb};
ghost use Rattle.base.specs.Iter.{pick};
ghost use Rattle.std.specs.Int.Signed.{lt_z};
ghost use Rattle.base.specs.Lists.{some};
ghost use Rattle.base.specs.Range.{in_range, to_nat};
ghost use Rattle.base.specs.Refusal.{number_or_0};
ghost use Rattle.builder.specs.Input.{weight_at, sizes_at, lits_at, size_at, lit_at, left_at, right_at, edge_lit_at, len_at, sizes_outside, too_many, weight_outside, size_wrong, domain_wrong, sizes_wrong, lit_count_wrong_at, lit_count_wrong, size_lit_outside, edge_lit_outside, lit_outside, is_vertex, end_wrong, refusal};

use base::refusal::Refusal;

pub type VertexNumbers = [i32; 4288];

pub type EdgeNumbers = [i32; 384];

pub fn no_vertices() -> VertexNumbers
    ensures { result ≡ replicate 4288 (pos 0) }
{
    [0i32; 4288]
}

pub fn no_edges() -> EdgeNumbers
    ensures { result ≡ replicate 384 (pos 0) }
{
    [0i32; 384]
}

pub(crate) fn weight(vertices: &VertexNumbers, v: usize) -> i32
    requires { v < 64 }
    ensures { result ≡ weight_at vertices.now v }
{
    vertices[67 * v]
}

fn sizes(vertices: &VertexNumbers, v: usize) -> i32
    requires { v < 64 }
    ensures { result ≡ sizes_at vertices.now v }
{
    vertices[67 * v + 1]
}

fn lits(vertices: &VertexNumbers, v: usize) -> i32
    requires { v < 64 }
    ensures { result ≡ lits_at vertices.now v }
{
    vertices[67 * v + 2]
}

pub(crate) fn size(vertices: &VertexNumbers, v: usize, j: usize) -> i32
    requires { (v < 64) × (j < 32) }
    ensures { result ≡ size_at vertices.now v j }
{
    vertices[67 * v + 3 + j]
}

pub(crate) fn size_lit(vertices: &VertexNumbers, v: usize, j: usize) -> i32
    requires { (v < 64) × (j < 32) }
    ensures { result ≡ lit_at vertices.now v j }
{
    vertices[67 * v + 35 + j]
}

pub(crate) fn left(edges: &EdgeNumbers, g: usize) -> i32
    requires { g < 128 }
    ensures { result ≡ left_at edges.now g }
{
    edges[3 * g]
}

pub(crate) fn right(edges: &EdgeNumbers, g: usize) -> i32
    requires { g < 128 }
    ensures { result ≡ right_at edges.now g }
{
    edges[3 * g + 1]
}

pub(crate) fn edge_lit(edges: &EdgeNumbers, g: usize) -> i32
    requires { g < 128 }
    ensures { result ≡ edge_lit_at edges.now g }
{
    edges[3 * g + 2]
}

pub(crate) fn domain_len(vertices: &VertexNumbers, v: usize) -> usize
    requires { v < 64 }
    ensures { result ≡ len_at vertices.now v }
{
    base::to_nat(sizes(vertices, v)) as usize
}

fn sizes_outside(vertices: &VertexNumbers, n: usize) -> bool
    requires { n ≤ 64 }
    ensures { result ≡ sizes_outside vertices.now n }
{
    (0..n).any(|v| !base::in_range(sizes(vertices, v), 32))
}

fn weight_outside(vertices: &VertexNumbers, n: usize) -> bool
    requires { n ≤ 64 }
    ensures { result ≡ weight_outside vertices.now n }
{
    (0..n).any(|v| !base::in_range(weight(vertices, v), 1000000))
}

#[tactic(auto, unfolding(crate::specs::Input::size_wrong))]
fn bad_size(vertices: &VertexNumbers, v: usize, j: usize) -> bool
    requires { (v < 64) × (j < 32) }
    ensures { result ≡ size_wrong vertices.now v j }
{
    !base::in_range(size(vertices, v, j), 1000000)
        || (0 < j && size(vertices, v, j) <= size(vertices, v, j - 1))
}

fn domain_wrong(vertices: &VertexNumbers, v: usize) -> bool
    requires { (v < 64) × (len_at vertices.now v ≤ 32) }
    ensures { result ≡ domain_wrong vertices.now v }
{
    (0..domain_len(vertices, v)).any(|j| bad_size(vertices, v, j))
}

fn sizes_wrong(vertices: &VertexNumbers, n: usize) -> bool
    requires { (n ≤ 64) × ((v : ℕ) → v < n → len_at vertices.now v ≤ 32) }
    ensures { result ≡ sizes_wrong vertices.now n }
{
    (0..n).any(|v| domain_wrong(vertices, v))
}

#[tactic(auto, unfolding(crate::specs::Input::lit_count_wrong_at))]
fn bad_lit_count(vertices: &VertexNumbers, v: usize) -> bool
    requires { v < 64 }
    ensures { result ≡ lit_count_wrong_at vertices.now v }
{
    let len = domain_len(vertices, v);
    0 < len
        && !(base::in_range(lits(vertices, v), 31)
            && base::to_nat(lits(vertices, v)) as usize + 1 == len)
}

fn lit_count_wrong(vertices: &VertexNumbers, n: usize) -> bool
    requires { n ≤ 64 }
    ensures { result ≡ lit_count_wrong vertices.now n }
{
    (0..n).any(|v| bad_lit_count(vertices, v))
}

fn size_lit_outside(vertices: &VertexNumbers, v: usize) -> bool
    requires { (v < 64) × (len_at vertices.now v ≤ 32) }
    ensures { result ≡ size_lit_outside vertices.now v }
{
    let count = domain_len(vertices, v).saturating_sub(1);
    (0..count).any(|j| !sat::is_literal(size_lit(vertices, v, j)))
}

fn size_lits_outside(vertices: &VertexNumbers, n: usize) -> bool
    requires { (n ≤ 64) × ((v : ℕ) → v < n → len_at vertices.now v ≤ 32) }
    ensures { result ≡ some (size_lit_outside vertices.now) n }
{
    (0..n).any(|v| size_lit_outside(vertices, v))
}

fn edge_lit_outside(edges: &EdgeNumbers, m: usize) -> bool
    requires { m ≤ 128 }
    ensures { result ≡ edge_lit_outside edges.now m }
{
    (0..m).any(|g| !sat::is_literal(edge_lit(edges, g)))
}

#[tactic(auto, unfolding(crate::specs::Input::is_vertex))]
fn is_vertex(n: usize, end: i32) -> bool
    ensures { result ≡ is_vertex n end }
{
    base::in_range(end, 63) && (base::to_nat(end) as usize) < n
}

fn end_wrong(edges: &EdgeNumbers, n: usize, m: usize) -> bool
    requires { m ≤ 128 }
    ensures { result ≡ end_wrong n edges.now m }
{
    (0..m).any(|g| !(is_vertex(n, left(edges, g)) && is_vertex(n, right(edges, g))))
}

// Refusal 1.
fn too_many(vertices: &VertexNumbers, n: usize, m: usize) -> bool
    ensures { result ≡ too_many vertices.now n m }
{
    64 < n || 128 < m || sizes_outside(vertices, n)
}

// Refusals 5 and 6, which ask about both arrays: the first that applies.
#[tactic(auto, unfolding(base::specs::Iter::pick))]
fn refused_lits(
    vertices: &VertexNumbers,
    n: usize,
    edges: &EdgeNumbers,
    m: usize,
) -> Option<Refusal>
    requires { (n ≤ 64) × (m ≤ 128) × ((v : ℕ) → v < n → len_at vertices.now v ≤ 32) }
    ensures { number_or_0 result ≡ pick (lit_outside vertices.now n edges.now m) 5 (pick (end_wrong n edges.now m) 6 0) }
{
    if size_lits_outside(vertices, n) || edge_lit_outside(edges, m) {
        return Some(Refusal::LitOutside);
    }
    if end_wrong(edges, n, m) {
        return Some(Refusal::EndWrong);
    }
    None
}

// The refusal with the lowest number of document 01's table, of those that apply.
#[tactic(auto, unfolding(crate::specs::Input::refusal, base::specs::Iter::pick))]
pub fn refusal_of(
    vertices: &VertexNumbers,
    n: usize,
    edges: &EdgeNumbers,
    m: usize,
) -> Option<Refusal>
    ensures { number_or_0 result ≡ refusal vertices.now n edges.now m }
{
    if too_many(vertices, n, m) {
        return Some(Refusal::TooMany);
    }
    if weight_outside(vertices, n) {
        return Some(Refusal::WeightOutside);
    }
    if sizes_wrong(vertices, n) {
        return Some(Refusal::SizeWrong);
    }
    if lit_count_wrong(vertices, n) {
        return Some(Refusal::LitCountWrong);
    }
    refused_lits(vertices, n, edges, m)
}
