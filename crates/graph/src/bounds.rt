// Whether a graph can be walked, and an edge passed.
ghost use Rattle.std.specs.Prelude.{◌≡◌, ℕ, ◌<◌, ◌≤◌};
ghost use Rattle.graph.specs.Search.{passes};
ghost use Rattle.graph.specs.Bounds.{ends_below, walkable};

use edge_table::Edges;

pub fn wide(x: u8) -> usize
    ensures { result ≡ x }
{
    usize::from(x)
}

// Whether an edge in this state can be passed.
#[tactic(auto, unfolding(crate::specs::Search::passes, base::specs::Iter::pick))]
pub fn passable(state: u32, potential: bool) -> bool
    ensures { result ≡ passes potential state }
{
    if potential { state != 1 } else { state == 2 }
}

// Whether the ends of edge g are vertices.
#[tactic(auto, unfolding(crate::specs::Bounds::ends_below))]
fn ends_below(edges: &Edges, num_vertices: usize, g: usize) -> bool
    requires { g < 128 }
    ensures { result ≡ ends_below num_vertices edges.now g }
{
    usize::from(edges[g][0]) < num_vertices && usize::from(edges[g][1]) < num_vertices
}

// Whether vertices and edges fit, each edge has a state, and each edge's ends are vertices.
#[tactic(auto, unfolding(crate::specs::Bounds::walkable, base::specs::Iter::pick))]
pub fn walkable(edges: &Edges, state: &[u32], num_edges: usize, num_vertices: usize) -> bool
    ensures { result ≡ walkable edges.now state.now num_edges num_vertices }
{
    num_vertices <= 64
        && num_edges <= 128
        && num_edges <= state.len()
        && (0..num_edges).all(|g| ends_below(edges, num_vertices, g))
}
