// Step 4's ties: of the vertices of a decided region, in the order of the search from its label, the first with the greatest lower bound
// and the first with the least upper bound.
ghost use Rattle.std.specs.Prelude.{◌≡◌, Bool, true, ℕ, ◌≤◌, length, take};
ghost use Rattle.division.specs.Analysis.{best};
ghost use Rattle.noting.specs.Words.{state_of};
ghost use Rattle.views.specs.Members.{reaches, members_from, higher, lesser, extremes};
ghost use Rattle.plan.specs.Words.{words_of};

use edge_table::Edges;
use noting::Noted;
use walks::{Shape, region_vertices};

// The two vertices. Not found where the region cannot be walked.
#[derive(Clone, Copy)]
pub struct Extremes {
    pub found: bool,
    pub lower_bound_idx: usize,
    pub upper_bound_idx: usize,
}

// A region's vertices: the first `count` entries.
#[derive(Clone, Copy)]
struct Members {
    known: bool,
    count: usize,
    list: [u32; 64],
}

fn list_members(plan: &[u8], edges: Edges, noted: &Noted, region: usize) -> Members
    ensures { (result.known ≡ reaches (words_of plan.now) edges noted.now region) × (result.known ≡ true → (result.count ≤ length result.list) × (take result.count result.list ≡ members_from (words_of plan.now) edges noted.now region)) }
{
    let shape = Shape {
        num_vertices: plan::num_vertices(plan) as usize,
        num_edges: plan::num_edges(plan) as usize,
        first_lit: 0,
    };
    let mut list = [0u32; 64];
    let listed = region_vertices(edges, noted, false, shape, region, &mut list, 0);
    match listed {
        Some(count) => Members {
            known: true,
            count,
            list,
        },
        None => Members {
            known: false,
            count: 0,
            list,
        },
    }
}

// Of a region's vertices the first that is better than `region` and all before it, and than which none is; or `region`.
fn best<F: Fn(usize, usize) -> bool>(vertices: &[u32], region: usize, is_better: F) -> usize
    requires { F.IsAlwaysCallable is_better }
    ensures { (t : ℕ → ℕ → Bool) → ((c a : ℕ) (r : Bool) → F.post is_better c a r → r ≡ t c a) → result ≡ best t region vertices.now }
{
    let mut a = region;
    for x in vertices {
        let c = *x as usize;
        if is_better(c, a) {
            a = c;
        }
    }
    a
}

// The vertices that step 4 names where the bounds of a region do not meet. The region is lent as a part of the list
// that the search wrote.
pub fn extreme_vertices(plan: &[u8], edges: Edges, noted: &Noted, region: usize) -> Extremes
    ensures { result ≡ extremes (words_of plan.now) edges noted.now region }
{
    let m = list_members(plan, edges, noted, region);
    if !m.known {
        return Extremes {
            found: false,
            lower_bound_idx: 0,
            upper_bound_idx: 0,
        };
    }
    let vertices = &m.list[..m.count];
    Extremes {
        found: true,
        lower_bound_idx: best(vertices, region, |c, a| {
            noting::lower_bound(noted, a) < noting::lower_bound(noted, c)
        }),
        upper_bound_idx: best(vertices, region, |c, a| {
            noting::upper_bound(noted, c) < noting::upper_bound(noted, a)
        }),
    }
}
