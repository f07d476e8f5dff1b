// The lists of literals: `get_reason_lits` and the list of a conflict, each written to a lent buffer from a place on. Both walk the
// edges as noted.
#![tactic(auto)]

pub mod conflict;

ghost use Rattle.std.specs.Prelude.{◌≡◌, replicate};
ghost use Rattle.walks.specs.Written.{out_of};
ghost use Rattle.walks.specs.Answers.{answer_of};
ghost use Rattle.lists.specs.Parts.{shape_of, edge_lits, ends_of, path, decided, potential, and_word, and_lit, and_opt, inside, two_paths, two_regions, three_regions};
ghost use Rattle.lists.specs.Lists.{between, too_large, mismatch, spread, same_size, reason_lits};
ghost use Rattle.plan.specs.Words.{words_of};

use edge_table::Edges;
use noting::Noted;
use reasons::reason::Reason;
use sat::Lit;
use walks::{Shape, push};

// The reason buffer of the largest plan: its gates + 2 x its pens + 4.
pub const LONGEST_LIST: usize = 260;

pub type ReasonList = [u32; LONGEST_LIST];

pub fn no_list() -> ReasonList
    ensures { result ≡ replicate 260 0 }
{
    [0u32; 260]
}

// The ends of an edge, or of a path.
#[derive(Clone, Copy)]
struct Ends {
    u: usize,
    v: usize,
}

fn shape_of(plan: &[u8]) -> Shape
    ensures { result ≡ shape_of (words_of plan.now) }
{
    Shape {
        num_vertices: plan::num_vertices(plan) as usize,
        num_edges: plan::num_edges(plan) as usize,
        first_lit: 0,
    }
}

// The literals of the plan's edges, as the walks take them.
fn edge_lits(plan: &[u8]) -> [u32; 128]
    ensures { result ≡ edge_lits (words_of plan.now) }
{
    let n = (plan::num_edges(plan) as usize).min(128);
    let mut lits = [0u32; 128];
    for g in 0..n {
        lits[g] = plan::edge_lit(plan, g);
    }
    lits
}

// The ends of edge g, the right one first with flip.
#[tactic(auto, unfolding(crate::specs::Parts::ends_of, base::specs::Iter::pick))]
fn ends_of(edges: Edges, g: usize, flip: bool) -> Ends
    ensures { result ≡ ends_of edges g flip }
{
    if g < 128 {
        let a = usize::from(edges[g][0]);
        let b = usize::from(edges[g][1]);
        if flip {
            return Ends { u: b, v: a };
        }
        return Ends { u: a, v: b };
    }
    Ends { u: 0, v: 0 }
}

fn path(
    plan: &[u8],
    edges: Edges,
    noted: &Noted,
    p: Ends,
    out: &mut [u32],
    at: usize,
) -> Option<usize>
    ensures { answer_of result out.new ≡ path (words_of plan.now) edges noted.now p (out_of out.old at) }
{
    let lits = edge_lits(plan);
    walks::reason_connected_path(edges, noted, &lits, shape_of(plan), p.u, p.v, out, at)
}

fn decided(
    plan: &[u8],
    edges: Edges,
    noted: &Noted,
    u: usize,
    out: &mut [u32],
    at: usize,
) -> Option<usize>
    ensures { answer_of result out.new ≡ decided (words_of plan.now) edges noted.now u (out_of out.old at) }
{
    let lits = edge_lits(plan);
    walks::reason_decided_region(edges, noted, &lits, shape_of(plan), u, out, at)
}

fn potential(
    plan: &[u8],
    edges: Edges,
    noted: &Noted,
    u: usize,
    out: &mut [u32],
    at: usize,
) -> Option<usize>
    ensures { answer_of result out.new ≡ potential (words_of plan.now) edges noted.now u (out_of out.old at) }
{
    let lits = edge_lits(plan);
    walks::reason_potential_region(edges, noted, &lits, shape_of(plan), u, out, at)
}

// One literal after a list.
pub fn and_word(r: Option<usize>, x: u32, out: &mut [u32]) -> Option<usize>
    ensures { answer_of result out.new ≡ and_word x (answer_of r out.old) }
{
    Some(push(out, r?, x))
}

// A bound's literal after a list, if it is due to one.
fn and_opt(r: Option<usize>, l: Option<Lit>, out: &mut [u32]) -> Option<usize>
    ensures { answer_of result out.new ≡ and_opt l (answer_of r out.old) }
{
    match l {
        Some(lit) => and_word(r, lit.0 as u32, out),
        None => r,
    }
}

// The same of a noted word.
fn and_lit(r: Option<usize>, x: u32, out: &mut [u32]) -> Option<usize>
    ensures { answer_of result out.new ≡ and_lit x (answer_of r out.old) }
{
    if x == 65535 {
        return r;
    }
    and_word(r, x, out)
}

fn two_paths(
    plan: &[u8],
    edges: Edges,
    noted: &Noted,
    p: Ends,
    q: Ends,
    out: &mut [u32],
    at: usize,
) -> Option<usize>
    ensures { answer_of result out.new ≡ two_paths (words_of plan.now) edges noted.now p q (out_of out.old at) }
{
    let n = path(plan, edges, noted, p, out, at)?;
    path(plan, edges, noted, q, out, n)
}

fn two_regions(
    plan: &[u8],
    edges: Edges,
    noted: &Noted,
    u: usize,
    v: usize,
    out: &mut [u32],
    at: usize,
) -> Option<usize>
    ensures { answer_of result out.new ≡ two_regions (words_of plan.now) edges noted.now u v (out_of out.old at) }
{
    let n = decided(plan, edges, noted, u, out, at)?;
    decided(plan, edges, noted, v, out, n)
}

// The path from one end of edge g to the other.
fn inside(
    plan: &[u8],
    edges: Edges,
    noted: &Noted,
    g: usize,
    out: &mut [u32],
    at: usize,
) -> Option<usize>
    ensures { answer_of result out.new ≡ inside (words_of plan.now) edges noted.now g (out_of out.old at) }
{
    path(plan, edges, noted, ends_of(edges, g, false), out, at)
}

// EdgeBetweenDifferentGroups.
fn between(
    plan: &[u8],
    edges: Edges,
    noted: &Noted,
    h: u8,
    g: u8,
    flip: bool,
    out: &mut [u32],
    at: usize,
) -> Option<usize>
    ensures { answer_of result out.new ≡ between (words_of plan.now) edges noted.now h g flip (out_of out.old at) }
{
    let d = ends_of(edges, h as usize, false);
    let e = ends_of(edges, g as usize, flip);
    let p = Ends { u: d.u, v: e.u };
    let q = Ends { u: d.v, v: e.v };
    let r = two_paths(plan, edges, noted, p, q, out, at);
    and_word(r, plan::edge_lit(plan, h as usize), out)
}

// TooLargeIfRegionsAreMerged.
fn too_large(
    plan: &[u8],
    edges: Edges,
    noted: &Noted,
    g: u8,
    l: Option<Lit>,
    out: &mut [u32],
    at: usize,
) -> Option<usize>
    ensures { answer_of result out.new ≡ too_large (words_of plan.now) edges noted.now g l (out_of out.old at) }
{
    let e = ends_of(edges, g as usize, false);
    let r = two_regions(plan, edges, noted, e.u, e.v, out, at);
    and_opt(r, l, out)
}

// InconsistentBoundsIfRegionsAreMerged; no list for any other reason.
fn mismatch(
    plan: &[u8],
    edges: Edges,
    noted: &Noted,
    reason: Reason,
    out: &mut [u32],
    at: usize,
) -> Option<usize>
    ensures { answer_of result out.new ≡ mismatch (words_of plan.now) edges noted.now reason (out_of out.old at) }
{
    if let Reason::InconsistentBoundsIfRegionsAreMerged {
        disconnected_edge_idx: g,
        upper_bound_vertex_idx: a,
        lower_bound_vertex_idx: b,
        flip,
    } = reason
    {
        let e = ends_of(edges, g as usize, flip);
        let p = Ends {
            u: e.u,
            v: a as usize,
        };
        let q = Ends {
            u: e.v,
            v: b as usize,
        };
        let r = two_paths(plan, edges, noted, p, q, out, at);
        let s = and_lit(r, noting::upper_bound_lit(noted, a as usize), out);
        return and_lit(s, noting::lower_bound_lit(noted, b as usize), out);
    }
    None
}

// BoundPropagationWithinRegion.
fn spread(
    plan: &[u8],
    edges: Edges,
    noted: &Noted,
    k: u8,
    u: u8,
    l: Option<Lit>,
    out: &mut [u32],
    at: usize,
) -> Option<usize>
    ensures { answer_of result out.new ≡ spread (words_of plan.now) edges noted.now k u l (out_of out.old at) }
{
    let p = Ends {
        u: k as usize,
        v: u as usize,
    };
    let r = path(plan, edges, noted, p, out, at);
    and_opt(r, l, out)
}

// Two regions and a third one.
fn three_regions(
    plan: &[u8],
    edges: Edges,
    noted: &Noted,
    a: usize,
    b: usize,
    u: usize,
    out: &mut [u32],
    at: usize,
) -> Option<usize>
    ensures { answer_of result out.new ≡ three_regions (words_of plan.now) edges noted.now a b u (out_of out.old at) }
{
    let n = two_regions(plan, edges, noted, a, b, out, at)?;
    decided(plan, edges, noted, u, out, n)
}

// AdjacentSameSizeRegions; no list for any other reason.
fn same_size(
    plan: &[u8],
    edges: Edges,
    noted: &Noted,
    reason: Reason,
    out: &mut [u32],
    at: usize,
) -> Option<usize>
    ensures { answer_of result out.new ≡ same_size (words_of plan.now) edges noted.now reason (out_of out.old at) }
{
    if let Reason::AdjacentSameSizeRegions {
        region1_vertex: a,
        region1_lower_bound: la,
        region1_upper_bound: ua,
        region2_vertex: b,
        region2_lower_bound: lb,
        region2_upper_bound: ub,
        region3_vertex: u,
    } = reason
    {
        let r = three_regions(
            plan, edges, noted, a as usize, b as usize, u as usize, out, at,
        );
        let s = and_opt(r, la, out);
        let t = and_opt(s, ua, out);
        let w = and_opt(t, lb, out);
        return and_opt(w, ub, out);
    }
    None
}

// The Rust's `get_reason_lits`, where the edges and bounds are as noted. There is no list where a path is gone; if it is the second
// of two, the literals of the first are written.
pub fn reason_lits(
    plan: &[u8],
    edges: Edges,
    noted: &Noted,
    reason: Reason,
    out: &mut [u32],
    at: usize,
) -> Option<usize>
    ensures { answer_of result out.new ≡ reason_lits (words_of plan.now) edges noted.now reason (out_of out.old at) }
{
    match reason {
        Reason::NotPropagated => None,
        Reason::EdgeInSameGroup { edge_idx: g } => inside(plan, edges, noted, g as usize, out, at),
        Reason::EdgeBetweenDifferentGroups {
            disconnected_edge_idx: h,
            newly_decided_edge_idx: g,
            flip,
        } => between(plan, edges, noted, h, g, flip, out, at),
        Reason::TooLargeIfRegionsAreMerged {
            disconnected_edge_idx: g,
            upper_bound_lit: l,
        } => too_large(plan, edges, noted, g, l, out, at),
        Reason::RegionAlreadyLarge { vertex_idx: v } => {
            decided(plan, edges, noted, v as usize, out, at)
        }
        Reason::RegionAlreadySmall { vertex_idx: v } => {
            potential(plan, edges, noted, v as usize, out, at)
        }
        Reason::InconsistentBoundsIfRegionsAreMerged { .. } => {
            mismatch(plan, edges, noted, reason, out, at)
        }
        Reason::BoundPropagationWithinRegion {
            known_bound_lit: l,
            known_bound_idx: k,
            unknown_bound_idx: u,
        } => spread(plan, edges, noted, k, u, l, out, at),
        Reason::AdjacentSameSizeRegions { .. } => same_size(plan, edges, noted, reason, out, at),
    }
}
