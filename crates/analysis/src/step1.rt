// Step 1, where extra walls are not allowed. Document 01: "a shut gate inside a region is a conflict; an undecided one is to be
// opened; an undecided gate between two regions that a shut gate also joins is to be shut."
ghost use Rattle.std.specs.Prelude.{◌≡◌, [], ◌&&◌, ◌||◌, ◌<◌, ◌≤◌, eqb, get_or, replicate};
ghost use Rattle.base.specs.Iter.{iter};
ghost use Rattle.plan.specs.Words.{words_of, edges_of};
ghost use Rattle.division.specs.Regions.{lowest};
ghost use Rattle.division.specs.Analysis.{inside, matches, loose, matched, guarded};
ghost use Rattle.reasons.specs.Verdicts.{Going, begun, ran, ran_of};
ghost use Rattle.analysis.specs.Placed.{words, on};
ghost use Rattle.analysis.specs.First.{disconnected_end, pair_place, Walled};

use crate::{edge_place, edge_state, left_region, right_region};
use edge_table::Edges;
use noting::Noted;
use reasons::{Stop, Verdict, packed, put};
use sat::negation;
use views::View;

// Edge g inside a region.
fn inside(
    plan: &[u8],
    edges: &Edges,
    noted: &Noted,
    view: &View,
    g: usize,
    proposals: &mut [u64],
) -> Verdict
    requires { g < 128 }
    ensures { ran result proposals.new ≡ ran_of (on inside (words (words_of plan.now) edges.now noted.now view.now) g begun) proposals.old }
{
    if left_region(edges, view, g) != right_region(edges, view, g) {
        return Ok(());
    }
    let state = edge_state(noted, g);
    if state == 1 {
        return Err(Stop::DisconnectedInside { edge_idx: g });
    }
    if state == 0 {
        put(
            proposals,
            negation(edge_place(plan, g)),
            packed(1, g, 0, 0, 0),
            0,
        );
    }
    Ok(())
}

// Every edge in order, up to a conflict.
pub(crate) fn connect_inside(
    plan: &[u8],
    edges: &Edges,
    noted: &Noted,
    view: &View,
    proposals: &mut [u64],
) -> Verdict
    requires { edges_of (words_of plan.now) ≤ 128 }
    ensures { ran result proposals.new ≡ ran_of (iter (guarded (on inside (words (words_of plan.now) edges.now noted.now view.now))) (edges_of (words_of plan.now)) begun) proposals.old }
{
    let n = plan::num_edges(plan) as usize;
    for g in 0..n {
        inside(plan, edges, noted, view, g, proposals)?;
    }
    Ok(())
}

// Whether a and b are c and d, in either order.
fn same_pair(a: usize, b: usize, c: usize, d: usize) -> bool
    ensures { result ≡ ((eqb a c && eqb b d) || (eqb a d && eqb b c)) }
{
    (a == c && b == d) || (a == d && b == c)
}

// Whether edge h is disconnected and joins the two regions that edge g joins.
#[tactic(auto, unfolding(division::specs::Analysis::matches))]
fn matches(edges: &Edges, noted: &Noted, view: &View, g: usize, h: usize) -> bool
    requires { (g < 128) × (h < 128) }
    ensures { result ≡ on matches (words [] edges.now noted.now view.now) g h }
{
    edge_state(noted, h) == 1
        && same_pair(
            left_region(edges, view, h),
            right_region(edges, view, h),
            left_region(edges, view, g),
            right_region(edges, view, g),
        )
}

// The lowest of the first n edges that matches edge g, or n. Document 01: "Where several shut gates match, the lowest gate
// number is the reason."
fn lowest_match(edges: &Edges, noted: &Noted, view: &View, g: usize, n: usize) -> usize
    requires { (g < 128) × (n ≤ 128) }
    ensures { result ≡ lowest (on matches (words [] edges.now noted.now view.now) g) n }
{
    for h in 0..n {
        if matches(edges, noted, view, g, h) {
            return h;
        }
    }
    n
}

// Whether edge g is undecided and joins two regions.
#[tactic(auto, unfolding(division::specs::Analysis::loose))]
pub(crate) fn loose(edges: &Edges, noted: &Noted, view: &View, g: usize) -> bool
    requires { g < 128 }
    ensures { result ≡ on loose (words [] edges.now noted.now view.now) g }
{
    edge_state(noted, g) == 0 && left_region(edges, view, g) != right_region(edges, view, g)
}

fn is_disconnected(noted: &Noted, g: usize) -> bool
    requires { g < 128 }
    ensures { result ≡ eqb (get_or noted.now g 0) 1 }
{
    edge_state(noted, g) == 1
}

// How many of the first n edges there are up to the last disconnected one: no other edge can match.
fn disconnected_end(noted: &Noted, n: usize) -> usize
    requires { n ≤ 128 }
    ensures { result ≡ disconnected_end noted.now n }
{
    for h in (0..n).rev() {
        if is_disconnected(noted, h) {
            return h + 1;
        }
    }
    0
}

fn is_undecided(noted: &Noted, g: usize) -> bool
    requires { g < 128 }
    ensures { result ≡ eqb (get_or noted.now g 0) 0 }
{
    edge_state(noted, g) == 0
}

// The lowest undecided one of the first n edges, or n.
fn first_undecided(noted: &Noted, n: usize) -> usize
    requires { n ≤ 128 }
    ensures { result ≡ lowest (λ h. eqb (get_or noted.now h 0) 0) n }
{
    for h in 0..n {
        if is_undecided(noted, h) {
            return h;
        }
    }
    n
}

// Where the lowest wall between regions a and b, in this order, is kept.
#[tactic(auto, unfolding(crate::specs::First::pair_place))]
fn pair_place(a: usize, b: usize) -> usize
    ensures { result ≡ pair_place a b }
{
    64 * (a % 64) + b % 64
}

// For each pair of regions, in both orders, the lowest of the first n edges that is disconnected and joins them, plus 1.
// From the highest edge down, so that the lowest stays.
fn lowest_walls(edges: &Edges, noted: &Noted, view: &View, n: usize, walls: &mut [u8; 4096])
    requires { (n ≤ 128) × (walls.old ≡ replicate 4096 0) }
    ensures { Walled (words [] edges.now noted.now view.now) n walls.new }
{
    for h in (0..n).rev() {
        if is_disconnected(noted, h) {
            let a = left_region(edges, view, h);
            let b = right_region(edges, view, h);
            let k = (h + 1) as u8;
            walls[pair_place(a, b)] = k;
            walls[pair_place(b, a)] = k;
        }
    }
}

// `lowest_match` by one read. It searches only where the edge kept there joins two other regions, which never happens to
// labels below 64.
fn walled_match(
    edges: &Edges,
    noted: &Noted,
    view: &View,
    walls: &[u8; 4096],
    g: usize,
    n: usize,
) -> usize
    requires { (g < 128) × (n ≤ 128) × Walled (words [] edges.now noted.now view.now) n walls.now }
    ensures { result ≡ lowest (on matches (words [] edges.now noted.now view.now) g) n }
{
    let place = pair_place(left_region(edges, view, g), right_region(edges, view, g));
    let k = usize::from(walls[place]);
    if k == 0 {
        return n;
    }
    let h = k - 1;
    if matches(edges, noted, view, g, h) {
        return h;
    }
    lowest_match(edges, noted, view, g, n)
}

// Edge g between two regions that a disconnected edge, one of the first `end`, also joins.
fn matched(
    plan: &[u8],
    edges: &Edges,
    noted: &Noted,
    view: &View,
    walls: &[u8; 4096],
    g: usize,
    end: usize,
    proposals: &mut [u64],
)
    requires { (g < 128) × (edges_of (words_of plan.now) ≤ 128) × (end ≡ disconnected_end noted.now (edges_of (words_of plan.now))) × Walled (words [] edges.now noted.now view.now) end walls.now }
    ensures { ran Going proposals.new ≡ ran_of (on matched (words (words_of plan.now) edges.now noted.now view.now) g begun) proposals.old }
{
    if loose(edges, noted, view, g) {
        let h = walled_match(edges, noted, view, walls, g, end);
        if h < end {
            let flip = left_region(edges, view, g) == right_region(edges, view, h);
            put(
                proposals,
                edge_place(plan, g),
                packed(2, h, g, usize::from(flip), 0),
                0,
            );
        }
    }
}

// Every edge in order. Where none is disconnected or none is undecided, none matches, and nothing is kept.
pub(crate) fn disconnect_matched(
    plan: &[u8],
    edges: &Edges,
    noted: &Noted,
    view: &View,
    proposals: &mut [u64],
)
    requires { edges_of (words_of plan.now) ≤ 128 }
    ensures { ran Going proposals.new ≡ ran_of (iter (guarded (on matched (words (words_of plan.now) edges.now noted.now view.now))) (edges_of (words_of plan.now)) begun) proposals.old }
{
    let n = plan::num_edges(plan) as usize;
    let end = disconnected_end(noted, n);
    if end == 0 {
        return;
    }
    if first_undecided(noted, n) == n {
        return;
    }
    let mut walls = [0u8; 4096];
    lowest_walls(edges, noted, view, end, &mut walls);
    for g in 0..n {
        matched(plan, edges, noted, view, &walls, g, end, proposals);
    }
}
