// The list that a conflict leaves: the Rust's `inconsistency_reason`.
ghost use Rattle.std.specs.Prelude.{◌≡◌};
ghost use Rattle.walks.specs.Written.{out_of};
ghost use Rattle.walks.specs.Answers.{answer_of};
ghost use Rattle.lists.specs.Conflicts.{span_after, spans_after, chosen_of, crossing_lits, apart_lits, conflict_lits};
ghost use Rattle.plan.specs.Words.{words_of};

use crate::{Ends, and_lit, and_word, decided, inside, path, potential};
use edge_table::Edges;
use noting::Noted;
use reasons::{Stop, Verdict};

// The bound literals of vertex v after a list.
fn span(noted: &Noted, v: usize, r: Option<usize>, out: &mut [u32]) -> Option<usize>
    ensures { answer_of result out.new ≡ span_after noted.now v (answer_of r out.old) }
{
    let s = and_lit(r, noting::lower_bound_lit(noted, v), out);
    and_lit(s, noting::upper_bound_lit(noted, v), out)
}

// Those of the vertices chosen.
fn spans(
    noted: &Noted,
    chosen: &[u8; 64],
    count: usize,
    r: Option<usize>,
    out: &mut [u32],
) -> Option<usize>
    ensures { answer_of result out.new ≡ spans_after noted.now (chosen_of chosen.now count) (answer_of r out.old) }
{
    let n = count.min(64);
    let mut a = r;
    for i in 0..n {
        a = span(noted, usize::from(chosen[i]), a, out);
    }
    a
}

// Bounds of one region that do not meet.
fn apart(
    plan: &[u8],
    edges: Edges,
    noted: &Noted,
    a: usize,
    b: usize,
    out: &mut [u32],
    at: usize,
) -> Option<usize>
    ensures { answer_of result out.new ≡ apart_lits (words_of plan.now) edges noted.now a b (out_of out.old at) }
{
    let p = Ends { u: a, v: b };
    let r = path(plan, edges, noted, p, out, at);
    let s = and_lit(r, noting::lower_bound_lit(noted, a), out);
    and_lit(s, noting::upper_bound_lit(noted, b), out)
}

// The bounds of vertex v, which cross: its lower literal, then its upper literal.
fn crossing(noted: &Noted, v: usize, out: &mut [u32], at: usize) -> Option<usize>
    ensures { answer_of result out.new ≡ crossing_lits noted.now v (out_of out.old at) }
{
    span(noted, v, Some(at), out)
}

// The list of a conflict. Of a potential region whose ranges need more than it weighs, the vertices of these ranges are the first
// `count` of `chosen`. What is no conflict has no list.
pub fn conflict_lits(
    plan: &[u8],
    edges: Edges,
    noted: &Noted,
    verdict: Verdict,
    chosen: &[u8; 64],
    count: usize,
    out: &mut [u32],
    at: usize,
) -> Option<usize>
    ensures { answer_of result out.new ≡ conflict_lits (words_of plan.now) edges noted.now verdict (chosen_of chosen.now count) (out_of out.old at) }
{
    let Err(stop) = verdict else {
        return None;
    };
    match stop {
        Stop::DisconnectedInside { edge_idx: g } => {
            let r = inside(plan, edges, noted, g, out, at);
            and_word(r, plan::edge_lit(plan, g), out)
        }
        Stop::Over { vertex_idx: v } => {
            let r = decided(plan, edges, noted, v, out, at);
            and_lit(r, noting::upper_bound_lit(noted, v), out)
        }
        Stop::Under { vertex_idx: v } => {
            let r = potential(plan, edges, noted, v, out, at);
            and_lit(r, noting::lower_bound_lit(noted, v), out)
        }
        Stop::Crowded { region: v } => {
            let r = potential(plan, edges, noted, v, out, at);
            spans(noted, chosen, count, r, out)
        }
        Stop::Apart {
            lower_bound_idx: a,
            upper_bound_idx: b,
        } => apart(plan, edges, noted, a, b, out, at),
        Stop::Crossing { vertex_idx: v } => crossing(noted, v, out, at),
        Stop::ZeroSize => None,
        Stop::Unfit => None,
    }
}
