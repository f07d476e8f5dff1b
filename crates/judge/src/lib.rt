// The body of the Rust's `propagate` after noting, up to handing on: an analysis, and its proposals against the value table.
// Nothing of the state or of the table is changed; specs/Judge.antt says what each function does.
#![tactic(auto)]

pub mod conflict;
pub mod proposal;

ghost use Rattle.std.specs.Prelude.{◌≡◌};
ghost use Rattle.judge.specs.Judge.{judged_of, listing, has_room, judge_found, judge_told};
ghost use Rattle.plan.specs.Words.{words_of};

use conflict::{judge_conflict, judge_crowded};
use edge_table::Edges;
use noting::Noted;
use proposal::judge_proposals;
use reasons::{Stop, Verdict};

#[derive(Clone, Copy)]
pub enum Judgement {
    Fine,
    // The list that the conflict leaves is left[0..len].
    Clash { len: usize },
    // Document 01's number: 13 or 14; 7 where the words are no plan's or the buffers are too short.
    Stopped { refusal: u32 },
}

// Room for the words of all distinct literals, and for any list.
#[tactic(auto, unfolding(crate::specs::Judge::has_room, base::specs::Iter::pick))]
fn has_room(plan: &[u8], proposals: &[u64], left: &[u32]) -> bool
    ensures { result ≡ has_room (words_of plan.now) proposals.now left.now }
{
    let words = 68 + 4 * (plan::num_variables(plan) as usize);
    let lits = plan::num_edges(plan) as usize + 2 * (plan::num_vertices(plan) as usize) + 4;
    words <= proposals.len() && lits <= left.len()
}

// What the analysis found, by its verdict.
fn judge_found(
    plan: &[u8],
    edges: Edges,
    noted: &Noted,
    table: &[u8],
    found: Verdict,
    proposals: &[u64],
    left: &mut [u32],
) -> Judgement
    ensures { listing result left.new ≡ judge_found (words_of plan.now) edges noted.now table.now found proposals.now left.old }
{
    let Err(stop) = found else {
        return judge_proposals(plan, edges, noted, table, proposals, left);
    };
    match stop {
        Stop::Crowded { region } => judge_crowded(plan, edges, noted, region, left),
        Stop::ZeroSize => Judgement::Stopped { refusal: 13 },
        Stop::Unfit => Judgement::Stopped { refusal: 7 },
        _ => judge_conflict(plan, edges, noted, found, left),
    }
}

// Analyzes what is noted and judges it. The proposals' words are those of this analysis after it. Which vertex's bounds
// cross, if any, is what applying a literal told.
pub fn judge(
    plan: &[u8],
    edges: Edges,
    noted: &Noted,
    crossed: usize,
    table: &[u8],
    proposals: &mut [u64],
    left: &mut [u32],
) -> Judgement
    ensures { judged_of result proposals.new left.new
        ≡ judge_told (words_of plan.now) edges noted.now crossed table.now
        proposals.old left.old }
{
    if has_room(plan, proposals, left) {
        sweep::clear(proposals);
        let found = analysis::analyze::analyze(plan, edges, noted, crossed, proposals);
        return judge_found(plan, edges, noted, table, found, proposals, left);
    }
    Judgement::Stopped { refusal: 7 }
}
