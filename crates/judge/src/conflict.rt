// A conflict of the analysis: its list, written from place 0 on.
ghost use Rattle.std.specs.Prelude.{◌≡◌};
ghost use Rattle.lists.specs.Conflicts.{chosen_of};
ghost use Rattle.judge.specs.Judge.{listing, listed, judge_chosen, judge_conflict, judge_crowded};
ghost use Rattle.plan.specs.Words.{words_of};

use crate::Judgement;
use edge_table::Edges;
use lists::conflict::conflict_lits;
use noting::Noted;
use reasons::{Stop, Verdict};
use views::cells::separate_ranges;
use views::compute::compute_view;

// A list that could be written is a conflict's.
#[tactic(auto, unfolding(crate::specs::Judge::listed))]
fn judge_list(r: Option<usize>) -> Judgement
    ensures { result ≡ listed r }
{
    match r {
        Some(len) => Judgement::Clash { len },
        None => Judgement::Stopped { refusal: 7 },
    }
}

// A conflict whose separate ranges are those of the first `count` of `chosen`.
#[tactic(auto, unfolding(crate::specs::Judge::judge_chosen, crate::specs::Judge::of_list))]
fn judge_chosen(
    plan: &[u8],
    edges: Edges,
    noted: &Noted,
    found: Verdict,
    chosen: &[u8; 64],
    count: usize,
    left: &mut [u32],
) -> Judgement
    ensures { listing result left.new ≡ judge_chosen (words_of plan.now) edges noted.now found (chosen_of chosen.now count) left.old }
{
    judge_list(conflict_lits(plan, edges, noted, found, chosen, count, left, 0))
}

// A conflict without separate ranges.
#[tactic(auto, unfolding(crate::specs::Judge::judge_conflict, lists::specs::Conflicts::chosen_of, lists::specs::Conflicts::num_chosen, base::specs::Iter::pick, base::specs::Lists::tab))]
pub(crate) fn judge_conflict(
    plan: &[u8],
    edges: Edges,
    noted: &Noted,
    found: Verdict,
    left: &mut [u32],
) -> Judgement
    ensures { listing result left.new ≡ judge_conflict (words_of plan.now) edges noted.now found left.old }
{
    let chosen = [0u8; 64];
    judge_chosen(plan, edges, noted, found, &chosen, 0, left)
}

// Separate ranges of a potential region that need more than it weighs.
pub(crate) fn judge_crowded(
    plan: &[u8],
    edges: Edges,
    noted: &Noted,
    region: usize,
    left: &mut [u32],
) -> Judgement
    ensures { listing result left.new ≡ judge_crowded (words_of plan.now) edges noted.now region left.old }
{
    let mut view = [0u32; 512];
    if compute_view(plan, edges, noted, &mut view) {
        let mut chosen = [0u8; 64];
        let count = separate_ranges(plan, noted, &view, region, &mut chosen);
        let found = Err(Stop::Crowded { region });
        return judge_chosen(plan, edges, noted, found, &chosen, count, left);
    }
    Judgement::Stopped { refusal: 7 }
}
