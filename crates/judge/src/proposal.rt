// The proposals of an analysis without a conflict: the lowest false one makes one, "its reason as this analysis recorded it, plus
// its negation".
ghost use Rattle.std.specs.Prelude.{◌≡◌, ◌%◌, ◌*◌, ◌+◌, ◌<◌, get_or};
ghost use Rattle.reasons.specs.Reason.{reason_of};
ghost use Rattle.walks.specs.Answers.{answer_of};
ghost use Rattle.judge.specs.Judge.{listing, negation_at, false_lits, judge_current, judge_false, judge_proposals};
ghost use Rattle.plan.specs.Words.{words_of};

use crate::Judgement;
use base::slices::word;
use edge_table::Edges;
use lists::{and_word, reason_lits};
use noting::Noted;
use reasons::reason::{Reason, reason_of};
use sat::negation;
use sweep::first_false;
use sweep::table::some_current;

// The reason that the words of place p hold.
fn reason_at(proposals: &[u64], p: usize) -> Reason
    requires { p < 8589934592 }
    ensures { result ≡ reason_of (get_or proposals.now (68 + 2 * p) 0) (get_or proposals.now (69 + 2 * p) 0) }
{
    reason_of(word(proposals, 68 + 2 * p), word(proposals, 69 + 2 * p))
}

// The negation of the literal at place p; a word of the list has 32 bits.
#[tactic(auto, unfolding(crate::specs::Judge::negation_at))]
fn negation_at(plan: &[u8], p: usize) -> u32
    ensures { result ≡ negation_at (words_of plan.now) p }
{
    negation((plan::unique_lit(plan, p) % 4294967296) as u32)
}

// The reason's list, then the negation.
fn false_lits(
    plan: &[u8],
    edges: Edges,
    noted: &Noted,
    proposals: &[u64],
    p: usize,
    left: &mut [u32],
) -> Option<usize>
    requires { p < 8589934592 }
    ensures { answer_of result left.new ≡ false_lits (words_of plan.now) edges noted.now proposals.now p left.old }
{
    let r = reason_lits(plan, edges, noted, reason_at(proposals, p), left, 0);
    and_word(r, negation_at(plan, p), left)
}

// Refusal 14: no literal of the list is of the current level.
#[tactic(auto, unfolding(crate::specs::Judge::judge_current, base::specs::Iter::pick))]
fn judge_current(table: &[u8], r: Option<usize>, left: &[u32]) -> Judgement
    ensures { result ≡ judge_current table.now r left.now }
{
    match r {
        Some(len) if some_current(table, left, 0, len) => Judgement::Clash { len },
        Some(_) => Judgement::Stopped { refusal: 14 },
        None => Judgement::Stopped { refusal: 7 },
    }
}

// The false proposal at place p.
fn judge_false(
    plan: &[u8],
    edges: Edges,
    noted: &Noted,
    table: &[u8],
    proposals: &[u64],
    p: usize,
    left: &mut [u32],
) -> Judgement
    requires { p < 8589934592 }
    ensures { listing result left.new ≡ judge_false (words_of plan.now) edges noted.now table.now proposals.now p left.old }
{
    let r = false_lits(plan, edges, noted, proposals, p, left);
    judge_current(table, r, left)
}

pub(crate) fn judge_proposals(
    plan: &[u8],
    edges: Edges,
    noted: &Noted,
    table: &[u8],
    proposals: &[u64],
    left: &mut [u32],
) -> Judgement
    ensures { listing result left.new ≡ judge_proposals (words_of plan.now) edges noted.now table.now proposals.now left.old }
{
    let p = first_false(plan, proposals, table);
    if p < 2 * (plan::num_variables(plan) as usize) {
        return judge_false(plan, edges, noted, table, proposals, p, left);
    }
    Judgement::Fine
}
