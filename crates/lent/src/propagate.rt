// The Rust's `propagate`.
ghost use Rattle.std.specs.Prelude.{◌≡◌, Bool, List, ℕ};
ghost use Rattle.recorded.specs.declared.Reasons.{Reasons};
ghost use Rattle.graph_division.specs.declared.GraphDivision.{GraphDivision};
ghost use Rattle.graph_division.specs.Calls.{adding};
ghost use Rattle.lent.specs.Lent.{state_of, Parts, called_of, settled_over, propagated_over};
ghost use Rattle.plan.specs.Words.{words_of};

use crate::{Done, refused};
use edge_table::Edges;
use graph_division::Answer;
use judge::Judgement;
use notifications::try_out;
use noting::Noted;
use noting::note::note;
use undo_log::Cursor;

// The literal is noted and nothing is analyzed.
fn add(plan: &[u8], noted: &mut Noted, log: &mut [u64], cursor: Cursor, lit: u16) -> Done
    ensures { (ends : List (List ℕ)) (rs : Reasons) (last : List ℕ) (len : ℕ) (b : Bool) (proposals left t list : List ℕ) →
        called_of (state_of (words_of plan.now) ends noted.old rs last len b) noted.new proposals left result t list log.new
        ≡ adding (state_of (words_of plan.now) ends noted.old rs last len b) cursor lit t list log.old }
{
    let added = note(plan, noted, log, cursor, lit);
    Done {
        cursor: added.cursor,
        answer: Answer::Noted,
        judged: false,
        len: 0,
    }
}

// The literal is tried out and analyzed; it is noted where the analysis is accepted.
fn settle(
    plan: &[u8],
    edges: Edges,
    noted: &mut Noted,
    proposals: &mut [u64],
    left: &mut [u32],
    table: &mut [u8],
    list: &mut [u32],
    log: &mut [u64],
    cursor: Cursor,
    lit: u16,
) -> Done
    ensures { (rs : Reasons) (last : List ℕ) (len : ℕ) (b : Bool) →
        called_of (state_of (words_of plan.now) edges noted.old rs last len b) noted.new proposals.new left.new result table.new list.new log.new
        ≡ settled_over (state_of (words_of plan.now) edges noted.old rs last len b) cursor proposals.old left.old lit table.old list.old log.old }
{
    let mut trial = *noted;
    let crossed = try_out(plan, &mut trial, lit);
    let found = judge::judge(plan, edges, &trial, crossed, table, proposals, left);
    match found {
        Judgement::Fine => {
            let handed = sweep::hand_on(plan, proposals, table, list, 0);
            let told = note(plan, noted, log, cursor, lit);
            Done {
                cursor: told.cursor,
                answer: Answer::Consistent { handed },
                judged: true,
                len: 0,
            }
        }
        Judgement::Clash { len } => {
            let told = note(plan, noted, log, cursor, lit);
            Done {
                cursor: told.cursor,
                answer: Answer::Conflict,
                judged: true,
                len,
            }
        }
        Judgement::Stopped { refusal } => Done {
            cursor,
            answer: Answer::Refused { number: refusal },
            judged: false,
            len: 0,
        },
    }
}

// Notifies the literal. With a pending number other than 0 it is only noted. The proposals and the list left are those of the analysis
// after it, over what they held before: a caller lends zeros.
pub fn propagate(
    plan: &[u8],
    edges: Edges,
    noted: &mut Noted,
    proposals: &mut [u64],
    left: &mut [u32],
    table: &mut [u8],
    list: &mut [u32],
    log: &mut [u64],
    cursor: Cursor,
    lit: i32,
    num_pending_propagations: i32,
) -> Done
    ensures { (s : GraphDivision) → Parts s (words_of plan.now) edges noted.old →
        called_of s noted.new proposals.new left.new result table.new list.new log.new
        ≡ propagated_over s cursor proposals.old left.old lit num_pending_propagations table.old list.old log.old }
{
    if let Some(refusal) = refusals::propagate_refusal(
        plan,
        &edges,
        noted,
        table,
        list.len(),
        log,
        cursor,
        lit,
    ) {
        return refused(refusal, cursor);
    }
    let l = refusals::lit_number(lit);
    if base::in_range(num_pending_propagations, 0) {
        return settle(
            plan, edges, noted, proposals, left, table, list, log, cursor, l,
        );
    }
    add(plan, noted, log, cursor, l)
}
