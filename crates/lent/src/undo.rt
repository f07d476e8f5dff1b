// The Rust's `undo`.
ghost use Rattle.std.specs.Prelude.{◌≡◌, false};
ghost use Rattle.graph_division.specs.declared.GraphDivision.{GraphDivision};
ghost use Rattle.graph_division.specs.Calls.{outcome, with_noted, undone};
ghost use Rattle.lent.specs.Lent.{Parts};
ghost use Rattle.plan.specs.Words.{words_of};

use crate::{Done, refused};
use edge_table::Edges;
use graph_division::Answer;
use noting::Noted;
use undo_log::Cursor;

// Takes back the newest notification, which must be the literal's: 11 where it is not. There is no analysis, so nothing is to be recorded.
pub fn undo<'a>(
    plan: &'a [u8],
    edges: Edges,
    noted: &mut Noted,
    log: &'a [u64],
    cursor: Cursor,
    lit: i32,
) -> Done
    ensures answer_after { (s : GraphDivision) → Parts s (words_of plan.now) edges noted.old →
        outcome (with_noted noted.new s) result.cursor result.answer ≡ undone s cursor lit log.now }
    ensures judged_value { (result.judged ≡ false) × (result.len ≡ 0) }
{
    if let Some(refusal) = refusals::undo_refusal(plan, &edges, noted, log, cursor, lit) {
        return refused(refusal, cursor);
    }
    Done {
        cursor: noting::undo::undo(noted, log, cursor),
        answer: Answer::Undone,
        judged: false,
        len: 0,
    }
}
