// The Rust's `initialize`.
ghost use Rattle.std.specs.Prelude.{◌≡◌};
ghost use Rattle.graph_division.specs.Calls.{called};
ghost use Rattle.graph_division.specs.Initialize.{initialized};
ghost use Rattle.lent.specs.Lent.{begun_after};

use crate::after::state_after;
use crate::lending::plan_bytes;
use graph_division::{GraphDivision, Outcome, is_consistent};
use lent::Done;
use lists::ReasonList;
use noting::Noted;
use reasons::no_words;
use undo_log::Cursor;

// The state after an initialise: a consistent one is marked in it.
fn begun_after(
    s: GraphDivision,
    noted: Noted,
    words: &[u64],
    left: ReasonList,
    done: Done,
) -> GraphDivision
    ensures { result ≡ begun_after s noted words.now left done }
{
    let state = state_after(s, noted, words, left, done);
    if is_consistent(done.answer) {
        return GraphDivision {
            initialized: true,
            ..state
        };
    }
    state
}

// Notifies, in rising order, the plan's literals that are true in the table on entry, and analyzes once more.
pub fn initialize(
    s: GraphDivision,
    table: &mut [u8],
    list: &mut [u32],
    log: &mut [u64],
    cursor: Cursor,
) -> Outcome
    ensures { called result table.new list.new log.new ≡ initialized s cursor table.old log.old list.old }
{
    let plan = plan_bytes(s);
    let edges = edge_table::table_of(s.edges);
    let mut noted = s.noted;
    let mut words = no_words();
    let mut left = s.last;
    let done = lent::initialize::initialize(
        &plan.bytes,
        edges,
        &mut noted,
        &mut words,
        &mut left,
        table,
        list,
        log,
        cursor,
        s.last_len,
        s.initialized,
    );
    Outcome {
        state: begun_after(s, noted, &words, left, done),
        cursor: done.cursor,
        answer: done.answer,
    }
}
