// The Rust's `propagate`.
ghost use Rattle.std.specs.Prelude.{◌≡◌};
ghost use Rattle.graph_division.specs.Calls.{called, propagated};

use crate::after::state_after;
use crate::lending::plan_bytes;
use graph_division::{GraphDivision, Outcome};
use lists::no_list;
use reasons::no_words;
use undo_log::Cursor;

// Notifies the literal. With a pending number other than 0 it is only noted.
pub fn propagate(
    s: GraphDivision,
    table: &mut [u8],
    list: &mut [u32],
    log: &mut [u64],
    cursor: Cursor,
    lit: i32,
    num_pending_propagations: i32,
) -> Outcome
    ensures { called result table.new list.new log.new ≡ propagated s cursor lit num_pending_propagations table.old list.old log.old }
{
    let plan = plan_bytes(s);
    let edges = edge_table::table_of(s.edges);
    let mut noted = s.noted;
    let mut proposals = no_words();
    let mut left = no_list();
    let done = lent::propagate::propagate(
        &plan.bytes,
        edges,
        &mut noted,
        &mut proposals,
        &mut left,
        table,
        list,
        log,
        cursor,
        lit,
        num_pending_propagations,
    );
    Outcome {
        state: state_after(s, noted, &proposals, left, done),
        cursor: done.cursor,
        answer: done.answer,
    }
}
