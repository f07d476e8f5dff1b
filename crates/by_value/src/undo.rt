// The Rust's `undo`.
ghost use Rattle.std.specs.Prelude.{◌≡◌};
ghost use Rattle.graph_division.specs.Calls.{undone};

use crate::lending::plan_bytes;
use graph_division::{GraphDivision, Outcome};
use undo_log::Cursor;

// Takes back the newest notification, which must be the literal's: 11 where it is not.
pub fn undo(s: GraphDivision, log: &[u64], cursor: Cursor, lit: i32) -> Outcome
    ensures { result ≡ undone s cursor lit log.now }
{
    let plan = plan_bytes(s);
    let edges = edge_table::table_of(s.edges);
    let mut noted = s.noted;
    let done = lent::undo::undo(&plan.bytes, edges, &mut noted, log, cursor, lit);
    Outcome {
        state: GraphDivision { noted, ..s },
        cursor: done.cursor,
        answer: done.answer,
    }
}
