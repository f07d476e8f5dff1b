// Document 02, request 1: the run of edges, connected or undecided, from one vertex to the other. It changes nothing
// but the buffer that it is lent.
ghost use Rattle.std.specs.Prelude.{◌≡◌};
ghost use Rattle.graph_division.specs.Calls.{fetched, run_fetched};

use crate::lending::plan_bytes;
use graph_division::{Answer, GraphDivision};
use undo_log::Cursor;

// The numbers of its edges go to the buffer, in order from the first vertex.
pub fn run(
    s: GraphDivision,
    log: &[u64],
    cursor: Cursor,
    from: i32,
    to: i32,
    buffer: &mut [u32],
) -> Answer
    ensures { fetched result buffer.new ≡
        run_fetched s cursor log.now from to buffer.old }
{
    let plan = plan_bytes(s);
    let edges = edge_table::table_of(s.edges);
    lent::run::run(&plan.bytes, edges, &s.noted, log, cursor, from, to, buffer)
}
