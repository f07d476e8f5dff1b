// The Rust's `calc_reason`, with a literal and without one. A fetch changes nothing but the buffer that it is lent.
ghost use Rattle.std.specs.Prelude.{◌≡◌};
ghost use Rattle.graph_division.specs.Calls.{fetched, last_fetched, reason_fetched};

use crate::lending::plan_bytes;
use graph_division::{Answer, GraphDivision};
use undo_log::Cursor;

// The list last left: empty before any analysis and after a consistent notification.
pub fn calc_last(s: GraphDivision, log: &[u64], cursor: Cursor, buffer: &mut [u32]) -> Answer
    ensures { fetched result buffer.new ≡ last_fetched s cursor log.now buffer.old }
{
    let plan = plan_bytes(s);
    let edges = edge_table::table_of(s.edges);
    lent::fetch::calc_last(
        &plan.bytes,
        edges,
        &s.noted,
        log,
        cursor,
        &s.last,
        s.last_len,
        buffer,
    )
}

// A literal's reason: the list of what an analysis recorded for it.
pub fn calc_reason(
    s: GraphDivision,
    log: &[u64],
    cursor: Cursor,
    lit: i32,
    buffer: &mut [u32],
) -> Answer
    ensures { fetched result buffer.new ≡ reason_fetched s cursor log.now lit buffer.old }
{
    let plan = plan_bytes(s);
    let edges = edge_table::table_of(s.edges);
    let p = lent::fetch::place_of(&plan.bytes, refusals::lit_number(lit));
    let reason = recorded::reason_at(s.reasons, p);
    lent::fetch::calc_reason(
        &plan.bytes,
        edges,
        &s.noted,
        log,
        cursor,
        lit,
        reason,
        buffer,
    )
}
