// Document 02, request 3: the page of the decided regions. It changes nothing but the buffer that it is lent.
ghost use Rattle.std.specs.Prelude.{◌≡◌};
ghost use Rattle.graph_division.specs.Calls.{fetched, page_fetched};

use crate::lending::plan_bytes;
use graph_division::{Answer, GraphDivision};
use undo_log::Cursor;

// A line for each region, in the order of its lowest vertex.
pub fn page(s: GraphDivision, log: &[u64], cursor: Cursor, buffer: &mut [u8]) -> Answer
    ensures { fetched result buffer.new ≡ page_fetched s cursor log.now buffer.old }
{
    let plan = plan_bytes(s);
    let edges = edge_table::table_of(s.edges);
    lent::page::page(&plan.bytes, edges, &s.noted, log, cursor, buffer)
}
