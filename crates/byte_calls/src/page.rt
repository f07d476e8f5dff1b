// The page of the decided regions, over bytes that are as long as their layout. Only the buffer is written: its bytes
// are the page's.
ghost use Rattle.std.specs.Prelude.{◌≡◌, ◌≤◌, length};
ghost use Rattle.byte_calls.specs.Host.{back, page_in};

use crate::codes::code_of;
use crate::decode::{decode, no_records, read_edges, room_of};
use noting::no_notes;

pub(crate) fn page(state: &[u8], log: &[u8], cursor: &[u8], buffer: &mut [u8]) -> i32
    requires { (133440 ≤ length state.now) × (8 ≤ length cursor.now) }
    ensures { back result buffer.new ≡
        page_in state.now log.now cursor.now buffer.old }
{
    let mut noted = no_notes();
    let mut records = no_records();
    let before = decode(state, log, cursor, &mut noted, &mut records);
    let edges = read_edges(state);
    let k = room_of(log.len() / 8);
    let answer = lent::page::page(state, edges, &noted, &records[0..k], before, buffer);
    code_of(answer)
}
