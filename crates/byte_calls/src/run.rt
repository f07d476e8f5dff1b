// The run of edges from one vertex to the other, over bytes that are as long as their layout. Only the buffer is
// written.
ghost use Rattle.std.specs.Prelude.{◌≡◌, ◌*◌, ◌≤◌, length};
ghost use Rattle.graph_division.specs.Calls.{fetched, run_fetched};
ghost use Rattle.byte_calls.specs.Layout.{state_in, cursor_in, log_in, buffer_in};
ghost use Rattle.byte_calls.specs.Host.{back, given_in};

use crate::decode::{decode, no_records, read_edges, room_of};
use crate::fetch::give;
use graph_division::Answer;
use lists::no_list;
use noting::no_notes;

fn find_run(state: &[u8], log: &[u8], cursor: &[u8], from: i32, to: i32, out: &mut [u32]) -> Answer
    requires { (133440 ≤ length state.now) × (8 ≤ length cursor.now) }
    ensures { fetched result out.new ≡
        run_fetched (state_in state.now) (cursor_in cursor.now)
        (log_in (cursor_in cursor.now) log.now) from to out.old }
{
    let mut noted = no_notes();
    let mut records = no_records();
    let before = decode(state, log, cursor, &mut noted, &mut records);
    let edges = read_edges(state);
    let k = room_of(log.len() / 8);
    lent::run::run(state, edges, &noted, &records[0..k], before, from, to, out)
}

fn give_run(
    state: &[u8],
    log: &[u8],
    cursor: &[u8],
    from: i32,
    to: i32,
    out: &mut [u32],
    buffer: &mut [u8],
) -> i32
    requires { (133440 ≤ length state.now) × (8 ≤ length cursor.now) ×
        (2 * length out.old ≤ length buffer.old) }
    ensures { back result buffer.new ≡
        given_in (run_fetched (state_in state.now) (cursor_in cursor.now)
        (log_in (cursor_in cursor.now) log.now) from to out.old)
        buffer.old }
{
    let answer = find_run(state, log, cursor, from, to, out);
    give(buffer, out, answer)
}

pub(crate) fn run(
    state: &[u8],
    log: &[u8],
    cursor: &[u8],
    from: i32,
    to: i32,
    buffer: &mut [u8],
) -> i32
    requires { (133440 ≤ length state.now) × (8 ≤ length cursor.now) }
    ensures { back result buffer.new ≡
        given_in (run_fetched (state_in state.now) (cursor_in cursor.now)
        (log_in (cursor_in cursor.now) log.now) from to (buffer_in buffer.old))
        buffer.old }
{
    let mut out = no_list();
    let n = (buffer.len() / 2).min(260);
    give_run(state, log, cursor, from, to, &mut out[0..n], buffer)
}
