// The fetches over bytes that are as long as their layout. Only the buffer is written.
ghost use Rattle.std.specs.Prelude.{◌≡◌, ℕ, ◌+◌, ◌*◌, ◌≤◌, ◌<◌, length};
ghost use Rattle.graph_division.specs.Calls.{fetched, reason_fetched, last_fetched};
ghost use Rattle.byte_calls.specs.Layout.{plan_in, ends_in, state_in, cursor_in, log_in, buffer_in, reason_word_in};
ghost use Rattle.base.specs.Bytes.{words_in};
ghost use Rattle.byte_calls.specs.Host.{back, given_in};

use crate::bytes::{long_at, read_words, word_at};
use crate::codes::{code_of, given_by};
use crate::decode::{decode, no_records, read_edges, room_of};
use crate::store::store_list;
use edge_table::Edges;
use graph_division::Answer;
use lists::no_list;
use noting::{Noted, no_notes};
use undo_log::Cursor;

// A word of the reason at place p, whose first one stands at `at`; 0 past the last place.
fn reason_word(state: &[u8], at: usize, p: usize) -> u64
    requires { (133440 ≤ length state.now) × (at ≤ 63816) }
    ensures { result ≡ reason_word_in state.now at p }
{
    if p < 4352 {
        return long_at(state, at + 16 * p);
    }
    0
}

fn find_reason<'a>(
    state: &'a [u8],
    edges: Edges,
    noted: &'a Noted,
    records: &'a [u64],
    before: Cursor,
    lit: i32,
    out: &mut [u32],
) -> Answer
    requires { (133440 ≤ length state.now) × (edges ≡ ends_in state.now) × (noted.now ≡ words_in state.now 61220 384) }
    ensures { fetched result out.new ≡ reason_fetched (state_in state.now) «before» records.now lit out.old }
{
    let p = lent::fetch::place_of(state, refusals::lit_number(lit));
    let first = reason_word(state, 63808, p);
    let second = reason_word(state, 63816, p);
    let reason = reasons::reason::reason_of(first, second);
    lent::fetch::calc_reason(state, edges, noted, records, before, lit, reason, out)
}

fn find_last<'a>(
    state: &'a [u8],
    edges: Edges,
    noted: &'a Noted,
    records: &'a [u64],
    before: Cursor,
    out: &mut [u32],
) -> Answer
    requires { (133440 ≤ length state.now) × (edges ≡ ends_in state.now) × (noted.now ≡ words_in state.now 61220 384) }
    ensures { fetched result out.new ≡ last_fetched (state_in state.now) «before» records.now out.old }
{
    let len = word_at(state, 62756) as usize;
    let mut last = no_list();
    read_words(state, 62764, 0, 260, &mut last);
    lent::fetch::calc_last(state, edges, noted, records, before, &last, len, out)
}

// The list, or the run, goes to the buffer's bytes.
pub(crate) fn give(buffer: &mut [u8], out: &[u32], answer: Answer) -> i32
    requires { 2 * length out.now ≤ length buffer.old }
    ensures { back result buffer.new ≡ given_in (fetched answer out.now) buffer.old }
{
    store_list(buffer, out, given_by(answer));
    code_of(answer)
}

fn give_reason<'a>(
    state: &'a [u8],
    edges: Edges,
    noted: &'a Noted,
    records: &'a [u64],
    before: Cursor,
    lit: i32,
    out: &mut [u32],
    buffer: &mut [u8],
) -> i32
    requires { (133440 ≤ length state.now) × (edges ≡ ends_in state.now) × (noted.now ≡ words_in state.now 61220 384) × (2 * length out.old ≤ length buffer.old) }
    ensures { back result buffer.new ≡ given_in (reason_fetched (state_in state.now) «before» records.now lit out.old) buffer.old }
{
    let answer = find_reason(state, edges, noted, records, before, lit, out);
    give(buffer, out, answer)
}

fn give_last<'a>(
    state: &'a [u8],
    edges: Edges,
    noted: &'a Noted,
    records: &'a [u64],
    before: Cursor,
    out: &mut [u32],
    buffer: &mut [u8],
) -> i32
    requires { (133440 ≤ length state.now) × (edges ≡ ends_in state.now) × (noted.now ≡ words_in state.now 61220 384) × (2 * length out.old ≤ length buffer.old) }
    ensures { back result buffer.new ≡ given_in (last_fetched (state_in state.now) «before» records.now out.old) buffer.old }
{
    let answer = find_last(state, edges, noted, records, before, out);
    give(buffer, out, answer)
}

pub(crate) fn calc_reason(
    state: &[u8],
    log: &[u8],
    cursor: &[u8],
    lit: i32,
    buffer: &mut [u8],
) -> i32
    requires { (133440 ≤ length state.now) × (8 ≤ length cursor.now) }
    ensures { back result buffer.new ≡ given_in (reason_fetched (state_in state.now) (cursor_in cursor.now) (log_in (cursor_in cursor.now) log.now) lit (buffer_in buffer.old)) buffer.old }
{
    let mut noted = no_notes();
    let mut records = no_records();
    let before = decode(state, log, cursor, &mut noted, &mut records);
    let edges = read_edges(state);
    let k = room_of(log.len() / 8);
    let mut out = no_list();
    let n = (buffer.len() / 2).min(260);
    give_reason(
        state,
        edges,
        &noted,
        &records[0..k],
        before,
        lit,
        &mut out[0..n],
        buffer,
    )
}

pub(crate) fn calc_last(state: &[u8], log: &[u8], cursor: &[u8], buffer: &mut [u8]) -> i32
    requires { (133440 ≤ length state.now) × (8 ≤ length cursor.now) }
    ensures { back result buffer.new ≡ given_in (last_fetched (state_in state.now) (cursor_in cursor.now) (log_in (cursor_in cursor.now) log.now) (buffer_in buffer.old)) buffer.old }
{
    let mut noted = no_notes();
    let mut records = no_records();
    let before = decode(state, log, cursor, &mut noted, &mut records);
    let edges = read_edges(state);
    let k = room_of(log.len() / 8);
    let mut out = no_list();
    let n = (buffer.len() / 2).min(260);
    give_last(
        state,
        edges,
        &noted,
        &records[0..k],
        before,
        &mut out[0..n],
        buffer,
    )
}
