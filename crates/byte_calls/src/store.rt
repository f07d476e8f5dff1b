// Writing back what a call changed.
ghost use Rattle.std.specs.Prelude.{◌≡◌, ℕ, ◌+◌, ◌-◌, ◌*◌, ◌<◌, ◌≤◌, length, get_or};
ghost use Rattle.plan.specs.Words.{words_of};
ghost use Rattle.graph_division.specs.Calls.{with_noted};
ghost use Rattle.byte_calls.specs.Layout.{state_in};
ghost use Rattle.byte_calls.specs.Stores.{put_reason, put_reasons, put_last, put_noted, put_cursor, put_list, put_log};

use crate::bytes::{put_long, put_word, write_halves, write_longs, write_words};
use undo_log::Cursor;

// The two words of place p, where it is proposed.
fn store_reason(state: &mut [u8], proposals: &[u64], p: usize)
    requires { (133440 ≤ length state.old) × (length proposals.now ≡ 8772) × (p < 4352) }
    ensures { state.new ≡ put_reason proposals.now p state.old }
{
    if sweep::proposed(proposals, p) {
        put_long(state, 63808 + 16 * p, proposals[68 + 2 * p]);
        put_long(state, 63816 + 16 * p, proposals[69 + 2 * p]);
    }
}

pub(crate) fn store_reasons(state: &mut [u8], proposals: &[u64])
    requires { (133440 ≤ length state.old) × (length proposals.now ≡ 8772) }
    ensures { state.new ≡ put_reasons (words_of state.old) proposals.now state.old }
{
    let n = (2 * (plan::num_variables(state) as usize)).min(4352);
    let mut p = sweep::next_proposed(proposals, 0, n);
    // Not a `for`: words of which nothing is proposed are passed at once.
    while p < n {
        store_reason(state, proposals, p);
        p = sweep::next_proposed(proposals, p + 1, n);
    }
}

pub(crate) fn store_last(state: &mut [u8], left: &[u32], len: usize)
    requires { (133440 ≤ length state.old) × (length left.now ≡ 260) }
    ensures { state.new ≡ put_last left.now len state.old }
{
    put_word(state, 62756, (len % 4294967296) as u32);
    write_words(state, 62764, left, 260);
}

pub(crate) fn store_noted(state: &mut [u8], noted: &[u32])
    requires { (133440 ≤ length state.old) × (length noted.now ≡ 384) }
    ensures { (state.new ≡ put_noted noted.now state.old) × (state_in state.new ≡ with_noted noted.now (state_in state.old)) }
{
    write_words(state, 61220, noted, 384);
}

pub(crate) fn store_cursor(bytes: &mut [u8], cursor: Cursor)
    requires { 8 ≤ length bytes.old }
    ensures { bytes.new ≡ put_cursor cursor bytes.old }
{
    put_word(bytes, 0, (cursor.used % 4294967296) as u32);
    put_word(bytes, 4, (cursor.standing % 4294967296) as u32);
}

// The first n literals, as many as the list has.
pub(crate) fn store_list(bytes: &mut [u8], list: &[u32], n: usize)
    requires { 2 * length list.now ≤ length bytes.old }
    ensures { bytes.new ≡ put_list list.now n bytes.old }
{
    write_halves(bytes, list, n.min(list.len()));
}

// The log's records from one cursor to the other.
pub(crate) fn store_log(bytes: &mut [u8], records: &[u64], from: usize, to: usize)
    requires { 8 * length records.now ≤ length bytes.old }
    ensures { bytes.new ≡ put_log records.now from to bytes.old }
{
    let end = to.min(records.len());
    if from < end {
        write_longs(bytes, records, from, end - from);
    }
}
