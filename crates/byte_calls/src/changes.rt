// The calls that notify and undo, over bytes that are as long as their layout.
ghost use Rattle.std.specs.Prelude.{◌≡◌, ℕ, ◌+◌, ◌*◌, ◌≤◌, ◌<◌, [], length, true, false};
ghost use Rattle.lent.specs.Lent.{state_after};
ghost use Rattle.graph_division.specs.Answers.{is_refused};
ghost use Rattle.byte_calls.specs.Layout.{plan_in, ends_in, state_in, cursor_in, list_in, log_in};
ghost use Rattle.base.specs.Bytes.{words_in};
ghost use Rattle.byte_calls.specs.Stores.{BytesKept};
ghost use Rattle.byte_calls.specs.Host.{AfterOf, left_with, left_by, left_of, propagated_in, back, back_by, undone_in};
ghost use Rattle.graph_division.specs.Calls.{undone};

use crate::codes::{code_of, given_by};
use crate::decode::{decode, no_lits, no_records, read_edges, room_of};
use crate::store::{store_cursor, store_last, store_list, store_log, store_noted, store_reasons};
use edge_table::Edges;
use graph_division::is_refused;
use lent::Done;
use lists::no_list;
use noting::{Noted, no_notes};
use reasons::no_words;
use undo_log::Cursor;

// The state's words that a call has changed.
fn store_state(state: &mut [u8], noted: &[u32], proposals: &[u64], words: &[u32], done: Done)
    requires { (133440 ≤ length state.old) × (length noted.now ≡ 384) × (length proposals.now ≡ 8772) × (length words.now ≡ 260) }
    ensures state_after { (state_after (state_in state.old) noted.now proposals.now words.now done).last_len < 4294967296 →
        state_in state.new ≡ state_after (state_in state.old) noted.now proposals.now words.now done }
    ensures bytes_kept { BytesKept state.old state.new }
{
    if done.judged {
        store_last(state, words, done.len);
        store_reasons(state, proposals);
        store_noted(state, noted);
        return;
    }
    store_noted(state, noted);
}

// What the call changed is written back, unless it is refused.
pub(crate) fn finish(
    state: &mut [u8],
    noted: &[u32],
    proposals: &[u64],
    words: &[u32],
    lits: &[u32],
    records: &[u64],
    list: &mut [u8],
    log: &mut [u8],
    cursor: &mut [u8],
    before: Cursor,
    done: Done,
) -> i32
    requires { (133440 ≤ length state.old) × (length noted.now ≡ 384) × (length proposals.now ≡ 8772) × (length words.now ≡ 260)
        × (2 * length lits.now ≤ length list.old) × (8 * length records.now ≤ length log.old) × (8 ≤ length cursor.old) }
    ensures cursor_after { left_with result [] list.new log.new cursor.new ≡
        left_by done.answer «before» done.cursor [] lits.now records.now
        list.old log.old cursor.old }
    ensures state_unchanged { is_refused done.answer ≡ true → state.new ≡ state.old }
    ensures state_after { is_refused done.answer ≡ false → (state_after (state_in state.old) noted.now proposals.now words.now done).last_len < 4294967296 →
        state_in state.new ≡ state_after (state_in state.old) noted.now proposals.now words.now done }
    ensures bytes_kept { BytesKept state.old state.new }
{
    if is_refused(done.answer) {
        return code_of(done.answer);
    }
    store_state(state, noted, proposals, words, done);
    store_list(list, lits, given_by(done.answer));
    store_log(log, records, before.used, done.cursor.used);
    store_cursor(cursor, done.cursor);
    code_of(done.answer)
}

// The literal is notified over the decoded words, where lits and records have as many entries as the list and the log.
fn notify(
    state: &mut [u8],
    edges: Edges,
    noted: &mut Noted,
    lits: &mut [u32],
    records: &mut [u64],
    table: &mut [u8],
    list: &mut [u8],
    log: &mut [u8],
    cursor: &mut [u8],
    before: Cursor,
    lit: i32,
    num_pending_propagations: i32,
) -> i32
    requires { (133440 ≤ length state.old) × (edges ≡ ends_in state.old) × (noted.old ≡ words_in state.old 61220 384)
        × (lits.old ≡ list_in list.old) × («before» ≡ cursor_in cursor.old) × (records.old ≡ log_in («before») log.old) × (8 ≤ length cursor.old) }
    ensures cursor_after { left_with result table.new list.new log.new cursor.new
        ≡ left_of (cursor_in cursor.old) (propagated_in state.old table.old list.old log.old cursor.old lit num_pending_propagations) list.old log.old cursor.old }
    ensures after_of { AfterOf false (propagated_in state.old table.old list.old log.old cursor.old lit num_pending_propagations).outcome state.old state.new }
{
    let mut proposals = no_words();
    let mut words = no_list();
    let done = lent::propagate::propagate(
        state,
        edges,
        noted,
        &mut proposals,
        &mut words,
        table,
        lits,
        records,
        before,
        lit,
        num_pending_propagations,
    );
    finish(
        state, noted, &proposals, &words, lits, records, list, log, cursor, before, done,
    )
}

pub(crate) fn propagate(
    state: &mut [u8],
    table: &mut [u8],
    list: &mut [u8],
    log: &mut [u8],
    cursor: &mut [u8],
    lit: i32,
    num_pending_propagations: i32,
) -> i32
    requires { (133440 ≤ length state.old) × (8 ≤ length cursor.old) }
    ensures cursor_after { left_with result table.new list.new log.new cursor.new
        ≡ left_of (cursor_in cursor.old) (propagated_in state.old table.old list.old log.old cursor.old lit num_pending_propagations) list.old log.old cursor.old }
    ensures after_of { AfterOf false (propagated_in state.old table.old list.old log.old cursor.old lit num_pending_propagations).outcome state.old state.new }
{
    let mut noted = no_notes();
    let mut records = no_records();
    let before = decode(state, log, cursor, &mut noted, &mut records);
    let edges = read_edges(state);
    let k = room_of(log.len() / 8);
    let mut lits = no_lits();
    let n = room_of(list.len() / 2);
    notify(
        state,
        edges,
        &mut noted,
        &mut lits[0..n],
        &mut records[0..k],
        table,
        list,
        log,
        cursor,
        before,
        lit,
        num_pending_propagations,
    )
}

// The newest notification is taken back over the decoded words.
fn take_back<'a>(
    state: &mut [u8],
    edges: Edges,
    noted: &mut Noted,
    records: &'a [u64],
    cursor: &mut [u8],
    before: Cursor,
    lit: i32,
) -> i32
    requires { (133440 ≤ length state.old) × (8 ≤ length cursor.old) × (edges ≡ ends_in state.old) × (noted.old ≡ words_in state.old 61220 384) }
    ensures cursor_after { back result cursor.new ≡ back_by (undone (state_in state.old) «before» lit records.now) cursor.old }
    ensures after_of { AfterOf false (undone (state_in state.old) «before» lit records.now) state.old state.new }
{
    let done = lent::undo::undo(state, edges, noted, records, before, lit);
    if is_refused(done.answer) {
        return code_of(done.answer);
    }
    store_noted(state, noted);
    store_cursor(cursor, done.cursor);
    code_of(done.answer)
}

pub(crate) fn undo(state: &mut [u8], log: &[u8], cursor: &mut [u8], lit: i32) -> i32
    requires { (133440 ≤ length state.old) × (8 ≤ length cursor.old) }
    ensures cursor_after { back result cursor.new ≡ back_by (undone_in state.old log.now cursor.old lit) cursor.old }
    ensures after_of { AfterOf false (undone_in state.old log.now cursor.old lit) state.old state.new }
{
    let mut noted = no_notes();
    let mut records = no_records();
    let before = decode(state, log, cursor, &mut noted, &mut records);
    let edges = read_edges(state);
    let k = room_of(log.len() / 8);
    take_back(
        state,
        edges,
        &mut noted,
        &records[0..k],
        cursor,
        before,
        lit,
    )
}
