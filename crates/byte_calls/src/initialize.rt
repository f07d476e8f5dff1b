// Initialising, over bytes that are as long as their layout.
ghost use Rattle.std.specs.Prelude.{◌≡◌, true, false, not, ◌≤◌, eqb, length};
ghost use Rattle.graph_division.specs.Answers.{is_consistent};
ghost use Rattle.lent.specs.Lent.{with_initialized};
ghost use Rattle.base.specs.Bytes.{word_at};
ghost use Rattle.byte_calls.specs.Layout.{plan_in, ends_in, state_in, cursor_in, list_in, log_in};
ghost use Rattle.base.specs.Bytes.{words_in};
ghost use Rattle.byte_calls.specs.Stores.{BytesKept};
ghost use Rattle.byte_calls.specs.Host.{AfterOf, left_with, left_of, initialized_in};

use crate::bytes::{put_word, read_words, word_at};
use crate::changes::finish;
use crate::decode::{decode, no_lits, no_records, read_edges, room_of};
use edge_table::Edges;
use graph_division::{Answer, is_consistent};
use lists::no_list;
use noting::{Noted, no_notes};
use reasons::no_words;
use undo_log::Cursor;

// Whether an initialise was consistent: any number but 0 says so.
fn is_initialized(state: &[u8]) -> bool
    requires { 133440 ≤ length state.now }
    ensures { result ≡ not (eqb (word_at state.now 62760) 0) }
{
    word_at(state, 62760) != 0
}

// A consistent initialise is marked in the state; after any other answer the bytes stay.
fn store_initialized(state: &mut [u8], answer: Answer)
    requires { 133440 ≤ length state.old }
    ensures state_after { is_consistent answer ≡ true → state_in state.new ≡ with_initialized (state_in state.old) }
    ensures state_unchanged { is_consistent answer ≡ false → state.new ≡ state.old }
    ensures bytes_kept { BytesKept state.old state.new }
{
    if is_consistent(answer) {
        put_word(state, 62760, 1);
    }
}

// The initialise over the decoded words, where lits and records have as many entries as the list and the log, and last is the list last left.
fn begin(
    state: &mut [u8],
    edges: Edges,
    noted: &mut Noted,
    last: &mut [u32],
    lits: &mut [u32],
    records: &mut [u64],
    table: &mut [u8],
    list: &mut [u8],
    log: &mut [u8],
    cursor: &mut [u8],
    before: Cursor,
) -> i32
    requires { (133440 ≤ length state.old) × (edges ≡ ends_in state.old) × (noted.old ≡ words_in state.old 61220 384) × (last.old ≡ words_in state.old 62764 260)
        × (lits.old ≡ list_in list.old) × («before» ≡ cursor_in cursor.old) × (records.old ≡ log_in («before») log.old) × (8 ≤ length cursor.old) }
    ensures cursor_after { left_with result table.new list.new log.new cursor.new
        ≡ left_of (cursor_in cursor.old) (initialized_in state.old table.old list.old log.old cursor.old) list.old log.old cursor.old }
    ensures after_of { AfterOf false (initialized_in state.old table.old list.old log.old cursor.old).outcome state.old state.new }
{
    let mut words = no_words();
    let len = word_at(state, 62756) as usize;
    let initialized = is_initialized(state);
    let done = lent::initialize::initialize(
        state,
        edges,
        noted,
        &mut words,
        last,
        table,
        lits,
        records,
        before,
        len,
        initialized,
    );
    let r = finish(
        state, noted, &words, last, lits, records, list, log, cursor, before, done,
    );
    store_initialized(state, done.answer);
    r
}

pub(crate) fn initialize(
    state: &mut [u8],
    table: &mut [u8],
    list: &mut [u8],
    log: &mut [u8],
    cursor: &mut [u8],
) -> i32
    requires { (133440 ≤ length state.old) × (8 ≤ length cursor.old) }
    ensures cursor_after { left_with result table.new list.new log.new cursor.new
        ≡ left_of (cursor_in cursor.old) (initialized_in state.old table.old list.old log.old cursor.old) list.old log.old cursor.old }
    ensures after_of { AfterOf false (initialized_in state.old table.old list.old log.old cursor.old).outcome state.old state.new }
{
    let mut noted = no_notes();
    let mut records = no_records();
    let before = decode(state, log, cursor, &mut noted, &mut records);
    let edges = read_edges(state);
    let mut last = no_list();
    read_words(state, 62764, 0, 260, &mut last);
    let k = room_of(log.len() / 8);
    let mut lits = no_lits();
    let n = room_of(list.len() / 2);
    begin(
        state,
        edges,
        &mut noted,
        &mut last,
        &mut lits[0..n],
        &mut records[0..k],
        table,
        list,
        log,
        cursor,
        before,
    )
}
