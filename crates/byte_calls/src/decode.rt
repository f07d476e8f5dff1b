// Reading a state's bytes. The plan is read where it is, by crate plan.
ghost use Rattle.std.specs.Prelude.{◌≡◌, ℕ, ◌+◌, ◌*◌, ◌/◌, ◌<◌, ◌≤◌, length, replicate};
ghost use Rattle.noting.specs.Words.{capped};
ghost use Rattle.base.specs.Bytes.{word_at, long_at};
ghost use Rattle.byte_calls.specs.Layout.{ends_in, cursor_in, used_entries, decoded, decoded_in};
ghost use Rattle.base.specs.Lists.{filled};

use crate::bytes::{read_longs, read_words, word_at};
use edge_table::Edges;
use undo_log::Cursor;

// How many records of a log, or literals of a list, are used.
pub(crate) fn room_of(entries: usize) -> usize
    ensures { result ≡ used_entries entries }
{
    entries.min(4352)
}

pub(crate) fn read_edges(state: &[u8]) -> Edges
    requires { 133440 ≤ length state.now }
    ensures { result ≡ ends_in state.now }
{
    let mut table = [[0u8; 2]; 128];
    for g in 0..128 {
        table[g] = [state[60964 + 2 * g], state[60965 + 2 * g]];
    }
    table
}

fn read_cursor(cursor: &[u8]) -> Cursor
    requires { 8 ≤ length cursor.now }
    ensures { result ≡ cursor_in cursor.now }
{
    Cursor {
        used: word_at(cursor, 0) as usize,
        standing: word_at(cursor, 4) as usize,
    }
}

// The log's records up to the cursor.
fn read_log(log: &[u8], cursor: Cursor, records: &mut [u64])
    requires { length records.old ≡ 4352 }
    ensures { records.new ≡
        filled 0 (capped cursor.used (used_entries (length log.now / 8)))
        (λ i. long_at log.now (8 * i)) records.old }
{
    let n = cursor.used.min(room_of(log.len() / 8));
    read_longs(log, n, records);
}

// The noted words and the log's records, into arrays of zeros; the cursor is the answer.
pub(crate) fn decode(
    state: &[u8],
    log: &[u8],
    cursor: &[u8],
    noted: &mut [u32],
    records: &mut [u64],
) -> Cursor
    requires { (133440 ≤ length state.now) × (8 ≤ length cursor.now) × (noted.old ≡ replicate 384 0) × (records.old ≡ replicate 4352 0) }
    ensures { decoded noted.new records.new result ≡ decoded_in state.now log.now cursor.now }
{
    read_words(state, 61220, 0, 384, noted);
    let before = read_cursor(cursor);
    read_log(log, before, records);
    before
}

pub(crate) fn no_lits() -> [u32; 4352]
    ensures { result ≡ replicate 4352 0 }
{
    [0u32; 4352]
}

pub(crate) fn no_records() -> [u64; 4352]
    ensures { result ≡ replicate 4352 0 }
{
    [0u64; 4352]
}
