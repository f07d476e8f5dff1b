// `initialize` on records.
ghost use Rattle.std.specs.Prelude.{◌≡◌, ℕ, ◌<◌, ◌^◌, map, slice_index};
ghost use Rattle.base.specs.Iter.{pick};
ghost use Rattle.undo_log.specs.Log.{word_of};
ghost use Rattle.graph_division.specs.Calls.{called, refuse};
ghost use Rattle.graph_division.specs.Initialize.{initialized};
ghost use Rattle.record_calls.specs.Reach.{reaches};
ghost use Rattle.record_calls.specs.Checked.{checked_initialized};

use crate::{reaches, refuse};
use graph_division::{GraphDivision, Outcome};
use lent_log::{load, push_run};
use undo_log::{Cursor, Record};

// On the loaded words of a log of `len` records. That words of 64 bits are left is known of a slice, and not of the array that is lent.
pub(crate) fn initialize_words(
    s: GraphDivision,
    table: &mut [u8],
    list: &mut [u32],
    words: &mut [u64],
    len: usize,
    cursor: Cursor,
) -> Outcome
    ensures after { called result table.new list.new words.new ≡ pick (reaches s.plan s.edges.ends len cursor) (initialized s cursor table.old words.old list.old) (called (refuse 7 s cursor) table.old list.old words.old) }
    ensures words_fit { (i : ℕ) → slice_index words.new i < 2 ^ 64 }
{
    if reaches(s, len, cursor) {
        return by_value::initialize::initialize(s, table, list, words, cursor);
    }
    refuse(s, cursor)
}

// Notifies, in rising order, the plan's literals that are true in the table on entry, and analyzes once more.
pub fn initialize(
    s: GraphDivision,
    table: &mut [u8],
    list: &mut [u32],
    log: &mut [Record],
    cursor: &mut Cursor,
) -> Outcome
    ensures { (called result table.new list.new (map word_of log.new) ≡ checked_initialized s cursor.old table.old (map word_of log.old) list.old) × (cursor.new ≡ result.cursor) }
{
    let mut words = [0u64; 4352];
    let c = *cursor;
    load(log, c.used, &mut words);
    let out = initialize_words(s, table, list, &mut words, log.len(), c);
    push_run(&words, out.cursor.used, log, cursor);
    cursor.standing = out.cursor.standing;
    out
}
