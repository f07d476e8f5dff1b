// `propagate` on records.
ghost use Rattle.std.specs.Prelude.{◌≡◌, ℕ, ◌<◌, ◌^◌, map, slice_index};
ghost use Rattle.base.specs.Iter.{pick};
ghost use Rattle.undo_log.specs.Log.{word_of};
ghost use Rattle.graph_division.specs.Calls.{called, refuse, propagated};
ghost use Rattle.record_calls.specs.Reach.{reaches};
ghost use Rattle.record_calls.specs.Checked.{checked_propagated};

use crate::{reaches, refuse};
use graph_division::{GraphDivision, Outcome};
use lent_log::{load, push_run};
use undo_log::{Cursor, Record};

// On the loaded words of a log of `len` records. That words of 64 bits are left is known of a slice, and not of the array that is lent.
pub(crate) fn propagate_words(
    s: GraphDivision,
    table: &mut [u8],
    list: &mut [u32],
    words: &mut [u64],
    len: usize,
    cursor: Cursor,
    lit: i32,
    num_pending_propagations: i32,
) -> Outcome
    ensures after { called result table.new list.new words.new ≡ pick (reaches s.plan s.edges.ends len cursor) (propagated s cursor lit num_pending_propagations table.old list.old words.old) (called (refuse 7 s cursor) table.old list.old words.old) }
    ensures words_fit { (i : ℕ) → slice_index words.new i < 2 ^ 64 }
{
    if reaches(s, len, cursor) {
        return by_value::propagate::propagate(
            s,
            table,
            list,
            words,
            cursor,
            lit,
            num_pending_propagations,
        );
    }
    refuse(s, cursor)
}

// Notifies the literal. With a pending number other than 0 it is only noted.
pub fn propagate(
    s: GraphDivision,
    table: &mut [u8],
    list: &mut [u32],
    log: &mut [Record],
    cursor: &mut Cursor,
    lit: i32,
    num_pending_propagations: i32,
) -> Outcome
    ensures { (called result table.new list.new (map word_of log.new) ≡ checked_propagated s cursor.old lit num_pending_propagations table.old list.old (map word_of log.old)) × (cursor.new ≡ result.cursor) }
{
    let mut words = [0u64; 4352];
    let c = *cursor;
    load(log, c.used, &mut words);
    let out = propagate_words(
        s,
        table,
        list,
        &mut words,
        log.len(),
        c,
        lit,
        num_pending_propagations,
    );
    push_run(&words, out.cursor.used, log, cursor);
    cursor.standing = out.cursor.standing;
    out
}
