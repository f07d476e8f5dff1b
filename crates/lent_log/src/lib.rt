// The undo log in the form that a caller holds: a lent slice of records, and a cursor that is lent and moves in place. The
// functions that are lent records are thin: the flat form, crate undo_log, does the work on words.
#![tactic(auto)]

ghost use Rattle.std.specs.Prelude.{◌≡◌, get_or};
ghost use Rattle.undo_log.specs.Log.{record_of};
ghost use Rattle.lent_log.specs.Records.{pushing, push_record, has_newest, popping, pop_record, loaded};
ghost use Rattle.lent_log.specs.Records.{lent, pushed_run, popped_to};

use undo_log::{Cursor, Record};

// Stores the record at the cursor, which moves on, and says whether there was room. A full log stays as it is.
#[tactic(auto, unfolding(crate::specs::Records::push_record, base::specs::Iter::pick))]
pub fn push(log: &mut [Record], cursor: &mut Cursor, r: Record) -> bool
    ensures { pushing result log.new cursor.new ≡ push_record log.old cursor.old r }
{
    let at = cursor.used;
    if at < log.len() {
        log[at] = r;
        cursor.used = at + 1;
        return true;
    }
    false
}

#[tactic(auto, unfolding(crate::specs::Records::has_newest))]
pub(crate) fn has_newest(used: usize, len: usize) -> bool
    ensures { result ≡ has_newest used len }
{
    0 < used && used <= len
}

// The newest record, if there is one, and moves the cursor back over it. The record stays where it is.
pub fn pop(log: &[Record], cursor: &mut Cursor) -> Option<Record>
    ensures { popping result cursor.new ≡ pop_record log.now cursor.old }
{
    let used = cursor.used;
    if has_newest(used, log.len()) {
        let at = used - 1;
        cursor.used = at;
        let r = log[at];
        return Some(r);
    }
    None
}

// The record of the word at a place; past the end the record of 0.
pub(crate) fn get(words: &[u64], at: usize) -> Record
    ensures { result ≡ record_of (get_or words.now at 0) }
{
    undo_log::record_of(words.get(at).copied().unwrap_or(0))
}

// The first n records as words, as many as there are and as there is room for.
pub fn load(log: &[Record], n: usize, words: &mut [u64])
    ensures { words.new ≡ loaded log.now n words.old }
{
    for i in 0..n.min(log.len()).min(words.len()) {
        words[i] = undo_log::word_of(log[i]);
    }
}

// Pushes the records of the words from the cursor's place up to place `to`, one by one. A full log stays as it is.
pub fn push_run(words: &[u64], to: usize, log: &mut [Record], cursor: &mut Cursor)
    ensures { lent log.new cursor.new ≡ pushed_run words.now to (lent log.old cursor.old) }
{
    for i in cursor.used..to {
        push(log, cursor, get(words, i));
    }
}

// Pops one by one until no more than `to` records are in use. A cursor past the log stays as it is.
pub fn pop_to(log: &[Record], to: usize, cursor: &mut Cursor)
    ensures { cursor.new ≡ popped_to log.now to cursor.old }
{
    for _ in to..cursor.used {
        pop(log, cursor);
    }
}
