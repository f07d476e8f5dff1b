// `calc_reason` on records, with a literal and without one. A fetch changes nothing but the buffer that it is lent.
ghost use Rattle.std.specs.Prelude.{◌≡◌, map};
ghost use Rattle.base.specs.Iter.{pick};
ghost use Rattle.undo_log.specs.Log.{word_of};
ghost use Rattle.graph_division.specs.declared.Answer.TheVariants.{Refused};
ghost use Rattle.graph_division.specs.Calls.{fetched, last_fetched, reason_fetched};
ghost use Rattle.record_calls.specs.Reach.{reaches};
ghost use Rattle.record_calls.specs.Checked.{checked_reason, checked_last};

use crate::reaches;
use graph_division::{Answer, GraphDivision};
use lent_log::load;
use undo_log::{Cursor, Record};

// On the loaded words of a log of `len` records.
pub(crate) fn calc_reason_words(
    s: GraphDivision,
    words: &[u64],
    len: usize,
    cursor: Cursor,
    lit: i32,
    buffer: &mut [u32],
) -> Answer
    ensures { fetched result buffer.new ≡ pick (reaches s.plan s.edges.ends len cursor) (reason_fetched s cursor words.now lit buffer.old) (fetched (Refused 7) buffer.old) }
{
    if reaches(s, len, cursor) {
        return by_value::calc_reason::calc_reason(s, words, cursor, lit, buffer);
    }
    Answer::Refused { number: 7 }
}

// A literal's reason: the list of what an analysis recorded for it.
pub fn calc_reason(
    s: GraphDivision,
    log: &[Record],
    cursor: &Cursor,
    lit: i32,
    buffer: &mut [u32],
) -> Answer
    ensures { fetched result buffer.new ≡ checked_reason s cursor.now (map word_of log.now) lit buffer.old }
{
    let mut words = [0u64; 4352];
    let c = *cursor;
    load(log, c.used, &mut words);
    calc_reason_words(s, &words, log.len(), c, lit, buffer)
}

// On the loaded words of a log of `len` records.
pub(crate) fn calc_last_words(
    s: GraphDivision,
    words: &[u64],
    len: usize,
    cursor: Cursor,
    buffer: &mut [u32],
) -> Answer
    ensures { fetched result buffer.new ≡ pick (reaches s.plan s.edges.ends len cursor) (last_fetched s cursor words.now buffer.old) (fetched (Refused 7) buffer.old) }
{
    if reaches(s, len, cursor) {
        return by_value::calc_reason::calc_last(s, words, cursor, buffer);
    }
    Answer::Refused { number: 7 }
}

// The list last left: empty before any analysis and after a consistent notification.
pub fn calc_last(s: GraphDivision, log: &[Record], cursor: &Cursor, buffer: &mut [u32]) -> Answer
    ensures { fetched result buffer.new ≡ checked_last s cursor.now (map word_of log.now) buffer.old }
{
    let mut words = [0u64; 4352];
    let c = *cursor;
    load(log, c.used, &mut words);
    calc_last_words(s, &words, log.len(), c, buffer)
}
