// `undo` on records.
ghost use Rattle.std.specs.Prelude.{◌≡◌, map};
ghost use Rattle.base.specs.Iter.{pick};
ghost use Rattle.undo_log.specs.Log.{word_of};
ghost use Rattle.graph_division.specs.Calls.{refuse, undone};
ghost use Rattle.record_calls.specs.Reach.{reaches};
ghost use Rattle.record_calls.specs.Checked.{checked_undone};

use crate::{reaches, refuse};
use graph_division::{GraphDivision, Outcome};
use lent_log::{load, pop_to};
use undo_log::{Cursor, Record};

// On the loaded words of a log of `len` records.
pub(crate) fn undo_words(
    s: GraphDivision,
    words: &[u64],
    len: usize,
    cursor: Cursor,
    lit: i32,
) -> Outcome
    ensures { result ≡ pick (reaches s.plan s.edges.ends len cursor) (undone s cursor lit words.now) (refuse 7 s cursor) }
{
    if reaches(s, len, cursor) {
        return by_value::undo::undo(s, words, cursor, lit);
    }
    refuse(s, cursor)
}

// Takes back the newest notification, which must be the literal's: 11 where it is not. The records stay as they are.
pub fn undo(s: GraphDivision, log: &[Record], cursor: &mut Cursor, lit: i32) -> Outcome
    ensures { (result ≡ checked_undone s cursor.old lit (map word_of log.now)) × (cursor.new ≡ result.cursor) }
{
    let mut words = [0u64; 4352];
    let c = *cursor;
    load(log, c.used, &mut words);
    let out = undo_words(s, &words, log.len(), c, lit);
    pop_to(log, out.cursor.used, cursor);
    cursor.standing = out.cursor.standing;
    out
}
