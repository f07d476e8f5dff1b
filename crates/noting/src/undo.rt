// The Rust's `undo_internal`: the records of the newest notification are taken back.
ghost use Rattle.std.specs.Prelude.{◌≡◌, ℕ, ◌-◌, get_or};
ghost use Rattle.undo_log.specs.Log.{record_of};
ghost use Rattle.noting.specs.Note.{noting};
ghost use Rattle.noting.specs.Undo.{records_of, restored, undone, kept, undo};

use crate::note::{Effect, apply};
use crate::{Noted, UNDECIDED};
use undo_log::{Cursor, EDGE, LEVEL_BOUNDARY, Record};

// The record at place i; past the log, that of a zero word.
pub fn record_at(log: &[u64], i: usize) -> Record
    ensures { result ≡ record_of (get_or log.now i 0) }
{
    undo_log::record_of(log.get(i).copied().unwrap_or(0))
}

// An edge becomes undecided whatever it was; a bound and its literal as recorded.
#[tactic(auto, unfolding(crate::specs::Undo::restored, base::specs::Iter::pick))]
fn restore(noted: &mut Noted, r: Record)
    ensures { noted.new ≡ restored r noted.old }
{
    let value = if r.kind == EDGE { UNDECIDED } else { r.bound };
    let e = Effect {
        kind: r.kind,
        index: r.index,
        value,
    };
    apply(noted, e, r.lit);
}

// How many of the first n records are left.
fn take_back(noted: &mut Noted, log: &[u64], n: usize) -> usize
    ensures { (noted.new ≡ undone (records_of log.now n) noted.old) × (result ≡ kept (records_of log.now n)) }
{
    for i in (0..n).rev() {
        let r = record_at(log, i);
        if r.kind == LEVEL_BOUNDARY {
            return i;
        }
        restore(noted, r);
    }
    0
}

// The newest notification is undone. The popped records stay in the log as they are.
pub fn undo(noted: &mut Noted, log: &[u64], cursor: Cursor) -> Cursor
    ensures { noting noted.new log.now result ≡ undo (noting noted.old log.now cursor) }
{
    Cursor {
        used: take_back(noted, log, cursor.used),
        standing: cursor.standing.saturating_sub(1),
    }
}
