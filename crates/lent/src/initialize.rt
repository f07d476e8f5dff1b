// The Rust's `initialize`.
ghost use Rattle.std.specs.Prelude.{◌≡◌, Bool, List, ℕ, length, replicate};
ghost use Rattle.noting.specs.Note.{noting};
ghost use Rattle.recorded.specs.declared.Reasons.{Reasons};
ghost use Rattle.refusals.specs.Refusals.{initialize_refusal};
ghost use Rattle.graph_division.specs.declared.GraphDivision.{GraphDivision};
ghost use Rattle.graph_division.specs.Initialize.{restored_table, noted_at, noted_up_to, ended_by};
ghost use Rattle.lent.specs.Lent.{state_of, Parts, begun_of, begun_over, initialized_over};
ghost use Rattle.plan.specs.Words.{words_of};

use crate::fetch::copy;
use crate::table::{restore, save};
use crate::{Done, refused};
use edge_table::Edges;
use graph_division::Answer;
use judge::Judgement;
use notifications::{Progress, go_through, lit_at};
use noting::Noted;
use reasons::no_words;
use undo_log::Cursor;

// The literal at place p is noted in the words and in the log, where it is true in the table on entry.
fn note_at(
    plan: &[u8],
    entry: &[u8],
    noted: &mut Noted,
    log: &mut [u64],
    cursor: Cursor,
    p: usize,
) -> Cursor
    ensures { noting noted.new log.new result ≡ noted_at (words_of plan.now) entry.now p (noting noted.old log.old cursor) }
{
    if sweep::table::is_true(entry, plan::unique_lit(plan, p)) {
        return noting::note::note(plan, noted, log, cursor, lit_at(plan, p)).cursor;
    }
    cursor
}

// Those of the places below `past`.
fn note_up_to(
    plan: &[u8],
    entry: &[u8],
    noted: &mut Noted,
    log: &mut [u64],
    cursor: Cursor,
    past: usize,
) -> Cursor
    ensures { noting noted.new log.new result ≡ noted_up_to (words_of plan.now) entry.now past (noting noted.old log.old cursor) }
{
    let mut c = cursor;
    for p in 0..past {
        c = note_at(plan, entry, noted, log, c, p);
    }
    c
}

// What was tried out is taken over into the noted words and the log, or taken back.
fn finish(
    plan: &[u8],
    entry: &[u8],
    noted: &mut Noted,
    table: &mut [u8],
    list: &mut [u32],
    log: &mut [u64],
    cursor: Cursor,
    handed: &[u32],
    x: Progress,
) -> Done
    ensures { (ends : List (List ℕ)) (rs : Reasons) (last : List ℕ) (len : ℕ) (b : Bool) (words left : List ℕ) →
        begun_of (state_of (words_of plan.now) ends noted.old rs last len b) noted.new words left result table.new list.new log.new
        ≡ ended_by (state_of (words_of plan.now) ends noted.old rs last len b) cursor entry.now log.old words left x x.judgement (restored_table entry.now table.old) table.old handed.now list.old }
{
    match x.judgement {
        Judgement::Fine => {
            copy(handed, x.handed, list);
            let c = note_up_to(plan, entry, noted, log, cursor, x.past);
            Done {
                cursor: c,
                answer: Answer::Consistent { handed: x.handed },
                judged: true,
                len: x.len,
            }
        }
        Judgement::Clash { len: _ } => {
            copy(handed, x.handed, list);
            let c = note_up_to(plan, entry, noted, log, cursor, x.past);
            Done {
                cursor: c,
                answer: Answer::Conflict,
                judged: true,
                len: x.len,
            }
        }
        Judgement::Stopped { refusal } => {
            restore(entry, table);
            Done {
                cursor,
                answer: Answer::Refused { number: refusal },
                judged: false,
                len: 0,
            }
        }
    }
}

// All is tried out, on a copy of the noted words and on the table in place.
fn begin(
    plan: &[u8],
    edges: Edges,
    noted: &mut Noted,
    words: &mut [u64],
    left: &mut [u32],
    table: &mut [u8],
    list: &mut [u32],
    log: &mut [u64],
    cursor: Cursor,
    last_len: usize,
) -> Done
    ensures { (rs : Reasons) (b : Bool) →
        initialize_refusal (words_of plan.now) edges noted.old table.old (length list.old) log.old cursor b ≡ 0 →
        begun_of (state_of (words_of plan.now) edges noted.old rs left.old last_len b) noted.new words.new left.new result table.new list.new log.new
        ≡ begun_over (state_of (words_of plan.now) edges noted.old rs left.old last_len b) cursor words.old table.old log.old list.old }
{
    let entry = save(table);
    let mut trial = *noted;
    let mut handed = [0u32; 8704];
    let mut proposals = no_words();
    let x = go_through(
        plan,
        edges,
        &entry,
        log,
        cursor.used,
        &mut trial,
        table,
        &mut handed,
        words,
        &mut proposals,
        left,
        last_len,
    );
    finish(plan, &entry, noted, table, list, log, cursor, &handed, x)
}

// Notifies, in rising order, the plan's literals that are true in the table on entry, and analyzes once more. The list last left stands
// in `left`, up to `last_len`, and `done` says whether an initialise was consistent before. The words are those of all its analyses, the
// newest of each place, over what they held before: a caller lends zeros.
pub fn initialize(
    plan: &[u8],
    edges: Edges,
    noted: &mut Noted,
    words: &mut [u64],
    left: &mut [u32],
    table: &mut [u8],
    list: &mut [u32],
    log: &mut [u64],
    cursor: Cursor,
    last_len: usize,
    done: bool,
) -> Done
    ensures { (s : GraphDivision) → Parts s (words_of plan.now) edges noted.old → left.old ≡ s.last → last_len ≡ s.last_len → done ≡ s.initialized →
        begun_of s noted.new words.new left.new result table.new list.new log.new
        ≡ initialized_over s cursor words.old table.old log.old list.old }
{
    if let Some(refusal) = refusals::initialize_refusal(
        plan,
        &edges,
        noted,
        table,
        list.len(),
        log,
        cursor,
        done,
    ) {
        return refused(refusal, cursor);
    }
    begin(
        plan, edges, noted, words, left, table, list, log, cursor, last_len,
    )
}
