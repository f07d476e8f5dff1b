// The calls for a caller that lends nothing: the undo log, records and cursor, by value. Each lends the two to the call
// on records.
#![tactic(auto)]

ghost use Rattle.std.specs.Prelude.{◌≡◌};
ghost use Rattle.graph_division.specs.Calls.{called, fetched};
ghost use Rattle.record_calls.specs.Checked.{checked_initialized, checked_propagated, checked_undone, checked_reason, checked_last};
ghost use Rattle.held_log.specs.Held.{empty, words, outcome_of};

use graph_division::{Answer, GraphDivision};
use undo_log::{Cursor, Record};

// As many records as any plan's log holds.
#[derive(Clone, Copy)]
pub struct UndoLog {
    pub records: [Record; 4352],
    pub cursor: Cursor,
}

// A call's state, log and answer; the other buffers that it was lent are changed in place.
#[derive(Clone, Copy)]
pub struct Held {
    pub state: GraphDivision,
    pub log: UndoLog,
    pub answer: Answer,
}

impl UndoLog {
    // No record in use, and nothing stands.
    pub fn new() -> UndoLog
        ensures { result ≡ empty }
    {
        let r = Record {
            kind: 0,
            index: 0,
            bound: 0,
            lit: 0,
        };
        UndoLog {
            records: [r; 4352],
            cursor: Cursor {
                used: 0,
                standing: 0,
            },
        }
    }
}

// Notifies, in rising order, the plan's literals that are true in the table on entry, and analyzes once more.
pub fn initialize(s: GraphDivision, log: UndoLog, table: &mut [u8], list: &mut [u32]) -> Held
    ensures { called (outcome_of result) table.new list.new (words result.log) ≡ checked_initialized s log.cursor table.old (words log) list.old }
{
    let mut log = log;
    let out = record_calls::initialize::initialize(
        s,
        table,
        list,
        &mut log.records,
        &mut log.cursor,
    );
    Held {
        state: out.state,
        log,
        answer: out.answer,
    }
}

// Notifies the literal. With a pending number other than 0 it is only noted.
pub fn propagate(
    s: GraphDivision,
    log: UndoLog,
    table: &mut [u8],
    list: &mut [u32],
    lit: i32,
    num_pending_propagations: i32,
) -> Held
    ensures { called (outcome_of result) table.new list.new (words result.log) ≡ checked_propagated s log.cursor lit num_pending_propagations table.old list.old (words log) }
{
    let mut log = log;
    let out = record_calls::propagate::propagate(
        s,
        table,
        list,
        &mut log.records,
        &mut log.cursor,
        lit,
        num_pending_propagations,
    );
    Held {
        state: out.state,
        log,
        answer: out.answer,
    }
}

// Takes back the newest notification, which must be the literal's. The records stay as they are.
pub fn undo(s: GraphDivision, log: UndoLog, lit: i32) -> Held
    ensures { (outcome_of result ≡ checked_undone s log.cursor lit (words log)) × (result.log.records ≡ log.records) }
{
    let mut log = log;
    let out = record_calls::undo::undo(s, &log.records, &mut log.cursor, lit);
    Held {
        state: out.state,
        log,
        answer: out.answer,
    }
}

// A literal's reason: the list of what an analysis recorded for it.
pub fn calc_reason(s: GraphDivision, log: UndoLog, lit: i32, buffer: &mut [u32]) -> Answer
    ensures { fetched result buffer.new ≡ checked_reason s log.cursor (words log) lit buffer.old }
{
    record_calls::calc_reason::calc_reason(s, &log.records, &log.cursor, lit, buffer)
}

// The list last left: empty before any analysis and after a consistent notification.
pub fn calc_last(s: GraphDivision, log: UndoLog, buffer: &mut [u32]) -> Answer
    ensures { fetched result buffer.new ≡ checked_last s log.cursor (words log) buffer.old }
{
    record_calls::calc_reason::calc_last(s, &log.records, &log.cursor, buffer)
}
