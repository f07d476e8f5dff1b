// The program's lines past the plan's: the call that a line is, on state, cursor, table and log, and the bytes that it prints.
#![tactic(auto)]

pub mod print;
pub mod start;
pub mod table;

ghost use Rattle.std.specs.Prelude.{◌≡◌, ◌≤◌, length};
ghost use Rattle.text.specs.Lines.{read_line};
ghost use Rattle.desk.specs.Print.{written, printing};
ghost use Rattle.desk.specs.Obey.{desk, held, writing, begun, notified, taken_back, reason_asked, last_asked, obeyed, staying};

use crate::print::print;
use by_value::calc_reason::{calc_last, calc_reason};
use by_value::initialize::initialize;
use by_value::propagate::propagate;
use by_value::undo::undo;
use graph_division::{GraphDivision, is_refused};
use lists::no_list;
use text::Line;
use undo_log::Cursor;

// What a line leaves, besides what it was lent: the first `printed` bytes of the lent buffer are what it prints.
#[derive(Clone, Copy)]
pub struct Obeyed {
    pub state: GraphDivision,
    pub cursor: Cursor,
    pub printed: usize,
}

// I.
fn begin(
    s: GraphDivision,
    cursor: Cursor,
    table: &mut [u8],
    log: &mut [u64],
    out: &mut [u8],
) -> Obeyed
    ensures { (held result table.new log.new out.new ≡ writing (begun (desk s cursor table.old log.old)) out.old) × (length (begun (desk s cursor table.old log.old)).bytes ≤ 65536) }
{
    let mut list = [0u32; 4352];
    let o = initialize(s, table, &mut list, log, cursor);
    Obeyed {
        state: o.state,
        cursor: o.cursor,
        printed: print(o.answer, &list, out),
    }
}

// N. The mark of a refused literal is taken back: its variable's entry is what it was.
fn notify(
    s: GraphDivision,
    cursor: Cursor,
    table: &mut [u8],
    log: &mut [u64],
    lit: i32,
    pending: i32,
    out: &mut [u8],
) -> Obeyed
    ensures { (held result table.new log.new out.new ≡ writing (notified (desk s cursor table.old log.old) lit pending) out.old) × (length (notified (desk s cursor table.old log.old) lit pending).bytes ≤ 65536) }
{
    let v = table::variable(lit);
    let old = table::entry(table, v);
    table::mark(table, lit);
    let mut list = [0u32; 4352];
    let o = propagate(s, table, &mut list, log, cursor, lit, pending);
    if is_refused(o.answer) {
        table::store(table, v, old);
    }
    Obeyed {
        state: o.state,
        cursor: o.cursor,
        printed: print(o.answer, &list, out),
    }
}

// U. An accepted one unsets its variable.
fn take_back(
    s: GraphDivision,
    cursor: Cursor,
    table: &mut [u8],
    log: &[u64],
    lit: i32,
    out: &mut [u8],
) -> Obeyed
    ensures { (held result table.new log.now out.new ≡ writing (taken_back (desk s cursor table.old log.now) lit) out.old) × (length (taken_back (desk s cursor table.old log.now) lit).bytes ≤ 65536) }
{
    let o = undo(s, log, cursor, lit);
    if !is_refused(o.answer) {
        table::store(table, table::variable(lit), 0);
    }
    let list = no_list();
    Obeyed {
        state: o.state,
        cursor: o.cursor,
        printed: print(o.answer, &list, out),
    }
}

// R with a literal, and R with a minus: how many bytes they print.
fn ask_reason(s: GraphDivision, cursor: Cursor, log: &[u64], lit: i32, out: &mut [u8]) -> usize
    ensures { (written result out.new ≡ printing (reason_asked s cursor log.now lit) out.old) × (length (reason_asked s cursor log.now lit) ≤ 65536) }
{
    let mut list = no_list();
    let a = calc_reason(s, log, cursor, lit, &mut list);
    print(a, &list, out)
}

fn ask_last(s: GraphDivision, cursor: Cursor, log: &[u64], out: &mut [u8]) -> usize
    ensures { (written result out.new ≡ printing (last_asked s cursor log.now) out.old) × (length (last_asked s cursor log.now) ≤ 65536) }
{
    let mut list = no_list();
    let a = calc_last(s, log, cursor, &mut list);
    print(a, &list, out)
}

// State and cursor as they were.
fn stay(s: GraphDivision, cursor: Cursor, printed: usize) -> Obeyed
    ensures { result ≡ staying s cursor printed }
{
    Obeyed {
        state: s,
        cursor,
        printed,
    }
}

fn obey_read(
    s: GraphDivision,
    cursor: Cursor,
    table: &mut [u8],
    log: &mut [u64],
    read: Line,
    out: &mut [u8],
) -> Obeyed
    ensures { (held result table.new log.new out.new ≡ writing (obeyed read (desk s cursor table.old log.old)) out.old) × (length (obeyed read (desk s cursor table.old log.old)).bytes ≤ 65536) }
{
    match read {
        Line::V { variable, code } => {
            table::store(table, variable as usize, code);
            stay(s, cursor, 0)
        }
        Line::N { lit, pending } => notify(s, cursor, table, log, lit, pending, out),
        Line::U { lit } => take_back(s, cursor, table, log, lit, out),
        Line::R { lit } => stay(s, cursor, ask_reason(s, cursor, log, lit, out)),
        Line::RLast => stay(s, cursor, ask_last(s, cursor, log, out)),
        Line::I => begin(s, cursor, table, log, out),
        Line::O { .. } | Line::P { .. } | Line::G { .. } | Line::Malformed => stay(s, cursor, 0),
    }
}

// One line, without its newline. What it prints fits a buffer of 65536 bytes. A line of the plan and a malformed one do nothing: the input's shape keeps both from here.
pub fn obey(
    s: GraphDivision,
    cursor: Cursor,
    table: &mut [u8],
    log: &mut [u64],
    line: &[u8],
    out: &mut [u8],
) -> Obeyed
    ensures { (held result table.new log.new out.new ≡ writing (obeyed (read_line line.now) (desk s cursor table.old log.old)) out.old) × (length (obeyed (read_line line.now) (desk s cursor table.old log.old)).bytes ≤ 65536) }
{
    obey_read(s, cursor, table, log, text::read_line(line), out)
}
