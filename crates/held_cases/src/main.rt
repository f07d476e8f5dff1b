// Case G of document 01 through crate held_log: a caller in ordinary forms, none of its functions proved by a walk of its own.
// The answers are printed as `yard` prints them, and the file stdout has the document's.
#![tactic(auto)]

ghost use Rattle.std.specs.Prelude.{◌≡◌, ◌<◌, length};

use builder::build::GraphDivisionOptions;
use builder::input::VertexNumbers;
use graph_division::{Answer, Built, GraphDivision};
use held_log::{Held, UndoLog};

// A write that fails leaves its bytes out: the file stdout shows it.
fn put(rt: &impl Print, s: &[u8]) {
    let _ = rt.write_all(s);
}

// Room for a line of an answer.
fn buffer() -> [u8; 4096]
    ensures { 4096 ≡ length result }
{
    [0; 4096]
}

// A line of an answer: its letter and its numbers.
fn put_line(rt: &impl Print, letter: u8, numbers: &[u32]) {
    let mut bytes = buffer();
    let end = text_writer::write_answer(letter, numbers, &mut bytes, 0).unwrap_or(0);
    if 0 < end {
        if end <= 4096 {
            put(rt, &bytes[0..end]);
            return;
        }
    }
    put(rt, b"no room for a line\n");
}

fn put_first(rt: &impl Print, letter: u8, list: &[u32], n: usize) {
    if n <= list.len() {
        put_line(rt, letter, &list[0..n]);
        return;
    }
    put(rt, b"no list\n");
}

fn put_refusal(rt: &impl Print, number: u32) {
    put_line(rt, b'E', &[number]);
}

fn put_answer(rt: &impl Print, a: Answer, list: &[u32]) {
    match a {
        Answer::Consistent { handed } => put_first(rt, b'C', list, handed),
        Answer::Conflict => put_first(rt, b'X', list, 0),
        Answer::Noted => put_first(rt, b'L', list, 0),
        Answer::Undone => put_first(rt, b'C', list, 0),
        Answer::Reason { len } | Answer::Run { len } | Answer::Page { len } => {
            put_first(rt, b'R', list, len)
        }
        Answer::Refused { number } => put_refusal(rt, number),
    }
}

// A vertex with two sizes and so one literal.
fn put_vertex(vertices: &mut VertexNumbers, v: usize, weight: i32, size: i32, larger: i32, lit: i32)
    requires { v < 64 }
{
    vertices[67 * v] = weight;
    vertices[67 * v + 1] = 2;
    vertices[67 * v + 2] = 1;
    vertices[67 * v + 3] = size;
    vertices[67 * v + 4] = larger;
    vertices[67 * v + 35] = lit;
}

fn case_g() -> Built {
    let mut vertices = [0i32; 4288];
    put_vertex(&mut vertices, 0, 3, 3, 7, 0);
    put_vertex(&mut vertices, 1, 4, 4, 7, 2);
    let mut edges = [0i32; 384];
    edges[1] = 1;
    edges[2] = 4;
    GraphDivision::new(&vertices, 2, &edges, 1, GraphDivisionOptions::DEFAULT)
}

fn enter(table: &mut [u8], variable: usize, code: u8) {
    if variable < table.len() {
        table[variable] = code;
    }
}

fn begin(rt: &impl Print, s: GraphDivision, table: &mut [u8]) -> Held {
    let mut list = [0u32; 6];
    let h = held_log::initialize(s, UndoLog::new(), table, &mut list);
    put_answer(rt, h.answer, &list);
    h
}

fn notify(rt: &impl Print, h: Held, table: &mut [u8], lit: i32) -> Held {
    let mut list = [0u32; 6];
    let after = held_log::propagate(h.state, h.log, table, &mut list, lit, 0);
    put_answer(rt, after.answer, &list);
    after
}

fn take_back(rt: &impl Print, h: Held, lit: i32) -> Held {
    let list = [0u32; 1];
    let after = held_log::undo(h.state, h.log, lit);
    put_answer(rt, after.answer, &list);
    after
}

fn ask_reason(rt: &impl Print, h: Held, lit: i32) {
    let mut buffer = [0u32; 9];
    let a = held_log::calc_reason(h.state, h.log, lit, &mut buffer);
    put_answer(rt, a, &buffer);
}

fn ask_last(rt: &impl Print, h: Held) {
    let mut buffer = [0u32; 9];
    let a = held_log::calc_last(h.state, h.log, &mut buffer);
    put_answer(rt, a, &buffer);
}

// I, N 0, N 4, R -, U 4, U 0, N 5, R 0. A variable is set at the current level before its literal is notified, and unset
// when it is taken back.
fn session(rt: &impl Print, s: GraphDivision) {
    let mut table = [0u8; 3];
    let begun = begin(rt, s, &mut table);
    enter(&mut table, 0, 3);
    let first = notify(rt, begun, &mut table, 0);
    enter(&mut table, 2, 3);
    let second = notify(rt, first, &mut table, 4);
    ask_last(rt, second);
    let back = take_back(rt, second, 4);
    enter(&mut table, 2, 0);
    let empty = take_back(rt, back, 0);
    enter(&mut table, 0, 0);
    enter(&mut table, 2, 4);
    let third = notify(rt, empty, &mut table, 5);
    ask_reason(rt, third, 0);
}

fn main(rt: HostRuntime) {
    let built = case_g();
    match built.refusal {
        None => session(&rt, built.state),
        Some(refusal) => put_refusal(&rt, refusal.number()),
    }
}
