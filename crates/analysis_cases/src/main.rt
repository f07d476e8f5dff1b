// Runs one analysis on each block of standard input: O, P and G lines, then a line `N·literal·1` for each literal to be noted, in
// order; a line `---` or the input's end ends a block. For each block the program writes `E` and the number if the plan is refused;
// otherwise the verdict, `C` where the analysis goes on to its end, `X` and the list of a conflict, `E` and 13, and then, by
// rising literal, a line `P·literal·list` for each proposal that the analysis recorded, also where it ended in a conflict.
//
// The file stdin is tests/analysis/named and after it what `tests/analysis/generate 1 280` prints. The file stdout has the Rust's
// answers and not this program's: `tests/analysis/oracle FOLDER <crates/analysis_cases/stdin`, where FOLDER has the Rust source.
#![tactic(auto)]

ghost use Rattle.std.specs.Prelude.{◌≡◌, ◌+◌, ◌<◌, ◌≤◌, length};

use builder::build::{GraphDivisionOptions, PlanWords};
use builder::input::{EdgeNumbers, VertexNumbers};
use edge_table::Edges;
use noting::Noted;
use reasons::{Proposals, Stop, Verdict};
use std::io::Read;
use text::Line;
use undo_log::Cursor;

// A write that fails leaves its bytes out: the file stdout shows it.
fn put(rt: &impl Print, s: &[u8]) {
    let _ = rt.write_all(s);
}

// Room for a line of an answer.
fn buffer() -> [u8; 4096]
    ensures { 4096 ≡ length result }
{
    [0; 4096]
}

// A line of an answer: its letter and its numbers.
fn put_line(rt: &impl Print, letter: u8, numbers: &[u32]) {
    let mut bytes = buffer();
    let end = text_writer::write_answer(letter, numbers, &mut bytes, 0).unwrap_or(0);
    if 0 < end {
        if end <= 4096 {
            put(rt, &bytes[0..end]);
            return;
        }
    }
    put(rt, b"no room for a line\n");
}

fn put_refusal(rt: &impl Print, number: u32) {
    put_line(rt, b'E', &[number]);
}

// A line with a list that was written to `numbers` up to `end`.
fn put_listed(rt: &impl Print, letter: u8, numbers: &[u32], end: Option<usize>) {
    match end {
        Some(n) => {
            if n <= numbers.len() {
                put_line(rt, letter, &numbers[0..n]);
            }
        }
        None => put(rt, b"no list\n"),
    }
}

// How much of a block was read. A count stops far past every limit, so that it never wraps.
#[derive(Clone, Copy)]
struct Counts {
    vertices: usize,
    edges: usize,
    noted: usize,
    same_size: bool,
    extra_walls: bool,
}

fn one_more(n: usize) -> usize {
    if n < 1000000 {
        return n + 1;
    }
    n
}

// A count as one of the builder's numbers, with the same stop.
fn as_number(n: usize) -> i32 {
    n.min(1000000) as i32
}

// A vertex's numbers from `from` on, 32 of them.
fn put_row(values: &[i32; 32], from: usize, vertices: &mut VertexNumbers)
    requires { from + 32 ≤ 4288 }
{
    vertices[from..from + 32].copy_from_slice(values);
}

// Of the `count` numbers after the k on a P line the first `sizes` are sizes and the others literals. Those past 32 are
// not kept: the counts alone refuse them, or an empty domain ignores them.
fn put_vertex(
    line: &[u8],
    weight: i32,
    sizes: usize,
    count: usize,
    v: usize,
    vertices: &mut VertexNumbers,
)
    requires { v < 64 }
{
    vertices[67 * v] = weight;
    vertices[67 * v + 1] = as_number(sizes);
    if sizes <= count {
        vertices[67 * v + 2] = as_number(count - sizes);
    }
    let mut row = [0i32; 32];
    text::numbers(line, 2, &mut row);
    put_row(&row, 67 * v + 3, vertices);
    if sizes <= 32 {
        let mut lits = [0i32; 32];
        text::numbers(line, 2 + sizes, &mut lits);
        put_row(&lits, 67 * v + 35, vertices);
    }
}

fn put_edge(u: i32, v: i32, lit: i32, g: usize, edges: &mut EdgeNumbers)
    requires { g < 128 }
{
    edges[3 * g] = u;
    edges[3 * g + 1] = v;
    edges[3 * g + 2] = lit;
}

fn vertex_added(c: Counts) -> Counts {
    Counts {
        vertices: one_more(c.vertices),
        ..c
    }
}

fn edge_added(c: Counts) -> Counts {
    Counts {
        edges: one_more(c.edges),
        ..c
    }
}

fn noted_added(c: Counts) -> Counts {
    Counts {
        noted: one_more(c.noted),
        ..c
    }
}

// A line of a block. A vertex, an edge or a literal past the arrays is only counted.
fn take_line(
    line: &[u8],
    c: Counts,
    vertices: &mut VertexNumbers,
    edges: &mut EdgeNumbers,
    lits: &mut [i32; 2176],
) -> Counts {
    let read = text::read_line(line);
    match read {
        Line::O {
            same_size,
            extra_walls,
        } => Counts {
            same_size,
            extra_walls,
            ..c
        },
        Line::P {
            weight,
            sizes,
            count,
        } => {
            let v = c.vertices;
            if v < 64 {
                put_vertex(line, weight, sizes, count, v, vertices);
            }
            vertex_added(c)
        }
        Line::G { u, v, lit } => {
            let g = c.edges;
            if g < 128 {
                put_edge(u, v, lit, g, edges);
            }
            edge_added(c)
        }
        Line::N { lit, .. } => {
            let i = c.noted;
            if i < 2176 {
                lits[i] = lit;
            }
            noted_added(c)
        }
        _ => c,
    }
}

// A gate end that the builder took is below 64.
fn end_byte(n: i32) -> u8 {
    let e = base::to_nat(n);
    if e < 64 {
        return e as u8;
    }
    64
}

fn edge_table(edges: &EdgeNumbers) -> Edges {
    let mut table = [[0u8; 2]; 128];
    for g in 0..128 {
        table[g] = [end_byte(edges[3 * g]), end_byte(edges[3 * g + 1])];
    }
    table
}

// A literal's number; one that is out of range is unknown to every plan.
fn lit_number(n: i32) -> u16 {
    if sat::is_literal(n) {
        return (base::to_nat(n) % 65536) as u16;
    }
    8192
}

// Notes the first `count` literals.
fn note_all(
    plan: &[u8],
    lits: &[i32; 2176],
    count: usize,
    noted: &mut Noted,
    log: &mut [u64; 4352],
) {
    noting::fresh(plan, noted);
    let mut cursor = Cursor {
        used: 0,
        standing: 0,
    };
    for i in 0..count.min(lits.len()) {
        cursor = noting::note::note(plan, noted, log, cursor, lit_number(lits[i])).cursor;
    }
}

// The list of a conflict.
fn put_conflict(rt: &impl Print, plan: &[u8], edges: Edges, noted: &Noted, verdict: Verdict) {
    let mut view = [0u32; 512];
    views::compute::compute_view(plan, edges, noted, &mut view);
    let mut chosen = [0u8; 64];
    let mut count = 0;
    if let Err(Stop::Crowded { region }) = verdict {
        count = views::cells::separate_ranges(plan, noted, &view, region, &mut chosen);
    }
    let mut out = [0u32; 512];
    let end = lists::conflict::conflict_lits(
        plan, edges, noted, verdict, &chosen, count, &mut out, 0,
    );
    put_listed(rt, b'X', &out, end);
}

fn put_verdict(rt: &impl Print, plan: &[u8], edges: Edges, noted: &Noted, verdict: Verdict) {
    match verdict {
        Ok(()) => put(rt, b"C\n"),
        Err(Stop::ZeroSize) => put_refusal(rt, 13),
        Err(Stop::Unfit) => put(rt, b"unfit\n"),
        _ => put_conflict(rt, plan, edges, noted, verdict),
    }
}

// The line of the proposal of the literal at place p, if there is one.
fn put_proposal(
    rt: &impl Print,
    plan: &[u8],
    edges: Edges,
    noted: &Noted,
    first: u64,
    second: u64,
    p: usize,
) {
    if first == 0 {
        return;
    }
    let reason = reasons::reason::reason_of(first, second);
    let mut out = [0u32; 512];
    out[0] = (plan::unique_lit(plan, p) % 65536) as u32;
    let end = lists::reason_lits(plan, edges, noted, reason, &mut out, 1);
    put_listed(rt, b'P', &out, end);
}

fn put_proposals(rt: &impl Print, plan: &[u8], edges: Edges, noted: &Noted, proposals: &Proposals) {
    for p in 0..4352 {
        put_proposal(
            rt,
            plan,
            edges,
            noted,
            proposals[68 + 2 * p],
            proposals[69 + 2 * p],
            p,
        );
    }
}

fn show_analysis(rt: &impl Print, plan: &[u8], edges: Edges, lits: &[i32; 2176], count: usize) {
    let mut noted = [0u32; 384];
    let mut log = [0u64; 4352];
    note_all(plan, lits, count, &mut noted, &mut log);
    let mut proposals = [0u64; 8772];
    let crossed = noting::note::crossed(plan, &noted);
    let verdict = analysis::analyze::analyze(plan, edges, &noted, crossed, &mut proposals);
    put_verdict(rt, plan, edges, &noted, verdict);
    put_proposals(rt, plan, edges, &noted, &proposals);
}

fn build<'a>(vertices: &'a VertexNumbers, edges: &'a EdgeNumbers, c: Counts) -> PlanWords {
    let options = GraphDivisionOptions {
        disallow_adjacent_same_size_regions: c.same_size,
        allow_extra_walls: c.extra_walls,
    };
    builder::build::plan_words(vertices, c.vertices, edges, c.edges, options)
}

fn show_answer<'a>(
    rt: &impl Print,
    vertices: &'a VertexNumbers,
    edges: &'a EdgeNumbers,
    lits: &'a [i32; 2176],
    c: Counts,
) {
    if let Some(refusal) = builder::input::refusal_of(vertices, c.vertices, edges, c.edges) {
        put_refusal(rt, refusal.number());
        return;
    }
    let plan = plan::bytes::bytes_of(&build(vertices, edges, c).words);
    show_analysis(rt, &plan.bytes, edge_table(edges), lits, c.noted);
}

fn no_vertices() -> VertexNumbers {
    [0i32; 4288]
}

fn no_edges() -> EdgeNumbers {
    [0i32; 384]
}

fn no_lits() -> [i32; 2176] {
    [0i32; 2176]
}

// Whether a line ends its block.
fn ends_block(line: &[u8]) -> bool {
    line.len() == 3 && line[0] == b'-'
}

// Answers the block that starts at `from`, and says where the next one starts.
fn show_block(rt: &impl Print, input: &[u8], from: usize) -> usize
    requires { (from < length input.now) × (length input.now ≤ 1048576) }
    ensures { from < result }
{
    let mut vertices = no_vertices();
    let mut edges = no_edges();
    let mut lits = no_lits();
    let mut c = Counts {
        vertices: 0,
        edges: 0,
        noted: 0,
        same_size: false,
        extra_walls: false,
    };
    let mut at = from;
    // Not a `for`: each turn goes on by its line's length.
    while at < input.len() {
        let e = text::line_end(input, at);
        let line = &input[at..e];
        at = e + 1;
        if ends_block(line) {
            break;
        }
        c = take_line(line, c, &mut vertices, &mut edges, &mut lits);
    }
    show_answer(rt, &vertices, &edges, &lits, c);
    at
}

fn show_blocks(rt: &impl Print, input: &[u8])
    requires { length input.now ≤ 1048576 }
{
    let mut at = 0;
    // Nor here: each turn goes on by its block's length.
    while at < input.len() {
        at = show_block(rt, input, at);
    }
}

// 1 MiB: more blocks than that are for several runs.
fn input_buffer() -> [u8; 1048576]
    ensures { 1048576 ≡ length result }
{
    [0; 1048576]
}

// Reads until `buf` is full, the input ends or a read fails, and says how many bytes it put at the start of `buf`.
fn read_full(reader: &mut impl Read, buf: &mut [u8]) -> usize
    ensures { result ≤ length buf.new }
{
    let mut done = 0;
    // Nor here: each turn goes on by what a read gave.
    while done < buf.len() {
        match reader.read(&mut buf[done..]) {
            Ok(0) | Err(_) => break,
            Ok(n) => done += n,
        }
    }
    done
}

fn main(rt: HostRuntime) {
    let mut buf = input_buffer();
    let n = read_full(&mut rt.stdin(), &mut buf);
    show_blocks(&rt, &buf[0..n]);
}
