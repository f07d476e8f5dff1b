// The plan's lines, O, P and G, into the two arrays that a plan is built from (builder::input says how they are laid out).
#![tactic(auto)]

ghost use Rattle.std.specs.Prelude.{◌≡◌, ◌+◌, ◌*◌, ◌-◌, ◌≤◌, ◌<◌, pos, get_or};
ghost use Rattle.text.specs.Lines.{read_line};
ghost use Rattle.plan_lines.specs.Lines.{one_more, as_number, row_put, numbers_put, head_put, lits_put, vertex_put, edge_put, counts, drafted, taken, is_plan_line, reading_of, next_line, taken_lines};

use builder::input::{EdgeNumbers, VertexNumbers};
use text::Line;

// How much of a plan was read. A count stops far past every limit, so that it never wraps.
#[derive(Clone, Copy)]
pub struct Counts {
    pub vertices: usize,
    pub edges: usize,
    pub same_size: bool,
    pub extra_walls: bool,
}

// What the plan's lines are, and where the first line that is none of them starts.
#[derive(Clone, Copy)]
pub struct PlanLines {
    pub counts: Counts,
    pub calls_at: usize,
}

fn one_more(n: usize) -> usize
    ensures { result ≡ one_more n }
{
    if n < 1000000 {
        return n + 1;
    }
    n
}

// A count as one of the builder's numbers, with the same stop.
fn as_number(n: usize) -> i32
    ensures { result ≡ as_number n }
{
    n.min(1000000) as i32
}

// A call's result is known to fit 32 bits, which is not known of an array's element.
fn number_at(values: &[i32; 32], j: usize) -> i32
    requires { j < 32 }
    ensures { result ≡ get_or values.now j (pos 0) }
{
    values[j]
}

// 32 numbers from `at` on.
fn put_row(values: &[i32; 32], at: usize, vertices: &mut VertexNumbers)
    requires { at + 32 ≤ 4288 }
    ensures { vertices.new ≡ row_put at values.now vertices.old }
{
    for j in 0..32 {
        vertices[at + j] = number_at(values, j);
    }
}

// The line's numbers from number `from` on, 32 of them: those past that are refused by their count, or ignored.
fn put_numbers(line: &[u8], from: usize, at: usize, vertices: &mut VertexNumbers)
    requires { at + 32 ≤ 4288 }
    ensures { vertices.new ≡ numbers_put line.now from at vertices.old }
{
    let mut row = [0i32; 32];
    text::numbers(line, from, &mut row);
    put_row(&row, at, vertices);
}

fn put_head(weight: i32, sizes: usize, count: usize, v: usize, vertices: &mut VertexNumbers)
    requires { v < 64 }
    ensures { vertices.new ≡ head_put weight sizes count v vertices.old }
{
    vertices[67 * v] = weight;
    vertices[67 * v + 1] = as_number(sizes);
    vertices[67 * v + 2] = as_number(count.saturating_sub(sizes));
}

// The literals follow the sizes. With more than 32 sizes the plan is refused, whatever they are.
fn put_lits(line: &[u8], sizes: usize, v: usize, vertices: &mut VertexNumbers)
    requires { v < 64 }
    ensures { vertices.new ≡ lits_put line.now sizes v vertices.old }
{
    if sizes <= 32 {
        put_numbers(line, 2 + sizes, 67 * v + 35, vertices);
    }
}

// Of the `count` numbers after the k on a P line the first `sizes` are sizes and the others literals. A vertex past the
// array is only counted.
fn put_vertex(
    line: &[u8],
    weight: i32,
    sizes: usize,
    count: usize,
    v: usize,
    vertices: &mut VertexNumbers,
)
    ensures { vertices.new ≡ vertex_put line.now weight sizes count v vertices.old }
{
    if 64 <= v {
        return;
    }
    put_head(weight, sizes, count, v, vertices);
    put_numbers(line, 2, 67 * v + 3, vertices);
    put_lits(line, sizes, v, vertices);
}

fn put_edge(u: i32, v: i32, lit: i32, g: usize, edges: &mut EdgeNumbers)
    ensures { edges.new ≡ edge_put u v lit g edges.old }
{
    if 128 <= g {
        return;
    }
    edges[3 * g] = u;
    edges[3 * g + 1] = v;
    edges[3 * g + 2] = lit;
}

fn with_options(c: Counts, same_size: bool, extra_walls: bool) -> Counts
    ensures { result ≡ counts c.vertices c.edges same_size extra_walls }
{
    Counts {
        same_size,
        extra_walls,
        ..c
    }
}

fn with_vertex(c: Counts) -> Counts
    ensures { result ≡ counts (one_more c.vertices) c.edges c.same_size c.extra_walls }
{
    Counts {
        vertices: one_more(c.vertices),
        ..c
    }
}

fn with_edge(c: Counts) -> Counts
    ensures { result ≡ counts c.vertices (one_more c.edges) c.same_size c.extra_walls }
{
    Counts {
        edges: one_more(c.edges),
        ..c
    }
}

fn take(
    line: &[u8],
    read: Line,
    c: Counts,
    vertices: &mut VertexNumbers,
    edges: &mut EdgeNumbers,
) -> Counts
    ensures { drafted result vertices.new edges.new ≡ taken line.now read (drafted c vertices.old edges.old) }
{
    match read {
        Line::O {
            same_size,
            extra_walls,
        } => with_options(c, same_size, extra_walls),
        Line::P {
            weight,
            sizes,
            count,
        } => {
            put_vertex(line, weight, sizes, count, c.vertices, vertices);
            with_vertex(c)
        }
        Line::G { u, v, lit } => {
            put_edge(u, v, lit, c.edges, edges);
            with_edge(c)
        }
        Line::V { .. }
        | Line::I
        | Line::N { .. }
        | Line::U { .. }
        | Line::R { .. }
        | Line::RLast
        | Line::Malformed => c,
    }
}

// One line of a plan. A line that is none of O, P and G changes nothing.
pub fn take_line(
    line: &[u8],
    c: Counts,
    vertices: &mut VertexNumbers,
    edges: &mut EdgeNumbers,
) -> Counts
    ensures { drafted result vertices.new edges.new ≡ taken line.now (read_line line.now) (drafted c vertices.old edges.old) }
{
    let read = text::read_line(line);
    take(line, read, c, vertices, edges)
}

#[tactic(auto, using(crate::proofs::Reading::plan_lines, crate::proofs::Reading::other_lines))]
fn is_plan_line(read: Line) -> bool
    ensures { result ≡ is_plan_line read }
{
    matches!(read, Line::O { .. } | Line::P { .. } | Line::G { .. })
}

// The lines up to the first that is none of O, P and G, or to the end.
pub fn take_lines(input: &[u8], vertices: &mut VertexNumbers, edges: &mut EdgeNumbers) -> PlanLines
    ensures { reading_of result.counts vertices.new edges.new result.calls_at ≡ taken_lines input.now vertices.old edges.old }
{
    let mut c = Counts {
        vertices: 0,
        edges: 0,
        same_size: false,
        extra_walls: false,
    };
    let mut at = 0;
    // Not a `for`: each turn goes on by its line's length.
    while at < input.len() {
        let e = text::line_end(input, at);
        let line = &input[at..e];
        let read = text::read_line(line);
        if !is_plan_line(read) {
            break;
        }
        c = take(line, read, c, vertices, edges);
        at = (e + 1).min(input.len());
    }
    PlanLines {
        counts: c,
        calls_at: at,
    }
}
