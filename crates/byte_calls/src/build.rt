// Building a state's bytes.
ghost use Rattle.std.specs.Prelude.{◌≡◌, not, false, ℕ, ◌+◌, ◌*◌, ◌≤◌, ◌<◌, pos, length, get_or};
ghost use Rattle.base.specs.Range.{in_range};
ghost use Rattle.builder.specs.Input.{refusal};
ghost use Rattle.graph_division.specs.New.{built};
ghost use Rattle.base.specs.Bytes.{word_at, put_words};
ghost use Rattle.base.specs.Bytes.{words_in};
ghost use Rattle.byte_calls.specs.Stores.{put_noted, put_ends, put_edges, cleared};
ghost use Rattle.byte_calls.specs.Host.{build_code};
ghost use Rattle.byte_calls.specs.After.{BytesAfter};
ghost use Rattle.byte_calls.specs.Build.{BuiltIn};

use crate::bytes::write_words;
use crate::codes::refusal_code;
use crate::store::store_noted;
use builder::build::GraphDivisionOptions;
use builder::input::{EdgeNumbers, VertexNumbers};
use edge_table::Edges;
use noting::{Noted, no_notes};
use plan::Plan;
use plan::bytes::bytes_of;

// An option other than 0 counts as 1.
pub(crate) fn option(n: i32) -> bool
    ensures { result ≡ not (in_range (pos 0) n) }
{
    !base::in_range(n, 0)
}

fn store_ends(state: &mut [u8], table: &Edges, g: usize)
    requires { (133440 ≤ length state.old) × (g < 128) }
    ensures { state.new ≡ put_ends table.now g state.old }
{
    state[60964 + 2 * g] = table[g][0];
    state[60965 + 2 * g] = table[g][1];
}

fn store_edges(state: &mut [u8], table: &Edges)
    requires { 133440 ≤ length state.old }
    ensures { state.new ≡ put_edges table.now state.old }
{
    for g in 0..128 {
        store_ends(state, table, g);
    }
}

// No list left, not initialized, and no reasons.
fn clear(state: &mut [u8])
    requires { 133440 ≤ length state.old }
    ensures { state.new ≡ cleared state.old }
{
    state[62756..133440].fill(0);
}

// The plan's words: each reads back.
fn store_plan(state: &mut [u8], plan: &[u32])
    requires { (133440 ≤ length state.old) × (length plan.now ≡ 15241) }
    ensures { (state.new ≡ put_words 0 plan.now 15241 state.old) × ((i : ℕ) → i < 15241 → word_at state.new (4 * i) ≡ get_or plan.now i 0) }
{
    write_words(state, 0, plan, 15241);
}

// And the noted ones.
fn store_words<'a>(state: &mut [u8], plan: &'a Plan, noted: &'a Noted)
    requires { 133440 ≤ length state.old }
    ensures { (state.new ≡ put_noted noted.now (put_words 0 plan.now 15241 state.old))
        × ((i : ℕ) → i < 15241 → word_at state.new (4 * i) ≡ get_or plan.now i 0) × (words_in state.new 61220 384 ≡ noted.now) }
{
    store_plan(state, plan);
    store_noted(state, noted);
}

pub(crate) fn build<'a>(
    vertices: &'a VertexNumbers,
    n: usize,
    edges: &'a EdgeNumbers,
    m: usize,
    options: GraphDivisionOptions,
    state: &mut [u8],
)
    requires { (133440 ≤ length state.old) × (refusal vertices.now n edges.now m ≡ 0) }
    ensures { BytesAfter false (built vertices.now n edges.now m options.disallow_adjacent_same_size_regions options.allow_extra_walls).state state.old state.new }
{
    let plan = builder::build::plan_words(vertices, n, edges, m, options).words;
    let mut noted = no_notes();
    noting::fresh(&bytes_of(&plan).bytes, &mut noted);
    let table = builder::build::edge_table(edges, m);
    store_words(state, &plan, &noted);
    store_edges(state, &table);
    clear(state);
}

// Where no refusal applies. An option other than 0 counts as 1.
pub(crate) fn build_from<'a>(
    vertices: &'a VertexNumbers,
    n: usize,
    edges: &'a EdgeNumbers,
    m: usize,
    same_size: i32,
    extra_walls: i32,
    state: &mut [u8],
) -> i32
    ensures value { result ≡ build_code vertices.now n edges.now m state.old }
    ensures built_in { BuiltIn vertices.now n edges.now m same_size extra_walls state.old state.new }
{
    if let Some(refusal) = builder::input::refusal_of(vertices, n, edges, m) {
        return refusal_code(refusal.number());
    }
    if state.len() < 133440 {
        return -7;
    }
    let options = GraphDivisionOptions {
        disallow_adjacent_same_size_regions: option(same_size),
        allow_extra_walls: option(extra_walls),
    };
    build(vertices, n, edges, m, options, state);
    0
}
