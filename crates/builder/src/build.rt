// Filling a plan's words from numbers that no refusal applies to.
ghost use Rattle.std.specs.Prelude.{◌≡◌, ℕ, pred, ◌+◌, ◌*◌, ◌%◌, ◌<◌, ◌≤◌, min, get_or, set, replicate};
ghost use Rattle.base.specs.Iter.{iter, pick};
ghost use Rattle.base.specs.Lists.{filled};
ghost use Rattle.base.specs.Range.{to_nat};
ghost use Rattle.plan.specs.Words.{built_mark};
ghost use Rattle.builder.specs.Input.{weight_at, len_at, size_at, lit_at, left_at, right_at, edge_lit_at};
ghost use Rattle.builder.specs.Index.{indexed};
ghost use Rattle.builder.specs.Build.{flag, rows, header, given, closed, totals, with_index, plan_words, edge_step, edge_table};

use crate::fill::fill;
use crate::index::{Counted, index_variables};
use crate::input::{
    EdgeNumbers, VertexNumbers, domain_len, edge_lit, left, refusal_of, right, size, size_lit,
    weight,
};
use edge_table::Edges;
use plan::{BUILT, Plan};

// `GraphDivisionOptions` of the Rust, both off by default.
#[derive(Clone, Copy)]
pub struct GraphDivisionOptions {
    pub disallow_adjacent_same_size_regions: bool,
    pub allow_extra_walls: bool,
}

impl GraphDivisionOptions {
    pub const DEFAULT: GraphDivisionOptions = GraphDivisionOptions {
        disallow_adjacent_same_size_regions: false,
        allow_extra_walls: false,
    };
}

// A plan's words, by value.
#[derive(Clone, Copy)]
pub struct PlanWords {
    pub words: Plan,
}

fn fill_domains(vertices: &VertexNumbers, n: usize, plan: &mut Plan)
    requires { (n ≤ 64) × ((v : ℕ) → v < n → len_at vertices.now v ≤ 32) }
    ensures { plan.new ≡ rows 136 (len_at vertices.now) (λ v j. to_nat (size_at vertices.now v j)) n plan.old }
{
    for v in 0..n {
        fill(plan, 136 + 32 * v, domain_len(vertices, v), |j| {
            base::to_nat(size(vertices, v, j))
        });
    }
}

fn fill_dom_lits(vertices: &VertexNumbers, n: usize, plan: &mut Plan)
    requires { (n ≤ 64) × ((v : ℕ) → v < n → len_at vertices.now v ≤ 32) }
    ensures { plan.new ≡ rows 2184 (λ v. pred (len_at vertices.now v)) (λ v j. to_nat (lit_at vertices.now v j)) n plan.old }
{
    for v in 0..n {
        let count = domain_len(vertices, v).saturating_sub(1);
        fill(plan, 2184 + 32 * v, count, |j| {
            base::to_nat(size_lit(vertices, v, j))
        });
    }
}

// Arrays of zeros, made by functions of their own: a proof then has their name and not their 15241 entries.
fn no_words() -> Plan
    ensures { result ≡ replicate 15241 0 }
{
    [0u32; 15241]
}

fn no_index() -> [u32; 10881]
    ensures { result ≡ replicate 10881 0 }
{
    [0u32; 10881]
}

// Counts and options.
#[tactic(auto, unfolding(crate::specs::Build::header, base::specs::Lists::filled, base::specs::Iter::iter, base::specs::Iter::pick))]
fn fill_header(n: usize, m: usize, options: GraphDivisionOptions, plan: &mut Plan)
    requires { (n ≤ 64) × (m ≤ 128) }
    ensures { plan.new ≡ filled 0 4 (header n m options.disallow_adjacent_same_size_regions options.allow_extra_walls) plan.old }
{
    plan[0] = n as u32;
    plan[1] = m as u32;
    plan[2] = u32::from(options.disallow_adjacent_same_size_regions);
    plan[3] = u32::from(options.allow_extra_walls);
}

// The words as they were given, before the index.
fn fill_given(
    vertices: &VertexNumbers,
    n: usize,
    edges: &EdgeNumbers,
    m: usize,
    options: GraphDivisionOptions,
    plan: &mut Plan,
)
    requires { (n ≤ 64) × (m ≤ 128) × ((v : ℕ) → v < n → len_at vertices.now v ≤ 32) × (plan.old ≡ replicate 15241 0) }
    ensures { plan.new ≡ given vertices.now n edges.now m options.disallow_adjacent_same_size_regions options.allow_extra_walls }
{
    fill_header(n, m, options, plan);
    fill(plan, 8, n, |v| base::to_nat(weight(vertices, v)));
    fill(plan, 72, n, |v| domain_len(vertices, v) as u32);
    fill_domains(vertices, n, plan);
    fill_dom_lits(vertices, n, plan);
    fill(plan, 4232, m, |g| base::to_nat(edge_lit(edges, g)));
}

// How many variables and slots the index has, and the mark of a plan that was built.
fn fill_totals(variables: usize, slots: usize, plan: &mut Plan)
    requires { (variables ≤ 2176) × (slots ≤ 2176) }
    ensures { plan.new ≡ set (set (set plan.old 4 variables) 5 slots) 6 built_mark }
{
    plan[4] = variables as u32;
    plan[5] = slots as u32;
    plan[6] = BUILT;
}

// Adds the index to a plan's words.
fn fill_index(plan: &mut Plan)
    ensures { plan.new ≡ with_index plan.old }
{
    let mut index = no_index();
    let Counted { variables, slots } = index_variables(plan, &mut index);
    index[6528 + variables] = slots as u32;
    fill_totals(variables, slots, plan);
    fill(plan, 4360, 10881, |i| index[i]);
}

// The plan's words, all 0 where the building is refused.
#[tactic(auto, unfolding(crate::specs::Build::plan_words, base::specs::Iter::pick))]
pub fn plan_words(
    vertices: &VertexNumbers,
    n: usize,
    edges: &EdgeNumbers,
    m: usize,
    options: GraphDivisionOptions,
) -> PlanWords
    ensures { result.words ≡ plan_words vertices.now n edges.now m options.disallow_adjacent_same_size_regions options.allow_extra_walls }
{
    let mut plan = no_words();
    if refusal_of(vertices, n, edges, m).is_none() {
        fill_given(vertices, n, edges, m, options, &mut plan);
        fill_index(&mut plan);
    }
    PlanWords { words: plan }
}

// The edge table: for each edge the pair of its ends, and 0, 0 past the last edge. An end is the number given modulo 256,
// which is that number wherever it is a vertex.
pub fn edge_table(edges: &EdgeNumbers, m: usize) -> Edges
    ensures { result ≡ edge_table edges.now m }
{
    let mut table = [[0u8; 2]; 128];
    for g in 0..m.min(128) {
        let u = (base::to_nat(left(edges, g)) % 256) as u8;
        let v = (base::to_nat(right(edges, g)) % 256) as u8;
        table[g] = [u, v];
    }
    table
}
