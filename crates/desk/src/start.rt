// The program's start: the input's shape, and the plan that its first lines give.
ghost use Rattle.std.specs.Prelude.{◌≡◌};
ghost use Rattle.desk.specs.Start.{started_by, malformed, started};

use base::refusal::Refusal;
use builder::build::GraphDivisionOptions;
use builder::input::{no_edges, no_vertices};
use graph_division::GraphDivision;

// The refusal that the program answers and ends with, or a fresh state, and where the calls' lines begin.
#[derive(Clone, Copy)]
pub struct Started {
    pub refusal: Option<Refusal>,
    pub state: GraphDivision,
    pub calls_at: usize,
}

fn start_plan(input: &[u8]) -> Started
    ensures { result ≡ started_by input.now }
{
    let mut vertices = no_vertices();
    let mut edges = no_edges();
    let p = plan_lines::take_lines(input, &mut vertices, &mut edges);
    let c = p.counts;
    let options = GraphDivisionOptions {
        disallow_adjacent_same_size_regions: c.same_size,
        allow_extra_walls: c.extra_walls,
    };
    let b = GraphDivision::new(&vertices, c.vertices, &edges, c.edges, options);
    Started {
        refusal: b.refusal,
        state: b.state,
        calls_at: p.calls_at,
    }
}

fn refuse_input(len: usize) -> Started
    ensures { result ≡ malformed len }
{
    let vertices = no_vertices();
    let edges = no_edges();
    let b = GraphDivision::new(&vertices, 0, &edges, 0, GraphDivisionOptions::DEFAULT);
    Started {
        refusal: Some(Refusal::LineMalformed),
        state: b.state,
        calls_at: len,
    }
}

// 17 is answered before any building, with the state of an empty plan.
pub fn start(input: &[u8]) -> Started
    ensures { result ≡ started input.now }
{
    if text::input::well_formed(input) {
        return start_plan(input);
    }
    refuse_input(input.len())
}
