// Document 02, request 1: the run of edges, connected or undecided, from one vertex to the other. It changes nothing
// but the buffer that it is lent.
ghost use Rattle.std.specs.Prelude.{◌≡◌};
ghost use Rattle.graph_division.specs.declared.GraphDivision.{GraphDivision};
ghost use Rattle.graph_division.specs.Calls.{fetched, run_answer, run_fetched};
ghost use Rattle.lent.specs.Lent.{Parts};
ghost use Rattle.plan.specs.Words.{words_of};

use edge_table::Edges;
use graph_division::Answer;
use noting::Noted;
use undo_log::Cursor;

// The run that was written, or 18.
fn answer_of(listed: Option<usize>) -> Answer
    ensures { result ≡ run_answer listed }
{
    match listed {
        Some(n) => Answer::Run { len: n },
        None => Answer::Refused { number: 18 },
    }
}

// The run that has the fewest undecided edges, of these the fewest edges, of these the lowest edge numbers from the
// first vertex on.
pub fn run<'a>(
    plan: &'a [u8],
    edges: Edges,
    noted: &'a Noted,
    log: &'a [u64],
    cursor: Cursor,
    from: i32,
    to: i32,
    buffer: &mut [u32],
) -> Answer
    ensures { (s : GraphDivision) → Parts s (words_of plan.now) edges noted.now →
        fetched result buffer.new ≡ run_fetched s cursor log.now from to buffer.old }
{
    if let Some(refusal) = refusals::fetch_refusal(plan, &edges, noted, buffer.len(), log, cursor) {
        return Answer::Refused {
            number: refusal.number(),
        };
    }
    let num_edges = plan::num_edges(plan) as usize;
    let num_vertices = plan::num_vertices(plan) as usize;
    let p = runs::vertex_given(from);
    let q = runs::vertex_given(to);
    let listed = runs::best_run(edges, noted, num_edges, num_vertices, p, q, buffer);
    answer_of(listed)
}
