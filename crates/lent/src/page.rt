// Document 02, request 3: the page of the decided regions. It changes nothing but the buffer that it is lent.
ghost use Rattle.std.specs.Prelude.{◌≡◌};
ghost use Rattle.graph_division.specs.declared.GraphDivision.{GraphDivision};
ghost use Rattle.graph_division.specs.Calls.{fetched, page_answer, page_fetched};
ghost use Rattle.lent.specs.Lent.{Parts};
ghost use Rattle.plan.specs.Words.{words_of};

use edge_table::Edges;
use graph_division::Answer;
use noting::Noted;
use pages::PageError;
use undo_log::Cursor;
use views::compute::Regions;

// The page that was written, or 19.
fn answer_of(printed: Result<usize, PageError>) -> Answer
    ensures { result ≡ page_answer printed }
{
    match printed {
        Ok(n) => Answer::Page { len: n },
        Err(PageError::TooSmall) => Answer::Refused { number: 19 },
        Err(PageError::Unknown) => Answer::Refused { number: 7 },
    }
}

// A line for each region, in the order of its lowest vertex.
pub fn page<'a>(
    plan: &'a [u8],
    edges: Edges,
    noted: &'a Noted,
    log: &'a [u64],
    cursor: Cursor,
    buffer: &mut [u8],
) -> Answer
    ensures { (s : GraphDivision) → Parts s (words_of plan.now) edges noted.now →
        fetched result buffer.new ≡ page_fetched s cursor log.now buffer.old }
{
    if refusals::state_bad(plan, &edges, noted, log, cursor) {
        return Answer::Refused { number: 7 };
    }
    let n = plan::num_vertices(plan) as usize;
    let Regions {
        labels,
        weights,
        ..
    } = views::compute::compute(plan, edges, noted, false);
    let lowers = views::compute::lower_bounds(&labels, noted, n).bounds;
    let uppers = views::compute::upper_bounds(&labels, noted, n).bounds;
    let printed = pages::print_page(&labels, &weights, &lowers, &uppers, n, buffer);
    answer_of(printed)
}
