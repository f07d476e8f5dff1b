// The propagator's calls in the form that a caller holds: the undo log is a lent slice of records, and the cursor is
// lent and moves in place. Each loads the records in use as words and makes the flat call on them. What this pushed is
// then pushed on the lent log, record by record, and what it took back is popped. These calls test the whole plan, which
// those that they make do not.
#![tactic(auto)]

pub mod calc_reason;
pub mod initialize;
pub mod propagate;
pub mod undo;

ghost use Rattle.std.specs.Prelude.{◌≡◌};
ghost use Rattle.graph_division.specs.Calls.{refuse};
ghost use Rattle.record_calls.specs.Reach.{reaches};

use by_value::check::check;
use by_value::lending::plan_bytes;
use graph_division::{Answer, GraphDivision, Outcome};
use noting::buffers::log_short;
use undo_log::Cursor;

// Whether a log of `len` records can be loaded: the flat calls see one of 4352 words, so its length is tested here. That many
// words hold the log of a plan that passes its own test.
pub(crate) fn reaches(s: GraphDivision, len: usize, cursor: Cursor) -> bool
    ensures { result ≡ reaches s.plan s.edges.ends len cursor }
{
    check(s) && !log_short(&plan_bytes(s).bytes, len) && cursor.used <= len && cursor.used <= 4352
}

pub(crate) fn refuse(s: GraphDivision, cursor: Cursor) -> Outcome
    ensures { result ≡ refuse 7 s cursor }
{
    Outcome {
        state: s,
        cursor,
        answer: Answer::Refused { number: 7 },
    }
}
