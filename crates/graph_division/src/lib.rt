// The propagator's state, how it is built, and what its calls answer. The calls are in crates lent and by_value; specs/ says what they do.
#![tactic(auto)]

ghost use Rattle.std.specs.Prelude.{◌≡◌};
ghost use Rattle.graph_division.specs.Answers.{is_consistent, is_refused};
ghost use Rattle.graph_division.specs.New.{built};

use base::refusal::Refusal;
use builder::build::GraphDivisionOptions;
use builder::input::{EdgeNumbers, VertexNumbers};
use edge_table::EdgeTable;
use lists::{ReasonList, no_list};
use noting::{Noted, no_notes};
use plan::Plan;
use recorded::Reasons;
use undo_log::Cursor;

#[derive(Clone, Copy)]
pub struct GraphDivision {
    // The plan's words, read through the functions of crate `plan`.
    pub plan: Plan,
    // The edges' ends.
    pub edges: EdgeTable,
    // Edge states and bounds, read through the functions of crate `noting`.
    pub noted: Noted,
    // The reason recorded for each of the distinct literals.
    pub reasons: Reasons,
    // The list last left: the first `last_len` entries.
    pub last: ReasonList,
    pub last_len: usize,
    // Whether an initialize was consistent.
    pub initialized: bool,
}

// What a call answers. specs/Answers.antt gives document 01's number and values for each.
#[derive(Clone, Copy)]
pub enum Answer {
    // The first `handed` entries of the lent list are the literals handed on.
    Consistent { handed: usize },
    Conflict,
    // Only noted: notifications are pending.
    Noted,
    Undone,
    // The first `len` entries of the lent buffer are the reason.
    Reason { len: usize },
    // The first `len` entries of the lent buffer are the numbers of the run's edges, in order from the first vertex.
    Run { len: usize },
    // The first `len` bytes of the lent buffer are the page.
    Page { len: usize },
    Refused { number: u32 },
}

pub fn is_refused(answer: Answer) -> bool
    ensures { result ≡ is_refused answer }
{
    matches!(answer, Answer::Refused { .. })
}

pub fn is_consistent(answer: Answer) -> bool
    ensures { result ≡ is_consistent answer }
{
    matches!(answer, Answer::Consistent { .. })
}

// A call's state, cursor and answer; what it was lent is changed in place.
#[derive(Clone, Copy)]
pub struct Outcome {
    pub state: GraphDivision,
    pub cursor: Cursor,
    pub answer: Answer,
}

// What building gives: a fresh state; or a refusal, and then the state is no plan's: its words are all 0, without the mark
// `plan::BUILT`, and every call refuses it with 7 (refused_no_plan of proofs/NoPlan).
#[derive(Clone, Copy)]
pub struct Built {
    pub refusal: Option<Refusal>,
    pub state: GraphDivision,
}

impl GraphDivision {
    // The two arrays hold n vertices and m edges as builder::input says.
    pub fn new<'a>(
        vertices: &'a VertexNumbers,
        n: usize,
        edges: &'a EdgeNumbers,
        m: usize,
        options: GraphDivisionOptions,
    ) -> Built
        ensures { result ≡ built vertices.now n edges.now m options.disallow_adjacent_same_size_regions options.allow_extra_walls }
    {
        let plan = builder::build::plan_words(vertices, n, edges, m, options).words;
        let mut noted = no_notes();
        noting::fresh(&plan::bytes::bytes_of(&plan).bytes, &mut noted);
        Built {
            refusal: builder::input::refusal_of(vertices, n, edges, m),
            state: GraphDivision {
                plan,
                edges: edge_table::hold(builder::build::edge_table(edges, m)),
                noted,
                reasons: recorded::no_reasons(),
                last: no_list(),
                last_len: 0,
                initialized: false,
            },
        }
    }
}
