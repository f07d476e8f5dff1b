// The Rust's `calc_reason`, with a literal and without one. A fetch changes nothing but the buffer that it is lent.
ghost use Rattle.std.specs.Prelude.{◌≡◌, Bool, List, ℕ, ◌*◌, ◌+◌, ◌/◌, ◌%◌};
ghost use Rattle.base.specs.Lists.{tab};
ghost use Rattle.plan.specs.Words.{words_of, word};
ghost use Rattle.walks.specs.Written.{out_of, written};
ghost use Rattle.analysis.specs.Placed.{place_of_lit};
ghost use Rattle.recorded.specs.declared.Reasons.{Reasons};
ghost use Rattle.graph_division.specs.declared.GraphDivision.{GraphDivision};
ghost use Rattle.graph_division.specs.Calls.{fetched, reason_over, copied, reason_given, is_none, giving, last_fetched};
ghost use Rattle.lent.specs.Lent.{state_of, Parts, reason_fetched_by};

use edge_table::Edges;
use graph_division::Answer;
use lists::no_list;
use noting::Noted;
use reasons::reason::Reason;
use undo_log::Cursor;
use walks::push;

// The first n words of the list, as many as there is room for.
pub(crate) fn copy(list: &[u32], n: usize, buffer: &mut [u32])
    ensures { buffer.new ≡ (written (tab (word list.now) n) (out_of buffer.old 0)).text }
{
    let mut at = 0;
    for i in 0..n {
        at = push(buffer, at, list.get(i).copied().unwrap_or(0));
    }
}

fn is_none(r: Reason) -> bool
    ensures { result ≡ is_none r }
{
    matches!(r, Reason::NotPropagated)
}

// More literals than a reason buffer must hold.
fn reason_over(plan: &[u8], n: usize) -> bool
    ensures { result ≡ reason_over (words_of plan.now) n }
{
    plan::num_edges(plan) as usize + 2 * (plan::num_vertices(plan) as usize) + 4 < n
}

// The first n literals of the list, unless these are more than a reason buffer must hold.
fn give_list(plan: &[u8], list: &[u32], n: usize, buffer: &mut [u32]) -> Answer
    ensures { fetched result buffer.new ≡ copied (words_of plan.now) list.now n buffer.old }
{
    if reason_over(plan, n) {
        return Answer::Refused { number: 7 };
    }
    copy(list, n, buffer);
    Answer::Reason { len: n }
}

// The list, which was made aside, where there is one.
fn give(plan: &[u8], list: &[u32], listed: Option<usize>, buffer: &mut [u32]) -> Answer
    ensures { fetched result buffer.new ≡ reason_given (words_of plan.now) list.now listed buffer.old }
{
    match listed {
        Some(n) => give_list(plan, list, n, buffer),
        None => Answer::Refused { number: 16 },
    }
}

// The place of the literal among the distinct literals.
pub fn place_of(plan: &[u8], lit: u16) -> usize
    ensures { result ≡ place_of_lit (words_of plan.now) lit }
{
    let k = noting::note::place_in(plan, sat::variable(lit as u32)) % 2147483648;
    2 * k + sat::sign(lit as u32) as usize
}

// A reason's list, made of the edges connected and disconnected now.
fn calc(plan: &[u8], edges: Edges, noted: &Noted, reason: Reason, buffer: &mut [u32]) -> Answer
    ensures { (rs : Reasons) (last : List ℕ) (len : ℕ) (b : Bool) →
        fetched result buffer.new ≡ giving (state_of (words_of plan.now) edges noted.now rs last len b) reason buffer.old }
{
    if is_none(reason) {
        return Answer::Refused { number: 15 };
    }
    let mut list = no_list();
    let listed = lists::reason_lits(plan, edges, noted, reason, &mut list, 0);
    give(plan, &list, listed, buffer)
}

// A literal's reason: the list of what an analysis recorded for it, which the caller reads at the literal's place.
pub fn calc_reason<'a>(
    plan: &'a [u8],
    edges: Edges,
    noted: &'a Noted,
    log: &'a [u64],
    cursor: Cursor,
    lit: i32,
    reason: Reason,
    buffer: &mut [u32],
) -> Answer
    ensures { (s : GraphDivision) → Parts s (words_of plan.now) edges noted.now →
        fetched result buffer.new ≡ reason_fetched_by s cursor log.now lit reason buffer.old }
{
    if let Some(refusal) = refusals::fetch_refusal(plan, &edges, noted, buffer.len(), log, cursor) {
        return Answer::Refused {
            number: refusal.number(),
        };
    }
    if let Some(refusal) = refusals::literal_refusal(plan, lit) {
        return Answer::Refused {
            number: refusal.number(),
        };
    }
    calc(plan, edges, noted, reason, buffer)
}

// The list last left, which stands in `last`, up to `len`: empty before any analysis and after a consistent notification.
pub fn calc_last<'a>(
    plan: &'a [u8],
    edges: Edges,
    noted: &'a Noted,
    log: &'a [u64],
    cursor: Cursor,
    last: &'a [u32],
    len: usize,
    buffer: &mut [u32],
) -> Answer
    ensures { (s : GraphDivision) → Parts s (words_of plan.now) edges noted.now → last.now ≡ s.last → len ≡ s.last_len →
        fetched result buffer.new ≡ last_fetched s cursor log.now buffer.old }
{
    if let Some(refusal) = refusals::fetch_refusal(plan, &edges, noted, buffer.len(), log, cursor) {
        return Answer::Refused {
            number: refusal.number(),
        };
    }
    give_list(plan, last, len, buffer)
}
