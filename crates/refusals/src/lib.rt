// The tests that a call makes before it works: refusals 7 to 11 in this order, each on any input. The answer is the
// refusal that applies. The plan's counts come first: they bound the loops of all other tests.
#![tactic(auto)]

ghost use Rattle.std.specs.Prelude.{◌≡◌, ℕ};
ghost use Rattle.base.specs.Refusal.{number_or_0};
ghost use Rattle.refusals.specs.Refusals.{state_bad, table_state_bad, lit_number, unknown_lit, literal_refusal, initialize_refusal, propagate_refusal, undo_refusal, fetch_refusal};
ghost use Rattle.plan.specs.Words.{words_of};

use base::refusal::Refusal;
use edge_table::Edges;
use noting::Noted;
use noting::buffers::{list_short, log_short, reason_short, table_bad};
use noting::note::known;
use noting::replay::log_bad;
use noting::stands::{not_newest, variable_stands};
use plan::check::{counts_ok, variables_high};
use sat::Lit;
use undo_log::Cursor;

// The part of 7 that every call tests: the plan's counts, the log's length, and that log, cursor and noted words are as
// noting gives.
#[tactic(auto, unfolding(crate::specs::Refusals::state_bad))]
pub fn state_bad(plan: &[u8], edges: &Edges, noted: &Noted, log: &[u64], cursor: Cursor) -> bool
    ensures { result ≡ state_bad (words_of plan.now) edges.now noted.now log.now cursor }
{
    !counts_ok(plan) || log_short(plan, log.len()) || log_bad(plan, noted, log, cursor)
}

// 7 of a call that is lent a table and a list.
#[tactic(auto, unfolding(crate::specs::Refusals::table_state_bad))]
fn table_state_bad(
    plan: &[u8],
    edges: &Edges,
    noted: &Noted,
    table: &[u8],
    list_len: usize,
    log: &[u64],
    cursor: Cursor,
) -> bool
    ensures { result ≡ table_state_bad (words_of plan.now) edges.now noted.now table.now list_len log.now cursor }
{
    state_bad(plan, edges, noted, log, cursor)
        || list_short(plan, list_len)
        || table_bad(plan, table)
}

// The number of a literal from outside, 0 for one that is none.
#[tactic(auto, unfolding(crate::specs::Refusals::lit_number, base::specs::Iter::pick))]
pub fn lit_number(lit: i32) -> u16
    ensures { result ≡ lit_number lit }
{
    if sat::is_literal(lit) {
        base::to_nat(lit) as u16
    } else {
        0
    }
}

#[tactic(auto, unfolding(crate::specs::Refusals::unknown_lit))]
fn unknown_lit(plan: &[u8], lit: i32) -> bool
    ensures { result ≡ unknown_lit (words_of plan.now) lit }
{
    !sat::is_literal(lit) || !known(plan, sat::variable(u32::from(lit_number(lit))))
}

// 9 for a literal that is none or that the plan does not have, of a fetch by literal too.
#[tactic(auto, unfolding(crate::specs::Refusals::literal_refusal, base::specs::Iter::pick))]
pub fn literal_refusal(plan: &[u8], lit: i32) -> Option<Refusal>
    ensures { number_or_0 result ≡ literal_refusal (words_of plan.now) lit }
{
    if unknown_lit(plan, lit) {
        return Some(Refusal::UnknownLit);
    }
    None
}

// 7 and 8. Initialize tests 10 later, literal by literal. It saves and restores the table's entries of variables in range.
#[tactic(auto, unfolding(crate::specs::Refusals::initialize_refusal, base::specs::Iter::pick))]
pub fn initialize_refusal(
    plan: &[u8],
    edges: &Edges,
    noted: &Noted,
    table: &[u8],
    list_len: usize,
    log: &[u64],
    cursor: Cursor,
    initialized: bool,
) -> Option<Refusal>
    ensures { number_or_0 result ≡ initialize_refusal (words_of plan.now) edges.now noted.now table.now list_len log.now cursor initialized }
{
    if table_state_bad(plan, edges, noted, table, list_len, log, cursor) || variables_high(plan) {
        return Some(Refusal::StateBad);
    }
    if initialized {
        return Some(Refusal::AlreadyInitialized);
    }
    None
}

// 7, 9 and 10.
#[tactic(auto, unfolding(crate::specs::Refusals::propagate_refusal, base::specs::Iter::pick))]
pub fn propagate_refusal(
    plan: &[u8],
    edges: &Edges,
    noted: &Noted,
    table: &[u8],
    list_len: usize,
    log: &[u64],
    cursor: Cursor,
    lit: i32,
) -> Option<Refusal>
    ensures { number_or_0 result ≡ propagate_refusal (words_of plan.now) edges.now noted.now table.now list_len log.now cursor lit }
{
    if table_state_bad(plan, edges, noted, table, list_len, log, cursor) {
        return Some(Refusal::StateBad);
    }
    if unknown_lit(plan, lit) {
        return Some(Refusal::UnknownLit);
    }
    let x = Lit(lit_number(lit)).var();
    if variable_stands(log, cursor.used, x.0) {
        return Some(Refusal::Standing);
    }
    None
}

// 7, 9 and 11.
#[tactic(auto, unfolding(crate::specs::Refusals::undo_refusal, base::specs::Iter::pick))]
pub fn undo_refusal(
    plan: &[u8],
    edges: &Edges,
    noted: &Noted,
    log: &[u64],
    cursor: Cursor,
    lit: i32,
) -> Option<Refusal>
    ensures { number_or_0 result ≡ undo_refusal (words_of plan.now) edges.now noted.now log.now cursor lit }
{
    if state_bad(plan, edges, noted, log, cursor) {
        return Some(Refusal::StateBad);
    }
    if unknown_lit(plan, lit) {
        return Some(Refusal::UnknownLit);
    }
    if not_newest(log, cursor.used, lit_number(lit)) {
        return Some(Refusal::NotNewest);
    }
    None
}

// 7 of a fetch, whose reason buffer has `reason_len` entries.
#[tactic(auto, unfolding(crate::specs::Refusals::fetch_refusal, base::specs::Iter::pick))]
pub fn fetch_refusal(
    plan: &[u8],
    edges: &Edges,
    noted: &Noted,
    reason_len: usize,
    log: &[u64],
    cursor: Cursor,
) -> Option<Refusal>
    ensures { number_or_0 result ≡ fetch_refusal (words_of plan.now) edges.now noted.now reason_len log.now cursor }
{
    if state_bad(plan, edges, noted, log, cursor) || reason_short(plan, reason_len) {
        return Some(Refusal::StateBad);
    }
    None
}
