// The last part of refusal 7: the log's literals are noted afresh, oldest first, into working words, and each record that
// noting would push is compared with the one in the log. Linear in the log and in the standing literals' occurrences.
ghost use Rattle.std.specs.Prelude.{◌≡◌, true, not, ◌||◌, ℕ, ◌+◌, ◌-◌, ◌/◌, ◌≤◌, ◌<◌, eqb, length, get_or};
ghost use Rattle.base.specs.Iter.{iter, pick};
ghost use Rattle.base.specs.Lists.{some};
ghost use Rattle.plan.specs.Words.{words_of, vertices_of, edges_of, occurrence_at};
ghost use Rattle.noting.specs.Note.{place_in, known};
ghost use Rattle.noting.specs.Undo.{records_of};
ghost use Rattle.noting.specs.Standing.{standing};
ghost use Rattle.noting.specs.Replay.{place, holds_at, followed, follow_slot, follow_at, replayed, marked, set_mark, replay_level, noted_differs, afresh, log_bad};
ghost use Rattle.noting.specs.Following.{follow_effect, Replays, word_differs, marks_of};

use crate::note::{
    Effect, apply, edge_effect, is_variable, num_occurrences, place_from_first, search, undo_record,
};
use crate::{Noted, capped, fresh_bounds, lower_bound, upper_bound};
use undo_log::{Cursor, LOWER_BOUND, Record, UPPER_BOUND};

// A bit for each distinct variable, 1 where it has stood.
const MARK_WORDS: usize = 34;

type Marks = [u64; MARK_WORDS];

// Whether the log is as noting gives it, and how far it was read.
#[derive(Clone, Copy)]
pub struct Place {
    pub ok: bool,
    pub at: usize,
}

#[tactic(auto, unfolding(crate::specs::Replay::holds_at))]
fn holds_at(log: &[u64], used: usize, at: usize, r: Record) -> bool
    requires { used ≤ length log.now }
    ensures { result ≡ holds_at log.now used at r }
{
    at < used && log[at] == undo_log::word_of(r)
}

// The record that an effect leaves is to stand there.
fn follow_effect(
    noted: &mut Noted,
    log: &[u64],
    used: usize,
    e: Effect,
    lit: u16,
    at: usize,
) -> Place
    requires { used ≤ length log.now }
    ensures { followed noted.new result ≡ follow_effect log.now used lit e (followed noted.old (place true at)) }
{
    let r = undo_record(noted, e);
    if !holds_at(log, used, at, r) {
        return Place { ok: false, at };
    }
    apply(noted, e, lit);
    Place {
        ok: true,
        at: at + 1,
    }
}

// Each effect is made where it is followed, so that its kind is a constant there.
fn follow_size(
    plan: &[u8],
    noted: &mut Noted,
    log: &[u64],
    used: usize,
    lit: u16,
    s: usize,
    at: usize,
) -> Place
    requires { (s < 2048) × (used ≤ length log.now) }
    ensures { followed noted.new result ≡ follow_slot (words_of plan.now) log.now used lit s (followed noted.old (place true at)) }
{
    let v = s / 32;
    if plan::lit(plan, s) == lit as u32 {
        let x = plan::domain(plan, v, s % 32 + 1);
        if lower_bound(noted, v) < x {
            let e = Effect {
                kind: LOWER_BOUND,
                index: v as u8,
                value: x,
            };
            return follow_effect(noted, log, used, e, lit, at);
        }
        return Place { ok: true, at };
    }
    let x = plan::domain(plan, v, s % 32);
    if x < upper_bound(noted, v) {
        let e = Effect {
            kind: UPPER_BOUND,
            index: v as u8,
            value: x,
        };
        return follow_effect(noted, log, used, e, lit, at);
    }
    Place { ok: true, at }
}

fn follow_edge(
    plan: &[u8],
    noted: &mut Noted,
    log: &[u64],
    used: usize,
    lit: u16,
    s: usize,
    at: usize,
) -> Place
    requires { (2048 ≤ s) × (s < 2176) × (used ≤ length log.now) }
    ensures { followed noted.new result ≡ follow_slot (words_of plan.now) log.now used lit s (followed noted.old (place true at)) }
{
    let e = edge_effect(plan::lit(plan, s) == lit as u32, s - 2048);
    follow_effect(noted, log, used, e, lit, at)
}

fn follow_slot(
    plan: &[u8],
    noted: &mut Noted,
    log: &[u64],
    used: usize,
    lit: u16,
    s: usize,
    at: usize,
) -> Place
    requires { used ≤ length log.now }
    ensures { followed noted.new result ≡ follow_slot (words_of plan.now) log.now used lit s (followed noted.old (place true at)) }
{
    if s < 2048 {
        return follow_size(plan, noted, log, used, lit, s, at);
    }
    if s < 2176 {
        return follow_edge(plan, noted, log, used, lit, s, at);
    }
    Place { ok: true, at }
}

// Every occurrence of the literal's variable, which is distinct variable k, until the log is other than noting gives.
fn follow_at(
    plan: &[u8],
    noted: &mut Noted,
    log: &[u64],
    used: usize,
    lit: u16,
    k: usize,
    after: usize,
) -> Place
    requires { (k ≤ 4294967296) × (used ≤ length log.now) }
    ensures { followed noted.new result ≡ follow_at (words_of plan.now) log.now used lit k (followed noted.old (place true after)) }
{
    let n = num_occurrences(plan, k);
    let from = plan::start_at(plan, k) as usize;
    let mut at = after;
    for i in 0..n {
        let s = plan::occurrence_at(plan, from + i) as usize;
        let p = follow_slot(plan, noted, log, used, lit, s, at);
        if !p.ok {
            return p;
        }
        at = p.at;
    }
    Place { ok: true, at }
}

#[tactic(auto, unfolding(crate::specs::Following::mark_in, crate::specs::Replay::marked))]
fn marked(marks: &Marks, k: usize) -> bool
    ensures { result ≡ marked (marks_of marks.now) k }
{
    k >= 2176 || (marks[k / 64] >> (k % 64)) % 2 != 0
}

#[tactic(auto, unfolding(crate::specs::Replay::set_mark, base::specs::Iter::pick))]
fn mark(marks: &mut Marks, k: usize)
    requires { length marks.old ≡ 34 }
    ensures { (marks_of marks.new ≡ set_mark k (marks_of marks.old)) × (length marks.new ≡ 34) }
{
    if k < 2176 {
        marks[k / 64] |= 1u64 << (k % 64);
    }
}

// Variable x's place among the distinct variables; past all marks where it is none of them. The first look, which finds nearly all,
// is made here, where the search is a call.
fn find(plan: &[u8], x: u32) -> usize
    ensures { (result ≡ pick (known (words_of plan.now) x) (place_in (words_of plan.now) x) 2176) × (result ≤ 4294967296) }
{
    let a = place_from_first(plan, x);
    if is_variable(plan, a, x) {
        return a;
    }
    let k = search(plan, x);
    if is_variable(plan, k, x) {
        return k;
    }
    2176
}

// One notification of the log.
fn replay_level(
    plan: &[u8],
    noted: &mut Noted,
    marks: &mut Marks,
    log: &[u64],
    used: usize,
    at: usize,
) -> Place
    requires { (at < used) × (used ≤ length log.now) × (length marks.old ≡ 34) }
    ensures { (replayed (marks_of marks.new) noted.new result ≡ replay_level (words_of plan.now) log.now used (replayed (marks_of marks.old) noted.old (place true at)))
        × (length marks.new ≡ 34) }
{
    let w = log[at];
    let lit = (w / 65536 % 65536) as u16;
    if w != 65536 * u64::from(lit) {
        return Place { ok: false, at };
    }
    let k = find(plan, sat::variable(u32::from(lit)));
    if marked(marks, k) {
        return Place { ok: false, at };
    }
    mark(marks, k);
    follow_at(plan, noted, log, used, lit, k, at + 1)
}

// Whether the log is as noting gives it, and as many notifications stand as it is said. The definition goes on for `used` turns; those
// after the log is read through, or is other, change nothing.
fn replay(
    plan: &[u8],
    noted: &mut Noted,
    marks: &mut Marks,
    log: &[u64],
    used: usize,
    count: usize,
) -> bool
    requires { (used ≤ length log.now) × (length marks.old ≡ 34) }
    ensures { Replays (words_of plan.now) log.now used count (replayed (marks_of marks.old) noted.old (place true 0)) result noted.new }
{
    let mut at = 0;
    let mut levels = 0;
    // A notification has as many records as its literal has effects, so that `at` goes on by more than one.
    while at < used {
        let p = replay_level(plan, noted, marks, log, used, at);
        if !p.ok {
            return false;
        }
        at = p.at;
        levels += 1;
    }
    levels == count
}

// Whether some of the n words from `from` on differ. No way out of the loop, so that it compares several words at once.
fn words_differ(a: &Noted, b: &Noted, from: usize, n: usize) -> bool
    requires { from + n ≤ 384 }
    ensures { result ≡ some (word_differs a.now b.now from) n }
{
    let mut found = false;
    for i in 0..n {
        found |= a[from + i] != b[from + i];
    }
    found
}

fn noted_differs(plan: &[u8], a: &Noted, b: &Noted) -> bool
    ensures { result ≡ noted_differs (words_of plan.now) a.now b.now }
{
    let edges = capped(plan::num_edges(plan), 128);
    let n = capped(plan::num_vertices(plan), 64);
    words_differ(a, b, 0, edges)
        || words_differ(a, b, 128, n)
        || words_differ(a, b, 192, n)
        || words_differ(a, b, 256, n)
        || words_differ(a, b, 320, n)
}

// Whether noting the log's literals afresh gives another log, another number of notifications or other noted words.
fn differs(plan: &[u8], noted: &Noted, log: &[u64], used: usize, count: usize) -> bool
    requires { used ≤ length log.now }
    ensures { result ≡ (not (eqb (length (standing (records_of log.now used))) count) || (not (afresh (words_of plan.now) log.now used).follow.place.ok || noted_differs (words_of plan.now) (afresh (words_of plan.now) log.now used).follow.noted noted.now)) }
{
    let mut work = [0u32; 384];
    let mut marks = [0u64; 34];
    fresh_bounds(plan, &mut work);
    !replay(plan, &mut work, &mut marks, log, used, count) || noted_differs(plan, &work, noted)
}

// The last part of refusal 7.
#[tactic(auto, unfolding(crate::specs::Replay::log_bad))]
pub fn log_bad(plan: &[u8], noted: &Noted, log: &[u64], cursor: Cursor) -> bool
    ensures { result ≡ log_bad (words_of plan.now) noted.now log.now cursor }
{
    log.len() < cursor.used || differs(plan, noted, log, cursor.used, cursor.standing)
}
