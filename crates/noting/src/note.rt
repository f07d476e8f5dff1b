// The Rust's `notify`: a literal is noted in the noted words and in the undo log.
ghost use Rattle.std.specs.Prelude.{◌≡◌, ◌&&◌, ℕ, ◌+◌, ◌-◌, ◌≤◌, ◌<◌, ltb, eqb};
ghost use Rattle.base.specs.Iter.{iter};
ghost use Rattle.division.specs.Regions.{lowest};
ghost use Rattle.undo_log.specs.Log.{push_words};
ghost use Rattle.plan.specs.Words.{words_of, variables_of, variable_at, start_at, occurrence_at};
ghost use Rattle.noting.specs.Words.{crosses, crossed_in};
ghost use Rattle.noting.specs.Note.{effect, size_effect, edge_effect, effect_of, undo_record, bound_set, edge_set, applied, noting, pushed_to, note_slot, boundary, one_more, level_pushed, halved, searched_in, place_from_first, place_from_last, is_at, place_in, known, note_at, note};

use crate::{
    CONNECTED, DISCONNECTED, NO_BOUND_LIT, Noted, capped, lower_bound, lower_bound_lit,
    upper_bound, upper_bound_lit,
};
use undo_log::{Cursor, EDGE, LEVEL_BOUNDARY, LOWER_BOUND, Record, UPPER_BOUND};

// An effect's kind where a literal says nothing new.
pub const NOTHING: u8 = 0;

// What a literal says of one vertex or edge: `LiteralInfo` of the Rust. The kinds are the undo log's EDGE, LOWER_BOUND and
// UPPER_BOUND, or NOTHING; an edge's value is its state.
#[derive(Clone, Copy)]
pub struct Effect {
    pub kind: u8,
    pub index: u8,
    pub value: u32,
}

const NO_EFFECT: Effect = Effect {
    kind: NOTHING,
    index: 0,
    value: 0,
};

// A part of the distinct variables.
#[derive(Clone, Copy)]
pub struct Span {
    pub low: usize,
    pub high: usize,
}

#[tactic(auto, unfolding(crate::specs::Note::size_effect, base::specs::Iter::pick))]
fn size_effect(plan: &[u8], noted: &Noted, holds: bool, v: usize, j: usize) -> Effect
    requires { (v < 64) × (j < 32) }
    ensures { result ≡ size_effect (words_of plan.now) noted.now holds v j }
{
    if holds {
        let x = plan::domain(plan, v, j + 1);
        if lower_bound(noted, v) < x {
            return Effect {
                kind: LOWER_BOUND,
                index: v as u8,
                value: x,
            };
        }
        return NO_EFFECT;
    }
    let x = plan::domain(plan, v, j);
    if x < upper_bound(noted, v) {
        return Effect {
            kind: UPPER_BOUND,
            index: v as u8,
            value: x,
        };
    }
    NO_EFFECT
}

#[tactic(auto, unfolding(crate::specs::Note::edge_effect, base::specs::Iter::pick))]
pub(crate) fn edge_effect(holds: bool, g: usize) -> Effect
    requires { g < 128 }
    ensures { result ≡ edge_effect holds g }
{
    Effect {
        kind: EDGE,
        index: g as u8,
        value: if holds { DISCONNECTED } else { CONNECTED },
    }
}

#[tactic(auto, unfolding(crate::specs::Note::effect_of, base::specs::Iter::pick))]
fn effect_of(plan: &[u8], noted: &Noted, lit: u16, s: usize) -> Effect
    ensures { result ≡ effect_of (words_of plan.now) noted.now lit s }
{
    let holds = plan::lit(plan, s) == u32::from(lit);
    if s < 2048 {
        return size_effect(plan, noted, holds, s / 32, s % 32);
    }
    if s < 2176 {
        return edge_effect(holds, s - 2048);
    }
    NO_EFFECT
}

#[tactic(auto, unfolding(crate::specs::Note::undo_record, base::specs::Iter::pick))]
pub(crate) fn undo_record(noted: &Noted, e: Effect) -> Record
    ensures { result ≡ undo_record noted.now e }
{
    let v = e.index as usize;
    let (bound, lit) = match e.kind {
        LOWER_BOUND => (lower_bound(noted, v), lower_bound_lit(noted, v)),
        UPPER_BOUND => (upper_bound(noted, v), upper_bound_lit(noted, v)),
        _ => (0, NO_BOUND_LIT),
    };
    Record {
        kind: e.kind,
        index: e.index,
        bound,
        lit: (lit % 65536) as u16,
    }
}

#[tactic(auto, unfolding(crate::specs::Note::bound_set, base::specs::Iter::pick))]
fn set_bound(noted: &mut Noted, from: usize, v: usize, x: u32, lit: u16)
    requires { from ≤ 192 }
    ensures { noted.new ≡ bound_set from v x lit noted.old }
{
    if v < 64 {
        noted[from + v] = x;
        noted[from + 128 + v] = lit as u32;
    }
}

#[tactic(auto, unfolding(crate::specs::Note::edge_set, base::specs::Iter::pick))]
fn set_edge(noted: &mut Noted, g: usize, x: u32)
    ensures { noted.new ≡ edge_set g x noted.old }
{
    if g < 128 {
        noted[g] = x;
    }
}

// An effect that is due to a literal; undoing one is an effect too.
#[tactic(auto, unfolding(crate::specs::Note::applied, base::specs::Iter::pick))]
pub fn apply(noted: &mut Noted, e: Effect, lit: u16)
    ensures { noted.new ≡ applied e lit noted.old }
{
    let i = e.index as usize;
    match e.kind {
        EDGE => set_edge(noted, i, e.value),
        LOWER_BOUND => set_bound(noted, 128, i, e.value, lit),
        UPPER_BOUND => set_bound(noted, 192, i, e.value, lit),
        _ => {}
    }
}

// The cursor after the record; in a full log it stays.
fn push(log: &mut [u64], cursor: Cursor, r: Record) -> Cursor
    ensures { (result ≡ pushed_to log.old cursor) × (log.new ≡ push_words log.old cursor r) }
{
    undo_log::push(log, cursor, r).unwrap_or(cursor)
}

// One slot of the literal's variable is noted.
fn note_slot(
    plan: &[u8],
    noted: &mut Noted,
    log: &mut [u64],
    cursor: Cursor,
    lit: u16,
    s: usize,
) -> Cursor
    ensures { noting noted.new log.new result ≡ note_slot (words_of plan.now) lit s (noting noted.old log.old cursor) }
{
    let e = effect_of(plan, noted, lit, s);
    if e.kind == NOTHING {
        return cursor;
    }
    let r = undo_record(noted, e);
    let c = push(log, cursor, r);
    apply(noted, e, lit);
    c
}

fn note_occurrences(
    plan: &[u8],
    noted: &mut Noted,
    log: &mut [u64],
    cursor: Cursor,
    lit: u16,
    from: usize,
    n: usize,
) -> Cursor
    requires { from + n ≤ 8589934592 }
    ensures { noting noted.new log.new result ≡ iter (λ i y. note_slot (words_of plan.now) lit (occurrence_at (words_of plan.now) (from + i)) y) n (noting noted.old log.old cursor) }
{
    let mut cur = cursor;
    for i in 0..n {
        let s = plan::occurrence_at(plan, from + i) as usize;
        cur = note_slot(plan, noted, log, cur, lit, s);
    }
    cur
}

// A notification's first record, with its literal.
fn push_level(log: &mut [u64], cursor: Cursor, lit: u16) -> Cursor
    ensures { (result ≡ one_more log.old (pushed_to log.old cursor)) × (log.new ≡ push_words log.old cursor (boundary lit)) }
{
    let r = Record {
        kind: LEVEL_BOUNDARY,
        index: 0,
        bound: 0,
        lit,
    };
    let c = push(log, cursor, r);
    if c.standing < log.len() {
        return Cursor {
            standing: c.standing + 1,
            ..c
        };
    }
    c
}

// One halving of a part of the distinct variables.
fn halve(plan: &[u8], x: u32, p: Span) -> Span
    requires { (p.low ≤ 4294967296) × (p.high ≤ 4294967296) }
    ensures { result ≡ halved (words_of plan.now) x 0 p }
{
    if p.low < p.high {
        let mid = p.low + (p.high - p.low) / 2;
        if plan::variable_at(plan, mid) < x {
            return Span { low: mid + 1, ..p };
        }
        return Span { high: mid, ..p };
    }
    p
}

fn halve_all(plan: &[u8], x: u32) -> usize
    ensures { (result ≡ searched_in (words_of plan.now) x) × (result ≤ 4294967296) }
{
    let mut p = Span {
        low: 0,
        high: plan::num_variables(plan) as usize,
    };
    for _ in 0..12u32 {
        p = halve(plan, x, p);
    }
    p.low
}

pub(crate) fn place_from_first(plan: &[u8], x: u32) -> usize
    ensures { (result ≡ place_from_first (words_of plan.now) x) × (result ≤ 4294967296) }
{
    x.saturating_sub(plan::variable_at(plan, 0)) as usize
}

fn place_from_last(plan: &[u8], x: u32) -> usize
    ensures { (result ≡ place_from_last (words_of plan.now) x) × (result ≤ 4294967296) }
{
    let last = plan::num_variables(plan).saturating_sub(1);
    let back = plan::variable_at(plan, last as usize).saturating_sub(x);
    last.saturating_sub(back) as usize
}

// Whether distinct variable k is x.
pub(crate) fn is_variable(plan: &[u8], k: usize, x: u32) -> bool
    ensures { result ≡ is_at (words_of plan.now) k x }
{
    k < plan::num_variables(plan) as usize && plan::variable_at(plan, k) == x
}

// Variable x's place among the distinct variables, if it is one of them: looked up where the variables are a run of numbers or two,
// else searched by halving.
pub(crate) fn search(plan: &[u8], x: u32) -> usize
    ensures { (result ≡ place_in (words_of plan.now) x) × (result ≤ 4294967296) }
{
    let a = place_from_first(plan, x);
    if is_variable(plan, a, x) {
        return a;
    }
    let b = place_from_last(plan, x);
    if is_variable(plan, b, x) {
        return b;
    }
    halve_all(plan, x)
}

pub fn place_in(plan: &[u8], x: u32) -> usize
    ensures { result ≡ place_in (words_of plan.now) x }
{
    search(plan, x)
}

// Whether variable x is one of the plan's: refusal 9 where it is not.
pub fn known(plan: &[u8], x: u32) -> bool
    ensures { result ≡ known (words_of plan.now) x }
{
    is_variable(plan, place_in(plan, x), x)
}

// How many occurrences distinct variable k has.
pub(crate) fn num_occurrences(plan: &[u8], k: usize) -> usize
    requires { k ≤ 4294967296 }
    ensures { (result ≡ start_at (words_of plan.now) (k + 1) - start_at (words_of plan.now) k) × (result < 4294967296) }
{
    plan::start_at(plan, k + 1).saturating_sub(plan::start_at(plan, k)) as usize
}

// Every occurrence of the literal's variable, which is distinct variable k, is noted.
#[tactic(auto, unfolding(crate::specs::Note::note_at))]
fn note_at(
    plan: &[u8],
    noted: &mut Noted,
    log: &mut [u64],
    cursor: Cursor,
    lit: u16,
    k: usize,
) -> Cursor
    requires { k ≤ 4294967296 }
    ensures { noting noted.new log.new result ≡ note_at (words_of plan.now) lit k (noting noted.old log.old cursor) }
{
    let n = num_occurrences(plan, k);
    let from = plan::start_at(plan, k) as usize;
    note_occurrences(plan, noted, log, cursor, lit, from, n)
}

// The literal stands from here on. A literal that the plan does not have changes no edge and no bound.
fn note_level(plan: &[u8], noted: &mut Noted, log: &mut [u64], cursor: Cursor, lit: u16) -> Cursor
    ensures { noting noted.new log.new result ≡ note (words_of plan.now) lit (noting noted.old log.old cursor) }
{
    let c = push_level(log, cursor, lit);
    let x = sat::variable(lit as u32);
    if known(plan, x) {
        let k = search(plan, x);
        return note_at(plan, noted, log, c, lit, k);
    }
    c
}

// Whether the bounds of vertex v cross.
#[tactic(auto, unfolding(crate::specs::Words::crosses))]
fn crosses(noted: &Noted, v: usize) -> bool
    ensures { result ≡ crosses noted.now v }
{
    upper_bound(noted, v) < lower_bound(noted, v)
}

// The lowest vertex whose bounds cross; the number of vertices, 64 at most, where none do.
pub fn crossed(plan: &[u8], noted: &Noted) -> usize
    ensures { result ≡ crossed_in (words_of plan.now) noted.now }
{
    let n = capped(plan::num_vertices(plan), 64);
    for v in 0..n {
        if crosses(noted, v) {
            return v;
        }
    }
    n
}

// What applying a literal tells: the cursor after it, and the lowest vertex whose bounds cross, as `crossed` has it.
#[derive(Clone, Copy)]
pub struct Told {
    pub cursor: Cursor,
    pub crossed: usize,
}

// `notify`.
pub fn note(plan: &[u8], noted: &mut Noted, log: &mut [u64], cursor: Cursor, lit: u16) -> Told
    ensures { (noting noted.new log.new result.cursor
        ≡ note (words_of plan.now) lit (noting noted.old log.old cursor))
        × (result.crossed ≡ crossed_in (words_of plan.now) noted.new) }
{
    let cursor = note_level(plan, noted, log, cursor, lit);
    let crossed = crossed(plan, noted);
    Told { cursor, crossed }
}
