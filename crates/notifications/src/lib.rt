// The notifications of `initialize` and its last pass, over lent arrays: all is tried out here, and `initialize` takes it over or
// drops it. specs/Notifications.antt says what each function does.
#![tactic(auto)]

pub mod merge;

ghost use Rattle.std.specs.Prelude.{◌≡◌, ◌<◌};
ghost use Rattle.noting.specs.Words.{crossed_in};
ghost use Rattle.judge.specs.declared.Judgement.TheVariants.{Fine};
ghost use Rattle.notifications.specs.Notifications.{lit_at, tried_out, way, ending, is_fine, is_due, joined, notified, notified_at, notified_all, once_more, last_pass, progress, gone_through};
ghost use Rattle.plan.specs.Words.{words_of};

use crate::merge::merge;
use edge_table::Edges;
use judge::Judgement;
use noting::Noted;
use sat::Lit;
use undo_log::Cursor;

// How far the notifications have come.
#[derive(Clone, Copy)]
pub struct Progress {
    pub judgement: Judgement,
    // The length of the list of the literals handed on.
    pub handed: usize,
    // The length of the list last left.
    pub len: usize,
    // The place past the literal notified last.
    pub past: usize,
}

// The literal at place p; a literal has 16 bits.
#[tactic(auto, unfolding(crate::specs::Notifications::lit_at))]
pub fn lit_at(plan: &[u8], p: usize) -> u16
    ensures { result ≡ lit_at (words_of plan.now) p }
{
    (plan::unique_lit(plan, p) % 65536) as u16
}

// The words noted with literal `lit`, tried out with no log, and the lowest vertex whose bounds then cross.
pub fn try_out(plan: &[u8], noted: &mut Noted, lit: u16) -> usize
    ensures { (noted.new ≡ tried_out (words_of plan.now) lit noted.old)
        × (result ≡ crossed_in (words_of plan.now) noted.new) }
{
    let mut none = [0u64; 1];
    let start = Cursor {
        used: 0,
        standing: 0,
    };
    let told = noting::note::note(plan, noted, &mut none, start, lit);
    told.crossed
}

// What is noted is analyzed and judged; an analysis that is not refused is kept, and a fine one handed on.
fn join(
    plan: &[u8],
    edges: Edges,
    noted: &Noted,
    crossed: usize,
    table: &mut [u8],
    list: &mut [u32],
    words: &mut [u64],
    proposals: &mut [u64],
    left: &mut [u32],
    x: Progress,
    past: usize,
) -> Progress
    requires { crossed ≡ crossed_in (words_of plan.now) noted.now }
    ensures { way result noted.now table.new list.new words.new proposals.new left.new ≡ joined (words_of plan.now) edges past (way x noted.now table.old list.old words.old proposals.old left.old) }
{
    let handed = x.handed;
    let found = judge::judge(plan, edges, noted, crossed, table, proposals, left);
    match found {
        Judgement::Fine => {
            merge(plan, proposals, words);
            let at = sweep::hand_on(plan, proposals, table, list, handed);
            Progress {
                judgement: Judgement::Fine,
                handed: at,
                len: 0,
                past,
            }
        }
        Judgement::Clash { len } => {
            merge(plan, proposals, words);
            Progress {
                judgement: Judgement::Clash { len },
                handed,
                len,
                past,
            }
        }
        Judgement::Stopped { refusal } => Progress {
            judgement: Judgement::Stopped { refusal },
            ..x
        },
    }
}

// The literal at place p is notified, unless its variable stood on entry: refusal 10.
fn notify(
    plan: &[u8],
    edges: Edges,
    log: &[u64],
    used: usize,
    noted: &mut Noted,
    table: &mut [u8],
    list: &mut [u32],
    words: &mut [u64],
    proposals: &mut [u64],
    left: &mut [u32],
    x: Progress,
    p: usize,
) -> Progress
    requires { p < 8589934592 }
    ensures { way result noted.new table.new list.new words.new proposals.new left.new ≡ notified (words_of plan.now) edges log.now used p (way x noted.old table.old list.old words.old proposals.old left.old) }
{
    let lit = lit_at(plan, p);
    let variable = Lit(lit).var();
    if noting::stands::variable_stands(log, used, variable.0) {
        return Progress {
            judgement: Judgement::Stopped { refusal: 10 },
            ..x
        };
    }
    let crossed = try_out(plan, noted, lit);
    join(
        plan,
        edges,
        noted,
        crossed,
        table,
        list,
        words,
        proposals,
        left,
        x,
        p + 1,
    )
}

fn is_fine(j: Judgement) -> bool
    ensures { result ≡ is_fine j }
{
    matches!(j, Judgement::Fine)
}

// Whether it is the turn of the literal at place p: `entry` is the table on entry.
#[tactic(auto, unfolding(crate::specs::Notifications::is_due))]
fn is_due(plan: &[u8], entry: &[u8], j: Judgement, p: usize) -> bool
    ensures { result ≡ is_due (words_of plan.now) entry.now j p }
{
    is_fine(j) && sweep::table::is_true(entry, plan::unique_lit(plan, p))
}

// The literal at place p is notified where it is true in the table on entry, unless there was a conflict or a refusal.
#[tactic(auto, unfolding(crate::specs::Notifications::notified_at, base::specs::Iter::pick))]
fn notify_at(
    plan: &[u8],
    edges: Edges,
    entry: &[u8],
    log: &[u64],
    used: usize,
    noted: &mut Noted,
    table: &mut [u8],
    list: &mut [u32],
    words: &mut [u64],
    proposals: &mut [u64],
    left: &mut [u32],
    x: Progress,
    p: usize,
) -> Progress
    requires { p < 8589934592 }
    ensures { way result noted.new table.new list.new words.new proposals.new left.new ≡ notified_at (words_of plan.now) edges entry.now log.now used p (way x noted.old table.old list.old words.old proposals.old left.old) }
{
    if is_due(plan, entry, x.judgement, p) {
        return notify(
            plan, edges, log, used, noted, table, list, words, proposals, left, x, p,
        );
    }
    x
}

// In rising order the plan's literals that are true in the table on entry.
fn notify_all(
    plan: &[u8],
    edges: Edges,
    entry: &[u8],
    log: &[u64],
    used: usize,
    noted: &mut Noted,
    table: &mut [u8],
    list: &mut [u32],
    words: &mut [u64],
    proposals: &mut [u64],
    left: &mut [u32],
    x: Progress,
) -> Progress
    ensures { way result noted.new table.new list.new words.new proposals.new left.new ≡ notified_all (words_of plan.now) edges entry.now log.now used (way x noted.old table.old list.old words.old proposals.old left.old) }
{
    let n = 2 * (plan::num_variables(plan) as usize);
    let mut y = x;
    for p in 0..n {
        y = notify_at(
            plan, edges, entry, log, used, noted, table, list, words, proposals, left, y, p,
        );
    }
    y
}

// The last pass: what it proposes is kept, neither tested against the table nor handed on.
fn analyze_once_more(
    plan: &[u8],
    edges: Edges,
    noted: &Noted,
    words: &mut [u64],
    proposals: &mut [u64],
    left: &mut [u32],
    x: Progress,
) -> Progress
    ensures { ending result words.new proposals.new left.new ≡ once_more (words_of plan.now) edges noted.now x words.old proposals.old left.old }
{
    let unset = [0u8; 1];
    let crossed = noting::note::crossed(plan, noted);
    let found = judge::judge(plan, edges, noted, crossed, &unset, proposals, left);
    match found {
        Judgement::Fine => {
            merge(plan, proposals, words);
            x
        }
        Judgement::Clash { len } => {
            merge(plan, proposals, words);
            Progress {
                judgement: Judgement::Clash { len },
                len,
                ..x
            }
        }
        Judgement::Stopped { refusal } => Progress {
            judgement: Judgement::Stopped { refusal },
            ..x
        },
    }
}

// The last pass, unless there was a conflict or a refusal before it.
#[tactic(auto, unfolding(crate::specs::Notifications::last_pass, base::specs::Iter::pick))]
fn last_pass(
    plan: &[u8],
    edges: Edges,
    noted: &Noted,
    words: &mut [u64],
    proposals: &mut [u64],
    left: &mut [u32],
    x: Progress,
) -> Progress
    ensures { ending result words.new proposals.new left.new ≡ last_pass (words_of plan.now) edges noted.now x words.old proposals.old left.old }
{
    if is_fine(x.judgement) {
        return analyze_once_more(plan, edges, noted, words, proposals, left, x);
    }
    x
}

// All notifications and the last pass, where the list last left has `len` entries.
pub fn go_through(
    plan: &[u8],
    edges: Edges,
    entry: &[u8],
    log: &[u64],
    used: usize,
    noted: &mut Noted,
    table: &mut [u8],
    list: &mut [u32],
    words: &mut [u64],
    proposals: &mut [u64],
    left: &mut [u32],
    len: usize,
) -> Progress
    ensures { way result noted.new table.new list.new words.new proposals.new left.new ≡ gone_through (words_of plan.now) edges entry.now log.now used (way (progress Fine 0 len 0) noted.old table.old list.old words.old proposals.old left.old) }
{
    let start = Progress {
        judgement: Judgement::Fine,
        handed: 0,
        len,
        past: 0,
    };
    let x = notify_all(
        plan, edges, entry, log, used, noted, table, list, words, proposals, left, start,
    );
    last_pass(plan, edges, noted, words, proposals, left, x)
}
