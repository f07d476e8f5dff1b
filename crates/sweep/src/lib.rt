// What an analysis proposed, against the value table. Bit p of the proposals' first 68 words is set where the literal at
// place p of the plan's distinct literals, which rise, is proposed; words 68 + 2p and 69 + 2p are its reason.
// specs/Sweep.antt says what each function does.
#![tactic(auto)]

pub mod table;

ghost use Rattle.std.specs.Prelude.{◌≡◌, ◌*◌, ◌+◌, ◌/◌, ◌^◌, ◌<◌};
ghost use Rattle.plan.specs.Words.{words_of, unique_lit_at};
ghost use Rattle.std.specs.Int.Count.{count_trailing_zeros};
ghost use Rattle.reasons.specs.Words.{has_bit};
ghost use Rattle.sweep.specs.Sweep.{proposed_at, next_proposed, cleared, false_at, first_false_at};
ghost use Rattle.sweep.specs.Sweep.{handing, handed, handed_at, handed_on};

use walks::push;

// No place is proposed any more.
pub fn clear(proposals: &mut [u64])
    ensures { proposals.new ≡ cleared proposals.old }
{
    let n = proposals.len().min(68);
    proposals[..n].fill(0);
}

#[tactic(auto, unfolding(reasons::specs::Words::has_bit))]
fn has_bit(word: u64, i: usize) -> bool
    requires { i < 64 }
    ensures { result ≡ has_bit word i }
{
    (word >> i) % 2 == 1
}

#[tactic(auto, unfolding(crate::specs::Sweep::proposed_at))]
pub fn proposed(proposals: &[u64], p: usize) -> bool
    ensures { result ≡ proposed_at proposals.now p }
{
    p < 4352 && has_bit(proposals.get(p / 64).copied().unwrap_or(0), p % 64)
}

// The lowest bit that is set, from bit `from` on; 64 or more where there is none.
fn next_bit(word: u64, from: usize) -> usize
    requires { from < 64 }
    ensures { result ≡ from + count_trailing_zeros 64 (word / 2 ^ from) }
{
    from + u64::trailing_zeros(word >> from) as usize
}

// The lowest proposed place from `from` on, or n where there is none below n.
pub fn next_proposed(proposals: &[u64], from: usize, n: usize) -> usize
    ensures { result ≡ next_proposed proposals.now from n }
{
    let end = n.min(64 * proposals.len().min(68));
    let mut p = from;
    // No `for`: a turn is a word, and the first one may begin within its word.
    while p < end {
        let bit = next_bit(proposals[p / 64], p % 64);
        if bit < 64 {
            return (64 * (p / 64) + bit).min(n);
        }
        p += 64 - p % 64;
    }
    n
}

#[tactic(auto, unfolding(crate::specs::Sweep::false_at))]
fn false_at(plan: &[u8], proposals: &[u64], table: &[u8], p: usize) -> bool
    ensures { result ≡ false_at (words_of plan.now) proposals.now table.now p }
{
    proposed(proposals, p) && table::is_false(table, plan::unique_lit(plan, p))
}

// The lowest place that is proposed and whose literal is false, or the place past the last.
pub fn first_false(plan: &[u8], proposals: &[u64], table: &[u8]) -> usize
    ensures { result ≡ first_false_at (words_of plan.now) proposals.now table.now }
{
    let n = 2 * plan::num_variables(plan) as usize;
    let mut p = next_proposed(proposals, 0, n);
    // No `for`: each turn goes on at the next place that is proposed.
    while p < n {
        if false_at(plan, proposals, table, p) {
            return p;
        }
        p = next_proposed(proposals, p + 1, n);
    }
    n
}

#[tactic(auto, unfolding(crate::specs::Sweep::handed, base::specs::Iter::pick))]
fn hand_on_lit(table: &mut [u8], list: &mut [u32], at: usize, lit: u64) -> usize
    ensures { handing table.new list.new result ≡ handed lit (handing table.old list.old at) }
{
    if table::is_unset(table, lit) {
        table::enter(table, lit);
        return push(list, at, (lit % 4294967296) as u32);
    }
    at
}

#[tactic(auto, unfolding(crate::specs::Sweep::handed_at, base::specs::Iter::pick))]
fn hand_on_place(
    plan: &[u8],
    proposals: &[u64],
    table: &mut [u8],
    list: &mut [u32],
    at: usize,
    p: usize,
) -> usize
    ensures { handing table.new list.new result ≡ handed_at (words_of plan.now) proposals.now p (handing table.old list.old at) }
{
    if proposed(proposals, p) {
        return hand_on_lit(table, list, at, plan::unique_lit(plan, p));
    }
    at
}

// Each proposed literal that is unset when its turn comes, in rising order: its entry becomes 3 or 4, and it goes to the list
// from `at` on. The answer is the place past the last.
pub fn hand_on(
    plan: &[u8],
    proposals: &[u64],
    table: &mut [u8],
    list: &mut [u32],
    at: usize,
) -> usize
    ensures { handing table.new list.new result ≡ handed_on (words_of plan.now) proposals.now (handing table.old list.old at) }
{
    let n = 2 * plan::num_variables(plan) as usize;
    let mut p = next_proposed(proposals, 0, n);
    let mut past = at;
    // No `for`: each turn goes on at the next place that is proposed.
    while p < n {
        past = hand_on_place(plan, proposals, table, list, past, p);
        p = next_proposed(proposals, p + 1, n);
    }
    past
}
