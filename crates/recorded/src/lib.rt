// The reasons recorded for the distinct literals: the Rust's `propagation_reasons`, an array of records that hold the enum.
#![tactic(auto)]

ghost use Rattle.std.specs.Prelude.{◌≡◌, ◌*◌, ◌<◌};
ghost use Rattle.plan.specs.Words.{words_of, variables_of};
ghost use Rattle.recorded.specs.Recorded.{no_reasons, reason_at, newest, recorded};

use reasons::reason::Reason;

#[derive(Clone, Copy)]
pub struct Recorded {
    pub reason: Reason,
}

#[derive(Clone, Copy)]
pub struct Reasons {
    pub at: [Recorded; 4352],
}

#[tactic(auto, unfolding(crate::specs::Recorded::no_reasons))]
pub fn no_reasons() -> Reasons
    ensures { result ≡ no_reasons }
{
    Reasons {
        at: [Recorded {
            reason: Reason::NotPropagated,
        }; 4352],
    }
}

// The reason recorded for the literal at place p.
#[tactic(auto, unfolding(crate::specs::Recorded::reason_at, base::specs::Iter::pick))]
pub fn reason_at(reasons: Reasons, p: usize) -> Reason
    ensures { result ≡ reason_at reasons p }
{
    if p < 4352 {
        return reasons.at[p].reason;
    }
    Reason::NotPropagated
}

// What stands at place p after an analysis: its reason where it is proposed, else what stood there.
#[tactic(auto, unfolding(crate::specs::Recorded::newest, base::specs::Iter::pick))]
fn newest(proposals: &[u64], p: usize, old: Recorded) -> Recorded
    requires { p < 4352 }
    ensures { result ≡ newest proposals.now p old }
{
    if sweep::proposed(proposals, p) {
        let first = proposals.get(68 + 2 * p).copied().unwrap_or(0);
        let second = proposals.get(69 + 2 * p).copied().unwrap_or(0);
        return Recorded {
            reason: reasons::reason::reason_of(first, second),
        };
    }
    old
}

// What an analysis has proposed is recorded.
pub fn record(plan: &[u8], proposals: &[u64], reasons: Reasons) -> Reasons
    ensures { result ≡ recorded (words_of plan.now) proposals.now reasons }
{
    let n = (2 * plan::num_variables(plan) as usize).min(4352);
    let mut t = reasons;
    let mut p = sweep::next_proposed(proposals, 0, n);
    // No `for`: each turn goes on at the next place that is proposed.
    while p < n {
        t.at[p] = newest(proposals, p, t.at[p]);
        p = sweep::next_proposed(proposals, p + 1, n);
    }
    t
}
