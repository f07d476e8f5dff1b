// The plan's own test, which the calls do not make, over the bytes of a state. Nothing is changed.
ghost use Rattle.std.specs.Prelude.{◌≡◌, ◌≤◌, length};
ghost use Rattle.plan.specs.Check.{plan_bad};
ghost use Rattle.byte_calls.specs.Layout.{plan_in, ends_in};
ghost use Rattle.byte_calls.specs.Check.{check_code};

use crate::decode::read_edges;

fn plan_bad(state: &[u8]) -> bool
    requires { 133440 ≤ length state.now }
    ensures { result ≡ plan_bad (plan_in state.now) (ends_in state.now) }
{
    !plan::check::plan_ok(state, &read_edges(state))
}

// 0 where the state's plan is one that a building gives, else -7; a state that is shorter than its layout is -7 too.
pub fn check(state: &[u8]) -> i32
    ensures { result ≡ check_code state.now }
{
    if state.len() < 133440 || plan_bad(state) {
        return -7;
    }
    0
}
