// Which literals stand: read from the log up to the cursor, and never from the state.
ghost use Rattle.std.specs.Prelude.{◌≡◌, ℕ, ◌/◌, ◌≤◌, length};
ghost use Rattle.noting.specs.Undo.{records_of};
ghost use Rattle.noting.specs.Standing.{standing, has_variable, newest, not_newest};

use crate::undo::record_at;
use undo_log::{LEVEL_BOUNDARY, NO_LIT};

// Whether one of the log's first n records starts a notification of variable x. A word's kind and variable are compared as one number,
// and there is no way out of the loop, so that it compares several words at once.
fn variable_in(log: &[u64], n: usize, x: u16) -> bool
    requires { n ≤ length log.now }
    ensures { result ≡ has_variable x (standing (records_of log.now n)) }
{
    let mut found = false;
    for i in 0..n {
        let w = (log[i] % 4294967296) as u32;
        found |= 65536 * (w % 256) + w / 131072 == u32::from(x);
    }
    found
}

// Whether a literal of variable x stands: refusal 10. Past the log's end literal 0 does.
pub fn variable_stands(log: &[u64], used: usize, x: u16) -> bool
    ensures { result ≡ has_variable x (standing (records_of log.now used)) }
{
    let len = log.len();
    if len < used {
        return x == 0 || variable_in(log, len, x);
    }
    variable_in(log, used, x)
}

// The newest standing literal, or undo_log::NO_LIT.
pub fn newest(log: &[u64], used: usize) -> u16
    ensures { result ≡ newest (standing (records_of log.now used)) }
{
    for i in (0..used).rev() {
        let r = record_at(log, i);
        if r.kind == LEVEL_BOUNDARY {
            return r.lit;
        }
    }
    NO_LIT
}

// Whether the literal is not the newest that stands: refusal 11.
#[tactic(auto, unfolding(crate::specs::Standing::not_newest))]
pub fn not_newest(log: &[u64], used: usize, lit: u16) -> bool
    ensures { result ≡ not_newest lit (standing (records_of log.now used)) }
{
    newest(log, used) != lit
}
