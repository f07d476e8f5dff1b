// Refusal 7's tests of the lent buffers.
ghost use Rattle.std.specs.Prelude.{◌≡◌, ℕ, ◌≤◌, length};
ghost use Rattle.base.specs.Lists.{some};
ghost use Rattle.noting.specs.Buffers.{table_len, code_bad, table_bad, list_short, reason_short, log_short};
ghost use Rattle.plan.specs.Words.{words_of};

// The largest variable and one, 0 with none.
#[tactic(auto, unfolding(crate::specs::Buffers::table_len, base::specs::Iter::pick))]
pub fn table_len(plan: &[u8]) -> usize
    ensures { result ≡ table_len (words_of plan.now) }
{
    let n = plan::num_variables(plan) as usize;
    if 0 < n {
        plan::variable_at(plan, n - 1) as usize + 1
    } else {
        0
    }
}

// Every entry is looked at: with no way out of the loop many are compared at once.
fn some_code_bad(table: &[u8]) -> bool
    ensures { result ≡ some (code_bad table.now) (length table.now) }
{
    let mut bad = false;
    for code in table {
        bad |= 4 < *code;
    }
    bad
}

#[tactic(auto, unfolding(crate::specs::Buffers::table_bad))]
pub fn table_bad(plan: &[u8], table: &[u8]) -> bool
    ensures { result ≡ table_bad (words_of plan.now) table.now }
{
    table.len() < table_len(plan) || some_code_bad(table)
}

#[tactic(auto, unfolding(crate::specs::Buffers::list_short))]
pub fn list_short(plan: &[u8], n: usize) -> bool
    ensures { result ≡ list_short (words_of plan.now) n }
{
    n < 2 * (plan::num_variables(plan) as usize)
}

#[tactic(auto, unfolding(crate::specs::Buffers::reason_short))]
pub fn reason_short(plan: &[u8], n: usize) -> bool
    ensures { result ≡ reason_short (words_of plan.now) n }
{
    n < plan::num_edges(plan) as usize + 2 * (plan::num_vertices(plan) as usize) + 4
}

#[tactic(auto, unfolding(crate::specs::Buffers::log_short))]
pub fn log_short(plan: &[u8], n: usize) -> bool
    ensures { result ≡ log_short (words_of plan.now) n }
{
    n < 2 * (plan::num_slots(plan) as usize)
}
