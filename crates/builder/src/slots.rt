// The slots of a plan that is being built, which is still an array of words.
ghost use Rattle.std.specs.Prelude.{◌≡◌};
ghost use Rattle.plan.specs.Words.{vertices_of, edges_of, domain_len_of, lit_of};
ghost use Rattle.plan.specs.Check.{used_slot};

use plan::Plan;

fn num_vertices(plan: &Plan) -> u32
    ensures { result ≡ vertices_of plan.now }
{
    plan[0]
}

fn num_edges(plan: &Plan) -> u32
    ensures { result ≡ edges_of plan.now }
{
    plan[1]
}

#[tactic(auto, unfolding(plan::specs::Words::entry, base::specs::Iter::pick))]
fn domain_len(plan: &Plan, v: usize) -> u32
    ensures { result ≡ domain_len_of plan.now v }
{
    if v < 64 { plan[72 + v] } else { 0 }
}

#[tactic(auto, unfolding(plan::specs::Words::entry, base::specs::Iter::pick))]
pub(crate) fn lit(plan: &Plan, s: usize) -> u32
    ensures { result ≡ lit_of plan.now s }
{
    if s < 2176 { plan[2184 + s] } else { 0 }
}

// Whether a slot holds a literal.
#[tactic(auto, unfolding(plan::specs::Check::used_slot, base::specs::Iter::pick))]
pub(crate) fn used_slot(plan: &Plan, s: usize) -> bool
    ensures { result ≡ used_slot plan.now s }
{
    if s < 2048 {
        let v = s / 32;
        return v < num_vertices(plan) as usize && s % 32 + 1 < domain_len(plan, v) as usize;
    }
    s - 2048 < num_edges(plan) as usize
}
