// What an analysis computes first: the regions of a state, their weights and their bounds, as words. specs/Words.antt says
// which word is which; every function answers 0 past its limit.
#![tactic(auto)]

pub mod cells;
pub mod compute;
pub mod members;

ghost use Rattle.std.specs.Prelude.{◌≡◌, ◌+◌, ◌≤◌};
ghost use Rattle.plan.specs.Words.{entry};
ghost use Rattle.views.specs.Words.{decided_region_of, potential_region_of, decided_weight_of, potential_weight_of, upper_bound_of, upper_bound_at, lower_bound_of, lower_bound_at};

pub const VIEW_WORDS: usize = 512;

pub type View = [u32; VIEW_WORDS];

#[tactic(auto, unfolding(plan::specs::Words::entry, base::specs::Iter::pick))]
fn entry(view: &View, from: usize, i: usize) -> u32
    requires { from + 64 ≤ 512 }
    ensures { result ≡ entry from 64 view.now i }
{
    if i < 64 { view[from + i] } else { 0 }
}

// The label of v's region, its lowest vertex.
pub fn decided_region(view: &View, v: usize) -> u32
    ensures { result ≡ decided_region_of view.now v }
{
    entry(view, 0, v)
}

// The same for the potential region.
pub fn potential_region(view: &View, v: usize) -> u32
    ensures { result ≡ potential_region_of view.now v }
{
    entry(view, 64, v)
}

pub fn decided_region_weight(view: &View, region: usize) -> u32
    ensures { result ≡ decided_weight_of view.now region }
{
    entry(view, 128, region)
}

pub fn potential_region_weight(view: &View, region: usize) -> u32
    ensures { result ≡ potential_weight_of view.now region }
{
    entry(view, 192, region)
}

// The least upper bound of a decided region, 2147483647 where there is none.
pub fn region_upper_bound(view: &View, region: usize) -> u32
    ensures { result ≡ upper_bound_of view.now region }
{
    entry(view, 256, region)
}

// The lowest vertex that has it.
pub fn region_upper_bound_idx(view: &View, region: usize) -> u32
    ensures { result ≡ upper_bound_at view.now region }
{
    entry(view, 320, region)
}

// The greatest lower bound of a decided region.
pub fn region_lower_bound(view: &View, region: usize) -> u32
    ensures { result ≡ lower_bound_of view.now region }
{
    entry(view, 384, region)
}

// The lowest vertex that has it, 0 where no lower bound is over 0.
pub fn region_lower_bound_idx(view: &View, region: usize) -> u32
    ensures { result ≡ lower_bound_at view.now region }
{
    entry(view, 448, region)
}
