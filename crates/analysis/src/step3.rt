// Step 3. Document 01: "Lower bound over the potential region's weight: conflict. Upper bounds cut. Pens in order of upper
// bound, then falling lower bound (its negation rising), then number: lower bounds of pairwise separate ranges, added, must not
// pass the potential weight."
ghost use Rattle.std.specs.Prelude.{◌≡◌, [], ◌≤◌};
ghost use Rattle.base.specs.Iter.{iter};
ghost use Rattle.plan.specs.Words.{words_of, vertices_of};
ghost use Rattle.division.specs.Analysis.{cuts, crowds, guarded};
ghost use Rattle.reasons.specs.Verdicts.{Going, begun, ran, ran_of};
ghost use Rattle.views.specs.Cells.{lower_bound_sum};
ghost use Rattle.analysis.specs.Placed.{words, on, Finds};

use crate::{lit_at_least, potential_weight};
use noting::{Noted, lower_bound, upper_bound};
use reasons::{Stop, Verdict, packed, put};
use sat::negation;
use views::View;
use views::cells::{lower_bound_sums, required_weight, separate_ranges};

// Vertex v: no more than what can be joined to it.
fn cuts(plan: &[u8], noted: &Noted, view: &View, v: usize, proposals: &mut [u64]) -> Verdict
    ensures { ran result proposals.new ≡ ran_of (on cuts (words (words_of plan.now) [] noted.now view.now) v begun) proposals.old }
{
    if plan::domain_len(plan, v) == 0 {
        return Ok(());
    }
    let weight = potential_weight(view, v);
    if weight < lower_bound(noted, v) {
        return Err(Stop::Under { vertex_idx: v });
    }
    if weight < upper_bound(noted, v) {
        let lit = lit_at_least(plan, v, weight as u64 + 1);
        put(proposals, negation(lit), packed(5, v, 0, 0, 0), 0);
    }
    Ok(())
}

// Every vertex in order, up to a conflict.
pub(crate) fn cut_upper_bounds(
    plan: &[u8],
    noted: &Noted,
    view: &View,
    proposals: &mut [u64],
) -> Verdict
    ensures { ran result proposals.new ≡ ran_of (iter (guarded (on cuts (words (words_of plan.now) [] noted.now view.now))) (vertices_of (words_of plan.now)) begun) proposals.old }
{
    let n = plan::num_vertices(plan) as usize;
    for v in 0..n {
        cuts(plan, noted, view, v, proposals)?;
    }
    Ok(())
}

// The potential region with label r: its separate ranges need more than it weighs. Its vertices are put in order only
// where all their lower bounds, added, are more than that.
fn crowds(plan: &[u8], noted: &Noted, view: &View, r: usize, sum: u64) -> Verdict
    requires { (vertices_of (words_of plan.now) ≤ 64) × (sum ≡ lower_bound_sum noted.now view.now (vertices_of (words_of plan.now)) r) }
    ensures { Finds result (on crowds (words (words_of plan.now) [] noted.now view.now) r begun) }
{
    let weight = u64::from(views::potential_region_weight(view, r));
    if sum <= weight {
        return Ok(());
    }
    if views::potential_region(view, r) as usize == r {
        let mut chosen = [0u8; 64];
        let count = separate_ranges(plan, noted, view, r, &mut chosen);
        if weight < required_weight(noted, &chosen, count) {
            return Err(Stop::Crowded { region: r });
        }
    }
    Ok(())
}

// Every potential region in order, up to a conflict.
pub(crate) fn check_crowded(plan: &[u8], noted: &Noted, view: &View) -> Verdict
    requires { vertices_of (words_of plan.now) ≤ 64 }
    ensures { Finds result (iter (guarded (on crowds (words (words_of plan.now) [] noted.now view.now))) (vertices_of (words_of plan.now)) begun) }
{
    let n = plan::num_vertices(plan) as usize;
    let sums = lower_bound_sums(noted, view, n);
    for r in 0..n {
        crowds(plan, noted, view, r, sums[r])?;
    }
    Ok(())
}
