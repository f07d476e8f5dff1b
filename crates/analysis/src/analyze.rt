// `analyze`: the regions, their weights and bounds, then the five steps in document 01's order, up to a verdict.
ghost use Rattle.std.specs.Prelude.{◌≡◌, [], ◌≤◌};
ghost use Rattle.plan.specs.Words.{words_of, vertices_of};
ghost use Rattle.division.specs.Analysis.{step1, step2, step3, step5};
ghost use Rattle.reasons.specs.Verdicts.{begun, ran, ran_of};
ghost use Rattle.analysis.specs.Placed.{words, on};
ghost use Rattle.analysis.specs.First.{step4_first, analyzed_first};
ghost use Rattle.analysis.specs.Analyze.{Fit, analyze_words};

use crate::step1::{connect_inside, disconnect_matched};
use crate::step2::{check_crossed, check_overfull, disconnect_too_large, raise_lower_bounds};
use crate::step3::{check_crowded, cut_upper_bounds};
use crate::step4::{check_meets, disconnect_parted, spread_bounds};
use crate::step5::disconnect_same_size;
use edge_table::Edges;
use noting::Noted;
use reasons::{Stop, Verdict};
use views::View;

fn step1(plan: &[u8], edges: Edges, noted: &Noted, view: &View, proposals: &mut [u64]) -> Verdict
    requires { Fit (words_of plan.now) edges noted.now }
    ensures { ran result proposals.new ≡ ran_of (on step1 (words (words_of plan.now) edges noted.now view.now)) proposals.old }
{
    if plan::allow_extra_walls(plan) {
        return Ok(());
    }
    connect_inside(plan, &edges, noted, view, proposals)?;
    disconnect_matched(plan, &edges, noted, view, proposals);
    Ok(())
}

fn step2(
    plan: &[u8],
    edges: Edges,
    noted: &Noted,
    crossed: usize,
    view: &View,
    proposals: &mut [u64],
) -> Verdict
    requires { Fit (words_of plan.now) edges noted.now }
    ensures { ran result proposals.new
        ≡ ran_of (on step2 (words (words_of plan.now) edges noted.now view.now) crossed begun)
        proposals.old }
{
    check_crossed(plan, crossed)?;
    check_overfull(noted, view, plan::num_vertices(plan) as usize)?;
    raise_lower_bounds(plan, noted, view, proposals);
    disconnect_too_large(plan, &edges, noted, view, proposals);
    Ok(())
}

fn step3(plan: &[u8], noted: &Noted, view: &View, proposals: &mut [u64]) -> Verdict
    requires { vertices_of (words_of plan.now) ≤ 64 }
    ensures { ran result proposals.new ≡ ran_of (on step3 (words (words_of plan.now) [] noted.now view.now) begun) proposals.old }
{
    cut_upper_bounds(plan, noted, view, proposals)?;
    check_crowded(plan, noted, view)
}

fn step4(plan: &[u8], edges: Edges, noted: &Noted, view: &View, proposals: &mut [u64]) -> Verdict
    requires { Fit (words_of plan.now) edges noted.now }
    ensures { ran result proposals.new ≡ ran_of (on step4_first (words (words_of plan.now) edges noted.now view.now) begun) proposals.old }
{
    check_meets(plan, edges, noted, view)?;
    disconnect_parted(plan, &edges, noted, view, proposals);
    spread_bounds(plan, noted, view, proposals);
    Ok(())
}

fn step5(plan: &[u8], edges: Edges, noted: &Noted, view: &View, proposals: &mut [u64]) -> Verdict
    requires { Fit (words_of plan.now) edges noted.now }
    ensures { ran result proposals.new ≡ ran_of (on step5 (words (words_of plan.now) edges noted.now view.now) begun) proposals.old }
{
    if plan::disallow_adjacent_same_size_regions(plan) {
        return disconnect_same_size(plan, &edges, noted, view, proposals);
    }
    Ok(())
}

fn steps(
    plan: &[u8],
    edges: Edges,
    noted: &Noted,
    crossed: usize,
    view: &View,
    proposals: &mut [u64],
) -> Verdict
    requires { Fit (words_of plan.now) edges noted.now }
    ensures { ran result proposals.new
        ≡ ran_of (on analyzed_first (words (words_of plan.now) edges noted.now view.now) crossed)
        proposals.old }
{
    step1(plan, edges, noted, view, proposals)?;
    step2(plan, edges, noted, crossed, view, proposals)?;
    step3(plan, noted, view, proposals)?;
    step4(plan, edges, noted, view, proposals)?;
    step5(plan, edges, noted, view, proposals)
}

// Analyzes what is noted: the verdict, and the proposals' words, newest reasons over what was there. Where the words are no
// plan's, Unfit, and nothing is stored. Which vertex's bounds cross, if any, is what applying a literal told.
pub fn analyze(
    plan: &[u8],
    edges: Edges,
    noted: &Noted,
    crossed: usize,
    proposals: &mut [u64],
) -> Verdict
    ensures { ran result proposals.new
        ≡ analyze_words (words_of plan.now) edges noted.now crossed proposals.old }
{
    let mut view = [0u32; 512];
    if views::compute::compute_view(plan, edges, noted, &mut view) {
        return steps(plan, edges, noted, crossed, &view, proposals);
    }
    Err(Stop::Unfit)
}
