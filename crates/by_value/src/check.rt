// The plan's own test, which the calls do not make.
ghost use Rattle.std.specs.Prelude.{◌≡◌, not};
ghost use Rattle.plan.specs.Check.{plan_bad};

use crate::lending::plan_bytes;
use graph_division::GraphDivision;

// Whether the state's plan is one that `GraphDivision::new` gives.
pub fn check(s: GraphDivision) -> bool
    ensures { result ≡ not (plan_bad s.plan s.edges.ends) }
{
    let plan = plan_bytes(s);
    let edges = edge_table::table_of(s.edges);
    plan::check::plan_ok(&plan.bytes, &edges)
}
