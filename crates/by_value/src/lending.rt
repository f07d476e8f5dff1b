// The state's plan as the calls on lent arrays take it.
ghost use Rattle.std.specs.Prelude.{◌≡◌};
ghost use Rattle.plan.specs.Words.{words_of};

use graph_division::GraphDivision;
use plan::bytes::{PlanBytes, bytes_of};

pub fn plan_bytes(s: GraphDivision) -> PlanBytes
    ensures { words_of result.bytes ≡ s.plan }
{
    bytes_of(&s.plan)
}
