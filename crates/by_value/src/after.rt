// The state put together again.
ghost use Rattle.std.specs.Prelude.{◌≡◌};
ghost use Rattle.lent.specs.Lent.{state_after};

use crate::lending::plan_bytes;
use graph_division::GraphDivision;
use lent::Done;
use lists::ReasonList;
use noting::Noted;

// The state after a call on its parts.
pub(crate) fn state_after(
    s: GraphDivision,
    noted: Noted,
    proposals: &[u64],
    left: ReasonList,
    done: Done,
) -> GraphDivision
    ensures { result ≡ state_after s noted proposals.now left done }
{
    if done.judged {
        return GraphDivision {
            noted,
            reasons: recorded::record(&plan_bytes(s).bytes, proposals, s.reasons),
            last: left,
            last_len: done.len,
            ..s
        };
    }
    GraphDivision { noted, ..s }
}
