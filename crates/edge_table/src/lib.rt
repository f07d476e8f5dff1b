// The edge table as a field: an array of pairs in a struct of its own, made and taken out by two functions.
#![tactic(auto)]

ghost use Rattle.std.specs.Prelude.{◌≡◌};

pub const MOST_EDGES: usize = 128;

// Each edge's two ends, "an array of pairs of pen numbers".
pub type Edges = [[u8; 2]; MOST_EDGES];

#[derive(Clone, Copy)]
pub struct EdgeTable {
    pub ends: Edges,
}

pub fn hold(table: Edges) -> EdgeTable
    ensures { result.ends ≡ table }
{
    EdgeTable { ends: table }
}

pub fn table_of(t: EdgeTable) -> Edges
    ensures { result ≡ t.ends }
{
    t.ends
}
