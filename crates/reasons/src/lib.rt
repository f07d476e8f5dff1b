// What an analysis finds: a verdict, and proposals with their reasons, stored as words. specs/Words.antt says what is where.
#![tactic(auto)]

pub mod reason;

ghost use Rattle.std.specs.Prelude.{◌≡◌, replicate};
ghost use Rattle.reasons.specs.Words.{packed, packed_lits, put};

// A bit for each place of a literal, then two words for each.
pub const PROPOSAL_WORDS: usize = 8772;

pub type Proposals = [u64; PROPOSAL_WORDS];

pub fn no_words() -> Proposals
    ensures { result ≡ replicate 8772 0 }
{
    [0u64; 8772]
}

// Why an analysis stops where it is.
#[derive(Clone, Copy)]
pub enum Stop {
    // A disconnected edge inside a region.
    DisconnectedInside {
        edge_idx: usize,
    },
    // An upper bound below the region's weight.
    Over {
        vertex_idx: usize,
    },
    // A lower bound over the potential region's weight.
    Under {
        vertex_idx: usize,
    },
    // Separate ranges of a potential region that need more than it weighs.
    Crowded {
        region: usize,
    },
    // A lower bound over an upper bound of the same region.
    Apart {
        lower_bound_idx: usize,
        upper_bound_idx: usize,
    },
    // A lower bound over the upper bound of the same vertex.
    Crossing {
        vertex_idx: usize,
    },
    // Refusal 13.
    ZeroSize,
    // The words are no plan's: nothing was analyzed.
    Unfit,
}

// Where an analysis stands.
pub type Verdict = Result<(), Stop>;

#[tactic(auto, unfolding(crate::specs::Words::packed))]
pub fn packed(kind: u8, a: usize, b: usize, c: usize, x: u32) -> u64
    ensures { result ≡ packed kind a b c x }
{
    kind as u64
        + 256 * ((a % 256) as u64)
        + 65536 * ((b % 256) as u64)
        + 16777216 * ((c % 256) as u64)
        + 4294967296 * ((x % 65536) as u64)
}

#[tactic(auto, unfolding(crate::specs::Words::packed_lits))]
pub fn packed_lits(a: u32, b: u32, c: u32, d: u32) -> u64
    ensures { result ≡ packed_lits a b c d }
{
    (a % 65536) as u64
        + 65536 * ((b % 65536) as u64)
        + 4294967296 * ((c % 65536) as u64)
        + 281474976710656 * ((d % 65536) as u64)
}

// The mark and the two words of the literal at place p of the distinct literals. The Rust's `register_propagation` leaves
// out the reason of a literal that is notified already. This stores always: no analysis proposes a literal that stands, or
// whose negation stands (claims specs/Standing).
pub fn put(proposals: &mut [u64], p: u32, first: u64, second: u64)
    ensures { proposals.new ≡ put p first second proposals.old }
{
    let q = p as usize;
    if 69 + 2 * q < proposals.len() && q < 4352 {
        proposals[q / 64] |= 1 << (q % 64);
        proposals[68 + 2 * q] = first;
        proposals[69 + 2 * q] = second;
    }
}
