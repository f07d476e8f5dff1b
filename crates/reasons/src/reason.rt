// Why a literal is proposed: the Rust's `Reason`, and its two words.
ghost use Rattle.std.specs.Prelude.{◌≡◌, ◌%◌};
ghost use Rattle.reasons.specs.Words.{packed};
ghost use Rattle.reasons.specs.Reason.{opt_of, opt_word, later_reason, reason_of, first_word_of, second_word_of};

use crate::{packed, packed_lits};
use sat::Lit;

#[derive(Clone, Copy)]
pub enum Reason {
    NotPropagated,
    // Both ends of the edge are in one group: it is to be connected.
    EdgeInSameGroup {
        edge_idx: u8,
    },
    // A disconnected edge joins the two groups that the newly decided one joins. With flip the one's left end is in the group of the
    // other's right end.
    EdgeBetweenDifferentGroups {
        disconnected_edge_idx: u8,
        newly_decided_edge_idx: u8,
        flip: bool,
    },
    // If the regions of the edge's ends were merged, the region would be too large.
    TooLargeIfRegionsAreMerged {
        disconnected_edge_idx: u8,
        upper_bound_lit: Option<Lit>,
    },
    // The vertex's decided region is so large that its lower bound rises.
    RegionAlreadyLarge {
        vertex_idx: u8,
    },
    // The vertex's potential region is so small that its upper bound falls.
    RegionAlreadySmall {
        vertex_idx: u8,
    },
    // If the regions of the edge's ends were merged, the region would have vertices whose bounds do not meet. With flip the vertex with
    // the upper bound is in the group of the edge's right end.
    InconsistentBoundsIfRegionsAreMerged {
        disconnected_edge_idx: u8,
        upper_bound_vertex_idx: u8,
        lower_bound_vertex_idx: u8,
        flip: bool,
    },
    // The bound of one vertex is known, and the other is in its region.
    BoundPropagationWithinRegion {
        known_bound_lit: Option<Lit>,
        known_bound_idx: u8,
        unknown_bound_idx: u8,
    },
    // If the edge were connected, two regions of one size would be adjacent.
    AdjacentSameSizeRegions {
        region1_vertex: u8,
        region1_lower_bound: Option<Lit>,
        region1_upper_bound: Option<Lit>,
        region2_vertex: u8,
        region2_lower_bound: Option<Lit>,
        region2_upper_bound: Option<Lit>,
        region3_vertex: u8,
    },
}

fn byte(w: u64) -> u8
    ensures { result ≡ w % 256 }
{
    (w % 256) as u8
}

fn two_bytes(w: u64) -> u16
    ensures { result ≡ w % 65536 }
{
    (w % 65536) as u16
}

// A bound's literal, if it is due to one: in two bytes 65535 is none.
#[tactic(auto, unfolding(crate::specs::Reason::opt_of, base::specs::Iter::pick))]
fn opt_lit(n: u16) -> Option<Lit>
    ensures { result ≡ opt_of n }
{
    if n == 65535 {
        return None;
    }
    Some(Lit(n))
}

#[tactic(auto, unfolding(crate::specs::Reason::opt_word))]
fn lit_word(l: Option<Lit>) -> u16
    ensures { result ≡ opt_word l }
{
    match l {
        Some(lit) => lit.0,
        None => 65535,
    }
}

fn word(kind: u8, a: u8, b: u8, c: u8, x: u16) -> u64
    ensures { result ≡ packed kind a b c x }
{
    packed(
        kind,
        usize::from(a),
        usize::from(b),
        usize::from(c),
        u32::from(x),
    )
}

// The reasons with three numbers or more.
#[tactic(auto, unfolding(crate::specs::Reason::later_reason, base::specs::Iter::pick))]
fn later_reason(kind: u8, first: u64, second: u64) -> Reason
    ensures { result ≡ later_reason kind first second }
{
    if kind == 6 {
        return Reason::InconsistentBoundsIfRegionsAreMerged {
            disconnected_edge_idx: byte(first / 256),
            upper_bound_vertex_idx: byte(first / 65536),
            lower_bound_vertex_idx: byte(first / 16777216),
            flip: two_bytes(first / 4294967296) != 0,
        };
    }
    if kind == 7 {
        return Reason::BoundPropagationWithinRegion {
            known_bound_lit: opt_lit(two_bytes(first / 4294967296)),
            known_bound_idx: byte(first / 256),
            unknown_bound_idx: byte(first / 65536),
        };
    }
    if kind == 8 {
        return Reason::AdjacentSameSizeRegions {
            region1_vertex: byte(first / 256),
            region1_lower_bound: opt_lit(two_bytes(second)),
            region1_upper_bound: opt_lit(two_bytes(second / 65536)),
            region2_vertex: byte(first / 65536),
            region2_lower_bound: opt_lit(two_bytes(second / 4294967296)),
            region2_upper_bound: opt_lit(two_bytes(second / 281474976710656)),
            region3_vertex: byte(first / 16777216),
        };
    }
    Reason::NotPropagated
}

// A word whose kind is none of the eight is no reason.
#[tactic(auto, unfolding(crate::specs::Reason::reason_of, base::specs::Iter::pick))]
pub fn reason_of(first: u64, second: u64) -> Reason
    ensures { result ≡ reason_of first second }
{
    let kind = byte(first);
    if kind == 1 {
        return Reason::EdgeInSameGroup {
            edge_idx: byte(first / 256),
        };
    }
    if kind == 2 {
        return Reason::EdgeBetweenDifferentGroups {
            disconnected_edge_idx: byte(first / 256),
            newly_decided_edge_idx: byte(first / 65536),
            flip: byte(first / 16777216) != 0,
        };
    }
    if kind == 3 {
        return Reason::TooLargeIfRegionsAreMerged {
            disconnected_edge_idx: byte(first / 256),
            upper_bound_lit: opt_lit(two_bytes(first / 4294967296)),
        };
    }
    if kind == 4 {
        return Reason::RegionAlreadyLarge {
            vertex_idx: byte(first / 256),
        };
    }
    if kind == 5 {
        return Reason::RegionAlreadySmall {
            vertex_idx: byte(first / 256),
        };
    }
    later_reason(kind, first, second)
}

#[tactic(auto, unfolding(crate::specs::Reason::first_word_of, crate::specs::Words::bit))]
pub fn first_word(r: Reason) -> u64
    ensures { result ≡ first_word_of r }
{
    match r {
        Reason::NotPropagated => 0,
        Reason::EdgeInSameGroup { edge_idx } => word(1, edge_idx, 0, 0, 0),
        Reason::EdgeBetweenDifferentGroups {
            disconnected_edge_idx: h,
            newly_decided_edge_idx: g,
            flip,
        } => word(2, h, g, u8::from(flip), 0),
        Reason::TooLargeIfRegionsAreMerged {
            disconnected_edge_idx: g,
            upper_bound_lit: l,
        } => word(3, g, 0, 0, lit_word(l)),
        Reason::RegionAlreadyLarge { vertex_idx } => word(4, vertex_idx, 0, 0, 0),
        Reason::RegionAlreadySmall { vertex_idx } => word(5, vertex_idx, 0, 0, 0),
        Reason::InconsistentBoundsIfRegionsAreMerged {
            disconnected_edge_idx: g,
            upper_bound_vertex_idx: a,
            lower_bound_vertex_idx: b,
            flip,
        } => word(6, g, a, b, u16::from(flip)),
        Reason::BoundPropagationWithinRegion {
            known_bound_lit: l,
            known_bound_idx: k,
            unknown_bound_idx: u,
        } => word(7, k, u, 0, lit_word(l)),
        Reason::AdjacentSameSizeRegions {
            region1_vertex: a,
            region2_vertex: b,
            region3_vertex: u,
            ..
        } => word(8, a, b, u, 0),
    }
}

#[tactic(auto, unfolding(crate::specs::Reason::second_word_of))]
pub fn second_word(r: Reason) -> u64
    ensures { result ≡ second_word_of r }
{
    match r {
        Reason::NotPropagated => 0,
        Reason::EdgeInSameGroup { .. } => 0,
        Reason::EdgeBetweenDifferentGroups { .. } => 0,
        Reason::TooLargeIfRegionsAreMerged { .. } => 0,
        Reason::RegionAlreadyLarge { .. } => 0,
        Reason::RegionAlreadySmall { .. } => 0,
        Reason::InconsistentBoundsIfRegionsAreMerged { .. } => 0,
        Reason::BoundPropagationWithinRegion { .. } => 0,
        Reason::AdjacentSameSizeRegions {
            region1_lower_bound: la,
            region1_upper_bound: ua,
            region2_lower_bound: lb,
            region2_upper_bound: ub,
            ..
        } => packed_lits(
            lit_word(la) as u32,
            lit_word(ua) as u32,
            lit_word(lb) as u32,
            lit_word(ub) as u32,
        ),
    }
}
