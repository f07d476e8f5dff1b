// The refusals of the papers, each with its number in their tables.

ghost use Rattle.std.specs.Prelude.{◌≡◌};
ghost use Rattle.base.specs.Refusal.{number};

// 12, crossed bounds, is none: since document 02, request 2, they are a conflict.
#[derive(Clone, Copy, Debug, PartialEq, Eq)]
pub enum Refusal {
    // Building: too many vertices, edges or sizes.
    TooMany,
    // A weight outside its range.
    WeightOutside,
    // A size outside its range, or not rising.
    SizeWrong,
    // The wrong number of size literals.
    LitCountWrong,
    // A literal outside its range.
    LitOutside,
    // An edge's end that is no vertex.
    EndWrong,
    // A call: a buffer too short, an entry of the table over 4, or a state and a log that no call leaves.
    StateBad,
    // Initialise after one that was consistent.
    AlreadyInitialized,
    // A literal that the plan does not have.
    UnknownLit,
    // The literal to be notified, or its negation, stands.
    Standing,
    // Undo of another literal than the newest that stands.
    NotNewest,
    // Step 5 would propose from a fixed size 0.
    ZeroSize,
    // A false proposal, no literal of whose list is of the current level.
    NoneCurrent,
    // No reason is recorded.
    NoReason,
    // A path of the recorded reason is gone.
    PathGone,
    // A text line that is malformed.
    LineMalformed,
    // No run joins the vertices, or one of them is none.
    NoRun,
    // The buffer has no room for the page.
    PageShort,
}

impl Refusal {
    pub fn number(self) -> u32
        ensures { result ≡ number self }
    {
        match self {
            Refusal::TooMany => 1,
            Refusal::WeightOutside => 2,
            Refusal::SizeWrong => 3,
            Refusal::LitCountWrong => 4,
            Refusal::LitOutside => 5,
            Refusal::EndWrong => 6,
            Refusal::StateBad => 7,
            Refusal::AlreadyInitialized => 8,
            Refusal::UnknownLit => 9,
            Refusal::Standing => 10,
            Refusal::NotNewest => 11,
            Refusal::ZeroSize => 13,
            Refusal::NoneCurrent => 14,
            Refusal::NoReason => 15,
            Refusal::PathGone => 16,
            Refusal::LineMalformed => 17,
            Refusal::NoRun => 18,
            Refusal::PageShort => 19,
        }
    }
}
