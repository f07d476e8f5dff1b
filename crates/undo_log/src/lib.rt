// The undo log in its flat form: one u64 word a record over a lent slice, and a cursor by value.
#![tactic(auto)]

ghost use Rattle.std.specs.Prelude.{◌≡◌};
ghost use Rattle.undo_log.specs.Log.{word_of, record_of, push_words, push_answer, pop_answer};

// A record's kinds: those of the Rust's `UndoInfo`.
pub const LEVEL_BOUNDARY: u8 = 0;

pub const EDGE: u8 = 1;

pub const LOWER_BOUND: u8 = 2;

pub const UPPER_BOUND: u8 = 3;

// In a record's `lit`: no literal.
pub const NO_LIT: u16 = 65535;

// A notification's first record is a LEVEL_BOUNDARY with its literal. An EDGE record has the edge as its index, a
// bound's record the vertex, the old bound and the literal that it was due to, if any. Unused fields are 0 and NO_LIT.
#[derive(Clone, Copy)]
pub struct Record {
    pub kind: u8,
    pub index: u8,
    pub bound: u32,
    pub lit: u16,
}

#[derive(Clone, Copy)]
pub struct Cursor {
    // How many records of the log are in use.
    pub used: usize,
    // How many notifications stand.
    pub standing: usize,
}

#[tactic(auto, unfolding(crate::specs::Log::word_of))]
pub fn word_of(r: Record) -> u64
    ensures { result ≡ word_of r }
{
    u64::from(r.kind)
        + 256 * u64::from(r.index)
        + 65536 * u64::from(r.lit)
        + 4294967296 * u64::from(r.bound)
}

#[tactic(auto, unfolding(crate::specs::Log::record_of))]
pub fn record_of(w: u64) -> Record
    ensures { result ≡ record_of w }
{
    Record {
        kind: (w % 256) as u8,
        index: (w / 256 % 256) as u8,
        bound: (w / 4294967296 % 4294967296) as u32,
        lit: (w / 65536 % 65536) as u16,
    }
}

// Stores the record's word at the cursor, and answers the cursor after it. A full log stays as it is: `None`.
#[tactic(auto, unfolding(crate::specs::Log::push_answer, crate::specs::Log::push_words, base::specs::Iter::pick))]
pub fn push(words: &mut [u64], cursor: Cursor, r: Record) -> Option<Cursor>
    ensures { (result ≡ push_answer words.old cursor) × (words.new ≡ push_words words.old cursor r) }
{
    let at = cursor.used;
    if at < words.len() {
        words[at] = word_of(r);
        return Some(Cursor {
            used: at + 1,
            ..cursor
        });
    }
    None
}

// The newest record, and the cursor moved back over it; `None` where no record is in use. The word stays where it is.
#[tactic(auto, unfolding(crate::specs::Log::pop_answer, base::specs::Iter::pick))]
pub fn pop(words: &[u64], cursor: Cursor) -> Option<(Record, Cursor)>
    ensures { result ≡ pop_answer words.now cursor }
{
    let used = cursor.used;
    if used == 0 || words.len() < used {
        return None;
    }
    let at = used - 1;
    Some((record_of(words[at]), Cursor { used: at, ..cursor }))
}
