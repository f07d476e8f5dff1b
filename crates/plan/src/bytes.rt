// A plan's words as bytes, for a caller that holds them as words.
ghost use Rattle.std.specs.Prelude.{◌≡◌, ℕ, ◌*◌, ◌<◌, replicate};
ghost use Rattle.base.specs.Bytes.{put_word};
ghost use Rattle.plan.specs.Words.{word, words_of};

use crate::Plan;

// As many bytes as a plan's words have.
#[derive(Clone, Copy)]
pub struct PlanBytes {
    pub bytes: [u8; 60964],
}

fn put_word(bytes: &mut [u8; 60964], i: usize, x: u32)
    requires { i < 15241 }
    ensures { (bytes.new ≡ put_word (4 * i) x bytes.old) × (x < 4294967296) }
{
    bytes[4 * i] = (x % 256) as u8;
    bytes[4 * i + 1] = (x / 256 % 256) as u8;
    bytes[4 * i + 2] = (x / 65536 % 256) as u8;
    bytes[4 * i + 3] = (x / 16777216 % 256) as u8;
}

fn no_bytes() -> [u8; 60964]
    ensures { result ≡ replicate 60964 0 }
{
    [0u8; 60964]
}

// The bytes whose words these are.
pub fn bytes_of(words: &Plan) -> PlanBytes
    ensures { (i : ℕ) → i < 15241 → word (words_of result.bytes) i ≡ word words.now i }
{
    let mut bytes = no_bytes();
    for i in 0..15241 {
        put_word(&mut bytes, i, words[i]);
    }
    PlanBytes { bytes }
}
