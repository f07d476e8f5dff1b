// Answers as numbers.
ghost use Rattle.std.specs.Prelude.{◌≡◌, ◌≤◌, pos, neg_ℤ};
ghost use Rattle.byte_calls.specs.Codes.{fitted, answer_code, given_by};

use graph_division::Answer;

fn count_code(n: usize) -> i32
    ensures { result ≡ pos (fitted n) }
{
    n.min(2147483647) as i32
}

pub(crate) fn refusal_code(n: u32) -> i32
    ensures { result ≡ neg_ℤ (pos (fitted n)) }
{
    -(n.min(2147483647) as i32)
}

pub(crate) fn code_of(answer: Answer) -> i32
    ensures { result ≡ answer_code answer }
{
    match answer {
        Answer::Consistent { handed } => count_code(handed),
        Answer::Conflict => -100,
        Answer::Noted => -101,
        Answer::Undone => 0,
        Answer::Reason { len } => count_code(len),
        Answer::Run { len } => count_code(len),
        Answer::Page { len } => count_code(len),
        Answer::Refused { number } => refusal_code(number),
    }
}

// How many literals, edges of a run, or bytes of a page, the answer says are in the list or the buffer.
pub(crate) fn given_by(answer: Answer) -> usize
    ensures { result ≡ given_by answer }
{
    match answer {
        Answer::Consistent { handed } => handed,
        Answer::Reason { len } | Answer::Run { len } | Answer::Page { len } => len,
        Answer::Conflict | Answer::Noted | Answer::Undone | Answer::Refused { .. } => 0,
    }
}
