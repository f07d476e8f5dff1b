// An answer's line, from the start of a lent buffer. No line is longer than 65536 bytes.
ghost use Rattle.std.specs.Prelude.{◌≡◌, ◌∷◌, [], ◌≤◌, length, take};
ghost use Rattle.text_writer.specs.Written.{answer_line};
ghost use Rattle.desk.specs.Print.{count_of, written, printing, line_of};

use graph_division::Answer;
use text_writer::write_answer;

#[tactic(auto, unfolding(crate::specs::Print::count_of))]
fn count_of(w: Option<usize>) -> usize
    ensures { result ≡ count_of w }
{
    w.unwrap_or(0)
}

// A letter and the first n values.
fn print_first(letter: u8, values: &[u32], n: usize, out: &mut [u8]) -> usize
    requires { length values.now ≤ 4352 }
    ensures { (written result out.new ≡ printing (answer_line letter (take n values.now)) out.old) × (length (answer_line letter (take n values.now)) ≤ 65536) }
{
    count_of(write_answer(letter, &values[..n.min(values.len())], out, 0))
}

pub fn print_refusal(number: u32, out: &mut [u8]) -> usize
    ensures { (written result out.new ≡ printing (answer_line 69 (number ∷ [])) out.old) × (length (answer_line 69 (number ∷ [])) ≤ 65536) }
{
    let numbers = [number; 1];
    count_of(write_answer(b'E', &numbers, out, 0))
}

// How many bytes the answer's line is, 0 where the buffer has no room for it. `values` is the list that the call was lent.
pub(crate) fn print(a: Answer, values: &[u32], out: &mut [u8]) -> usize
    requires { length values.now ≤ 4352 }
    ensures { (written result out.new ≡ printing (line_of a values.now) out.old) × (length (line_of a values.now) ≤ 65536) }
{
    match a {
        Answer::Consistent { handed } => print_first(b'C', values, handed, out),
        Answer::Conflict => print_first(b'X', values, 0, out),
        Answer::Noted => print_first(b'L', values, 0, out),
        Answer::Undone => print_first(b'C', values, 0, out),
        Answer::Reason { len } | Answer::Run { len } | Answer::Page { len } => {
            print_first(b'R', values, len, out)
        }
        Answer::Refused { number } => print_refusal(number, out),
    }
}
