// Answers: numbers in base ten, and answer lines, into a lent buffer.
#![tactic(auto)]

ghost use Rattle.std.specs.Prelude.{◌≡◌, ◌+◌, ◌≤◌, leb, length};
ghost use Rattle.text_writer.specs.Digits.{digits};
ghost use Rattle.text_writer.specs.Written.{put, after, next, tabbed, tabbed_one, answer_line};

// Writes n from `at` on, and answers where the next byte goes: the last digit first, then those of the quotient.
fn write_digits(n: u32, buf: &mut [u8], at: usize) -> usize
    requires { at + length (digits n) ≤ length buf.old }
    ensures { (result ≡ at + length (digits n)) × (buf.new ≡ put buf.old at (digits n)) }
{
    let end = at + count_digits(n);
    let mut quotient = n;
    for p in (at..end).rev() {
        buf[p] = (48 + quotient % 10) as u8;
        quotient /= 10;
    }
    end
}

// How many digits n has.
pub fn count_digits(n: u32) -> usize
    ensures { result ≡ length (digits n) }
{
    let mut k = 1;
    // No `for`: how many turns there are is what is asked.
    let mut rest = n;
    while 10 <= rest {
        rest /= 10;
        k += 1;
    }
    k
}

// Whether k bytes from `at` on are within len.
fn fits(at: usize, k: usize, len: usize) -> bool
    ensures { result ≡ leb (at + k) len }
{
    at <= len && k <= len - at
}

// Writes n in base ten from `at` on, and answers where the next byte goes. `None` where the buffer has no room for all of
// it, which then keeps what it held.
pub fn write_number(n: u32, buf: &mut [u8], at: usize) -> Option<usize>
    ensures { (result ≡ next buf.old at (digits n)) × (buf.new ≡ after buf.old at (digits n)) }
{
    let k = count_digits(n);
    if !fits(at, k, buf.len()) {
        return None;
    }
    Some(write_digits(n, buf, at))
}

// A tab and n.
fn write_tabbed(n: u32, buf: &mut [u8], at: usize) -> usize
    requires { at + length (tabbed_one n) ≤ length buf.old }
    ensures { (result ≡ at + length (tabbed_one n)) × (buf.new ≡ put buf.old at (tabbed_one n)) }
{
    buf[at] = b'\t';
    write_digits(n, buf, at + 1)
}

// Each number with a tab before it.
fn write_all_tabbed(numbers: &[u32], buf: &mut [u8], at: usize) -> usize
    requires { at + length (tabbed numbers.now) ≤ length buf.old }
    ensures { (result ≡ at + length (tabbed numbers.now)) × (buf.new ≡ put buf.old at (tabbed numbers.now)) }
{
    let mut p = at;
    for &n in numbers {
        p = write_tabbed(n, buf, p);
    }
    p
}

// Whether the numbers, each with a tab before it, are at most `room` bytes.
fn has_room(numbers: &[u32], room: usize) -> bool
    ensures { result ≡ leb (length (tabbed numbers.now)) room }
{
    let mut left = room;
    for &n in numbers {
        let k = count_digits(n);
        if left <= k {
            return false;
        }
        left -= k + 1;
    }
    true
}

// Writes an answer's line from `at` on, its letter, its numbers and a newline, and answers where the next byte goes; `None`
// as above.
pub fn write_answer(letter: u8, numbers: &[u32], buf: &mut [u8], at: usize) -> Option<usize>
    ensures { (result ≡ next buf.old at (answer_line letter numbers.now)) × (buf.new ≡ after buf.old at (answer_line letter numbers.now)) }
{
    if !fits(at, 2, buf.len()) || !has_room(numbers, buf.len() - at - 2) {
        return None;
    }
    buf[at] = letter;
    let p = write_all_tabbed(numbers, buf, at + 1);
    buf[p] = b'\n';
    Some(p + 1)
}
