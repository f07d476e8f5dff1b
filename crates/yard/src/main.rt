// The program `yard`: a plan's lines and calls' lines from standard input, the answers to standard output. The bytes that are given to standard
// output are those of `session` (crate desk, specs/Session): `show`, the only function that writes there, requires it of each part, and `answer`
// ensures that no byte is left.
#![tactic(auto)]

mod output;

ghost use Rattle.std.specs.Prelude.{◌≡◌, ◌≤◌, IsTrue, length, take};
ghost use Rattle.std.specs.Io.KnownBytes.{Consumes, IsAtEnd};
ghost use Rattle.yard.specs.Output.{AllTold, Refusing, Obeying};

use crate::output::{Shown, has_failed, nothing, show};
use base::refusal::Refusal;
use desk::print::print_refusal;
use desk::start::{Started, start};
use desk::{Obeyed, obey};
use std::io::{self, Read};
use undo_log::Cursor;

// Room for the longest input and a byte more, which tells that there is more. Apart, so that no proof but its own meets an array of that size.
fn input_buffer() -> [u8; 1048577]
    ensures { 1048577 ≡ length result }
{
    [0; 1048577]
}

// A refusal is all that is printed.
fn refuse(rt: &impl Print, input: &[u8], refusal: Refusal) -> Shown
    requires { Refusing refusal input.now }
    ensures { AllTold result input.now }
{
    let mut out = [0; 65536];
    let n = print_refusal(refusal.number(), &mut out);
    show(rt, input, nothing(), &out, n)
}

// Obeys the calls' lines. The table has every variable that a line can name, the log room for every plan, and `out` room for what a line
// prints.
fn obey_lines(rt: &impl Print, input: &[u8], started: Started) -> Shown
    requires { Obeying started input.now }
    ensures { AllTold result input.now }
{
    let mut table = [0u8; 4096];
    let mut log = [0u64; 4352];
    let mut out = [0; 65536];
    let mut o = Obeyed {
        state: started.state,
        cursor: Cursor {
            used: 0,
            standing: 0,
        },
        printed: 0,
    };
    let mut at = started.calls_at;
    let mut shown = nothing();
    // Not a `for`: each turn goes on by its line's length.
    while at < input.len() {
        let e = text::line_end(input, at);
        o = obey(
            o.state,
            o.cursor,
            &mut table,
            &mut log,
            &input[at..e],
            &mut out,
        );
        shown = show(rt, input, shown, &out, o.printed);
        at = e + 1;
    }
    shown
}

// After a refusal of the plan or of the input's shape the program ends.
fn answer(rt: &impl Print, input: &[u8]) -> Shown
    requires { length input.now ≤ 1048577 }
    ensures { AllTold result input.now }
{
    let started = start(input);
    match started.refusal {
        None => obey_lines(rt, input, started),
        Some(refusal) => refuse(rt, input, refusal),
    }
}

// Reads until `buf` is full, the input ends or a read fails, and says how many bytes it put at the start of `buf`.
fn read_full<R: Read>(reader: &mut R, buf: &mut [u8]) -> usize
    ensures in_bounds { result ≤ length buf.new }
    ensures bytes { Consumes (R.remaining reader.old) (R.remaining reader.new) (take result buf.new) }
{
    let mut done = 0;
    // Not a `for`: each turn goes on by what a read gave.
    while done < buf.len() {
        match reader.read(&mut buf[done..]) {
            Ok(0) | Err(_) => break,
            Ok(n) => done += n,
        }
    }
    done
}

// Whether the input ended where reading stopped: one more read gives no byte and does not fail.
fn has_ended<R: Read>(reader: &mut R) -> bool
    ensures { IsTrue result → IsAtEnd (R.remaining reader.new) }
{
    let mut more = [0; 4096];
    matches!(reader.read(&mut more), Ok(0))
}

fn main(rt: HostRuntime) -> io::Result<()> {
    let mut stdin = rt.stdin();
    let mut buf = input_buffer();
    let n = read_full(&mut stdin, &mut buf);
    if n < 1048577 && !has_ended(&mut stdin) {
        return eprintln!(rt; "yard: standard input cannot be read");
    }
    let shown = answer(&rt, &buf[0..n]);
    if has_failed(shown) {
        eprintln!(rt; "yard: standard output cannot be written")?;
    }
    Ok(())
}
