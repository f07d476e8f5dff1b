// The whole input: its lines in their order.
ghost use Rattle.std.specs.Prelude.{◌≡◌};
ghost use Rattle.text.specs.Input.{admitted, calls, well_formed};

use crate::{Line, line_end, read_line};

// Whether a line may stand here. first: it is the input's first line; called: a V, I, N, U or R stands before it.
fn is_admitted(first: bool, called: bool, line: Line) -> bool
    ensures { result ≡ admitted first called line }
{
    match line {
        Line::O { .. } => first,
        Line::P { .. } | Line::G { .. } => !called,
        Line::Malformed => false,
        _ => true,
    }
}

// Whether a V, I, N, U or R stands at this line or before it.
fn called_by(called: bool, line: Line) -> bool
    ensures { result ≡ calls called line }
{
    called || !matches!(line, Line::O { .. } | Line::P { .. } | Line::G { .. })
}

// Whether the whole input is well formed: at most 1 MiB, every line of a known shape, and all in order.
pub fn well_formed(input: &[u8]) -> bool
    ensures { result ≡ well_formed input.now }
{
    if 1048576 < input.len() {
        return false;
    }
    let mut at = 0;
    let mut first = true;
    let mut called = false;
    // No `for`: each turn goes on where its line has ended.
    while at < input.len() {
        let e = line_end(input, at);
        let line = read_line(&input[at..e]);
        if !is_admitted(first, called, line) {
            return false;
        }
        called = called_by(called, line);
        first = false;
        at = e + 1;
    }
    true
}
