// Text lines: a line's letter and its numbers, parted by tabs. `input` has the order of the lines.
#![tactic(auto)]

pub mod input;

ghost use Rattle.std.specs.Prelude.{◌≡◌, map, [], ◌+◌, ◌≤◌, ◌<◌, false, length, drop};
ghost use Rattle.base.specs.Iter.{pick};
ghost use Rattle.text.specs.Fields.{tab, newline, upto};
ghost use Rattle.text.specs.Number.{none, digits_field, sized, field_of, number_of, read_number};
ghost use Rattle.text.specs.Lines.{seen_of, within, shape_o, shape_p, shape_g, shape_v, shape_i, shape_n, shape_u, shape_r, by_letter, asks_last, read_line, numbers_from, over};
ghost use Rattle.text.specs.Steps.{more, see_next, Fitting, store};

// A field as it was read: whether it is a number, its sign and its size.
#[derive(Clone, Copy)]
pub struct Field {
    pub ok: bool,
    pub minus: bool,
    pub size: u32,
}

// What a line's shape goes by: whether its fields are numbers, how many there are, and the first three.
#[derive(Clone, Copy)]
pub struct Seen {
    pub ok: bool,
    pub count: usize,
    pub a: Field,
    pub b: Field,
    pub c: Field,
}

// What a line is. Values are as they were read: only V's and O's are tested here.
#[derive(Clone, Copy)]
pub enum Line {
    O {
        same_size: bool,
        extra_walls: bool,
    },
    // A vertex (a pen). count numbers follow k on the line: the first `sizes` of them are sizes, the others literals.
    P {
        weight: i32,
        sizes: usize,
        count: usize,
    },
    // An edge (a gate) from u to v.
    G {
        u: i32,
        v: i32,
        lit: i32,
    },
    V {
        variable: u16,
        code: u8,
    },
    I,
    N {
        lit: i32,
        pending: i32,
    },
    U {
        lit: i32,
    },
    R {
        lit: i32,
    },
    // R with a `-`: the list that was left last.
    RLast,
    Malformed,
}

// Where the piece that starts at `at` ends: at the next `separator`, or at the end of the bytes. Past the end it is `at` itself.
fn end_at(bytes: &[u8], at: usize, separator: u8) -> usize
    ensures { result ≡ at + upto separator (drop at bytes.now) }
{
    for i in at..bytes.len() {
        if bytes[i] == separator {
            return i;
        }
    }
    at.max(bytes.len())
}

// Where the line that starts at `at` ends: at the next newline, or at the input's end. Past the end it is `at` itself.
pub fn line_end(input: &[u8], at: usize) -> usize
    ensures { result ≡ at + upto newline (drop at input.now) }
{
    end_at(input, at, b'\n')
}

// What is no number.
#[tactic(auto, unfolding(crate::specs::Number::none))]
fn nothing() -> Field
    ensures { result ≡ none }
{
    Field {
        ok: false,
        minus: false,
        size: 0,
    }
}

// The bytes from `from` on as digits, at most nine, so that the number fits.
fn read_digits(minus: bool, s: &[u8], from: usize) -> Field
    requires { (from ≤ length s.now) × (length s.now ≤ from + 9) }
    ensures { result ≡ digits_field minus 0 (drop from s.now) }
{
    let mut v: u32 = 0;
    for i in from..s.len() {
        let b = s[i];
        if b < b'0' || b'9' < b {
            return nothing();
        }
        v = v * 10 + u32::from(b - b'0');
    }
    Field {
        ok: true,
        minus,
        size: v,
    }
}

// The bytes from `from` on, if they are 1 to 9 digits.
fn read_sized(minus: bool, s: &[u8], from: usize) -> Field
    requires { from ≤ length s.now }
    ensures { result ≡ sized minus (drop from s.now) }
{
    let n = s.len() - from;
    if n < 1 || 9 < n {
        return nothing();
    }
    read_digits(minus, s, from)
}

// A whole field: digits, a minus before them allowed.
fn read_field(s: &[u8]) -> Field
    ensures { result ≡ field_of s.now }
{
    if s.is_empty() {
        return nothing();
    }
    if s[0] == b'-' {
        return read_sized(true, s, 1);
    }
    read_sized(false, s, 0)
}

// A field's value.
#[tactic(auto, unfolding(crate::specs::Number::number_of, base::specs::Iter::pick))]
fn signed(f: Field) -> i32
    requires { f.size < 1000000000 }
    ensures { result ≡ number_of f }
{
    let v = f.size as i32;
    if f.minus { -v } else { v }
}

// The number that a field holds, if it holds one.
pub fn read_number(field: &[u8]) -> Option<i32>
    ensures { result ≡ read_number field.now }
{
    let f = read_field(field);
    if f.ok {
        return Some(signed(f));
    }
    None
}

#[tactic(auto, unfolding(crate::specs::Lines::seen_of, crate::specs::Lines::all_numbers))]
fn see_none() -> Seen
    ensures { result ≡ seen_of [] }
{
    let f = nothing();
    Seen {
        ok: true,
        count: 0,
        a: f,
        b: f,
        c: f,
    }
}

// One field more.
#[tactic(auto, unfolding(crate::specs::Steps::see_next, base::specs::Iter::pick))]
fn see_next(s: Seen, f: Field) -> Seen
    requires { s.count < 18446744073709551615 }
    ensures { result ≡ see_next s f }
{
    let n = s.count;
    Seen {
        ok: s.ok && f.ok,
        count: n + 1,
        a: if n == 0 { f } else { s.a },
        b: if n == 1 { f } else { s.b },
        c: if n == 2 { f } else { s.c },
    }
}

// The fields after the one that ends at `end`.
fn see_from(line: &[u8], end: usize) -> Seen
    requires { end ≤ length line.now }
    ensures { result ≡ seen_of (map field_of (more tab (drop end line.now))) }
{
    let mut s = see_none();
    let mut at = end;
    // No `for`: each turn goes on where its field has ended.
    while at < line.len() {
        let from = at + 1;
        let e = end_at(line, from, b'\t');
        let f = read_field(&line[from..e]);
        s = see_next(s, f);
        at = e;
    }
    s
}

// Whether a field's value is 0 to most. A minus before 0 changes nothing.
#[tactic(auto, unfolding(crate::specs::Lines::within, crate::specs::Number::number_of, base::specs::Iter::pick))]
fn is_within(most: usize, f: Field) -> bool
    ensures { result ≡ within most f }
{
    f.size == 0 || (!f.minus && f.size as usize <= most)
}

#[tactic(auto, unfolding(crate::specs::Lines::shape_o, base::specs::Iter::pick))]
fn shape_o(s: Seen) -> Line
    ensures { result ≡ shape_o s }
{
    if s.count != 2 || !is_within(1, s.a) || !is_within(1, s.b) {
        return Line::Malformed;
    }
    Line::O {
        same_size: s.a.size == 1,
        extra_walls: s.b.size == 1,
    }
}

#[tactic(auto, unfolding(crate::specs::Lines::shape_p, base::specs::Iter::pick))]
fn shape_p(s: Seen) -> Line
    requires { Fitting s }
    ensures { result ≡ shape_p s }
{
    if s.count < 2 || !is_within(s.count - 2, s.b) {
        return Line::Malformed;
    }
    Line::P {
        weight: signed(s.a),
        sizes: s.b.size as usize,
        count: s.count - 2,
    }
}

#[tactic(auto, unfolding(crate::specs::Lines::shape_g, base::specs::Iter::pick))]
fn shape_g(s: Seen) -> Line
    requires { Fitting s }
    ensures { result ≡ shape_g s }
{
    if s.count != 3 {
        return Line::Malformed;
    }
    Line::G {
        u: signed(s.a),
        v: signed(s.b),
        lit: signed(s.c),
    }
}

#[tactic(auto, unfolding(crate::specs::Lines::shape_v, base::specs::Iter::pick))]
fn shape_v(s: Seen) -> Line
    ensures { result ≡ shape_v s }
{
    if s.count != 2 || !is_within(4095, s.a) || !is_within(4, s.b) {
        return Line::Malformed;
    }
    Line::V {
        variable: s.a.size as u16,
        code: s.b.size as u8,
    }
}

#[tactic(auto, unfolding(crate::specs::Lines::shape_i, base::specs::Iter::pick))]
fn shape_i(s: Seen) -> Line
    ensures { result ≡ shape_i s }
{
    if s.count == 0 {
        Line::I
    } else {
        Line::Malformed
    }
}

#[tactic(auto, unfolding(crate::specs::Lines::shape_n, base::specs::Iter::pick))]
fn shape_n(s: Seen) -> Line
    requires { Fitting s }
    ensures { result ≡ shape_n s }
{
    if s.count != 2 {
        return Line::Malformed;
    }
    Line::N {
        lit: signed(s.a),
        pending: signed(s.b),
    }
}

#[tactic(auto, unfolding(crate::specs::Lines::shape_u, base::specs::Iter::pick))]
fn shape_u(s: Seen) -> Line
    requires { Fitting s }
    ensures { result ≡ shape_u s }
{
    if s.count != 1 {
        return Line::Malformed;
    }
    Line::U { lit: signed(s.a) }
}

#[tactic(auto, unfolding(crate::specs::Lines::shape_r, base::specs::Iter::pick))]
fn shape_r(s: Seen) -> Line
    requires { Fitting s }
    ensures { result ≡ shape_r s }
{
    if s.count != 1 {
        return Line::Malformed;
    }
    Line::R { lit: signed(s.a) }
}

#[tactic(auto, unfolding(crate::specs::Lines::by_letter, base::specs::Iter::pick))]
fn by_letter(letter: u8, s: Seen) -> Line
    requires { Fitting s }
    ensures { result ≡ by_letter letter s }
{
    match letter {
        b'O' => shape_o(s),
        b'P' => shape_p(s),
        b'G' => shape_g(s),
        b'V' => shape_v(s),
        b'I' => shape_i(s),
        b'N' => shape_n(s),
        b'U' => shape_u(s),
        b'R' => shape_r(s),
        _ => Line::Malformed,
    }
}

// R with a minus.
#[tactic(auto, unfolding(crate::specs::Lines::asks_last, base::specs::Iter::pick))]
fn asks_last(line: &[u8]) -> bool
    ensures { result ≡ asks_last line.now }
{
    matches!(line, [b'R', b'\t', b'-'])
}

// What a line without its newline is.
pub fn read_line(line: &[u8]) -> Line
    ensures { result ≡ read_line line.now }
{
    if asks_last(line) {
        return Line::RLast;
    }
    if end_at(line, 0, b'\t') != 1 {
        return Line::Malformed;
    }
    let s = see_from(line, 1);
    if s.ok {
        return by_letter(line[0], s);
    }
    Line::Malformed
}

// Number j of a line, where those from number `from` on are asked for and there is room.
fn store_number(from: usize, j: usize, f: Field, out: &mut [i32])
    requires { f.size < 1000000000 }
    ensures { out.new ≡ store from j (number_of f) out.old }
{
    if from <= j && j - from < out.len() {
        out[j - from] = signed(f);
    }
}

// Writes the numbers of a line from number `from` on, as many as fit, and answers how many there are. The first number
// after the letter is number 0. One pass, however long the line is, so that a caller may take sizes and literals apart.
pub fn numbers(line: &[u8], from: usize, out: &mut [i32]) -> usize
    ensures { (result ≡ length (numbers_from from line.now)) × (out.new ≡ over (numbers_from from line.now) out.old) }
{
    let mut at = end_at(line, 0, b'\t');
    let mut j = 0;
    // No `for`: each turn goes on where its field has ended.
    while at < line.len() {
        let start = at + 1;
        let e = end_at(line, start, b'\t');
        let f = read_field(&line[start..e]);
        store_number(from, j, f, out);
        j += 1;
        at = e;
    }
    j.saturating_sub(from)
}
