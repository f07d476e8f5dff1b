// Document 02, request 3: a page with a line for each region, in the order of its lowest vertex. A region is kept as a
// set of 64 bits, one a vertex.
#![tactic(auto)]

ghost use Rattle.std.specs.Prelude.{◌≡◌, ℕ, ◌+◌, ◌*◌, ◌<◌, ◌≤◌, eqb, length, get_or, replicate};
ghost use Rattle.std.specs.Int.Count.{ones, count_trailing_zeros};
ghost use Rattle.base.specs.Iter.{pick};
ghost use Rattle.text_writer.specs.Digits.{digits};
ghost use Rattle.text_writer.specs.Written.{put};
ghost use Rattle.pages.specs.Sets.{set_of};
ghost use Rattle.pages.specs.Line.{field, upper_text, head_text, numbers_text};
ghost use Rattle.pages.specs.Lines.{set_line, figures_of, is_label};
ghost use Rattle.pages.specs.Lines.{num_regions, line_of, page_text, page_buffer, printed_in};

use text_writer::{count_digits, write_number};

// Why there is no page. Nothing was written.
#[derive(Clone, Copy)]
pub enum PageError {
    // The buffer has no room for the page.
    TooSmall,
    // There are more than 64 vertices.
    Unknown,
}

// The vertices with label r, of n; from the highest vertex down, so that each turn makes room for one bit more.
fn region_set(labels: &[u8; 64], n: usize, r: u8) -> u64
    requires { n ≤ 64 }
    ensures { result ≡ set_of (λ v. get_or labels.now v 0) n r }
{
    let mut set: u64 = 0;
    for v in (0..n).rev() {
        set = 2 * set + u64::from(labels[v] == r);
    }
    set
}

fn write_spaces(buf: &mut [u8], at: usize, k: usize)
    requires { at + k ≤ length buf.old }
    ensures { buf.new ≡ put buf.old at (replicate k 32) }
{
    buf[at..at + k].fill(b' ');
}

// A number, right-aligned.
fn write_field(n: u32, width: usize, buf: &mut [u8], at: usize)
    requires { (length (digits n) ≤ width) × (at + width ≤ length buf.old) }
    ensures { buf.new ≡ put buf.old at (field width (digits n)) }
{
    let gap = width - count_digits(n);
    write_spaces(buf, at, gap);
    write_number(n, buf, at + gap);
}

// An upper bound, ten bytes wide; a hyphen where it is unlimited.
fn write_upper(n: u32, buf: &mut [u8], at: usize)
    requires { at + 10 ≤ length buf.old }
    ensures { (buf.new ≡ put buf.old at (field 10 (upper_text n))) ×
        (length (upper_text n) ≤ 10) }
{
    if n == 2147483647 {
        write_spaces(buf, at, 9);
        buf[at + 9] = b'-';
        return;
    }
    write_field(n, 10, buf, at);
}

// The lowest vertex and the number of vertices, four bytes wide each.
fn write_head(set: u64, buf: &mut [u8], at: usize)
    requires { at + 8 ≤ length buf.old }
    ensures { (buf.new ≡ put buf.old at (head_text (count_trailing_zeros 64 set) (ones set))) ×
        (length (head_text (count_trailing_zeros 64 set) (ones set)) ≡ 8) }
{
    write_field(set.trailing_zeros(), 4, buf, at);
    write_field(set.count_ones(), 4, buf, at + 4);
}

// The weight and the bounds, ten bytes wide each.
fn write_numbers(weight: u32, lower: u32, upper: u32, buf: &mut [u8], at: usize)
    requires { at + 30 ≤ length buf.old }
    ensures { (buf.new ≡ put buf.old at (numbers_text weight lower upper)) ×
        (length (numbers_text weight lower upper) ≡ 30) }
{
    write_field(weight, 10, buf, at);
    write_field(lower, 10, buf, at + 10);
    write_upper(upper, buf, at + 20);
}

fn write_line(set: u64, weight: u32, lower: u32, upper: u32, buf: &mut [u8], at: usize)
    requires { at + 39 ≤ length buf.old }
    ensures { (buf.new ≡ put buf.old at (set_line set weight lower upper)) ×
        (length (set_line set weight lower upper) ≡ 39) }
{
    write_head(set, buf, at);
    write_numbers(weight, lower, upper, buf, at + 8);
    buf[at + 38] = b'\n';
}

fn count_regions(labels: &[u8; 64], n: usize) -> usize
    requires { n ≤ 64 }
    ensures { result ≡ num_regions (λ v. get_or labels.now v 0) n }
{
    let mut count = 0;
    for r in 0..n {
        count += usize::from(usize::from(labels[r]) == r);
    }
    count
}

// The line of the region with label r, if there is one: where the next line goes.
fn write_region(
    labels: &[u8; 64],
    weights: &[u32; 64],
    lowers: &[u32; 64],
    uppers: &[u32; 64],
    n: usize,
    r: usize,
    page: &mut [u8],
    at: usize,
) -> usize
    requires { (n ≤ 64) × (r < 64) ×
        (at + 39 * pick (is_label (λ v. get_or labels.now v 0) r) 1 0 ≤ length page.old) }
    ensures { let t = figures_of labels.now weights.now lowers.now
        uppers.now in (result ≡ at + 39 * pick (is_label t.label r) 1 0) ×
        (page.new ≡ put page.old at (line_of t n r)) ×
        (length (line_of t n r) ≡ 39 * pick (is_label t.label r) 1 0) }
{
    if usize::from(labels[r]) == r {
        let set = region_set(labels, n, r as u8);
        write_line(set, weights[r], lowers[r], uppers[r], page, at);
        return at + 39;
    }
    at
}

fn write_lines(
    labels: &[u8; 64],
    weights: &[u32; 64],
    lowers: &[u32; 64],
    uppers: &[u32; 64],
    n: usize,
    page: &mut [u8],
)
    requires { (n ≤ 64) × (39 * num_regions (λ v. get_or labels.now v 0) n ≤ length page.old) }
    ensures { page.new ≡ put page.old 0 (page_text (figures_of labels.now
        weights.now lowers.now uppers.now) n) }
{
    let mut at = 0;
    for r in 0..n {
        at = write_region(labels, weights, lowers, uppers, n, r, page, at);
    }
}

// The page of the regions whose labels, weights and bounds these are, from the buffer's start on, and how many bytes it has.
// The weight and the bounds of a region stand at its label, which is its lowest vertex.
pub fn print_page(
    labels: &[u8; 64],
    weights: &[u32; 64],
    lowers: &[u32; 64],
    uppers: &[u32; 64],
    n: usize,
    page: &mut [u8],
) -> Result<usize, PageError>
    ensures { page_buffer result page.new ≡ printed_in (figures_of labels.now weights.now
        lowers.now uppers.now) n page.old }
{
    if 64 < n {
        return Err(PageError::Unknown);
    }
    let size = 39 * count_regions(labels, n);
    if page.len() < size {
        return Err(PageError::TooSmall);
    }
    write_lines(labels, weights, lowers, uppers, n, page);
    Ok(size)
}
