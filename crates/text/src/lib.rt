// The sheet's text: reading the line that asks for a sheet, and putting a sheet's lines into a lent buffer. A line is put from some place on;
// nothing else of the buffer is touched, and the answer is where the text goes on. The crate stands below the calls.
#![tactic(auto)]

mod fields;
mod input;
mod labels;

ghost use Rattle.std.specs.Prelude.{◌≡◌, ℕ, ◌+◌, ◌≤◌, ◌<◌, length, get_or};
ghost use Rattle.text.specs.Text.{run_line, shape_text, end_line, no_line, written, line_room};

use fields::Line;
pub use fields::{count_up, put_number};
pub use input::{Asked, read};

// The line that repeats the input.
pub fn put_run(size: usize, first: u64, end: u64, out: &mut [u8]) -> usize
    requires { line_room ≤ length out.old }
    ensures value { result ≡ length (run_line size first end) }
    ensures out_after { out.new ≡ written out.old 0 (run_line size first end) }
{
    let mut line = Line { out, at: 0 };
    line.text(b"RUN", b' ');
    line.number(size as u64, b' ');
    line.number(first, b' ');
    line.number(end, b'\n');
    line.at
}

// The line of a shape: its number's digits, its pattern, its permutation, its depth and its change. `out` and `at` stand beside each other, and
// not in a `Line`, since docs/CONTRACTS.md lists the call so.
pub fn put_shape(
    digits: &[u8],
    places: &[u8],
    entries: &[u16],
    depth: u64,
    change: u64,
    out: &mut [u8],
    at: usize,
) -> usize
    requires line_room_in_bounds { (at + line_room ≤ length out.old) × (length digits.now ≤ 20) × (length places.now ≤ 70) }
    requires in_bounds { (1 ≤ length entries.now) × (length entries.now ≤ 35) }
    requires by_index { ((i : ℕ) → get_or places.now i 0 ≤ 1) × ((i : ℕ) → get_or entries.now i 0 < 100) × (depth < 100) × (change < 100) }
    ensures value { result ≡ at + length (shape_text digits.now places.now entries.now depth change) }
    ensures out_after { out.new
        ≡ written out.old at (shape_text digits.now places.now entries.now depth change) }
{
    let mut line = Line { out, at };
    line.text(digits, b' ');
    line.bits(places);
    line.entries(entries);
    line.small(depth, b' ');
    line.small(change, b'\n');
    line.at
}

// The line that tells how many shapes there were, and the figure.
pub fn put_end(count: u64, figure: u64, out: &mut [u8]) -> usize
    requires { line_room ≤ length out.old }
    ensures value { result ≡ length (end_line count figure) }
    ensures out_after { out.new ≡ written out.old 0 (end_line count figure) }
{
    let mut line = Line { out, at: 0 };
    line.text(b"END", b' ');
    line.number(count, b' ');
    line.number(figure, b'\n');
    line.at
}

// The line that tells a refusal.
pub fn put_no(refusal: u64, out: &mut [u8]) -> usize
    requires { line_room ≤ length out.old }
    ensures value { result ≡ length (no_line refusal) }
    ensures out_after { out.new ≡ written out.old 0 (no_line refusal) }
{
    let mut line = Line { out, at: 0 };
    line.text(b"NO", b' ');
    line.number(refusal, b'\n');
    line.at
}
