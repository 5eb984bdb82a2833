// The sheet program. A line on standard input asks for a sheet; standard output gets the sheet, or the line that tells why there is none, and
// nothing else. All that it knows about sheets is in crate `lines`.
#![tactic(auto)]

ghost use Rattle.std.specs.Prelude.{◌≡◌, ◌≤◌, ◌<◌, length, take};
ghost use Rattle.lines.specs.Handing.{lines_left};
ghost use Rattle.sheet.specs.Batch.{Handed, Silent};

use lines::Sheet;

// The file descriptors of standard input and output, which `vectors` has too: the program does not stand on a crate of cases.
const STDIN_FILENO: i32 = 0;

const STDOUT_FILENO: i32 = 1;

fn main() {
    // No line that is taken has more than 63 bytes, so that the first 64 decide (`first_bytes`), and what follows need not be read.
    let mut input = [0u8; 64];
    let count = io::read_full(STDIN_FILENO, &mut input);
    print(Sheet::open(&input[..count]));
}

// Batch after batch, till one is empty: all of the sheet has been written then (`whole_sheet`). There is no one to tell of a write that
// fails.
fn print(sheet: Sheet) {
    let mut space = io::large_buffer();
    let buffer: &mut [u8] = &mut space;
    let mut left = sheet;
    loop {
        let batch = collect(left, buffer);
        if batch.bytes == 0 || !io::write_all(STDOUT_FILENO, &buffer[..batch.bytes]) {
            return;
        }
        left = batch.sheet;
    }
}

// How many bytes of the buffer hold lines, and the sheet as it then stands.
#[derive(Clone, Copy)]
struct Batch {
    bytes: usize,
    sheet: Sheet,
}

// The sheet's next pieces, one behind the other, for as long as there is room for a line of any length.
#[tactic(auto, using(crate::proofs::Collecting::collecting))]
fn collect(sheet: Sheet, buffer: &mut [u8]) -> Batch
    ensures bytes_in_bounds { result.bytes ≤ length buffer.new }
    ensures sheet_bound { 0 < result.bytes → lines_left result.sheet < lines_left sheet }
    ensures handed { Handed sheet (take result.bytes buffer.new) result.sheet }
    ensures silent { result.bytes ≡ 0 → Silent sheet (length buffer.old) }
{
    let mut left = sheet;
    let mut at = 0;
    while buffer.len() - at >= 256 {
        let filled = left.fill(&mut buffer[at..]);
        let bytes = filled.bytes.unwrap_or(0) as usize;
        if bytes == 0 {
            break;
        }
        left = filled.sheet;
        at += bytes;
    }
    Batch {
        bytes: at,
        sheet: left,
    }
}
