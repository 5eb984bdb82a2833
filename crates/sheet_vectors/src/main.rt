// Document 01's sheets, its rules for the input line, and the rules for a sheet that is handed in, through the sheet library. Each line of
// the input is a case; it is printed, and after it all that is handed out, byte for byte. What is expected stands in the file `stdout` alone.
//
//   # ..                a heading
//   sheet ROOM INPUT    the sheet that an input opens, piece after piece, in a buffer of so many bytes, till a piece has none or is refused
//   fill ROOM SHEET     one piece of a sheet that is handed in, and the sheet that it leaves
//
// An INPUT is what the line has behind the space, but for \n, \r, \t and \\, for \xNN, the byte of that hexadecimal number, and for \*NN,
// which stands for the byte behind it that many times. A SHEET is nine fields: REFUSAL OPENED ENDED FIRST SIZE NEXT END FIGURE PLACES, with 1
// for true, and the places as digits; those of the seventy that are not written are 0, and - is none written.
#![tactic(auto)]

mod escapes;
mod pieces;
mod state;

use vectors::Fields;

fn main() {
    vectors::run_below(case);
}

fn case(kind: &[u8], fields: Fields) {
    match kind {
        b"sheet" => pieces::whole(fields),
        b"fill" => pieces::one(fields),
        _ => pieces::wrong(b"WRONG, no such case"),
    }
}
