// Document 01's lines and edges through the calls on packed records. Each line of the input is a case, which says what is expected; it is
// printed, and after it what the calls answer, compared with that. Places are written as digits, x for 255, the bytes of a record as
// decimals with commas, - for none of either. BEFORE is what the slice to be written held; refusal 0 is none.
//
//   # ..                                     a heading
//   write SIZE PLACES BEFORE REFUSAL BYTES   places written, and all the bytes of the slice then
//   read BYTES BEFORE REFUSAL SIZE PLACES    a record read, and all the places of the slice then
//   pattern SIZE PLACES BYTES                a pattern there and back: written and read again
//   record BYTES SIZE PLACES                 a record there and back: read and written again
#![tactic(auto)]

mod asked;
mod bytes;
mod through;

use vectors::Fields;

fn main() {
    vectors::run(case);
}

fn case(kind: &[u8], fields: Fields) {
    match kind {
        b"write" => asked::write(fields),
        b"read" => asked::read(fields),
        b"pattern" => through::pattern(fields),
        b"record" => through::record(fields),
        _ => vectors::word(b"WRONG, no such case"),
    }
}
