// Document 01's lines and edges and the papers' listings, through the calls on tree permutations and the conversions. Each line of the
// input is a case, which says what is expected; it is printed, and after it what the calls answer, compared with that. Entries are written
// as decimals with commas, places as digits, x for 255, - for none of either; refusal 0 is none.
//
//   # ..                                             a heading
//   permutation SIZE ENTRIES NUMBER PLACES           a tree permutation, through every call
//   refused SIZE ENTRIES REFUSAL                     what every call refuses
//   shape SIZE NUMBER ROOM REFUSAL ENTRIES           the shape from a number, in so many entries that held 65535
//   on ENTRIES                                       the permutation of the line before, stepped on
//   back ENTRIES                                     the same, stepped back
//   to_pattern SIZE ENTRIES ROOM REFUSAL PLACES      a permutation converted, into so many places that held 255
//   to_permutation SIZE PLACES ROOM REFUSAL ENTRIES  a pattern converted, into so many entries that held 65535
#![tactic(auto)]

mod asked;
mod form;
mod through;

use vectors::{Fields, Way};

fn main() {
    let mut held = [0u16; 36];
    vectors::run(|kind, fields| case(kind, fields, &mut held));
}

// `held` keeps the permutation that the next line may step from.
fn case(kind: &[u8], fields: Fields, held: &mut [u16]) {
    match kind {
        b"permutation" => through::accepted(fields, held),
        b"refused" => through::refused(fields, held),
        b"shape" => asked::shape(fields),
        b"on" => asked::step(fields, held, Way::On),
        b"back" => asked::step(fields, held, Way::Back),
        b"to_pattern" => asked::to_pattern(fields, held),
        b"to_permutation" => asked::to_permutation(fields),
        _ => vectors::word(b"WRONG, no such case"),
    }
}
