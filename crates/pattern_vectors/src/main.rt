// Document 01's lines and edges and the papers' listings, through the calls on patterns. Each line of the input is a case, which says what
// is expected; it is printed, and after it what the calls answer, compared with that. Places are written as digits, x for 255, - for none;
// refusal 0 is none.
//
//   # ..                                          a heading
//   pattern SIZE PLACES NUMBER CHANGE DEPTH HEAD  a pattern, through every call
//   refused SIZE PLACES REFUSAL                   what every call refuses
//   shape SIZE NUMBER ROOM REFUSAL PLACES         the shape from a number, in so many places that held 255
//   later SIZE FIRST SECOND PLACES                the later of two
//   on PLACES CHANGE                              the pattern of the line before, stepped on
//   back PLACES CHANGE                            the same, stepped back
//   rank SIZE PLACES RANK                         a pattern by its rank in source document 000
#![tactic(auto)]

mod asked;
mod form;
mod through;

use vectors::{Fields, Way};

fn main() {
    let mut held = [0u8; 72];
    vectors::run(|kind, fields| case(kind, fields, &mut held));
}

// `held` keeps the pattern that the next line may step from.
fn case(kind: &[u8], fields: Fields, held: &mut [u8]) {
    match kind {
        b"pattern" => through::accepted(fields, held),
        b"refused" => through::refused(fields, held),
        b"shape" => asked::shape(fields),
        b"later" => asked::later(fields),
        b"on" => asked::step(fields, held, Way::On),
        b"back" => asked::step(fields, held, Way::Back),
        b"rank" => asked::rank(fields, held),
        _ => vectors::word(b"WRONG, no such case"),
    }
}
