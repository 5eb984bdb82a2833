// Moves by a signed distance, through the calls on patterns, in the local order, and on tree permutations, in the natural order. Each line
// of the input is a case, which says what is expected; it is printed, and after it what the calls answer, compared with that. Places are
// written as digits, x for 255, entries as decimals with commas, - for none of either; refusal 0 is none.
//
//   # ..                                                               a heading
//   patterns SIZE PLACES PLACES ..                                     every pattern of the size, in order
//   permutations SIZE ENTRIES ENTRIES ..                               every tree permutation of the size, in order
//   pattern SIZE PLACES DISTANCE REFUSAL PLACES                        a move, and what the slice holds after it
//   permutation SIZE ENTRIES DISTANCE REFUSAL ENTRIES                  the same
//   pattern_chain SIZE PLACES DISTANCE DISTANCE DISTANCE PLACES        two moves, and one by their sum from the same pattern
//   permutation_chain SIZE ENTRIES DISTANCE DISTANCE DISTANCE ENTRIES  the same
//
// Each shape of a whole list is moved to each, itself among them, and one past either end. Only how many of these moves come out is
// printed, and those that do not.
#![tactic(auto)]

mod asked;
mod form;
mod listed;

use vectors::Fields;

fn main() {
    vectors::run(case);
}

fn case(kind: &[u8], fields: Fields) {
    let mut places = [0u8; 72];
    let mut entries = [0u16; 36];
    match kind {
        b"patterns" => listed::whole(fields, &mut places),
        b"permutations" => listed::whole(fields, &mut entries),
        b"pattern" => asked::one(fields, &mut places),
        b"permutation" => asked::one(fields, &mut entries),
        b"pattern_chain" => asked::chain(fields, &mut places),
        b"permutation_chain" => asked::chain(fields, &mut entries),
        _ => vectors::word(b"WRONG, no such case"),
    }
}
