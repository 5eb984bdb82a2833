// Document 01's runs and its rules for their states, through the calls on runs. Each line of the input is a case, which says what is
// expected; it is printed, and after it what the calls answer, compared with that. Places are written as digits, x for 255; those of the
// seventy that are not written are 0, and - is none written. Refusal 0 is none. A STATE is five fields: SIZE NEXT END FIGURE PLACES. A LIST
// is two for each shape, in order: PLACES CHANGE.
//
//   # ..                                           a heading
//   start SIZE FIRST END REFUSAL STATE             a start, and the state that it answers
//   handed STATE PLACES CHANGE STATE               a step that hands out a shape, and the state that it leaves
//   done STATE                                     a step that finds no shape left, and the state stays
//   refused STATE                                  a step that is refused with 9, and the state stays
//   run SIZE FIRST END COUNT FIGURE LIST           a run, stepped to its end
//   cuts SIZE FIRST CUT CUT END COUNT FIGURE LIST  three runs, cut at two numbers: the lists joined, the figures added
#![tactic(auto)]

mod asked;
mod state;
mod through;

use vectors::Fields;

fn main() {
    vectors::run(case);
}

fn case(kind: &[u8], fields: Fields) {
    match kind {
        b"start" => asked::start(fields),
        b"handed" => asked::handed(fields),
        b"done" => asked::stays(fields, Ok(0)),
        b"refused" => asked::stays(fields, Err(9)),
        b"run" => through::run(fields),
        b"cuts" => through::cuts(fields),
        _ => vectors::word(b"WRONG, no such case"),
    }
}
