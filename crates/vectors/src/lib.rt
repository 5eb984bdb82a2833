// What the programs share that run vectors, cases that stand as lines of text: going over the lines, a line's fields, how the items of a
// slice are written there, and what is printed of a case.
//
// Nothing here or in the programs asks for memory, and what fails to be printed is passed over: items stand in arrays that the caller lends,
// letters in one of `Text`, and io reads and writes. A Vec or std's streams would let a program end with an error where it ends with none. What
// only prints has no contract: no clause can say what a terminal is given.
#![tactic(auto)]

mod cases;
mod fields;
mod form;
mod notation;
mod report;
mod way;
mod written;

pub use cases::{run, run_below};
pub use fields::Fields;
pub use form::{Form, back_and_on, both_ways, made, on_and_back, shape, stepped};
pub use notation::{Notation, Text, read};
pub use report::{Answer, are, decimal, end_line, equals, holds, items, outcome, print, word};
pub use way::Way;
pub use written::Written;
