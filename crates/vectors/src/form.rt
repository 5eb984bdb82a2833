// The cases that patterns and tree permutations share: the shape from a number, and steps.
use crate::fields::Fields;
use crate::notation::Notation;
use crate::report::{Answer, holds, outcome};
use crate::way::Way;
use crate::written::{Written, lent};
use shape::Refusal;

// One of the two forms of a shape: what its items are, and its calls.
pub trait Form {
    type Item: Notation;
    // What a step answers that is done.
    type Change: Answer;

    fn shape(size: usize, number: u64, items: &mut [Self::Item]) -> Result<(), Refusal>;

    fn number(size: usize, items: &[Self::Item]) -> Result<u64, Refusal>;

    fn step(way: Way, size: usize, items: &mut [Self::Item]) -> Result<Self::Change, Refusal>;

    // A step on that is expected to be done, whatever its change. Prints and answers the change.
    fn any_step_on(size: usize, items: &mut [Self::Item]) -> Self::Change;
}

pub fn shape<F: Form>(mut fields: Fields, space: &mut [F::Item]) {
    let size = fields.size();
    let number = fields.number();
    made::<F>(size, number, Written::of(&mut fields), space);
}

pub fn made<F: Form>(size: usize, number: u64, written: Written, space: &mut [F::Item]) {
    written.by(b"shape", space, |items| F::shape(size, number, items));
}

// The first so many of the held items stepped to those listed.
pub fn stepped<F: Form>(
    way: Way,
    size: usize,
    held: &mut [F::Item],
    room: usize,
    change: F::Change,
    listed: &[u8],
) {
    let Some(items) = lent(held, room) else {
        return;
    };
    let number = F::number(size, items).unwrap_or(0);
    step::<F>(way, size, items, Ok(change), way.leads_from(number));
    holds(b"is", items, listed);
}

// Expects that refusal of both steps, or that change.
pub fn both_ways<F: Form>(size: usize, items: &mut [F::Item], expected: Result<F::Change, u64>) {
    goes::<F>(Way::On, size, items, expected);
    goes::<F>(Way::Back, size, items, expected);
}

// The step back, and the step on that comes back to the shape: both answer the shape's own change. The first shape has no step back, and no
// call answers its change.
pub fn back_and_on<F: Form>(size: usize, items: &mut [F::Item], number: u64, change: F::Change) {
    if number == 0 {
        step::<F>(Way::Back, size, items, Err(7), 0);
        return;
    }
    step::<F>(Way::Back, size, items, Ok(change), number - 1);
    step::<F>(Way::On, size, items, Ok(change), number);
}

// The step on, and the step back from there: both answer the change of the shape there. The last of so many shapes has no step on.
pub fn on_and_back<F: Form>(size: usize, items: &mut [F::Item], number: u64, count: u64) {
    let above = number.wrapping_add(1);
    if above == count {
        step::<F>(Way::On, size, items, Err(6), number);
        return;
    }
    let change = F::any_step_on(size, items);
    outcome(b"number", F::number(size, items), Ok(above));
    step::<F>(Way::Back, size, items, Ok(change), number);
}

// Expects of a step that change, or the refusal of that number; and the number that the items have then.
fn step<F: Form>(
    way: Way,
    size: usize,
    items: &mut [F::Item],
    expected: Result<F::Change, u64>,
    number: u64,
) {
    goes::<F>(way, size, items, expected);
    outcome(b"number", F::number(size, items), Ok(number));
}

fn goes<F: Form>(way: Way, size: usize, items: &mut [F::Item], expected: Result<F::Change, u64>) {
    outcome(way.label(), F::step(way, size, items), expected);
}
