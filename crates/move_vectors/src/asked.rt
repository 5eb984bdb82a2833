// The cases of one move, and of two one after the other.
use crate::form::Form;
use vectors::Fields;

pub(crate) fn one<T: Form>(mut fields: Fields, space: &mut [T]) {
    let size = fields.size();
    let items = vectors::read(fields.text(), space);
    let distance = fields.distance();
    let refusal = fields.refusal();
    vectors::outcome(b"move", T::move_by(size, distance, items), refusal);
    vectors::holds(b"is", items, fields.text());
}

pub(crate) fn chain<T: Form>(mut fields: Fields, space: &mut [T]) {
    let size = fields.size();
    let from = fields.text();
    let first = fields.distance();
    let second = fields.distance();
    let both = fields.distance();
    let to = fields.text();
    let items = vectors::read(from, space);
    go(size, first, items);
    go(size, second, items);
    vectors::holds(b"is", items, to);
    let items = vectors::read(from, space);
    go(size, both, items);
    vectors::holds(b"is", items, to);
}

fn go<T: Form>(size: usize, distance: i64, items: &mut [T]) {
    vectors::outcome(b"move", T::move_by(size, distance, items), Ok(()));
}
