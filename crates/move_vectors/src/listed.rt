// A whole list in its order: every shape moved to every shape, and past both ends.
use crate::form::Form;
use vectors::Fields;

pub(crate) fn whole<T: Form>(mut list: Fields, space: &mut [T]) {
    let size = list.size();
    let within = moves(size, list, space);
    let past = past_ends(size, list, space);
    vectors::word(b"moves");
    vectors::decimal(within);
    vectors::word(b"past");
    vectors::decimal(past);
}

// How many moves within the list come out.
fn moves<T: Form>(size: usize, list: Fields, space: &mut [T]) -> u64 {
    let mut right = 0u64;
    for (i, from) in list.enumerate() {
        right = right.wrapping_add(moves_from(size, i, from, list, space));
    }
    right
}

// From number i. In loops, since a move that does not come out is printed on the way.
fn moves_from<T: Form>(size: usize, i: usize, from: &[u8], list: Fields, space: &mut [T]) -> u64 {
    let mut right = 0u64;
    for (j, to) in list.enumerate() {
        let comes_out = arrives(size, between(i, j), from, Ok(()), to, space);
        right = right.wrapping_add(u64::from(comes_out));
    }
    right
}

// How many moves one past the last shape and one past the first are refused.
fn past_ends<T: Form>(size: usize, list: Fields, space: &mut [T]) -> u64 {
    let mut right = 0u64;
    let end = list.count();
    for (i, from) in list.enumerate() {
        let on = arrives(size, between(i, end), from, Err(6), from, space);
        let before_first = between(i, 0).saturating_sub(1);
        let back = arrives(size, before_first, from, Err(7), from, space);
        right = right
            .wrapping_add(u64::from(on))
            .wrapping_add(u64::from(back));
    }
    right
}

// From number i to number j.
fn between(i: usize, j: usize) -> i64 {
    0i64.saturating_add_unsigned(j as u64)
        .saturating_sub_unsigned(i as u64)
}

// Expects of a move that it is done, or that refusal, and that shape in the slice. Where it answers anything else, that is printed.
fn arrives<T: Form>(
    size: usize,
    distance: i64,
    from: &[u8],
    expected: Result<(), u64>,
    to: &[u8],
    space: &mut [T],
) -> bool {
    let items = vectors::read(from, space);
    let got = T::move_by(size, distance, items);
    if got.map_err(|refusal| refusal.number()) == expected && vectors::are(items, to) {
        return true;
    }
    vectors::word(from);
    vectors::outcome(b"move", got, expected);
    vectors::holds(b"is", items, to);
    vectors::end_line();
    false
}
