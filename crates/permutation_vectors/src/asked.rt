// The cases that ask one call. A slice that is only written may hold anything before: the largest value here.
use crate::form::Permutation;
use vectors::{Fields, Way, Written};

pub(crate) fn shape(fields: Fields) {
    vectors::shape::<Permutation>(fields, &mut [u16::MAX; 36]);
}

// The held permutation stepped to the one listed.
pub(crate) fn step(mut fields: Fields, held: &mut [u16], way: Way) {
    let mut listed = [0u16; 36];
    let text = fields.text();
    let size = vectors::read(text, &mut listed).len();
    vectors::stepped::<Permutation>(way, size, held, size, (), text);
}

pub(crate) fn to_pattern(mut fields: Fields, held: &mut [u16]) {
    let size = fields.size();
    let entries = vectors::read(fields.text(), held);
    as_places(size, entries, Written::of(&mut fields));
}

pub(crate) fn as_places(size: usize, entries: &[u16], written: Written) {
    written.by(b"to_pattern", &mut [255; 72], |places| {
        convert::to_pattern(size, entries, places)
    });
}

pub(crate) fn to_permutation(mut fields: Fields) {
    let size = fields.size();
    let pattern = fields.text();
    as_entries(size, pattern, Written::of(&mut fields));
}

pub(crate) fn as_entries(size: usize, pattern: &[u8], written: Written) {
    let mut places = [0u8; 72];
    let places = vectors::read(pattern, &mut places);
    written.by(b"to_permutation", &mut [u16::MAX; 36], |entries| {
        convert::to_permutation(size, places, entries)
    });
}
