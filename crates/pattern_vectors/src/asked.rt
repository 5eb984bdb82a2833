// The cases that ask one call.
use crate::form::Pattern;
use vectors::{Fields, Way};

// A slice that is only written may hold anything before: 255 here.
pub(crate) fn shape(fields: Fields) {
    vectors::shape::<Pattern>(fields, &mut [255; 72]);
}

pub(crate) fn later(mut fields: Fields) {
    let mut first = [0u8; 72];
    let mut second = [0u8; 72];
    let size = fields.size();
    let first = vectors::read(fields.text(), &mut first);
    let second = vectors::read(fields.text(), &mut second);
    let later = pattern::later(size, first, second);
    vectors::holds(b"later", later, fields.text());
}

// The held pattern stepped to the one listed.
pub(crate) fn step(mut fields: Fields, held: &mut [u8], way: Way) {
    let text = fields.text();
    let room = text.len();
    vectors::stepped::<Pattern>(way, room / 2, held, room, fields.number(), text);
}

// 000 lists from the last pattern to the first, and ranks from 1.
pub(crate) fn rank(mut fields: Fields, held: &mut [u8]) {
    let size = fields.size();
    let places = vectors::read(fields.text(), held);
    let number = catalan::catalan(size).wrapping_sub(fields.number());
    vectors::outcome(b"number", pattern::number(size, places), Ok(number));
}
