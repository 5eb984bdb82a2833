// A slice through every call: a pattern, or places that are refused.
use crate::form::Pattern;
use vectors::{Fields, Written};

pub(crate) fn accepted(mut fields: Fields, held: &mut [u8]) {
    let size = fields.size();
    let text = fields.text();
    let number = fields.number();
    let change = fields.number();
    let depth = fields.number();
    let head = fields.text();
    let places = vectors::read(text, held);
    whole(size, places, Ok(()), number, depth, head, text);
    let written = Written::done(places.len(), text);
    vectors::made::<Pattern>(size, number, written, &mut [255; 72]);
    vectors::back_and_on::<Pattern>(size, places, number, change);
    vectors::holds(b"is", places, text);
    vectors::on_and_back::<Pattern>(size, places, number, catalan::catalan(size));
    vectors::holds(b"is", places, text);
}

// Each call says why or answers the empty part, and nothing in the slice moves.
pub(crate) fn refused(mut fields: Fields, held: &mut [u8]) {
    let size = fields.size();
    let text = fields.text();
    let refusal = fields.refusal();
    let places = vectors::read(text, held);
    let none = b"-";
    whole(size, places, refusal, 0, 0, none, none);
    vectors::both_ways::<Pattern>(size, places, refusal.and(Ok(0)));
    vectors::holds(b"is", places, text);
}

// The later of a pattern and itself is the pattern.
fn whole(
    size: usize,
    places: &[u8],
    refusal: Result<(), u64>,
    number: u64,
    depth: u64,
    head: &[u8],
    later: &[u8],
) {
    vectors::outcome(b"check", pattern::check(size, places), refusal);
    vectors::outcome(
        b"number",
        pattern::number(size, places),
        refusal.and(Ok(number)),
    );
    vectors::outcome(
        b"depth",
        pattern::depth(size, places),
        refusal.and(Ok(depth)),
    );
    vectors::holds(b"head", pattern::head(size, places), head);
    vectors::holds(b"later", pattern::later(size, places, places), later);
}
