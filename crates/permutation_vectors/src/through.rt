// Entries through every call: a tree permutation, or what is refused.
ghost use Rattle.std.specs.Prelude.{◌≤◌};

use crate::asked;
use crate::form::Permutation;
use vectors::{Fields, Written};

pub(crate) fn accepted(mut fields: Fields, held: &mut [u16]) {
    let size = fields.size();
    let text = fields.text();
    let number = fields.number();
    let pattern = fields.text();
    let entries = vectors::read(text, held);
    only_read(size, entries, Ok(()), number, pattern);
    let written = Written::done(entries.len(), text);
    asked::as_entries(size, pattern, written);
    vectors::made::<Permutation>(size, number, written, &mut [u16::MAX; 36]);
    vectors::back_and_on::<Permutation>(size, entries, number, ());
    vectors::holds(b"is", entries, text);
    vectors::on_and_back::<Permutation>(size, entries, number, catalan::catalan(size));
    vectors::holds(b"is", entries, text);
}

// Each call says why, and nothing moves in the entries, nor in the right number of places to be written.
pub(crate) fn refused(mut fields: Fields, held: &mut [u16]) {
    let size = fields.size();
    let text = fields.text();
    let refusal = fields.refusal();
    let entries = vectors::read(text, held);
    let unwritten = [b'x'; 72];
    only_read(size, entries, refusal, 0, &unwritten[..places_of(size)]);
    vectors::both_ways::<Permutation>(size, entries, refusal);
    vectors::holds(b"is", entries, text);
}

// The calls that only read the entries; as many places are written as the pattern's text has letters.
fn only_read(size: usize, entries: &[u16], refusal: Result<(), u64>, number: u64, pattern: &[u8]) {
    vectors::outcome(b"check", permutation::check(size, entries), refusal);
    vectors::outcome(
        b"number",
        permutation::number(size, entries),
        refusal.and(Ok(number)),
    );
    let written = Written {
        room: pattern.len(),
        refusal,
        text: pattern,
    };
    asked::as_places(size, entries, written);
}

// Twice the size; for a size that is refused anyway, as many as there are.
fn places_of(size: usize) -> usize
    ensures { result ≤ 72 }
{
    match size {
        1..=36 => 2 * size,
        _ => 72,
    }
}
