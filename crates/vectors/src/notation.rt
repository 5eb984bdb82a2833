// How the items of a slice are written in a line: places as one digit each, x for 255, entries as decimals with commas between them, and - for
// none of either.
ghost use Rattle.std.specs.Prelude.{◌≤◌, length};

use crate::fields::{digits, place};

// A text that takes letters as long as there is room: for the entries of the longest permutation, and more.
#[derive(Drop)]
pub struct Text {
    letters: [u8; 216],
    count: usize,
    ghost fits: { count ≤ 216 },
}

impl Text {
    // The text of these items.
    pub(crate) fn of<T: Notation>(items: &[T]) -> Self {
        let mut text = Text {
            letters: [0; 216],
            count: 0,
        };
        if items.is_empty() {
            text.push(b'-');
        }
        T::spell(items, &mut text);
        text
    }

    pub(crate) fn letters(&self) -> &[u8] {
        &self.letters[..self.count]
    }

    fn push(&mut self, letter: u8) {
        if self.count < self.letters.len() {
            self.letters[self.count] = letter;
            self.count += 1;
        }
    }

    fn push_decimal(&mut self, number: u64) {
        let mut digits = [0u8; 20];
        let count = io::decimal(number, &mut digits);
        for digit in &digits[..count] {
            self.push(*digit);
        }
    }
}

// The items that a text shows, put into the space, as many as there is room for.
pub fn read<'a, T: Notation>(text: &[u8], space: &'a mut [T]) -> &'a mut [T]
    ensures { length result.now ≤ length space.old }
{
    if text == b"-".as_slice() {
        return &mut space[..0];
    }
    T::read(text, space)
}

// What is one item of such a slice.
pub trait Notation: Copy {
    // What the items are called.
    const NAME: &'static [u8];

    // As `read`, for any text but -.
    fn read<'a>(text: &[u8], space: &'a mut [Self]) -> &'a mut [Self]
        ensures { length result.now ≤ length space.old };

    fn spell(items: &[Self], text: &mut Text);
}

// Places.
impl Notation for u8 {
    const NAME: &'static [u8] = b"places";

    fn read<'a>(text: &[u8], space: &'a mut [u8]) -> &'a mut [u8] {
        let count = text.len().min(space.len());
        for (slot, letter) in space.iter_mut().zip(text) {
            *slot = place(*letter);
        }
        &mut space[..count]
    }

    // A digit, x for 255, and ? for what no vector has, so that it is equal to none.
    fn spell(places: &[u8], text: &mut Text) {
        for place in places {
            text.push(match *place {
                0..=9 => b'0' + *place,
                255 => b'x',
                _ => b'?',
            });
        }
    }
}

// Entries.
impl Notation for u16 {
    const NAME: &'static [u8] = b"entries";

    fn read<'a>(text: &[u8], space: &'a mut [u16]) -> &'a mut [u16] {
        let is_comma = |letter: &u8| *letter == b',';
        let count = text.split(is_comma).count().min(space.len());
        for (slot, entry) in space.iter_mut().zip(text.split(is_comma)) {
            *slot = u16::try_from(digits(entry)).unwrap_or(u16::MAX);
        }
        &mut space[..count]
    }

    fn spell(entries: &[u16], text: &mut Text) {
        for (k, entry) in entries.iter().enumerate() {
            if k > 0 {
                text.push(b',');
            }
            text.push_decimal(u64::from(*entry));
        }
    }
}
