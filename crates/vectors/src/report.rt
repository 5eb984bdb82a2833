// What is printed of a case: one answer after the other, each after a space and its label. An answer that is not the expected one is
// followed by WRONG and what was expected.
use crate::notation::{Notation, Text};
use shape::Refusal;

// The file descriptor of standard output.
const STDOUT_FILENO: i32 = 1;

pub fn print(text: &[u8]) {
    io::write_all(STDOUT_FILENO, text);
}

pub fn word(text: &[u8]) {
    print(b" ");
    print(text);
}

pub fn decimal(number: u64) {
    print(b" ");
    io::print_decimal(STDOUT_FILENO, number);
}

pub fn items<T: Notation>(items: &[T]) {
    word(Text::of(items).letters());
}

pub fn end_line() {
    print(b"\n");
}

// Expects the items that the text shows.
pub fn holds<T: Notation>(label: &[u8], got: &[T], expected: &[u8]) {
    let text = Text::of(got);
    word(label);
    word(text.letters());
    if text.letters() != expected {
        word(b"WRONG, expected");
        word(expected);
    }
}

// Whether the text shows these items: for a case of so many answers that only the wrong ones are printed.
pub fn are<T: Notation>(got: &[T], expected: &[u8]) -> bool {
    Text::of(got).letters() == expected
}

// What a call answers that is done.
pub trait Answer: Copy {
    fn show(self);

    // Where it is not the expected one, prints that.
    fn compare(self, expected: Self);
}

impl Answer for () {
    fn show(self) {
        word(b"done");
    }

    fn compare(self, _: ()) {}
}

impl Answer for u64 {
    fn show(self) {
        decimal(self);
    }

    fn compare(self, expected: u64) {
        if self != expected {
            wrong(b"number", expected);
        }
    }
}

// Expects that answer, or the refusal of that number.
pub fn outcome<T: Answer>(label: &[u8], got: Result<T, Refusal>, expected: Result<T, u64>) {
    word(label);
    match got {
        Ok(answer) => {
            answer.show();
            match expected {
                Ok(other) => answer.compare(other),
                Err(refusal) => wrong(b"refusal", refusal),
            }
        }
        Err(refusal) => no(refusal, expected.err()),
    }
}

// Expects that number.
pub fn equals(label: &[u8], got: u64, expected: u64) {
    outcome(label, Ok(got), Ok(expected));
}

// A refusal, where one is expected that one; 0 is none.
fn no(given: Refusal, expected: Option<u64>) {
    let number = given.number();
    word(b"no");
    decimal(number);
    if expected != Some(number) {
        wrong(b"refusal", expected.unwrap_or(0));
    }
}

fn wrong(label: &[u8], expected: u64) {
    word(b"WRONG, expected");
    word(label);
    decimal(expected);
}
