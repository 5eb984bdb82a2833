// A run's state as a line shows it, and what a step answers.
use run::{Progress, Run, Stepped};
use shape::Refusal;
use vectors::Fields;

// The state that five fields show.
#[derive(Clone, Copy)]
pub(crate) struct State<'a> {
    pub(crate) size: usize,
    pub(crate) next: u64,
    pub(crate) end: u64,
    pub(crate) figure: u64,
    pub(crate) places: &'a [u8],
}

impl<'a> State<'a> {
    pub(crate) fn of(fields: &mut Fields<'a>) -> Self {
        State {
            size: fields.size(),
            next: fields.number(),
            end: fields.number(),
            figure: fields.number(),
            places: fields.text(),
        }
    }

    pub(crate) fn run(self) -> Run {
        Run {
            size: self.size,
            next: self.next,
            end: self.end,
            figure: self.figure,
            places: seventy(self.places),
        }
    }
}

// The places that a text shows, and 0 behind them.
fn seventy(text: &[u8]) -> [u8; 70] {
    let mut places = [0u8; 70];
    if text.len() > 70 {
        vectors::word(b"WRONG, too many places");
    }
    vectors::read(text, &mut places);
    places
}

// Expects that state.
pub(crate) fn is(got: Run, expected: State) {
    vectors::equals(b"size", got.size as u64, expected.size as u64);
    vectors::equals(b"next", got.next, expected.next);
    vectors::equals(b"end", got.end, expected.end);
    vectors::equals(b"figure", got.figure, expected.figure);
    holds(got.places, expected.places);
}

// Expects the places that the text shows, and 0 behind them. Where they are others, all seventy are printed.
fn holds(places: [u8; 70], text: &[u8]) {
    if places == seventy(text) {
        vectors::word(b"places");
        vectors::word(text);
    } else {
        vectors::holds(b"places", &places, text);
    }
}

// Expects of a step that refusal, or so many shapes handed out; and those places and that change. Answers the state that it left.
pub(crate) fn after(got: Stepped, handed: Result<u64, u64>, text: &[u8], change: u64) -> Run {
    vectors::outcome(b"handed", reply(got.progress), handed);
    holds(got.places, text);
    vectors::equals(b"change", got.change, change);
    got.run
}

// One shape handed out, none, or a refusal.
fn reply(got: Progress) -> Result<u64, Refusal> {
    match got {
        Progress::Handed => Ok(1),
        Progress::Done => Ok(0),
        Progress::Refused(refusal) => Err(refusal),
    }
}
