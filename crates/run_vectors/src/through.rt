// Runs from their start to their end.
use crate::state::{self, State};
use run::{Progress, Run};
use vectors::Fields;

// What a list has left, how many of its shapes were handed out, and the figures of the runs so far, added up.
#[derive(Drop)]
struct Walk<'a> {
    list: Fields<'a>,
    shapes: u64,
    figure: u64,
}

pub(crate) fn run(mut fields: Fields) {
    let size = fields.size();
    let first = fields.number();
    let end = fields.number();
    let count = fields.number();
    let figure = fields.number();
    let mut walk = Walk::over(fields);
    walk.run(size, first, end);
    walk.comes_to(count, figure);
}

pub(crate) fn cuts(mut fields: Fields) {
    let size = fields.size();
    let first = fields.number();
    let cut = fields.number();
    let second_cut = fields.number();
    let end = fields.number();
    let count = fields.number();
    let figure = fields.number();
    let mut walk = Walk::over(fields);
    walk.run(size, first, cut);
    walk.run(size, cut, second_cut);
    walk.run(size, second_cut, end);
    walk.comes_to(count, figure);
}

impl<'a> Walk<'a> {
    fn over(list: Fields<'a>) -> Self {
        Walk {
            list,
            shapes: 0,
            figure: 0,
        }
    }

    // One run, which hands out what the list has from there on: stepped for as long as shapes are handed out and the list has more.
    fn run(&mut self, size: usize, first: u64, end: u64) {
        let started = Run::start(size, first, end);
        vectors::outcome(b"start", started.outcome, Ok(()));
        let mut figure = started.run.figure;
        let mut last = started.run.step();
        while matches!(last.progress, Progress::Handed) && !self.list.rest.is_empty() {
            let text = self.list.text();
            let left = state::after(last, Ok(1), text, self.list.number());
            self.shapes = self.shapes.wrapping_add(1);
            figure = left.figure;
            last = left.step();
        }
        // A step at the end is done, and the state stays.
        let left = state::after(last, Ok(0), b"-", 0);
        let ended = State {
            size,
            next: end,
            end,
            figure,
            places: b"-",
        };
        state::is(left, ended);
        self.figure = self.figure.wrapping_add(figure);
    }

    fn comes_to(&self, count: u64, figure: u64) {
        vectors::equals(b"count", self.shapes, count);
        vectors::equals(b"figure", self.figure, figure);
    }
}
