// The cases that ask one call.
use crate::state::{self, State};
use run::Run;
use vectors::Fields;

pub(crate) fn start(mut fields: Fields) {
    let size = fields.size();
    let first = fields.number();
    let end = fields.number();
    let started = Run::start(size, first, end);
    vectors::outcome(b"start", started.outcome, fields.refusal());
    state::is(started.run, State::of(&mut fields));
}

// A step that hands out a shape.
pub(crate) fn handed(mut fields: Fields) {
    let stepped = State::of(&mut fields).run().step();
    let text = fields.text();
    let left = state::after(stepped, Ok(1), text, fields.number());
    state::is(left, State::of(&mut fields));
}

// A step that hands out none, with that refusal, or since none is left.
pub(crate) fn stays(mut fields: Fields, expected: Result<u64, u64>) {
    let state = State::of(&mut fields);
    let left = state::after(state.run().step(), expected, b"-", 0);
    state::is(left, state);
}
