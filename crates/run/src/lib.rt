// Runs: a stretch of the local list, handed out shape by shape, with the figure so far. A run's state is a value that its holder may keep,
// send and hand in again, so every step asks first whether its parts belong together.
#![tactic(auto)]

mod state;

ghost use Rattle.std.specs.Prelude.{◌≡◌};
ghost use Rattle.shape.specs.Reply.{outcome_reply};
ghost use Rattle.run.specs.State.{no_places};
ghost use Rattle.run.specs.Calls.{progress_reply, start_reply, start_run, step_reply, step_run, step_places, step_change};

use shape::Refusal;

// Laid out as C lays it out, since a state is handed to programs in C as it is.
#[repr(C)]
#[derive(Clone, Copy)]
pub struct Run {
    pub size: usize,
    // the number of the shape that comes next
    pub next: u64,
    // the number after the run's last shape
    pub end: u64,
    // the changes handed out so far, added up
    pub figure: u64,
    // the pattern that comes next, and 0 behind it; all 0 at the end
    pub places: [u8; 70],
}

// What a start answers: the run, all 0 where it was refused. No `Result` of a run, since the clause `run_value` says of a refused start too what
// state it gives.
#[derive(Clone, Copy)]
pub struct Started {
    pub outcome: Result<(), Refusal>,
    pub run: Run,
}

// A shape was handed out, none is left, or the state was refused.
#[derive(Clone, Copy)]
pub enum Progress {
    Handed,
    Done,
    Refused(Refusal),
}

// What a step answers: the run moved on, and the pattern that it handed out with its change, all 0 where it handed out none. The clauses
// `run_value`, `places_value` and `change_value` speak of these at the end and at a refusal too, so none is held by a case of `Progress`.
#[derive(Clone, Copy)]
pub struct Stepped {
    pub progress: Progress,
    pub run: Run,
    pub places: [u8; 70],
    pub change: u64,
}

impl Run {
    // The state of no run, which a refused start gives.
    pub const NONE: Run = Run {
        size: 0,
        next: 0,
        end: 0,
        figure: 0,
        places: [0; 70],
    };

    // A run through the shapes numbered from `first` on, up to the one before `end`.
    #[tactic(auto, using(crate::proofs::Answers::starts), unfolding(crate::specs::Calls::start_reply, crate::specs::Calls::no_run, crate::specs::Calls::start_run))]
    pub fn start(size: usize, first: u64, end: u64) -> Started
        ensures outcome_value { outcome_reply result.outcome ≡ start_reply size first end }
        ensures run_value { result.run ≡ start_run size first end }
    {
        let outcome = state::range(size, first, end);
        if outcome.is_err() {
            return Started {
                outcome,
                run: Run::NONE,
            };
        }
        Started {
            outcome,
            run: Run {
                size,
                next: first,
                end,
                figure: 0,
                places: state::places_at(size, first, end),
            },
        }
    }

    // The shape that comes next, with its change, and the run moved on.
    #[tactic(auto, using(crate::proofs::Answers::steps))]
    pub fn step(mut self) -> Stepped
        ensures progress_value { progress_reply result.progress ≡ step_reply self }
        ensures run_value { result.run ≡ step_run self }
        ensures places_value { result.places ≡ step_places self }
        ensures change_value { result.change ≡ step_change self }
    {
        if !self.belongs() {
            return self.stays(Progress::Refused(Refusal::State));
        }
        if self.next == self.end {
            return self.stays(Progress::Done);
        }
        let places = self.places;
        let change = local::change(self.size, &places[..2 * self.size]);
        if self.figure > u64::MAX - change {
            return self.stays(Progress::Refused(Refusal::State));
        }
        let after = self.places_after();
        self.places = after;
        self.next += 1;
        self.figure += change;
        Stepped {
            progress: Progress::Handed,
            run: self,
            places,
            change,
        }
    }

    // Nothing is handed out, and the state is as it was.
    fn stays(self, progress: Progress) -> Stepped
        ensures { (result.progress ≡ progress) × (result.run ≡ self) × (result.places ≡ no_places) × (result.change ≡ 0) }
    {
        Stepped {
            progress,
            run: self,
            places: [0; 70],
            change: 0,
        }
    }
}
