// The calls on runs. A run's state is the same struct on both sides; the answers have numbers where those of the calls have an enum.
ghost use Rattle.std.specs.Prelude.{◌≡◌};
ghost use Rattle.run.specs.Calls.{progress_reply};
ghost use Rattle.exports.specs.Crossing.{replied, start_told, step_told};

use crate::Reply;
use run::{Progress, Run};

#[repr(C)]
#[derive(Clone, Copy)]
pub struct Started {
    pub refusal: u64,
    pub run: Run,
}

// `handed` is 1 where a shape was handed out, and 0 at the end and for a refusal.
#[repr(C)]
#[derive(Clone, Copy)]
pub struct Stepped {
    pub refusal: u64,
    pub handed: u64,
    pub run: Run,
    pub places: [u8; 70],
    pub change: u64,
}

#[unsafe(no_mangle)]
pub extern "C" fn spire_run_start(size: usize, first: u64, end: u64) -> Started
    ensures { result ≡ start_told size first end }
{
    let started = Run::start(size, first, end);
    Started {
        refusal: Reply::from(started.outcome).refusal,
        run: started.run,
    }
}

#[unsafe(no_mangle)]
pub extern "C" fn spire_run_step(run: Run) -> Stepped
    ensures { result ≡ step_told run }
{
    let stepped = run.step();
    let reply = Reply::from(stepped.progress);
    let places = stepped.places;
    Stepped {
        refusal: reply.refusal,
        handed: reply.value,
        run: stepped.run,
        places,
        change: stepped.change,
    }
}

impl From<Progress> for Reply {
    ghost from_gives = { λ progress reply. reply ≡ replied (progress_reply progress) };

    fn from(progress: Progress) -> Reply {
        match progress {
            Progress::Handed => Reply {
                refusal: 0,
                value: 1,
            },
            Progress::Done => Reply {
                refusal: 0,
                value: 0,
            },
            Progress::Refused(refusal) => Reply::from(refusal),
        }
    }
}
