// The sheet library. An input line opens a sheet, and the sheet is handed out in pieces, each as many whole lines as a lent buffer has room
// for. A sheet is a value that its holder may keep and hand in again, so every piece asks first whether its parts belong together.
#![tactic(auto)]

mod shapes;

ghost use Rattle.std.specs.Prelude.{◌≡◌, length};
ghost use Rattle.shape.specs.Reply.{refusal_number, numbered_reply};
ghost use Rattle.run.specs.Calls.{progress};
ghost use Rattle.text.specs.Text.{written};
ghost use Rattle.lines.specs.Calls.{refusing, open_sheet, walks, began as has_begun, over as is_over, keeps};
ghost use Rattle.lines.specs.Calls.{fill_check, piece_text, piece_sheet, fill_reply, fill_sheet, fill_end};

use run::{Progress, Run};
use shape::Refusal;

// Numbers and flags, since programs in C hold a sheet too, and no option crosses to C.
#[repr(C)]
#[derive(Clone, Copy)]
pub struct Sheet {
    // the number of the refusal that the NO line tells, 0 for none
    pub refusal: u64,
    // whether the first line has been handed out
    pub opened: bool,
    // whether the last line has
    pub ended: bool,
    // the number of the run's first shape
    pub first: u64,
    // the shapes whose lines are still to come, and the figure so far
    pub run: Run,
}

// What filling a buffer answers: how many bytes of it were written, 0 once the sheet has ended, and the sheet as it then stands, which the clause
// `sheet_value` says of a refusal too.
#[derive(Clone, Copy)]
pub struct Filled {
    pub bytes: Result<u64, Refusal>,
    pub sheet: Sheet,
}

impl Sheet {
    // The sheet that an input asks for. A bad input opens one too, that of its NO line.
    #[tactic(auto, using(crate::proofs::Answers::answers))]
    pub fn open(input: &[u8]) -> Sheet
        ensures { result ≡ open_sheet input.now }
    {
        let Some(asked) = text::read(input) else {
            return Sheet::refused(Refusal::Input);
        };
        let started = Run::start(asked.size as usize, asked.first, asked.end);
        match started.outcome {
            Err(refusal) => Sheet::refused(refusal),
            Ok(()) => Sheet {
                refusal: 0,
                opened: false,
                ended: false,
                first: asked.first,
                run: started.run,
            },
        }
    }

    // The sheet's next lines, as many as there is room for, from the start of the buffer on.
    #[tactic(auto, using(crate::proofs::Answers::fills))]
    pub fn fill(self, out: &mut [u8]) -> Filled
        ensures bytes_value { numbered_reply result.bytes ≡ fill_reply self (length out.old) }
        ensures sheet_value { result.sheet ≡ fill_sheet self (length out.old) }
        ensures out_after { out.new ≡ fill_end self out.old }
    {
        match self.check(out.len()) {
            Err(refusal) => Filled {
                bytes: Err(refusal),
                sheet: self,
            },
            Ok(()) => self.hand_out(out),
        }
    }

    // The sheet that only tells a refusal.
    #[tactic(auto, using(crate::proofs::Answers::answers))]
    fn refused(refusal: Refusal) -> Sheet
        ensures { result ≡ refusing (refusal_number refusal) }
    {
        Sheet {
            refusal: refusal.number(),
            opened: false,
            ended: false,
            first: 0,
            run: Run::NONE,
        }
    }

    // What is asked before a piece is handed out.
    #[tactic(auto, using(crate::proofs::Tests::tests))]
    fn check(self, room: usize) -> Result<(), Refusal>
        ensures { result ≡ fill_check self room }
    {
        if room < 256 {
            return Err(Refusal::Length);
        }
        if !self.belongs() {
            return Err(Refusal::State);
        }
        Ok(())
    }

    // Whether the parts of a sheet belong together.
    #[tactic(auto, using(crate::proofs::Tests::tests))]
    fn belongs(self) -> bool
        ensures { result ≡ keeps self }
    {
        if self.refusal != 0 {
            return self.refusal <= 11;
        }
        let run = self.run;
        can_go_on(run)
            && began(self.opened, self.first, run.next)
            && over(self.ended, run.next, run.end)
    }

    // The next piece. The run's last line, its first, or a line that tells a refusal is a piece of its own.
    #[tactic(auto, using(crate::proofs::Answers::pieces))]
    fn hand_out(self, out: &mut [u8]) -> Filled
        requires { fill_check self (length out.old) ≡ Ok tt }
        ensures bytes_value { numbered_reply result.bytes ≡ fill_reply self (length out.old) }
        ensures sheet_value { result.sheet ≡ piece_sheet self (length out.old) }
        ensures out_after { out.new ≡ written out.old 0 (piece_text self (length out.old)) }
    {
        let run = self.run;
        let ended = Sheet {
            ended: true,
            ..self
        };
        if self.ended {
            return handed(0, self);
        }
        if self.refusal != 0 {
            let bytes = text::put_no(self.refusal, out);
            return handed(bytes, ended);
        }
        if !self.opened {
            let bytes = text::put_run(run.size, self.first, run.end, out);
            return handed(
                bytes,
                Sheet {
                    opened: true,
                    ..self
                },
            );
        }
        if run.next == run.end {
            let bytes = text::put_end(run.end - self.first, run.figure, out);
            return handed(bytes, ended);
        }
        let listed = shapes::list(run, out);
        handed(
            listed.bytes,
            Sheet {
                run: listed.run,
                ..self
            },
        )
    }
}

// Whether a run could step, or is done.
#[tactic(auto, using(crate::proofs::Tests::tests))]
fn can_go_on(run: Run) -> bool
    ensures { result ≡ walks (progress run) }
{
    match run.step().progress {
        Progress::Handed | Progress::Done => true,
        Progress::Refused(_) => false,
    }
}

fn began(opened: bool, first: u64, next: u64) -> bool
    ensures { result ≡ has_begun opened first next }
{
    if opened { first <= next } else { first == next }
}

fn over(ended: bool, next: u64, end: u64) -> bool
    ensures { result ≡ is_over ended next end }
{
    !ended || next == end
}

// What a piece of so many bytes answers, and the sheet that it leaves.
fn handed(bytes: usize, sheet: Sheet) -> Filled
    ensures { result ≡ record { bytes = Ok bytes; sheet = sheet } }
{
    Filled {
        bytes: Ok(bytes as u64),
        sheet,
    }
}
