// Every public call for programs in C, under the names of `include/spirecloud.h`. Each function does the work of its call and answers what
// its call answers. Only the answer's form is another, numbers in structs, since no enum and no returned slice crosses to C. A call for each form
// has a function of its own, since C has no generic ones.
#![tactic(auto, using(crate::proofs::Replies::told))]

pub mod conversions;
pub mod patterns;
pub mod permutations;
pub mod records;
pub mod runs;
pub mod sheets;

ghost use Rattle.std.specs.Prelude.{◌≡◌};
ghost use Rattle.shape.specs.Reply.{outcome_reply, numbered_reply, refused};
ghost use Rattle.exports.specs.Crossing.{replied};

use shape::Refusal;

// The refusal's number, 0 for none, and a value, 0 where there is none to tell.
#[repr(C)]
#[derive(Clone, Copy)]
pub struct Reply {
    pub refusal: u64,
    pub value: u64,
}

impl From<Refusal> for Reply {
    ghost from_gives = { λ refusal reply. reply ≡ replied (refused refusal) };

    #[tactic(auto, unfolding(crate::specs::Crossing::replied))]
    fn from(refusal: Refusal) -> Reply {
        Reply {
            refusal: refusal.number(),
            value: 0,
        }
    }
}

impl From<Result<(), Refusal>> for Reply {
    ghost from_gives = { λ outcome reply. reply ≡ replied (outcome_reply outcome) };

    fn from(outcome: Result<(), Refusal>) -> Reply {
        match outcome {
            Ok(()) => Reply {
                refusal: 0,
                value: 0,
            },
            Err(refusal) => Reply::from(refusal),
        }
    }
}

impl From<Result<u64, Refusal>> for Reply {
    ghost from_gives = { λ numbered reply. reply ≡ replied (numbered_reply numbered) };

    fn from(numbered: Result<u64, Refusal>) -> Reply {
        match numbered {
            Ok(value) => Reply { refusal: 0, value },
            Err(refusal) => Reply::from(refusal),
        }
    }
}
