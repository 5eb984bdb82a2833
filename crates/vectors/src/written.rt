// What a call writes into a slice that is lent to it.
ghost use Rattle.std.specs.Prelude.{◌≡◌, Ok};
ghost use Rattle.vectors.specs.Line.{field, behind, number_of, expected_of};

use crate::fields::Fields;
use crate::notation::Notation;
use crate::report::{holds, outcome, word};
use shape::Refusal;

// What is expected of such a call: lent so many items, it is done or refuses with that number, and the items are those of the text then.
#[derive(Clone, Copy)]
pub struct Written<'a> {
    pub room: usize,
    pub refusal: Result<(), u64>,
    pub text: &'a [u8],
}

impl<'a> Written<'a> {
    // What the next three fields say.
    pub fn of(fields: &mut Fields<'a>) -> Self
        ensures room { result.room ≡ number_of fields.old.rest.now }
        ensures refusal { result.refusal ≡ expected_of (number_of (behind fields.old.rest.now)) }
        ensures text { result.text.now ≡ field (behind (behind fields.old.rest.now)) }
        ensures rest { fields.new.rest.now ≡ behind (behind (behind fields.old.rest.now)) }
    {
        Written {
            room: fields.size(),
            refusal: fields.refusal(),
            text: fields.text(),
        }
    }

    // So many items, done.
    pub fn done(room: usize, text: &'a [u8]) -> Self
        ensures room { result.room ≡ room }
        ensures refusal { result.refusal ≡ Ok tt }
        ensures text { result.text.now ≡ text.now }
    {
        Written {
            room,
            refusal: Ok(()),
            text,
        }
    }

    // Expects that of the call, which is lent items of the space.
    pub fn by<T: Notation, F: FnOnce(&mut [T]) -> Result<(), Refusal>>(
        self,
        label: &[u8],
        space: &mut [T],
        call: F,
    )
        requires { F.IsAlwaysCallable call }
    {
        let Some(items) = lent(space, self.room) else {
            return;
        };
        outcome(label, call(items), self.refusal);
        holds(b"is", items, self.text);
    }
}

// The first so many items of the space. Where it has fewer, that is printed.
pub(crate) fn lent<T: Notation>(space: &mut [T], room: usize) -> Option<&mut [T]> {
    let items = space.get_mut(..room);
    if items.is_none() {
        word(b"WRONG, too many");
        word(T::NAME);
    }
    items
}
