// What a shape is. The meanings stand in `specs/`, and what is proved of them in `proofs/`; the code here is what every call answers with,
// and what it asks first.
#![tactic(auto)]

ghost use Rattle.std.specs.Prelude.{◌≡◌, ◌≤◌};
ghost use Rattle.catalan.specs.Count.{largest_size};
ghost use Rattle.shape.specs.Reply.{refusal_number};
ghost use Rattle.shape.specs.Check.{length_of, room_of};

// How a shape is written.
#[derive(Clone, Copy)]
pub enum Form {
    Pattern,
    Permutation,
    // packed into bytes, with its size
    Record,
}

// Why a call refuses, in the order of the refusals' numbers, 1 to 11. Where several apply, a call gives the first, but for the
// exceptions that the scope lists.
#[derive(Clone, Copy, PartialEq, Eq)]
pub enum Refusal {
    // 0 or above 35
    Size,
    // a lent slice is not as long as the size asks
    Length,
    // a place above 1, an entry outside 1..n or seen earlier
    Entry,
    // no feasible pattern, no tree permutation
    Shape,
    // C(n) or more
    Number,
    // no successor
    Last,
    // no predecessor
    First,
    // a run that ends before it starts or past the last shape
    Range,
    // a run's state whose parts do not belong together
    State,
    // no packed record
    Record,
    // no line that asks for a sheet
    Input,
}

impl Refusal {
    // The number under which users know it. A `match` and no cast: `refusal_answers_one_number` gives two refusals one number, which
    // discriminants cannot have.
    pub fn number(self) -> u64
        ensures { result ≡ refusal_number self }
    {
        match self {
            Refusal::Size => 1,
            Refusal::Length => 2,
            Refusal::Entry => 3,
            Refusal::Shape => 4,
            Refusal::Number => 5,
            Refusal::Last => 6,
            Refusal::First => 7,
            Refusal::Range => 8,
            Refusal::State => 9,
            Refusal::Record => 10,
            Refusal::Input => 11,
        }
    }
}

// Whether the size is 1 to 35, and a slice of that length as long as the form asks.
#[tactic(auto, unfolding(crate::specs::Check::room_of))]
pub fn room(form: Form, size: usize, length: usize) -> Result<(), Refusal>
    ensures { result ≡ room_of (length_of form) size length }
{
    if size == 0 || size > 35 {
        return Err(Refusal::Size);
    }
    if length != length_of(form, size) {
        return Err(Refusal::Length);
    }
    Ok(())
}

fn length_of(form: Form, size: usize) -> usize
    requires { size ≤ largest_size }
    ensures { result ≡ length_of form size }
{
    match form {
        Form::Pattern => 2 * size,
        Form::Permutation => size,
        Form::Record => 1 + (size + 3) / 4,
    }
}
