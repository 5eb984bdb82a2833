// The calls on tree permutations, in the natural order. Each takes every input: what is no tree permutation of the size, no number below
// C(n), or has no neighbour, is refused before anything is written. Crate `pattern` has the same calls in the local order: they differ in the
// form, in the work that is called, and in what a step answers, so that one generic call would take a trait with a member for each line that
// it saves.
#![tactic(auto)]

mod faults;

ghost use Rattle.std.specs.Prelude.{◌≡◌};
ghost use Rattle.shape.specs.Form.{permutations};
ghost use Rattle.shape.specs.Numbering.{natural};
ghost use Rattle.shape.specs.Reply.{outcome_reply, numbered_reply};
ghost use Rattle.shape.specs.Calls.{check_reply, number_reply, shape_reply, shape_end};
ghost use Rattle.shape.specs.Calls.{successor_reply, successor_end, predecessor_reply, predecessor_end};
ghost use Rattle.shape.specs.Move.{move_reply, move_end};

use shape::{Form, Refusal};

// Whether the entries are a tree permutation of the size.
#[tactic(auto, using(crate::proofs::Answers::answers, shape::proofs::Passing::passing))]
pub fn check(size: usize, entries: &[u16]) -> Result<(), Refusal>
    ensures { outcome_reply result ≡ check_reply permutations size entries.now }
{
    shape::room(Form::Permutation, size, entries.len())?;
    faults::contents(size, entries)
}

// The tree permutation's natural number.
#[tactic(auto, using(crate::proofs::Answers::answers, shape::proofs::Passing::passing), unfolding(shape::specs::Calls::number_reply, shape::specs::Calls::check_reply))]
pub fn number(size: usize, entries: &[u16]) -> Result<u64, Refusal>
    ensures { numbered_reply result ≡ number_reply (natural size) entries.now }
{
    check(size, entries)?;
    let catalans = catalan::table();
    Ok(natural::number(&catalans, 0, entries))
}

// The tree permutation with that natural number, put into `entries`, which may hold anything before.
#[tactic(auto, using(crate::proofs::Answers::answers, shape::proofs::Passing::passing), unfolding(shape::specs::Calls::shape_reply, shape::specs::Calls::shape_end))]
pub fn shape(size: usize, number: u64, entries: &mut [u16]) -> Result<(), Refusal>
    ensures result_value { outcome_reply result ≡ shape_reply (natural size) number entries.old }
    ensures entries_after { entries.new ≡ shape_end (natural size) number entries.old }
{
    shape::room(Form::Permutation, size, entries.len())?;
    let catalans = catalan::table();
    if number >= catalans[size] {
        return Err(Refusal::Number);
    }
    natural::shape(&catalans, number, entries);
    Ok(())
}

// The next tree permutation, in the place of this one.
#[tactic(auto, using(crate::proofs::Answers::answers, shape::proofs::Passing::passing), unfolding(shape::specs::Calls::successor_reply, shape::specs::Calls::successor_end, shape::specs::Calls::check_reply, shape::specs::Check::successor_check))]
pub fn successor(size: usize, entries: &mut [u16]) -> Result<(), Refusal>
    ensures result_value { outcome_reply result ≡ successor_reply (natural size) entries.old }
    ensures entries_after { entries.new ≡ successor_end (natural size) entries.old }
{
    check(size, entries)?;
    if natural::next(0, entries) {
        return Ok(());
    }
    Err(Refusal::Last)
}

// The tree permutation before this one, in its place.
#[tactic(auto, using(crate::proofs::Answers::answers, shape::proofs::Passing::passing), unfolding(shape::specs::Calls::predecessor_reply, shape::specs::Calls::predecessor_end, shape::specs::Calls::check_reply, shape::specs::Check::predecessor_check))]
pub fn predecessor(size: usize, entries: &mut [u16]) -> Result<(), Refusal>
    ensures result_value { outcome_reply result ≡ predecessor_reply (natural size) entries.old }
    ensures entries_after { entries.new ≡ predecessor_end (natural size) entries.old }
{
    check(size, entries)?;
    if natural::previous(0, entries) {
        return Ok(());
    }
    Err(Refusal::First)
}

// The tree permutation at the distance, on or back, in the place of this one.
#[tactic(auto, using(crate::proofs::Answers::answers, shape::proofs::Passing::passing), unfolding(shape::specs::Move::move_reply, shape::specs::Move::move_end, shape::specs::Move::move_check, shape::specs::Calls::check_reply))]
pub fn move_by(size: usize, distance: i64, entries: &mut [u16]) -> Result<(), Refusal>
    ensures result_value { outcome_reply result ≡ move_reply (natural size) distance entries.old }
    ensures entries_after { entries.new ≡ move_end (natural size) distance entries.old }
{
    check(size, entries)?;
    let catalans = catalan::table();
    let number = natural::number(&catalans, 0, entries);
    let target = number.wrapping_add(distance::added(distance));
    if target < catalans[size] {
        natural::shape(&catalans, target, entries);
        return Ok(());
    }
    Err(distance::end_past(distance))
}
