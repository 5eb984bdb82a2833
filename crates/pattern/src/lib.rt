// The calls on patterns, in the local order. Each takes every input: what is no pattern of the size, no number below C(n), or has no
// neighbour, is refused before anything is written. Crate `permutation` has the same calls: they differ in the form, in the work that is called,
// and in what a step answers, so that one generic call would take a trait with a member for each line that it saves.
#![tactic(auto)]

mod faults;

ghost use Rattle.std.specs.Prelude.{◌≡◌};
ghost use Rattle.shape.specs.Form.{patterns};
ghost use Rattle.shape.specs.Numbering.{local};
ghost use Rattle.shape.specs.Reply.{outcome_reply, numbered_reply};
ghost use Rattle.shape.specs.Calls.{check_reply, number_reply, shape_reply, shape_end, successor_end, predecessor_end};
ghost use Rattle.shape.specs.Move.{move_reply, move_end};
ghost use Rattle.pattern.specs.Calls.{successor_change, predecessor_change, depth_reply, head_part, later_of, later_part};

use shape::{Form, Refusal};

// Whether the places are a pattern of the size.
#[tactic(auto, using(crate::proofs::Answers::answers, shape::proofs::Passing::passing))]
pub fn check(size: usize, places: &[u8]) -> Result<(), Refusal>
    ensures { outcome_reply result ≡ check_reply patterns size places.now }
{
    shape::room(Form::Pattern, size, places.len())?;
    faults::contents(size, places)
}

// The pattern's local number.
#[tactic(auto, using(crate::proofs::Answers::answers, shape::proofs::Passing::passing), unfolding(shape::specs::Calls::number_reply, shape::specs::Calls::check_reply))]
pub fn number(size: usize, places: &[u8]) -> Result<u64, Refusal>
    ensures { numbered_reply result ≡ number_reply (local size) places.now }
{
    check(size, places)?;
    Ok(local::number(size, places))
}

// The pattern with that local number, put into `places`, which may hold anything before.
#[tactic(auto, using(crate::proofs::Answers::answers, shape::proofs::Passing::passing), unfolding(shape::specs::Calls::shape_reply, shape::specs::Calls::shape_end))]
pub fn shape(size: usize, number: u64, places: &mut [u8]) -> Result<(), Refusal>
    ensures result_value { outcome_reply result ≡ shape_reply (local size) number places.old }
    ensures places_after { places.new ≡ shape_end (local size) number places.old }
{
    shape::room(Form::Pattern, size, places.len())?;
    if number >= catalan::catalan(size) {
        return Err(Refusal::Number);
    }
    local::shape(size, number, places);
    Ok(())
}

// The next pattern, in the place of this one, and its change.
#[tactic(auto, using(crate::proofs::Answers::answers, shape::proofs::Passing::passing), unfolding(crate::specs::Calls::successor_change, shape::specs::Calls::successor_end, shape::specs::Calls::check_reply, shape::specs::Check::successor_check, local::specs::Places::next_change, local::specs::Places::next_pattern))]
pub fn successor(size: usize, places: &mut [u8]) -> Result<u64, Refusal>
    ensures result_value { numbered_reply result ≡ successor_change size places.old }
    ensures places_after { places.new ≡ successor_end (local size) places.old }
{
    check(size, places)?;
    local::next(size, places).ok_or(Refusal::Last)
}

// The pattern before this one, in its place, and the change that is taken back: that of the old one.
#[tactic(auto, using(crate::proofs::Answers::answers, shape::proofs::Passing::passing), unfolding(crate::specs::Calls::predecessor_change, shape::specs::Calls::predecessor_end, shape::specs::Calls::check_reply, shape::specs::Check::predecessor_check, local::specs::Places::previous_change, local::specs::Places::previous_pattern))]
pub fn predecessor(size: usize, places: &mut [u8]) -> Result<u64, Refusal>
    ensures result_value { numbered_reply result ≡ predecessor_change size places.old }
    ensures places_after { places.new ≡ predecessor_end (local size) places.old }
{
    check(size, places)?;
    local::previous(size, places).ok_or(Refusal::First)
}

// The pattern at the distance, on or back, in the place of this one.
#[tactic(auto, using(crate::proofs::Answers::answers, shape::proofs::Passing::passing), unfolding(shape::specs::Move::move_reply, shape::specs::Move::move_end, shape::specs::Move::move_check, shape::specs::Calls::check_reply, local::specs::Places::moved_pattern))]
pub fn move_by(size: usize, distance: i64, places: &mut [u8]) -> Result<(), Refusal>
    ensures result_value { outcome_reply result ≡ move_reply (local size) distance places.old }
    ensures places_after { places.new ≡ move_end (local size) distance places.old }
{
    check(size, places)?;
    if local::move_by(size, distance, places) {
        return Ok(());
    }
    Err(distance::end_past(distance))
}

// The largest excess of ones over zeros in a prefix.
#[tactic(auto, using(crate::proofs::Answers::answers, shape::proofs::Passing::passing), unfolding(crate::specs::Calls::depth_reply, shape::specs::Calls::check_reply))]
pub fn depth(size: usize, places: &[u8]) -> Result<u64, Refusal>
    ensures { numbered_reply result ≡ depth_reply size places.now }
{
    check(size, places)?;
    Ok(local::depth(size, places))
}

// The part of the caller's slice from the first place to the 0 that closes the root's left part; empty for a refusal.
#[tactic(auto, using(crate::proofs::Answers::answers, shape::proofs::Passing::passing), unfolding(crate::specs::Calls::head_part, shape::specs::Calls::check_reply))]
pub fn head(size: usize, places: &[u8]) -> &[u8]
    ensures ref_ptr_value { result.ref_ptr ≡ places.entry.ref_ptr }
    ensures result_value { result.now ≡ head_part size places.now }
{
    if check(size, places).is_err() {
        return &places[..0];
    }
    let end = local::head_length(size, places);
    &places[..end]
}

// The one of the two slices that holds the later pattern, the first if they are equal; for a refusal the empty part at the start of the
// first.
#[tactic(auto, using(crate::proofs::Answers::answers, shape::proofs::Passing::passing), unfolding(crate::specs::Calls::later_part, crate::specs::Calls::later_of, crate::specs::Calls::later_check, shape::specs::Calls::check_reply))]
pub fn later<'a>(size: usize, first: &'a [u8], second: &'a [u8]) -> &'a [u8]
    ensures ref_ptr_value { result.ref_ptr ≡ later_of size first.now second.now first.entry.ref_ptr second.entry.ref_ptr }
    ensures result_value { result.now ≡ later_part size first.now second.now }
{
    if check(size, first).is_err() || check(size, second).is_err() {
        return &first[..0];
    }
    if local::before(size, first, second) {
        return second;
    }
    first
}
