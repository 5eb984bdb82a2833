// One form written in the other: the tree stays the same, so a number does not. The slice that is written may hold anything before. Two
// functions and no generic one: they have no line alike but the last.
#![tactic(auto)]

ghost use Rattle.std.specs.Prelude.{◌≡◌};
ghost use Rattle.shape.specs.Form.{patterns, permutations};
ghost use Rattle.shape.specs.Reply.{outcome_reply};
ghost use Rattle.shape.specs.Calls.{conversion_reply, conversion_end};

use shape::{Form, Refusal};

// The tree permutation of the pattern's tree, put into `entries`.
#[tactic(auto, using(crate::proofs::Answers::answers, shape::proofs::Passing::passing), unfolding(shape::specs::Calls::conversion_reply, shape::specs::Calls::conversion_end, shape::specs::Calls::conversion_check, shape::specs::Calls::check_reply))]
pub fn to_permutation(size: usize, places: &[u8], entries: &mut [u16]) -> Result<(), Refusal>
    ensures result_value { outcome_reply result ≡ conversion_reply patterns permutations size places.now entries.old }
    ensures entries_after { entries.new ≡ conversion_end patterns permutations size places.now entries.old }
{
    shape::room(Form::Permutation, size, entries.len())?;
    pattern::check(size, places)?;
    natural::permutation_of(size, places, entries);
    Ok(())
}

// The pattern of the tree permutation's tree, put into `places`.
#[tactic(auto, using(crate::proofs::Answers::answers, shape::proofs::Passing::passing), unfolding(shape::specs::Calls::conversion_reply, shape::specs::Calls::conversion_end, shape::specs::Calls::conversion_check, shape::specs::Calls::check_reply))]
pub fn to_pattern(size: usize, entries: &[u16], places: &mut [u8]) -> Result<(), Refusal>
    ensures result_value { outcome_reply result ≡ conversion_reply permutations patterns size entries.now places.old }
    ensures places_after { places.new ≡ conversion_end permutations patterns size entries.now places.old }
{
    shape::room(Form::Pattern, size, places.len())?;
    permutation::check(size, entries)?;
    natural::pattern_of(size, entries, places);
    Ok(())
}
