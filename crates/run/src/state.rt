// What a run's state holds, and whether what is handed in is one.
ghost use Rattle.std.specs.Prelude.{◌↔◌, ◌≡◌, true, ◌+◌, ◌-◌, ◌≤◌, ◌<◌, length, drop, replicate};
ghost use Rattle.catalan.specs.Count.{C};
ghost use Rattle.shape.specs.Number.{local_pattern};
ghost use Rattle.shape.specs.Check.{Sized};
ghost use Rattle.run.specs.State.{state_places, places_at, same, belong};
ghost use Rattle.run.specs.Calls.{start_check};

use crate::Run;
use shape::Refusal;

// Whether there is such a run.
#[tactic(auto, using(crate::proofs::Tests::tests))]
pub(crate) fn range(size: usize, first: u64, end: u64) -> Result<(), Refusal>
    ensures { result ≡ start_check size first end }
{
    if size == 0 || size > 35 {
        return Err(Refusal::Size);
    }
    if first > end || end > catalan::catalan(size) {
        return Err(Refusal::Range);
    }
    Ok(())
}

// The places of a state whose next shape has that number.
#[tactic(auto, using(crate::proofs::Answers::starts))]
pub(crate) fn places_at(size: usize, next: u64, end: u64) -> [u8; 70]
    requires { Sized size × (next ≤ end) × (end ≤ C size) }
    ensures { result ≡ places_at size next end }
{
    let mut places = [0; 70];
    if next < end {
        local::shape(size, next, &mut places[..2 * size]);
    }
    places
}

impl Run {
    // The places of the state after this one, by a step from its own, which spares working them out from their number.
    #[tactic(auto, using(crate::proofs::Answers::starts))]
    pub(crate) fn places_after(self) -> [u8; 70]
        requires { Sized self.size × (self.next + 1 ≤ self.end) × (self.end ≤ C self.size) × (self.places ≡ places_at self.size self.next self.end) }
        ensures { result ≡ places_at self.size (self.next + 1) self.end }
    {
        if self.next + 1 == self.end {
            return [0; 70];
        }
        let mut places = self.places;
        local::next(self.size, &mut places[..2 * self.size]);
        places
    }

    // Whether the parts of a state belong together. The pattern's number is worked out and compared.
    #[tactic(auto, using(crate::proofs::Tests::tests))]
    pub(crate) fn belongs(&self) -> bool
        ensures { result ≡ belong self.now.size self.now.next self.now.end self.now.places }
    {
        if range(self.size, self.next, self.end).is_err() {
            return false;
        }
        if self.next == self.end {
            return clear(&self.places, 0);
        }
        clear(&self.places, 2 * self.size)
            && numbered(self.size, self.next, &self.places[..2 * self.size])
    }
}

// Whether all places from `from` on are 0. They are added up, since a branch at each would cost more than the rest, and in a loop, since with
// `map` and `sum` it stays open that the sum fits.
#[tactic(auto, using(crate::proofs::Tests::summed))]
fn clear(places: &[u8], from: usize) -> bool
    requires { (from ≤ length places.now) × (length places.now ≡ state_places) }
    ensures { (result ≡ true) ↔ (drop from places.now ≡ replicate (length places.now - from) 0) }
{
    let mut sum = 0;
    for i in from..places.len() {
        sum += places[i] as usize;
    }
    sum == 0
}

// Whether the places are the pattern with that number. No `==` of two results: each edit of must-fail/ changes one answer of the `match`.
#[tactic(auto, using(crate::proofs::Tests::number_same))]
fn numbered(size: usize, number: u64, places: &[u8]) -> bool
    requires { Sized size × (number < C size) }
    ensures { result ≡ same places.now (local_pattern size number) }
{
    match pattern::number(size, places) {
        Ok(found) => found == number,
        Err(_) => false,
    }
}
