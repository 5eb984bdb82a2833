// What is wrong with the contents of a slice, in the order of the refusals' numbers. One pass tells whether anything is; only then is a
// place above 1 looked for, which is the lower refusal.
ghost use Rattle.std.specs.Prelude.{◌↔◌, ◌≡◌, true, ◌*◌, ◌≤◌, length};
ghost use Rattle.catalan.specs.Count.{largest_size};
ghost use Rattle.shape.specs.Form.{Feasible, patterns};
ghost use Rattle.shape.specs.Check.{contents as contents_of};

use shape::Refusal;

// Whether the places are those of a pattern.
#[tactic(auto, using(crate::proofs::Pass::feasible_done, crate::proofs::Pass::above_entry, crate::proofs::Pass::infeasible_shape))]
pub(crate) fn contents(size: usize, places: &[u8]) -> Result<(), Refusal>
    requires { (size ≤ largest_size) × (length places.now ≡ 2 * size) }
    ensures { result ≡ contents_of patterns size places.now }
{
    if feasible(size, places) {
        return Ok(());
    }
    if local::first_above(places, 1, 0) < places.len() {
        return Err(Refusal::Entry);
    }
    Err(Refusal::Shape)
}

// Two places in a turn. Faults are counted, and asked for once at the end, since a branch at each place would cost more than the rest of
// the pass. A place above 1 is one, and a first of two up to which no more than half are ones. Up to a second there are then never more
// zeros than ones: more than half of an odd number of places is at least half of one place more.
#[tactic(auto, using(crate::proofs::Pass::counting))]
fn feasible(size: usize, places: &[u8]) -> bool
    requires { (size ≤ largest_size) × (length places.now ≡ 2 * size) }
    ensures { (result ≡ true) ↔ Feasible size places.now }
{
    let mut faults = 0;
    let mut ones = 0;
    for k in 0..size {
        let first = places[2 * k] as usize;
        let second = places[2 * k + 1] as usize;
        faults += (first | second) / 2 + (ones + first <= k) as usize;
        ones += first + second;
    }
    if faults > 0 {
        return false;
    }
    ones == size
}
