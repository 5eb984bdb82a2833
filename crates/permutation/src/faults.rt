// What is wrong with the contents of a slice, in the order of the refusals' numbers. One pass tells whether anything is; only then is an entry
// outside 1..n or seen earlier looked for, which is the lower refusal.
ghost use Rattle.std.specs.Prelude.{◌↔◌, ◌≡◌, true, ◌<◌, ◌≤◌, length, slice_index};
ghost use Rattle.catalan.specs.Count.{largest_size};
ghost use Rattle.shape.specs.Form.{TreePermutation, permutations, every, entry_fits};
ghost use Rattle.shape.specs.Check.{contents as contents_of};
ghost use Rattle.permutation.specs.Links.{Links, LinkedBelow};

use shape::Refusal;

// Whether the entries are those of a tree permutation.
#[tactic(auto, using(crate::proofs::Searches::permutation_done, crate::proofs::Searches::permutation_entry, crate::proofs::Searches::permutation_shape))]
pub(crate) fn contents(size: usize, entries: &[u16]) -> Result<(), Refusal>
    requires { (size ≤ largest_size) × (length entries.now ≡ size) }
    ensures { result ≡ contents_of permutations size entries.now }
{
    if is_permutation(size, entries) {
        return Ok(());
    }
    if !fits(size, entries) {
        return Err(Refusal::Entry);
    }
    Err(Refusal::Shape)
}

// Whether no entry is outside 1..n or seen earlier, or smaller than an entry that a larger one has followed. A label seen is linked to the
// next larger one seen, 36 where there is none, and a label not seen has no link, 0. `closed` is the largest entry that a larger one has
// followed: an entry closes those below it, so the links are followed from there, and each at most once.
#[tactic(auto, using(crate::proofs::Searches::passing))]
fn is_permutation(size: usize, entries: &[u16]) -> bool
    requires { (size ≤ largest_size) × (length entries.now ≡ size) }
    ensures { (result ≡ true) ↔ TreePermutation size entries.now }
{
    // An array by label, and no map: memory is fixed, and a step must find a label's link at once.
    let mut above = [0u16; 36];
    above[0] = 36;
    let mut closed = 0;
    for &entry in entries {
        let entry = entry as usize;
        if entry == 0 || entry > size || above[entry] != 0 || entry < closed {
            return false;
        }
        let below = last_below(&above, closed, entry);
        above[entry] = above[below];
        above[below] = entry as u16;
        closed = below;
    }
    true
}

// The largest label below the entry among those linked from `closed` on, `closed` itself where no other is. A `while`: the links lead on, and
// no index.
#[tactic(auto, using(crate::proofs::Labels::walking))]
fn last_below(above: &[u16], closed: usize, entry: usize) -> usize
    requires { Links above.now closed × (closed < entry) × (entry ≤ largest_size) }
    ensures { LinkedBelow above.now closed entry result × (entry ≤ slice_index above.now result) }
{
    let mut label = closed;
    while (above[label] as usize) < entry {
        label = above[label] as usize;
    }
    label
}

// Whether no entry is outside 1..n or seen earlier.
#[tactic(auto, using(crate::proofs::Entries::fitting))]
fn fits(size: usize, entries: &[u16]) -> bool
    requires { (size ≤ largest_size) × (length entries.now ≡ size) }
    ensures { result ≡ every (length entries.now) (entry_fits size entries.now) }
{
    let mut seen = [false; 36];
    for &entry in entries {
        let entry = entry as usize;
        if entry == 0 || entry > size || seen[entry] {
            return false;
        }
        seen[entry] = true;
    }
    true
}
