// One step along the local order, on and back: 001, section 3. Both write from the changed place on and nothing before it, and each undoes
// the other. A step answers the change that it makes or takes back, and none where there is no step to take.
ghost use Rattle.std.specs.Prelude.{◌≡◌, ◌-◌, ◌*◌, ◌≤◌, ◌++◌, length, take, drop, replicate, ◌≢◌};
ghost use Rattle.shape.specs.Form.{Feasible};
ghost use Rattle.shape.specs.Number.{local_number, change as change_of};
ghost use Rattle.local.specs.Places.{block_start, pairs_start, every_second};
ghost use Rattle.local.specs.Places.{next_change, next_pattern, previous_change, previous_pattern, nonzero};

// The rightmost block of ones: the places from `start` on and before `end`. Behind it stand zeros alone.
#[derive(Clone, Copy)]
pub struct Block {
    pub start: usize,
    pub end: usize,
}

// Apart from the step, for a caller who holds more than the pattern and has to move that too.
#[tactic(auto, using(crate::proofs::Blocks::block_ends))]
pub fn last_block(size: usize, places: &[u8]) -> Block
    requires { Feasible size places.now }
    ensures end_value { result.end ≡ block_start 0 places.now (2 * size) }
    ensures start_value { result.start ≡ block_start 1 places.now result.end }
{
    let end = block_start(places, 0, 2 * size);
    Block {
        start: block_start(places, 1, end),
        end,
    }
}

// A block at the very front is the last pattern's.
#[tactic(auto, using(crate::proofs::Moves::next_step))]
pub fn next(size: usize, places: &mut [u8]) -> Option<u64>
    requires { Feasible size places.old }
    ensures value { result ≡ nonzero (next_change size places.old) }
    ensures places_after { places.new ≡ next_pattern size places.old }
{
    let block = last_block(size, places);
    if block.start == 0 {
        return None;
    }
    Some(move_block(size, places, block.start, block.end))
}

// The first 1 of the rightmost block moves one place to the front, and the others of the block to the end, each with a 0 after it: nothing
// smaller can follow. No `Block` in place of its two ends: docs/CONTRACTS.md names start and end.
#[tactic(auto, using(crate::proofs::Moves::block_move))]
pub fn move_block(size: usize, places: &mut [u8], start: usize, end: usize) -> u64
    requires feasible { Feasible size places.old }
    requires end_value { (end ≡ block_start 0 places.old (2 * size)) × (start ≡ block_start 1 places.old end) × (start ≢ 0) }
    ensures value { result ≡ next_change size places.old }
    ensures places_after { places.new ≡ next_pattern size places.old }
{
    let last = 2 * size;
    places[start - 1] = 1;
    places[start..end].fill(0);
    put_pairs(places, 1, last - 2 * (end - start - 1));
    (last - start + 1) as u64
}

// The way back: behind the changed place stand zeros, and after them ones that each have a 0 after it. These ones and the one at the
// changed place become the block.
#[tactic(auto, using(crate::proofs::Moves::previous_step))]
pub fn previous(size: usize, places: &mut [u8]) -> Option<u64>
    requires { Feasible size places.old }
    ensures value { result ≡ nonzero (previous_change size places.old) }
    ensures places_after { places.new ≡ previous_pattern size places.old }
{
    let last = 2 * size;
    let pairs = pairs_start(size, places);
    let zeros = block_start(places, 0, pairs);
    if zeros == 0 {
        return None;
    }
    places[zeros - 1] = 0;
    put_pairs(places, 0, pairs);
    places[zeros..zeros + (last - pairs) / 2 + 1].fill(1);
    Some((last - zeros + 1) as u64)
}

// The change of the pattern, as the step back finds it, and all of its places for the first.
#[tactic(auto, using(crate::proofs::Moves::changing))]
pub fn change(size: usize, places: &[u8]) -> u64
    requires { Feasible size places.now }
    ensures { result ≡ change_of size (local_number places.now) }
{
    let last = 2 * size;
    let pairs = pairs_start(size, places);
    let changed = block_start(places, 0, pairs);
    if changed == 0 {
        return last as u64;
    }
    (last - changed + 1) as u64
}

// By index: with `rposition` a step back takes a tenth longer and more.
#[tactic(auto, using(crate::proofs::Blocks::block_search))]
fn block_start(places: &[u8], place: u8, end: usize) -> usize
    requires { end ≤ length places.now }
    ensures { result ≡ block_start place places.now end }
{
    for i in (0..end).rev() {
        if places[i] != place {
            return i + 1;
        }
    }
    0
}

#[tactic(auto, using(crate::proofs::Blocks::pairs_search))]
fn pairs_start(size: usize, places: &[u8]) -> usize
    requires { 2 * size ≤ length places.now }
    ensures { result ≡ pairs_start places.now (2 * size) }
{
    for k in (0..size).rev() {
        if places[2 * k] != 1 {
            return 2 * k + 2;
        }
    }
    0
}

// By index: after a loop over `iter_mut` the proof knows how many places there are, and not what was written there.
#[tactic(auto, using(crate::proofs::Blocks::seconds_put))]
fn put_pairs(places: &mut [u8], place: u8, from: usize)
    requires { from ≤ length places.old }
    ensures { places.new ≡ take from places.old ++ every_second place (drop from places.old) }
{
    for i in (from..places.len()).step_by(2) {
        places[i] = place;
    }
}
