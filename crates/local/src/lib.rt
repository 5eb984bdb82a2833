// The work on patterns in the local order. The crate stands below the calls: its functions take feasible patterns and do no checks, so
// that a caller who steps from pattern to pattern pays for a check once. A size and a slice, and no type for a feasible pattern:
// docs/CONTRACTS.md promises each function of every slice that holds one.
#![tactic(auto)]

mod steps;

ghost use Rattle.std.specs.Prelude.{◌≡◌, ◌+◌, ◌-◌, ◌*◌, ◌<◌, ◌≤◌, length, nat_le, nat_lt, slice_index};
ghost use Rattle.catalan.specs.Count.{C, ways, largest_size};
ghost use Rattle.catalan.specs.Table.{row_of};
ghost use Rattle.shape.specs.Tree.{head};
ghost use Rattle.shape.specs.Form.{Feasible, pattern_tree};
ghost use Rattle.shape.specs.Number.{local_number, local_pattern, depth as depth_of};
ghost use Rattle.shape.specs.Numbering.{local};
ghost use Rattle.shape.specs.Move.{reaches};
ghost use Rattle.shape.specs.Faults.{first_fault};
ghost use Rattle.local.specs.Places.{end_numbered, moved_pattern};

pub use steps::{Block, change, last_block, move_block, next, previous};

// From the last place to the first, since a 1 asks for the ways to finish what stands after it with one 0 fewer: that row grows by one 0
// at a time, and is held for one 0 fewer than have been passed. The last place is a 0, and asks for nothing.
#[tactic(auto, using(crate::proofs::Numbers::numbering))]
pub fn number(size: usize, places: &[u8]) -> u64
    requires { (1 ≤ size) × (size ≤ largest_size) × Feasible size places.now }
    ensures { result ≡ local_number places.now }
{
    let mut row = [0u64; 36];
    row[0] = 1;
    let mut number = 0;
    let mut ones = 0;
    let mut zeros = 1;
    for i in (0..2 * size - 1).rev() {
        if places[i] == 0 {
            catalan::grow(zeros - 1, &mut row);
            zeros += 1;
        } else {
            ones += 1;
            number += row[ones];
        }
    }
    number
}

// All places are put, by the row of the ways to finish after a first 0.
#[tactic(auto, using(crate::proofs::Numbers::shaping))]
pub fn shape(size: usize, number: u64, places: &mut [u8])
    requires { (1 ≤ size) × (size ≤ largest_size) × (number < C size) × (length places.old ≡ 2 * size) }
    ensures { places.new ≡ local_pattern size number }
{
    let mut row = [0u64; 36];
    catalan::fill(size - 1, &mut row);
    put_numbered(places, size, size, number, &mut row);
}

// The shape at the distance, put in the place of this one, and whether there is one. From the last place to the first, as number goes, and
// only until the places passed have a word of their own at the target: those before them stay as they are. The row is that of the zeros
// passed, so its entry for the ones passed says how many words there are. A `while`: the target ends it, and before a place is asked for, so
// a `for` over the places would test the target in two places.
#[tactic(auto, using(crate::proofs::Targets::moving))]
pub fn move_by(size: usize, distance: i64, places: &mut [u8]) -> bool
    requires { (1 ≤ size) × (size ≤ largest_size) × Feasible size places.old }
    ensures value { result ≡ reaches (local size) distance places.old }
    ensures places_after { places.new ≡ moved_pattern size distance places.old }
{
    let mut row = [0u64; 36];
    row[0] = 1;
    let mut target = distance::added(distance);
    let mut ones = 0;
    let mut zeros = 0;
    let mut start = 2 * size;
    while target >= row[ones] {
        if start == 0 {
            return false;
        }
        start -= 1;
        if places[start] == 0 {
            catalan::grow(zeros, &mut row);
            zeros += 1;
        } else {
            target = target.wrapping_add(row[ones + 1] - row[ones]);
            ones += 1;
        }
    }
    catalan::shrink(zeros, &mut row);
    put_numbered(places, ones, zeros, target, &mut row);
    true
}

// The last places, so many ones and zeros, from the first of them to the last: a 0 stands where the number is among the ways to finish after
// it. The row of those ways loses a 0 with each 0 that is placed. Once no 1 is left, the rest is zeros. A `while`: a turn takes a one or a
// zero of those left, and these say which place is next.
#[tactic(auto, using(crate::proofs::Numbers::placing))]
fn put_numbered(
    places: &mut [u8],
    mut ones: usize,
    mut zeros: usize,
    mut number: u64,
    row: &mut [u64],
)
    requires zeros_in_bounds { (ones + zeros ≤ length places.old) × (ones ≤ zeros) × (zeros ≤ largest_size) }
    requires number_bound { (number < ways ones zeros) × (row.old ≡ row_of (zeros - 1)) }
    ensures { places.new ≡ end_numbered ones zeros number places.old }
{
    let end = places.len();
    while ones > 0 {
        let ways = row[ones];
        let next = end - ones - zeros;
        if number < ways {
            places[next] = 0;
            zeros -= 1;
            catalan::shrink(zeros, row);
        } else {
            places[next] = 1;
            number -= ways;
            ones -= 1;
        }
    }
    places[end - zeros..].fill(0);
}

// Two places in a turn, with one comparison for both: the second takes the excess of ones over zeros further up than the first where it is
// a 1, and down where it is a 0.
#[tactic(auto, using(crate::proofs::Walks::climbing))]
pub fn depth(size: usize, places: &[u8]) -> u64
    requires { Feasible size places.now }
    ensures { result ≡ depth_of places.now }
{
    let mut largest = 0;
    let mut excess = 0;
    for k in 0..size {
        let first = u64::from(places[2 * k]);
        let second = u64::from(places[2 * k + 1]);
        largest = largest.max(excess + 2 * first + second - 1);
        excess = excess + 2 * (first + second) - 2;
    }
    largest
}

// How long the head is: the 0 that closes the root's left part is the first place at which no 1 is left open. A `while`: that place is there
// in every pattern, and a `for` would have to answer for its absence. By `as`: `usize::from` takes a third longer here.
#[tactic(auto, using(crate::proofs::Walks::heading))]
pub fn head_length(size: usize, places: &[u8]) -> usize
    requires { (1 ≤ size) × Feasible size places.now }
    ensures { result ≡ length (head (pattern_tree places.now)) }
{
    let mut open = 1;
    let mut i = 1;
    while open > 0 {
        open = open + 2 * (places[i] as usize) - 1;
        i += 1;
    }
    i
}

// Dictionary order is the local order, so no number is worked out. Place by place: the first few mostly decide, and there the slices' own
// comparisons, `<` and `cmp`, and a zip of the two take longer.
#[tactic(auto, using(crate::proofs::Walks::ordering))]
pub fn before(size: usize, first: &[u8], second: &[u8]) -> bool
    requires { Feasible size first.now × Feasible size second.now }
    ensures { result ≡ nat_lt (local_number first.now) (local_number second.now) }
{
    for i in 0..2 * size {
        if first[i] != second[i] {
            return first[i] < second[i];
        }
    }
    false
}

// The first place from `from` on that is above `most`; where there is none, as many as there are places, as `first_fault` has it. Of all that
// stands here this alone asks for no pattern.
pub fn first_above(places: &[u8], most: u8, from: usize) -> usize
    requires { from ≤ length places.now }
    ensures { result ≡ first_fault from (length places.now - from) (λ i. nat_le (slice_index places.now i) most) }
{
    places[from..]
        .iter()
        .position(|&place| place > most)
        .map_or(places.len(), |passed| from + passed)
}
